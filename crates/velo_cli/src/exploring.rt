//! `velodrome explore`.

use crate::exploration_text::page_of_survey;
use crate::findings::survey_of;
use crate::progress::ExploreProgress;
use crate::reporting::{RunReport, Said, print_alone, report_run, save_and_print};
use crate::work::{config_of_run, open_workload};
use std::alloc::Global;
use velo_bytes::Sink;
use velo_check::{ExploreOptions, Fate, Files, RunOptions, TextOrJson};
use velo_events::Memory;
use velo_explore::{Finding, Findings, Goal, Replay};
use velo_finding::Survey;
use velo_words::waits_of;
use velo_worker::Ending;
use velo_workload::Workload;

/// What the replays were asked for.
fn run_of<'a>(options: &ExploreOptions<'a>) -> RunOptions<'a> {
    RunOptions {
        input: options.input,
        stop: false,
        target: options.target,
        names_target: options.names_target,
        limits: options.limits,
        certificate: options.certificate,
        why: false,
    }
}

/// What a goal comes to that is shown.
fn fate_of_goal(goal: Goal) -> Fate {
    match goal {
        Goal::Alarm => Fate::Finished {
            ending: Ending::Done,
            alarm: true,
        },
        Goal::Stuck => Fate::Finished {
            ending: Ending::Stuck,
            alarm: false,
        },
        Goal::Refused(thread, refusal) => Fate::Finished {
            ending: Ending::Refused(thread, refusal),
            alarm: false,
        },
    }
}

/// Whether no schedule has the fault.
fn is_never(finding: &Finding) -> bool {
    match finding {
        Finding::Never => true,
        Finding::Shown(_) | Finding::Open => false,
    }
}

/// What findings come to of which none is shown: all is well, if no schedule has any fault.
fn fate_of_rest(findings: &Findings) -> Fate {
    if is_never(&findings.alarm) && is_never(&findings.stuck) && is_never(&findings.refused) {
        Fate::Finished {
            ending: Ending::Done,
            alarm: false,
        }
    } else {
        Fate::Open
    }
}

/// What the findings come to.
fn fate_of(findings: &Findings) -> Fate {
    match findings.first() {
        Some(witness) => fate_of_goal(witness.goal),
        None => fate_of_rest(findings),
    }
}

/// Who waits for what in a replay that is reported for a deadlock.
fn waits_after(alloc: Global, workload: &Workload, replay: &Replay) -> Result<Vec<u8>, Memory> {
    match replay.goal {
        Goal::Stuck if replay.closed.bounds() == workload.bounds() => {
            waits_of(alloc, workload, &replay.closed)
        }
        _ => Ok(Vec::new(alloc)),
    }
}

/// Reports a replay behind a text, and for a deadlock who waits for what.
fn report_replay<F: Files, O: Sink>(
    alloc: Global,
    workload: &Workload,
    replay: &Replay,
    said: &Said,
    options: &RunOptions,
    files: &mut F,
    out: &mut O,
) -> Fate {
    match waits_after(alloc, workload, replay) {
        Ok(waits) => {
            let report = RunReport {
                before: said.text,
                closed: &replay.closed,
                after: &waits,
                end: said.end,
            };
            report_run(alloc, workload, &report, options, files, out)
        }
        Err(Memory) => Fate::Memory,
    }
}

/// Prints the page of a survey of the schedules of a workload, and saves the log of the replay, if there
/// is one. Behind a text the replay is reported.
fn report_first<F: Files, O: Sink>(
    alloc: Global,
    workload: &Workload,
    survey: &Survey,
    form: TextOrJson,
    text: &[u8],
    options: &RunOptions,
    files: &mut F,
    out: &mut O,
) -> Fate {
    let said = Said {
        text,
        end: fate_of(&survey.shrunk.findings),
    };
    let Some(replay) = &survey.shrunk.first else {
        return print_alone(&said, out);
    };
    match form {
        TextOrJson::Text => report_replay(alloc, workload, replay, &said, options, files, out),
        TextOrJson::Json => {
            save_and_print(alloc, workload, &replay.closed, &said, options, files, out)
        }
    }
}

/// Prints what is reported of the schedules of a workload, and reports the replay of the first finding,
/// if there is one.
fn report_survey<F: Files, O: Sink>(
    alloc: Global,
    workload: &Workload,
    survey: &Survey,
    form: TextOrJson,
    options: &RunOptions,
    files: &mut F,
    out: &mut O,
) -> Fate {
    match page_of_survey(alloc, workload, form, options.input, survey) {
        Ok(text) => {
            let fate = report_first(alloc, workload, survey, form, &text, options, files, out);
            drop(text);
            fate
        }
        Err(Memory) => Fate::Memory,
    }
}

/// Tries the schedules of a workload, and prints what they come to.
fn explore_workload<F: Files, O: Sink, P: ExploreProgress>(
    alloc: Global,
    workload: &Workload,
    options: &ExploreOptions,
    files: &mut F,
    out: &mut O,
    progress: &mut P,
) -> Fate {
    let run = run_of(options);
    let config = config_of_run(workload, &run);
    progress.begin(options.progress, options.seconds);
    let survey = survey_of(alloc, workload, options, config, progress);
    progress.end();
    match survey {
        Ok(survey) => {
            let form = options.format;
            let fate = report_survey(alloc, workload, &survey, form, &run, files, out);
            drop(survey);
            fate
        }
        Err(Memory) => Fate::Memory,
    }
}

/// Tries the schedules of the workload that was asked for, and writes what they come to. How far
/// the search is goes to `progress`, which has ended before anything is written. It says when the
/// seconds are over that the search was given.
pub fn explore_file<F: Files, O: Sink, P: ExploreProgress>(
    alloc: Global,
    options: &ExploreOptions,
    files: &mut F,
    out: &mut O,
    progress: &mut P,
) -> Fate {
    match open_workload(alloc, &run_of(options), &[], files) {
        Ok(workload) => {
            let fate = explore_workload(alloc, &workload, options, files, out, progress);
            drop(workload);
            fate
        }
        Err(fate) => fate,
    }
}
