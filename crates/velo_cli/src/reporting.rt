//! How a run is reported: its log is saved, then the names of the workload, and then its report is
//! printed.
ghost use Rattle.std.specs.Prelude.{IfSome};
ghost use Rattle.velo_check.specs.Verdict.{IsOrderOrCycle};

use std::alloc::Global;
use velo_bytes::{Sink, WriteFault, write_all};
use velo_check::{
    Fate, Files, Operand, RunOptions, Save, Saved, fate_of_failure, order_or_cycle_of, save_all,
    write_output,
};
use velo_events::Memory;
use velo_names::{NameKind, append_names};
use velo_report::Names;
use velo_workload::Workload;
use velo_world::Closed;

/// What is reported of a run.
#[derive(Clone, Copy)]
pub struct RunReport<'a> {
    /// What is printed before the report.
    pub before: &'a [u8],
    /// The world that the run left.
    pub closed: &'a Closed,
    /// What is printed after it.
    pub after: &'a [u8],
    /// What the command comes to.
    pub end: Fate,
}

/// What a command says in a text, and what it comes to.
#[derive(Clone, Copy)]
pub struct Said<'s> {
    /// The text.
    pub text: &'s [u8],
    /// What the command comes to.
    pub end: Fate,
}

/// The file of names of a workload.
fn list_names(alloc: Global, workload: &Workload) -> Result<Vec<u8>, Memory> {
    let mut text = Vec::new(alloc);
    append_names(&mut text, NameKind::Thread, workload.thread_names())?;
    append_names(&mut text, NameKind::Variable, workload.variable_names())?;
    append_names(&mut text, NameKind::Lock, workload.lock_names())?;
    append_names(&mut text, NameKind::Label, workload.label_names())?;
    Ok(text)
}

/// The file of names of a workload, if there is a path for it.
fn names_for(alloc: Global, workload: &Workload, path: Option<&str>) -> Result<Vec<u8>, Memory> {
    match path {
        Some(_) => list_names(alloc, workload),
        None => Ok(Vec::new(alloc)),
    }
}

/// Saves the log of a run and the names of its workload, where there are paths for them.
fn save_run<F: Files>(
    closed: &Closed,
    names: &[u8],
    options: &RunOptions,
    files: &mut F,
) -> Result<(), Fate> {
    let saves = [
        Save {
            operand: Operand::Out,
            path: options.target,
            text: Saved::Log(closed),
        },
        Save {
            operand: Operand::NamesOut,
            path: options.names_target,
            text: Saved::Bytes(names),
        },
    ];
    match save_all(&saves, files) {
        Ok(()) => Ok(()),
        Err(failure) => Err(fate_of_failure(failure)),
    }
}

/// Prints a text alone.
pub fn print_alone<O: Sink>(said: &Said, out: &mut O) -> Fate {
    match write_all(out, said.text) {
        Ok(()) => said.end,
        Err(WriteFault) => Fate::WriteFailed,
    }
}

/// Prints the report of a run's log and its certificate, if there is an order or a cycle, between two
/// other texts.
fn print_report<O: Sink>(
    workload: &Workload,
    report: &RunReport,
    list: Option<&[usize]>,
    out: &mut O,
) -> Result<(), WriteFault>
    requires { IfSome list (λ list. IsOrderOrCycle report.now.closed.now.log list.now) }
{
    let names = Names::Words {
        threads: workload.thread_names(),
        labels: workload.label_names(),
    };
    write_all(out, report.before)?;
    write_output(report.closed, &names, list, out)?;
    write_all(out, report.after)
}

/// Saves the log of a run and the names of its workload, where there are paths for them, and prints
/// the report.
fn put_report<F: Files, O: Sink>(
    workload: &Workload,
    report: &RunReport,
    names: &[u8],
    list: Option<&[usize]>,
    options: &RunOptions,
    files: &mut F,
    out: &mut O,
) -> Fate
    requires { IfSome list (λ list. IsOrderOrCycle report.now.closed.now.log list.now) }
{
    match save_run(report.closed, names, options, files) {
        Ok(()) => {}
        Err(fate) => return fate,
    }
    match print_report(workload, report, list, out) {
        Ok(()) => report.end,
        Err(WriteFault) => Fate::WriteFailed,
    }
}

/// The same, after the certificate is made, if it is asked for.
fn put_certified<F: Files, O: Sink>(
    alloc: Global,
    workload: &Workload,
    report: &RunReport,
    names: &[u8],
    options: &RunOptions,
    files: &mut F,
    out: &mut O,
) -> Fate {
    if !options.certificate {
        return put_report(workload, report, names, None, options, files, out);
    }
    match order_or_cycle_of(alloc, report.closed) {
        Ok(list) => put_report(
            workload,
            report,
            names,
            Some(list.as_slice()),
            options,
            files,
            out,
        ),
        Err(Memory) => Fate::Memory,
    }
}

/// Saves the log of a run and the names of its workload, where there are paths for them, and prints
/// the report by these names, the certificate, if that is asked for, and the other texts. What is
/// printed is made before anything is opened.
pub fn report_run<F: Files, O: Sink>(
    alloc: Global,
    workload: &Workload,
    report: &RunReport,
    options: &RunOptions,
    files: &mut F,
    out: &mut O,
) -> Fate {
    match names_for(alloc, workload, options.names_target) {
        Ok(names) => {
            let fate = put_certified(alloc, workload, report, &names, options, files, out);
            drop(names);
            fate
        }
        Err(Memory) => Fate::Memory,
    }
}

/// Saves the log of a run and the names of its workload, where there are paths for them, and prints a
/// text alone.
fn put_alone<F: Files, O: Sink>(
    closed: &Closed,
    names: &[u8],
    said: &Said,
    options: &RunOptions,
    files: &mut F,
    out: &mut O,
) -> Fate {
    match save_run(closed, names, options, files) {
        Ok(()) => print_alone(said, out),
        Err(fate) => fate,
    }
}

/// Saves the log of a run and the names of its workload, where there are paths for them, and prints a
/// text alone. The names are made before anything is opened.
pub fn save_and_print<F: Files, O: Sink>(
    alloc: Global,
    workload: &Workload,
    closed: &Closed,
    said: &Said,
    options: &RunOptions,
    files: &mut F,
    out: &mut O,
) -> Fate {
    match names_for(alloc, workload, options.names_target) {
        Ok(names) => {
            let fate = put_alone(closed, &names, said, options, files, out);
            drop(names);
            fate
        }
        Err(Memory) => Fate::Memory,
    }
}
