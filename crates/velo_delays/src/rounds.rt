//! Rounds of a search. What one finds is left out in the next.
ghost use Rattle.std.specs.Prelude.{◌≡◌, ◌≤◌, false, length, slice_index, IfOk, IfSome, IsTrue, OnOk};
ghost use Rattle.velo_events.specs.declared.limits.TheConstants.{MAX_EVENTS};
ghost use Rattle.velo_events.specs.WellFormed.{IsWellFormed};
ghost use Rattle.velo_filter.specs.Left.{with_labels};
ghost use Rattle.velo_filter.specs.Tables.{left_of};
ghost use Rattle.velo_delays.specs.Found.{AreFoundIn, GoesOn, GoesOnIn, HasNew, IsFound, TakesIn, labels_of};
ghost use Rattle.velo_delays.specs.Stands.{Stands};

use crate::drawing::{Delay, draw_all};
use crate::judged::{PredictedCycle, judge};
use crate::lookup::Lookup;
use crate::run::Run;
use crate::trying::{joined, run_by};
use rand_core::SeedableRng;
use rand_xoshiro::Xoshiro256PlusPlus;
use std::alloc::Global;
use velo_events::growth::reserve;
use velo_events::{Config, Label, Memory};
use velo_filter::{LabelSet, LeftOut, Thinned, thin};
use velo_traces::{Block, Trace};

/// How delays are drawn.
#[derive(Clone, Copy)]
pub struct Draws {
    /// How many for each label in each round.
    pub tries: u32,
    /// The seed of the generator.
    pub seed: u64,
}

/// What was found.
#[derive(Drop)]
pub struct PredictedCycles {
    /// The predictions.
    pub found: Vec<PredictedCycle>,
    /// How many delays were tried.
    pub tries: u64,
}

/// Whether one of the blocks has a label that is not left out.
fn has_new(blocks: &[Block], left: &LeftOut) -> bool
    ensures { IsTrue result → HasNew (left_of left.now).labels (labels_of blocks.now) }
{
    for block in blocks {
        if !left.has_label(block.label) {
            return true;
        }
    }
    false
}

/// Leaves out the labels of the blocks.
fn leave_out_all(left: &mut LeftOut, blocks: &[Block]) -> Result<(), Memory>
    ensures { OnOk result (left_of left.new ≡ with_labels (left_of left.old) (labels_of blocks.now)) }
{
    for block in blocks {
        left.leave_out_label(block.label)?;
    }
    Ok(())
}

/// The first events of the log and those of the run by the delay, if they close a cycle.
fn try_one(
    alloc: Global,
    base: &Run,
    log: &Trace,
    lookup: &Lookup,
    delay: Delay,
) -> Result<Option<Trace>, Memory>
    requires { Stands base.now.heap }
{
    let mut run = base.branch(alloc, delay.is_bold)?;
    run_by(&mut run, log.as_slice(), lookup, delay)?;
    if !run.is_closed() {
        return Ok(None);
    }
    let trace = joined(alloc, log.as_slice(), delay.from, run.trace().as_slice())?;
    Ok(Some(trace))
}

/// The run goes on as recorded from one position to another.
pub(crate) fn follow_to(
    run: &mut Run,
    log: &Trace,
    lookup: &Lookup,
    from: usize,
    to: usize,
) -> Result<(), Memory>
    requires { Stands run.old.heap }
    ensures { Stands run.new.heap }
{
    let events = log.as_slice();
    for position in from..to.min(events.len()) {
        run.follow(events[position], lookup.next_of(position))?;
    }
    Ok(())
}

/// What the delay finds.
fn find_by(
    alloc: Global,
    config: &Config,
    base: &Run,
    rest: &Thinned,
    lookup: &Lookup,
    delay: Delay,
) -> Result<Option<PredictedCycle>, Memory>
    requires goes_on { config.now.stop ≡ false }
    requires stands { Stands base.now.heap }
    ensures { IfOk result (λ found. IfSome found (λ found. IsFound config.now.bounds
        rest.now.trace.events (slice_index rest.now.places.items) found)) }
{
    match try_one(alloc, base, &rest.trace, lookup, delay)? {
        Some(trace) => judge(alloc, config, rest, trace),
        None => Ok(None),
    }
}

/// Takes in what a delay into blocks of the label found, if it found something: no more delays are tried for the label. It is added if
/// it blames a label that is not left out, and its labels are left out.
fn take_in(
    searched: &mut PredictedCycles,
    left: &mut LeftOut,
    done: &mut LabelSet,
    label: Label,
    found: Option<PredictedCycle>,
) -> Result<(), Memory>
    ensures { OnOk result (TakesIn (left_of left.old) (left_of left.new)
        searched.old.found.items searched.new.found.items found) }
{
    let Some(found) = found else {
        return Ok(());
    };
    done.insert(label)?;
    if !has_new(&found.told.blocks, left) {
        return Ok(());
    }
    leave_out_all(left, &found.told.blocks)?;
    reserve(&mut searched.found, 1)?;
    searched.found.push_reserved(found);
    Ok(())
}

/// Tries the delays, which rise by where the run leaves the log. Each label is tried until something is found in its blocks.
fn try_all(
    alloc: Global,
    config: &Config,
    rest: &Thinned,
    lookup: &Lookup,
    delays: &[Delay],
    left: &mut LeftOut,
    searched: &mut PredictedCycles,
) -> Result<(), Memory>
    requires goes_on { config.now.stop ≡ false }
    ensures { OnOk result (GoesOn config.now.bounds rest.now.trace.events
        (slice_index rest.now.places.items) (left_of left.old) (left_of left.new)
        searched.old.found.items searched.new.found.items) }
{
    let mut base = Run::new(alloc, config, lookup, true)?;
    let mut done = LabelSet::new(alloc);
    let mut position = 0;
    for at in 0..delays.len() {
        let delay = delays[at];
        if done.contains(delay.block.label) {
            continue;
        }
        follow_to(&mut base, &rest.trace, lookup, position, delay.from)?;
        position = position.max(delay.from);
        searched.tries = searched.tries.saturating_add(1);
        let found = find_by(alloc, config, &base, rest, lookup, delay)?;
        take_in(searched, left, &mut done, delay.block.label, found)?;
    }
    Ok(())
}

/// Searches the log without what is left out, and leaves out the labels of what is found.
fn search_once(
    alloc: Global,
    config: &Config,
    log: &Trace,
    tries: u32,
    random: &mut Xoshiro256PlusPlus,
    left: &mut LeftOut,
    searched: &mut PredictedCycles,
) -> Result<(), Memory>
    requires goes_on { config.now.stop ≡ false }
    requires few { length log.now.events ≤ MAX_EVENTS }
    requires well_formed { IsWellFormed config.now.bounds log.now.events }
    ensures { OnOk result (GoesOnIn config.now.bounds log.now.events (left_of left.old)
        (left_of left.new) searched.old.found.items searched.new.found.items) }
{
    let rest = thin(alloc, log, left)?;
    let lookup = Lookup::new(alloc, rest.trace.as_slice())?;
    let threads = config.bounds.threads;
    let delays = draw_all(
        alloc,
        random,
        rest.trace.as_slice(),
        &lookup,
        threads,
        tries,
    )?;
    try_all(alloc, config, &rest, &lookup, &delays, left, searched)
}

/// Searches for predictions of the log that have a cycle, in rounds: the labels that one blames are left out in the next, until a
/// round finds none. What is not found may be there all the same.
///
/// # Errors
/// `Memory` where a growth was refused.
pub fn search(
    alloc: Global,
    config: &Config,
    log: &Trace,
    draws: Draws,
    left: &mut LeftOut,
) -> Result<PredictedCycles, Memory>
    requires goes_on { config.now.stop ≡ false }
    requires few { length log.now.events ≤ MAX_EVENTS }
    requires well_formed { IsWellFormed config.now.bounds log.now.events }
    ensures { IfOk result (λ searched. AreFoundIn config.now.bounds log.now.events (left_of left.old) searched.found.items) }
{
    let mut random = Xoshiro256PlusPlus::seed_from_u64(draws.seed);
    let mut searched = PredictedCycles {
        found: Vec::new(alloc),
        tries: 0,
    };
    for _ in 0..log.len() {
        let before = searched.found.len();
        search_once(
            alloc,
            config,
            log,
            draws.tries,
            &mut random,
            left,
            &mut searched,
        )?;
        if searched.found.len() == before {
            break;
        }
    }
    Ok(searched)
}
