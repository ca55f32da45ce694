//! A search of the runs of scripts, in which variables and locks that they do not name have no part.
ghost use Rattle.std.specs.Prelude.{◌≡◌, ◌≤◌, ◌&&◌, true, false, [], is_some, IfOk, IfSome, IsTrue};
ghost use Rattle.velo_filter.specs.Left.{rest_of};
ghost use Rattle.velo_filter.specs.Tables.{left_of};
ghost use Rattle.velo_search.specs.Faults.{Fault, IsFault};
ghost use Rattle.velo_search.specs.Fitting.{IsWithin};
ghost use Rattle.velo_search.specs.Runs.{Never};
ghost use Rattle.velo_search.specs.Search.{ArePlain, AreShort, IsTrueOf, IsSearchCut, has_fault};
ghost use Rattle.velo_search.specs.Told.{shown_of};
ghost use Rattle.velo_search.specs.Trail.{LeadToCycles, LeadsTo, turns_for};

use crate::marked::MarkedScripts;
use crate::progress::Progress;
use crate::scripts::Scripts;
use crate::searched::Searched;
use crate::searching::search_states;
use std::alloc::Global;
use velo_events::{Bounds, Config, Memory};
use velo_filter::LeftOut;

/// The same, with these bounds.
fn within(config: &Config, bounds: Bounds) -> Config
    requires { IsWithin bounds config.now.bounds }
    ensures { result.bounds ≡ bounds }
{
    Config {
        run: config.run,
        bounds,
        events: config.events,
        nodes: config.nodes,
        stop: config.stop,
    }
}

/// Tries the runs of the scripts, event by event, free ones at once, as long as no more than so
/// many states are to be looked at, and with `first` until something is found. A run is an alarm
/// where what is left of its log has a cycle: the blocks, and the operations on locks and
/// variables, that `left` names are left out of the log, and done in the run as ever. What was found is
/// there in any case; what was not found is not there, where everything was tried. `progress` is
/// called after each level, and asked before each state: once it says that the search is over, no
/// more states are looked at. The turns of a run are handed out for each fault that was found; with
/// `first` for the foremost alone.
///
/// # Errors
/// `Memory` where a growth was refused.
pub fn search<P: Progress>(
    alloc: Global,
    config: &Config,
    scripts: &Scripts,
    left: &LeftOut,
    most_states: u64,
    first: bool,
    progress: &mut P,
) -> Result<Searched, Memory>
    requires plain { ArePlain scripts.now.kinds }
    requires short { AreShort scripts.now.kinds }
    ensures found { IfOk result (λ x.
        IsTrueOf config.now.bounds scripts.now.kinds (rest_of (left_of left.now)) x.found) }
    ensures whole { IfOk result (λ x. x.whole ≡ true → (fault : Fault) → has_fault x.found fault ≡ false →
        Never (IsFault config.now.bounds scripts.now.kinds (rest_of (left_of left.now)) fault)
        config.now.bounds scripts.now.kinds []) }
    ensures first { IfOk result (λ x. first ≡ true → x.whole ≡ true → (fault : Fault) →
        has_fault x.found fault ≡ false) }
    ensures states { IfOk result (λ x. x.states ≤ most_states) }
    ensures cut { IfOk result (λ x. x.whole ≡ false →
        IsSearchCut config.now.bounds scripts.now.kinds (rest_of (left_of left.now)) most_states first
        (P.may_end progress.old && P.says_over progress.new) x.found x.states) }
    ensures shown { IfOk result (λ x. (fault : Fault) → IfSome (turns_for x.schedules fault)
        (LeadsTo config.now.bounds scripts.now.kinds (rest_of (left_of left.now)) fault)) }
    ensures each { IfOk result (λ x. (fault : Fault) → has_fault (shown_of first x.found) fault ≡
        true → IsTrue (is_some (turns_for x.schedules fault))) }
    ensures alarms { IfOk result
        (λ x. LeadToCycles config.now.bounds scripts.now.kinds (rest_of (left_of left.now)) first x.schedules) }
{
    let naming = scripts.naming(alloc, config.bounds)?;
    let renamed = scripts.renamed(alloc, &naming)?;
    let needed = within(config, renamed.fitted(config.bounds));
    let parts = scripts.parts(alloc, left)?;
    let marked = MarkedScripts::new(renamed, parts);
    let searched = search_states(alloc, &needed, &marked, most_states, first, progress)?;
    Ok(searched)
}
