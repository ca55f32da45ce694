//! The whole of a log so far: whether its next event can happen, whatever is left out.
ghost use Rattle.std.specs.Prelude.{◌≡◌, ◌<◌, [], ◌∷◌, ◌++◌, length, IfOk, IfErr, OnOk};
ghost use Rattle.velo_watch.specs.Whole.{IsWholeOf};
ghost use Rattle.velo_heap.specs.Contents.{bounds_of};
ghost use Rattle.velo_watch.specs.Faults.{IsFaultOfWhole};

use crate::summary::Whole;
use std::alloc::Global;
use velo_events::{Config, Event, Memory, Refusal};
use velo_traces::{Flaw, Trace};
use velo_world::LogReplayFault;

/// All events of a log so far, and what they leave. No graph is made of them.
#[derive(Drop)]
pub struct WholeLog {
    pub trace: Trace,
    pub state: Whole,
}

impl WholeLog {
    /// No event has happened yet.
    ///
    /// # Errors
    /// `Memory` where a growth was refused.
    pub fn new(alloc: Global, config: &Config) -> Result<WholeLog, Memory>
        ensures bounds { IfOk result (λ whole. bounds_of whole.state.heap ≡ config.now.bounds) }
        ensures none { IfOk result (λ whole. whole.trace.events ≡ []) }
        ensures stands { IfOk result (λ whole. IsWholeOf whole.trace.events whole.state) }
    {
        let state = Whole::new(alloc, config)?;
        Ok(WholeLog {
            trace: Trace::new(alloc),
            state,
        })
    }

    /// Lets the event happen after the others, of which there may be so many.
    ///
    /// # Errors
    /// `Refused` or `WrongValue` where it can't: a refusal comes before a wrong value, and this before the
    /// limit. `Memory` where a growth was refused.
    pub fn take_in(&mut self, limit: u32, event: &Event) -> Result<(), LogReplayFault>
        requires { IsWholeOf self.old.trace.events self.old.state }
        ensures stands { OnOk result (IsWholeOf self.new.trace.events self.new.state) }
        ensures bounds { bounds_of self.new.state.heap ≡ bounds_of self.old.state.heap }
        ensures log { OnOk result (self.new.trace.events ≡ self.old.trace.events ++ event.now ∷ []) }
        ensures short { OnOk result (length self.old.trace.events < limit) }
        ensures fault { IfErr result (IsFaultOfWhole limit (bounds_of self.old.state.heap) self.old.trace.events event.now) }
    {
        let position = self.trace.len();
        match self.state.flaw(event) {
            Some(Flaw::Refused(refusal)) => {
                return Err(LogReplayFault::Refused { position, refusal });
            }
            Some(Flaw::WrongValue) => return Err(LogReplayFault::WrongValue { position }),
            None => {}
        }
        if position >= limit as usize {
            return Err(LogReplayFault::Refused {
                position,
                refusal: Refusal::LogFull,
            });
        }
        match self.trace.push(*event) {
            Ok(()) => {
                self.state.take_in(event);
                Ok(())
            }
            Err(Memory) => Err(LogReplayFault::Memory),
        }
    }
}
