//! What decides when live threads go on.
ghost use Rattle.std.specs.Prelude.{IsTrue};

use velo_events::ThreadId;

/// Decides when live threads go on.
pub trait Gate {
    /// Is asked before each event of a live thread, outside the world's lock. `step` is the number
    /// of its events so far. On false the run ends as gated. A gate may wait, and then the thread
    /// waits.
    fn pass(&self, thread: ThreadId, step: u64) -> bool;
}

/// Lets every event pass at once.
#[derive(Clone, Copy)]
pub struct OpenGate;

impl Gate for OpenGate {
    fn pass(&self, _thread: ThreadId, _step: u64) -> bool
        ensures { IsTrue result }
    {
        true
    }
}
