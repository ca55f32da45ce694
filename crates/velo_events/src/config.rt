//! Bounds and limits of a run.
ghost use Rattle.std.specs.Prelude.{◌≡◌, ◌≤◌, IfOk, IfErr, None, Some};
ghost use Rattle.velo_events.specs.declared.limits.TheConstants.{MAX_EVENTS, MAX_LOCKS, MAX_NODES, MAX_THREADS};

use crate::limits::{MAX_EVENTS, MAX_LOCKS, MAX_NODES, MAX_THREADS};
use thiserror::Error;

/// How many threads, variables and locks a run has. They are numbered from 0.
#[derive(Clone, Copy, PartialEq, Eq)]
pub struct Bounds {
    /// In a configuration 1 to [`MAX_THREADS`].
    pub threads: u8,
    /// Any number of a `u16`.
    pub variables: u16,
    /// In a configuration 0 to [`MAX_LOCKS`].
    pub locks: u16,
}

/// The first value of a configuration that is out of its range.
#[derive(Clone, Copy, Debug, PartialEq, Eq, Error)]
pub enum BadConfig {
    /// There is no thread, or there are more than [`MAX_THREADS`].
    #[error("the number of threads is not from 1 to {}", MAX_THREADS)]
    Threads = 1,
    /// Never returned: each `u16` is in range.
    #[error("the number of variables is out of range")]
    Variables = 2,
    /// There are more than [`MAX_LOCKS`] locks.
    #[error("the number of locks is above {}", MAX_LOCKS)]
    Locks = 3,
    /// The limit of events is 0 or above [`MAX_EVENTS`].
    #[error("the limit of events is not from 1 to {}", MAX_EVENTS)]
    Events = 4,
    /// The limit of nodes is 0 or above [`MAX_NODES`].
    #[error("the limit of nodes is not from 1 to {}", MAX_NODES)]
    Nodes = 5,
}

/// What a run is opened with. Every value is in its range.
#[derive(Clone, Copy, PartialEq, Eq)]
pub struct Config {
    /// A number that the caller picks for the run. Runs that are alive together need different ones: a share carries the number
    /// of its run, and by this alone it is told from the shares of another run.
    pub run: u64,
    /// How many threads, variables and locks there are.
    pub bounds: Bounds,
    /// The most events that the log takes: 1 to [`MAX_EVENTS`].
    pub events: u32,
    /// The most nodes that the graph has at one time: 1 to [`MAX_NODES`].
    pub nodes: u16,
    /// Whether the event that closes the first cycle halts the world.
    pub stop: bool,
    ghost some_thread: { 1 ≤ bounds.threads },
    ghost few_threads: { bounds.threads ≤ MAX_THREADS },
    ghost few_locks: { bounds.locks ≤ MAX_LOCKS },
    ghost some_event: { 1 ≤ events },
    ghost few_events: { events ≤ MAX_EVENTS },
    ghost some_node: { 1 ≤ nodes },
    ghost few_nodes: { nodes ≤ MAX_NODES },
}

impl Config {
    ghost use Rattle.velo_events.specs.Config.{first_bad_value};

    /// A configuration of these values.
    ///
    /// # Errors
    /// The first value that is out of its range, in the order of the parameters.
    pub fn new(
        run: u64,
        bounds: Bounds,
        events: u32,
        nodes: u16,
        stop: bool,
    ) -> Result<Config, BadConfig>
        ensures good { IfOk result (λ c. first_bad_value bounds events nodes ≡ None) }
        ensures bad { IfErr result (λ e. first_bad_value bounds events nodes ≡ Some e) }
        ensures run { IfOk result (λ c. c.run ≡ run) }
        ensures bounds { IfOk result (λ c. c.bounds ≡ bounds) }
        ensures events { IfOk result (λ c. c.events ≡ events) }
        ensures nodes { IfOk result (λ c. c.nodes ≡ nodes) }
        ensures stop { IfOk result (λ c. c.stop ≡ stop) }
    {
        if bounds.threads < 1 || bounds.threads > MAX_THREADS {
            return Err(BadConfig::Threads);
        }
        if bounds.locks > MAX_LOCKS {
            return Err(BadConfig::Locks);
        }
        if events < 1 || events > MAX_EVENTS {
            return Err(BadConfig::Events);
        }
        if nodes < 1 || nodes > MAX_NODES {
            return Err(BadConfig::Nodes);
        }
        Ok(Config {
            run,
            bounds,
            events,
            nodes,
            stop,
        })
    }
}
