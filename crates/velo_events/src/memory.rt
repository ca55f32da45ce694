//! Out of memory, with the fact that an allocation failed.
use std::marker::Model;
use thiserror::Error;

/// Out of memory: an allocation failed. Each value keeps this fact, so that one can be made only where an allocation
/// failed, in the `growth` modules; whoever holds one has it.
#[derive(Clone, Copy, Debug, PartialEq, Eq, Error)]
#[error("out of memory")]
pub struct Memory;

impl Model for Memory {
    ghost use Rattle.velo_events.specs.Refusals.{GrowthRefused};

    ghost Value = { Unit {0} };

    ghost view = { λ _. tt };

    ghost inverse = { λ _. record {} };

    ghost invariant = { λ _. GrowthRefused };
}
