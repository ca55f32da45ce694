//! An event whose kind was matched once.
ghost use Rattle.std.specs.Prelude.{◌≡◌};
ghost use Rattle.velo_events.specs.Event.{access_of};

use crate::event::{Access, Event, Kind, ThreadId};
use std::marker::Model;

/// An event with what it bears on beside its own thread: its kind is matched once, where this is made. In contracts it is
/// the event.
#[derive(Drop)]
pub struct Resolved<'a> {
    event: &'a Event,
    access: Access,
}

impl<'a> Model for Resolved<'a> {
    ghost use Rattle.std.specs.Prelude.{◌≡◌};
    ghost use Rattle.velo_events.specs.declared.event.Event.{Event};
    ghost use Rattle.velo_events.specs.Event.{access_of};

    ghost Value = { Event };

    ghost view = { λ resolved. resolved.event.now };

    ghost invariant = { λ resolved. resolved.access ≡ access_of resolved.event.now.kind };
}

impl<'a> Resolved<'a> {
    /// The event, resolved.
    #[inline(always)]
    pub fn of(event: &'a Event) -> Resolved<'a>
        ensures { result ≡ event.now }
    {
        Resolved {
            event,
            access: event.kind.access(),
        }
    }

    /// The event itself.
    #[inline(always)]
    pub fn event(&self) -> &'a Event
        ensures { result.now ≡ self.now }
    {
        self.event
    }

    /// The thread that did it.
    #[inline(always)]
    pub fn thread(&self) -> ThreadId
        ensures { result ≡ self.now.thread }
    {
        self.event.thread
    }

    /// What it did.
    #[inline(always)]
    pub fn kind(&self) -> Kind
        ensures { result ≡ self.now.kind }
    {
        self.event.kind
    }

    /// What it bears on beside its own thread.
    #[inline(always)]
    pub fn access(&self) -> Access
        ensures { result ≡ access_of self.now.kind }
    {
        self.access
    }
}
