//! What the search looks up in a log.
use std::alloc::Global;
use velo_events::growth::{filled, reserve};
use velo_events::{Event, Kind, Label, Memory, ThreadId};

/// An outermost block of the log.
#[derive(Clone, Copy)]
pub(crate) struct Span {
    pub(crate) label: Label,
    pub(crate) thread: ThreadId,
    /// The position of its begin.
    pub(crate) first: usize,
    /// That of its end, or of the thread's last event.
    pub(crate) last: usize,
    /// How many events of its thread there are from the first to the last.
    pub(crate) size: usize,
}

/// The events of each thread in their order, the transactions, and the blocks.
#[derive(Drop)]
pub(crate) struct Lookup {
    /// For each position that of its thread's next event, or the number of events.
    next: Vec<usize>,
    /// For each thread the position of its first event, or the number of events.
    pub(crate) first: Vec<usize>,
    /// For each position whether a transaction begins there that another can wait for.
    starts: Vec<bool>,
    /// The outermost blocks, by label.
    pub(crate) blocks: Vec<Span>,
}

/// The number at the place, or another one.
pub(crate) fn number_at(numbers: &[usize], place: usize, otherwise: usize) -> usize {
    match numbers.get(place) {
        Some(number) => *number,
        None => otherwise,
    }
}

/// Puts a number at the place, if there is one.
pub(crate) fn put_number(numbers: &mut [usize], place: usize, number: usize) {
    if let Some(old) = numbers.get_mut(place) {
        *old = number;
    }
}

/// Whether the operation does more than to release or to begin or end something.
fn is_access(kind: Kind) -> bool {
    matches!(
        kind,
        Kind::Read(..) | Kind::Write(..) | Kind::Acquire(_) | Kind::AcquireShared(_)
    )
}

/// The blocks of a thread that are open.
#[derive(Clone, Copy)]
struct Open {
    depth: usize,
    span: Span,
}

const NOTHING_OPEN: Open = Open {
    depth: 0,
    span: Span {
        label: Label(0),
        thread: ThreadId(0),
        first: 0,
        last: 0,
        size: 0,
    },
};

/// What stands open after one more event.
fn open_after(open: Open, event: Event, position: usize) -> Open {
    match event.kind {
        Kind::Begin(label) if open.depth == 0 => Open {
            depth: 1,
            span: Span {
                label,
                thread: event.thread,
                first: position,
                last: position,
                size: 1,
            },
        },
        kind => Open {
            depth: match kind {
                Kind::Begin(_) => open.depth.saturating_add(1),
                Kind::End => open.depth.saturating_sub(1),
                _ => open.depth,
            },
            span: Span {
                last: position,
                size: open.span.size.saturating_add(1),
                ..open.span
            },
        },
    }
}

impl Lookup {
    /// What is looked up in these events.
    pub(crate) fn new(alloc: Global, events: &[Event]) -> Result<Lookup, Memory> {
        let count = events.len();
        let mut lookup = Lookup {
            next: filled(alloc, count, count)?,
            first: filled(alloc, count, 64)?,
            starts: filled(alloc, false, count)?,
            blocks: Vec::new(alloc),
        };
        lookup.link(events);
        lookup.find_blocks(alloc, events)?;
        lookup
            .blocks
            .sort_unstable_by_key(|span| (span.label.0, span.first));
        Ok(lookup)
    }

    /// Links each event to its thread's next one.
    fn link(&mut self, events: &[Event]) {
        for back in 0..events.len() {
            let position = events.len() - 1 - back;
            let thread = usize::from(events[position].thread.0);
            let later = number_at(&self.first, thread, events.len());
            put_number(&mut self.next, position, later);
            put_number(&mut self.first, thread, position);
        }
    }

    /// Finds the outermost blocks, and where transactions begin.
    fn find_blocks(&mut self, alloc: Global, events: &[Event]) -> Result<(), Memory> {
        let mut open = filled(alloc, NOTHING_OPEN, 64)?;
        for position in 0..events.len() {
            self.take_in(&mut open, events[position], position)?;
        }
        for thread in 0..open.len() {
            if open[thread].depth > 0 {
                self.add(open[thread].span)?;
            }
        }
        Ok(())
    }

    fn take_in(&mut self, open: &mut [Open], event: Event, position: usize) -> Result<(), Memory> {
        let Some(own) = open.get_mut(usize::from(event.thread.0)) else {
            return Ok(());
        };
        let before = *own;
        *own = open_after(before, event, position);
        if before.depth == 0 && (own.depth == 1 || is_access(event.kind)) {
            if let Some(start) = self.starts.get_mut(position) {
                *start = true;
            }
        }
        if before.depth > 0 && own.depth == 0 {
            return self.add(own.span);
        }
        Ok(())
    }

    /// Adds a block, if something can come between its events.
    fn add(&mut self, span: Span) -> Result<(), Memory> {
        if span.size >= 3 {
            reserve(&mut self.blocks, 1)?;
            self.blocks.push_reserved(span);
        }
        Ok(())
    }

    /// The position of the next event of the same thread, or the number of events.
    pub(crate) fn next_of(&self, position: usize) -> usize {
        number_at(&self.next, position, self.next.len())
    }

    /// The position so many events of the same thread further on, or the number of events.
    pub(crate) fn further(&self, position: usize, count: usize) -> usize {
        let mut place = position;
        for _ in 0..count {
            place = self.next_of(place);
        }
        place
    }

    /// Whether a transaction begins at the position.
    pub(crate) fn starts(&self, position: usize) -> bool {
        self.starts.get(position).copied().unwrap_or(false)
    }
}
