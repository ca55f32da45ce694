//! Which changes are tried, one after another. Nothing is proved of it: what it leads to is
//! replayed.
use crate::edit::Edit;
use velo_events::{MAX_THREADS, ThreadId};

/// One kind of change.
#[derive(Clone, Copy, PartialEq, Eq)]
enum Pass {
    /// None: turns that pass are left out.
    Whole,
    /// A thread's turns are left out.
    Threads,
    /// Parts come in the order of the threads, smaller and smaller ones.
    Sorted,
    /// Parts are left out, smaller and smaller ones.
    Parts,
    /// Stretches of one thread are left out.
    Stretches,
    /// Stretches of one thread are brought together.
    Together,
    /// Single turns are left out.
    Turns,
}

/// The first position after the turn at a position, whose turn is another thread's, or where no
/// turn is.
fn end_of(schedule: &[ThreadId], at: usize) -> usize {
    for place in at..schedule.len() {
        if schedule[place] != schedule[at] {
            return place;
        }
    }
    schedule.len()
}

/// The first turn of the thread from a position on.
fn next_turn(schedule: &[ThreadId], from: usize, thread: ThreadId) -> Option<usize> {
    for place in from..schedule.len() {
        if schedule[place] == thread {
            return Some(place);
        }
    }
    None
}

/// The least thread from this number on that has a turn.
fn next_thread(schedule: &[ThreadId], from: usize) -> Option<ThreadId> {
    for thread in 0..MAX_THREADS {
        if usize::from(thread) >= from && next_turn(schedule, 0, ThreadId(thread)).is_some() {
            return Some(ThreadId(thread));
        }
    }
    None
}

/// One of four ways to bring a stretch and the next one of its thread together: as wholes, or by
/// one turn.
fn together(schedule: &[ThreadId], at: usize, end: usize, next: usize, way: usize) -> Edit {
    match way {
        0 => Edit::Moved(next, end_of(schedule, next), end),
        1 => Edit::Moved(at, end, next),
        2 => Edit::Moved(next, next.saturating_add(1), end),
        _ => Edit::Moved(end.saturating_sub(1), end, next),
    }
}

/// Where the tries stand.
#[derive(Clone, Copy, PartialEq, Eq)]
pub(crate) struct Plan {
    pass: Pass,
    /// How long the parts are.
    size: usize,
    /// At which position, or thread, the pass is.
    at: usize,
    /// Which way to bring two stretches together is next.
    way: usize,
    /// Whether anything was taken up since the passes were begun again.
    changed: bool,
}

impl Plan {
    /// The change that is tried first.
    pub fn new() -> Plan {
        Plan {
            pass: Pass::Whole,
            size: 1,
            at: 0,
            way: 0,
            changed: false,
        }
    }

    /// The change of the schedule that is tried next; none once a round of all of them has come to
    /// nothing.
    pub fn next(&mut self, schedule: &[ThreadId]) -> Option<Edit> {
        for _pass in 0..200 {
            if let Some(edit) = self.edit(schedule) {
                return Some(edit);
            }
            if self.pass == Pass::Turns && !self.changed {
                return None;
            }
            self.begin_next(schedule.len());
        }
        None
    }

    /// The next change of this pass.
    fn edit(&mut self, schedule: &[ThreadId]) -> Option<Edit> {
        let at = self.at;
        if at >= schedule.len() && self.pass != Pass::Threads {
            return None;
        }
        let end = at.saturating_add(self.size);
        match self.pass {
            Pass::Whole => Some(Edit::Nothing),
            Pass::Threads => self.edit_of_thread(schedule),
            Pass::Sorted => Some(Edit::Sorted(at, end)),
            Pass::Parts | Pass::Turns => Some(Edit::Cut(at, end)),
            Pass::Stretches => Some(Edit::Cut(at, end_of(schedule, at))),
            Pass::Together => self.edit_of_pair(schedule),
        }
    }

    /// The next thread that has a turn is left out.
    fn edit_of_thread(&mut self, schedule: &[ThreadId]) -> Option<Edit> {
        let thread = next_thread(schedule, self.at)?;
        self.at = usize::from(thread.0);
        Some(Edit::Without(thread))
    }

    /// The next stretch that has another one of its thread after it is brought together with that.
    fn edit_of_pair(&mut self, schedule: &[ThreadId]) -> Option<Edit> {
        for _stretch in 0..schedule.len() {
            if self.at >= schedule.len() {
                return None;
            }
            let end = end_of(schedule, self.at);
            if let Some(next) = next_turn(schedule, end, schedule[self.at]) {
                return Some(together(schedule, self.at, end, next, self.way));
            }
            self.at = end;
            self.way = 0;
        }
        None
    }

    /// Begins the next pass, or the same with smaller parts.
    fn begin_next(&mut self, turns: usize) {
        self.at = 0;
        self.way = 0;
        match self.pass {
            Pass::Whole => self.pass = Pass::Threads,
            Pass::Threads => {
                self.pass = Pass::Sorted;
                self.size = turns;
            }
            Pass::Sorted | Pass::Parts if self.size > 2 => self.size /= 2,
            Pass::Sorted => {
                self.pass = Pass::Parts;
                self.size = turns / 2;
            }
            Pass::Parts => self.pass = Pass::Stretches,
            Pass::Stretches => self.pass = Pass::Together,
            Pass::Together => {
                self.pass = Pass::Turns;
                self.size = 1;
            }
            Pass::Turns => {
                self.pass = Pass::Threads;
                self.changed = false;
            }
        }
    }

    /// Goes on after a change of the schedule that was kept: what stands there now is changed
    /// next.
    pub fn take_up(&mut self, schedule: &[ThreadId]) {
        self.changed = true;
        if self.pass == Pass::Whole {
            self.pass_by(schedule);
        }
    }

    /// Goes on after a change of the schedule that was not kept.
    pub fn pass_by(&mut self, schedule: &[ThreadId]) {
        match self.pass {
            Pass::Together if self.way < 3 => self.way += 1,
            Pass::Stretches | Pass::Together => {
                self.at = end_of(schedule, self.at);
                self.way = 0;
            }
            Pass::Whole => self.at = schedule.len(),
            Pass::Threads => self.at = self.at.saturating_add(1),
            Pass::Sorted | Pass::Parts | Pass::Turns => {
                self.at = self.at.saturating_add(self.size.max(1));
            }
        }
    }
}
