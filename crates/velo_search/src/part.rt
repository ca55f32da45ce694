//! What an event is of what is left of its log.

/// What an event is of what is left of its log.
#[derive(Clone, Copy, PartialEq, Eq)]
pub enum Part {
    /// Nothing: it is left out.
    LeftOut,
    /// It stays, and behind it its thread has no block open that stays.
    Outside,
    /// It stays, and behind it its thread has such a block open.
    Inside,
}
