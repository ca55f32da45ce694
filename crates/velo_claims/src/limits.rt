//! The limits of a report, each in one place.

/// The most bytes of a report. The positions of a log of [`MAX_EVENTS`](velo_events::MAX_EVENTS)
/// events take 268,435,456 with a line for each, and all other lines with the longest names fewer
/// than 65,536.
pub const MAX_REPORT_BYTES: usize = 268_500_992;
