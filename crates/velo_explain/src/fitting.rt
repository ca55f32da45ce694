//! Text that fits into a number of columns.

use crate::pieces::Page;
use velo_bytes::put_number;
use velo_events::Memory;

/// The most lines of a picture in lanes that shows more than the events of its cycle.
pub(crate) const SCREEN_LINES: usize = 24;

/// The most lanes of such a picture: with the numbers of the lines, six are 80 columns wide.
pub(crate) const SCREEN_LANES: usize = 6;

/// The fewest characters of a lane. A picture of fewer than six lanes has wider ones.
const LEAST_LANE: usize = 10;

/// How many characters a lane has, by the number of lanes.
pub(crate) fn room_of(lanes: usize) -> usize {
    if lanes <= 2 {
        34
    } else if lanes <= 3 {
        22
    } else if lanes <= 4 {
        16
    } else if lanes <= 5 {
        12
    } else {
        LEAST_LANE
    }
}

/// Whether a byte begins a character of UTF-8.
fn begins_character(byte: u8) -> bool {
    byte < 128 || byte >= 192
}

/// How many characters a text has.
pub(crate) fn characters(text: &[u8]) -> usize {
    let mut count = 0usize;
    for byte in text {
        if begins_character(*byte) {
            count = count.saturating_add(1);
        }
    }
    count
}

/// How many lines a text has.
pub(crate) fn lines_in(text: &[u8]) -> usize {
    let mut count = 0usize;
    for byte in text {
        if *byte == b'\n' {
            count = count.saturating_add(1);
        }
    }
    count
}

/// Adds the first `most` characters of a text.
fn add_beginning(page: &mut Page, most: usize, text: &[u8]) -> Result<(), Memory> {
    let mut left = most;
    for byte in text {
        if begins_character(*byte) {
            if left == 0 {
                return Ok(());
            }
            left -= 1;
        }
        page.add_bytes(&[*byte])?;
    }
    Ok(())
}

/// Adds `count` spaces.
pub(crate) fn add_spaces(page: &mut Page, count: usize) -> Result<(), Memory> {
    for _ in 0..count {
        page.add_bytes(b" ")?;
    }
    Ok(())
}

/// Adds the digits of a number, with spaces before them up to 8 characters.
pub(crate) fn add_right(page: &mut Page, number: u64) -> Result<(), Memory> {
    let mut buffer = [0u8; 20];
    let end = put_number(&mut buffer, 0, number);
    add_spaces(page, 8usize.saturating_sub(end))?;
    page.add_bytes(&buffer[..end])
}

/// Adds a text in at most `room` characters: as it is, or with `..` in the place of what has no room.
pub(crate) fn add_shortened(page: &mut Page, room: usize, text: &[u8]) -> Result<(), Memory> {
    if characters(text) <= room {
        return page.add_bytes(text);
    }
    if room < 2 {
        return Ok(());
    }
    add_beginning(page, room - 2, text)?;
    page.add_bytes(b"..")
}
