//! Arrays.

use crate::background::Background;
use crate::writer::JsonWriter;
use velo_events::Memory;

/// What an array is of.
pub(crate) trait Element {
    /// Adds it.
    fn add(&self, json: JsonWriter, background: &Background) -> Result<JsonWriter, Memory>;
}

/// Adds elements, one after another.
pub(crate) fn add_elements<T: Element>(
    json: JsonWriter,
    background: &Background,
    elements: &[T],
) -> Result<JsonWriter, Memory> {
    let mut written = json;
    for element in elements {
        written = element.add(written, background)?;
    }
    Ok(written)
}

/// Adds an array.
pub(crate) fn add_array<T: Element>(
    json: JsonWriter,
    background: &Background,
    elements: &[T],
) -> Result<JsonWriter, Memory> {
    let written = add_elements(json.begin_array()?, background, elements)?.end_array()?;
    Ok(written)
}
