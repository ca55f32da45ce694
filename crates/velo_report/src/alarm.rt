//! The line of an alarm.
ghost use Rattle.std.specs.Prelude.{◌≡◌, ◌++◌, OnOk, OnErr};
ghost use Rattle.std.specs.Io.KnownBytes.{Appends};
ghost use Rattle.velo_bytes.specs.Device.{with_failure, AppendsBeginning};
ghost use Rattle.velo_report.specs.Alarm.{spaced_words, blame_text, blame_texts, alarm_line};
ghost use Rattle.velo_report.specs.Lines.{words_text, Buffers};

use crate::lines::{Lines, Word};
use velo_bytes::{Sink, WriteFault};
use velo_traces::Block;
use velo_world::Alarm;

/// Adds words, each after a space.
fn add_words<S: Sink>(lines: &mut Lines, sink: &mut S, words: &[Word]) -> Result<(), WriteFault>
    ensures ok { OnOk result
        (Buffers (S.contents sink.old) (S.contents sink.new) lines.old lines.new
        (spaced_words (words_text words.now))) }
    ensures err { OnErr result
        (AppendsBeginning (S.contents sink.old) (S.contents sink.new)
        (lines.old ++ spaced_words (words_text words.now))) }
    ensures no_failure { OnOk result (S.failures sink.new ≡ S.failures sink.old) }
    ensures failure { OnErr result (S.failures sink.new ≡ with_failure (S.failures sink.old)) }
{
    for word in words {
        lines.add_spaced(sink, *word)?;
    }
    Ok(())
}

/// Adds a blamed block.
fn add_blamed<S: Sink>(lines: &mut Lines, sink: &mut S, block: Block) -> Result<(), WriteFault>
    ensures ok { OnOk result
        (Buffers (S.contents sink.old) (S.contents sink.new) lines.old lines.new (blame_text block)) }
    ensures err { OnErr result
        (AppendsBeginning (S.contents sink.old) (S.contents sink.new) (lines.old ++ blame_text block)) }
    ensures no_failure { OnOk result (S.failures sink.new ≡ S.failures sink.old) }
    ensures failure { OnErr result (S.failures sink.new ≡ with_failure (S.failures sink.old)) }
{
    let first = Word::Number(block.first as u64);
    let label = Word::Number(u64::from(block.label.0));
    add_words(lines, sink, &[Word::Text("blame"), first, label])
}

/// Adds each blamed block, or that there is none.
fn add_all_blamed<S: Sink>(
    lines: &mut Lines,
    sink: &mut S,
    blamed: &[Block],
) -> Result<(), WriteFault>
    ensures ok { OnOk result
        (Buffers (S.contents sink.old) (S.contents sink.new) lines.old lines.new (blame_texts blamed.now)) }
    ensures err { OnErr result
        (AppendsBeginning (S.contents sink.old) (S.contents sink.new) (lines.old ++ blame_texts blamed.now)) }
    ensures no_failure { OnOk result (S.failures sink.new ≡ S.failures sink.old) }
    ensures failure { OnErr result (S.failures sink.new ≡ with_failure (S.failures sink.old)) }
{
    if blamed.is_empty() {
        return add_words(lines, sink, &[Word::Text("blame"), Word::Text("none")]);
    }
    for block in blamed {
        add_blamed(lines, sink, *block)?;
    }
    Ok(())
}

/// Writes the line of an alarm: its position, and the blocks to blame.
///
/// # Errors
/// `WriteFault` where the sink failed. A beginning of the line was written then.
pub fn alarm_line<S: Sink>(alarm: &Alarm, sink: &mut S) -> Result<(), WriteFault>
    ensures ok { OnOk result (Appends (S.contents sink.old) (S.contents sink.new) (alarm_line alarm.now)) }
    ensures err { OnErr result (AppendsBeginning (S.contents sink.old) (S.contents sink.new) (alarm_line alarm.now)) }
    ensures no_failure { OnOk result (S.failures sink.new ≡ S.failures sink.old) }
    ensures failure { OnErr result (S.failures sink.new ≡ with_failure (S.failures sink.old)) }
{
    let mut lines = Lines::new();
    lines.add_word(sink, Word::Text("alarm"))?;
    lines.add_spaced(sink, Word::Number(alarm.position as u64))?;
    add_all_blamed(&mut lines, sink, alarm.blamed.as_slice())?;
    lines.add(sink, b"\n")?;
    lines.flush(sink)
}
