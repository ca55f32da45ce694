//! What a report claims of a log.
ghost use Rattle.std.specs.Prelude.{◌≡◌, false, IfOk, IsTrue, length, option_map};
ghost use Rattle.velo_names.specs.Line.{lines};
ghost use Rattle.velo_claims.specs.declared.claim.Part.TheVariants as part;
ghost use Rattle.velo_claims.specs.Text.{AnswersAs, IsWhole, ReadsAs, claims_from, is_last, no_claim, step, with_list};

use crate::fault::ReportFault;
use crate::limits::MAX_REPORT_BYTES;
use crate::line::{append_numbers, number_after, thread_or_verdict};
use std::alloc::Global;
use std::marker::Model;
use velo_bytes::after;
use velo_events::Memory;
use velo_names::split_line;

/// The alarm that a report claims.
#[derive(Clone, Copy, PartialEq, Eq)]
pub struct ClaimedAlarm {
    /// The position of the event that closes the first cycle.
    pub position: usize,
    /// The first position of the transaction there.
    pub transaction: usize,
}

/// What may come next in a report.
#[derive(Clone, Copy)]
pub enum Part {
    /// How many events the log has.
    Events,
    /// A thread, or the verdict.
    Threads,
    /// The transaction of an alarm at this position.
    Transaction(usize),
    /// A block to blame, or the cycle.
    Blames,
    /// A line of a serial order.
    Order,
    /// Nothing.
    End,
}

/// What a report claims of a log: how many events it has, an alarm or none, and a list that
/// certifies this: a serial order, or with an alarm a cycle.
#[derive(Drop)]
pub struct Claim {
    events: usize,
    alarm: Option<ClaimedAlarm>,
    certificate: Vec<usize>,
}

impl Model for Claim {
    ghost use Rattle.velo_claims.specs.Text.{Claimed};

    ghost Value = { Claimed };

    ghost view = { λ c. record {
      events = c.events;
      alarm = c.alarm;
      certificate = c.certificate.items;
    } };
}

/// Whether a report may end before this.
fn is_last(part: Part) -> bool
    ensures { result ≡ is_last part }
{
    matches!(part, Part::Blames | Part::Order | Part::End)
}

/// Whether a report may end here, and its last line has its newline.
fn is_whole(part: Part, bytes: &[u8]) -> bool
    ensures whole { IsTrue result → IsWhole bytes.now part }
    ensures partial { result ≡ false → ¬ IsWhole bytes.now part }
{
    is_last(part) && bytes.last() == Some(&b'\n')
}

impl Claim {
    /// None so far.
    fn new(alloc: Global) -> Claim
        ensures { result ≡ no_claim }
    {
        Claim {
            events: 0,
            alarm: None,
            certificate: Vec::new(alloc),
        }
    }

    /// Takes in how many events there are.
    fn take_events(&mut self, line: &[u8]) -> Option<Part>
        ensures { option_map (λ part. (part, self.new)) result
            ≡ step part.Events self.old line.now }
    {
        self.events = number_after(line, b"events ")?;
        Some(Part::Threads)
    }

    /// Takes in the transaction of an alarm.
    fn take_transaction(&mut self, position: usize, line: &[u8]) -> Option<Part>
        ensures { option_map (λ part. (part, self.new)) result
            ≡ step (part.Transaction position) self.old line.now }
    {
        let transaction = number_after(line, b"transaction ")?;
        self.alarm = Some(ClaimedAlarm {
            position,
            transaction,
        });
        Some(Part::Blames)
    }

    /// Takes in the numbers behind a word, before this part.
    fn take_list(&mut self, line: &[u8], word: &[u8], next: Part) -> Result<Option<Part>, Memory>
        ensures { IfOk result (λ found. option_map (λ part. (part, self.new)) found
            ≡ with_list word.now next self.old line.now) }
    {
        let Some(rest) = after(line, word) else {
            return Ok(None);
        };
        if append_numbers(&mut self.certificate, rest)? {
            Ok(Some(next))
        } else {
            Ok(None)
        }
    }

    /// Takes in a block to blame, which is not looked at, or a cycle.
    fn take_blame(&mut self, line: &[u8]) -> Result<Option<Part>, Memory>
        ensures { IfOk result (λ found. option_map (λ part. (part, self.new)) found
            ≡ step part.Blames self.old line.now) }
    {
        match after(line, b"blame ") {
            Some(_) => Ok(Some(Part::Blames)),
            None => self.take_list(line, b"cycle ", Part::End),
        }
    }

    /// Takes in a line at its place. Returns what comes next, if it may be at this place.
    fn take(&mut self, part: Part, line: &[u8]) -> Result<Option<Part>, Memory>
        ensures { IfOk result (λ found. option_map (λ part. (part, self.new)) found
            ≡ step part self.old line.now) }
    {
        match part {
            Part::Events => Ok(self.take_events(line)),
            Part::Threads => Ok(thread_or_verdict(line)),
            Part::Transaction(position) => Ok(self.take_transaction(position, line)),
            Part::Blames => self.take_blame(line),
            Part::Order => self.take_list(line, b"serial ", Part::Order),
            Part::End => Ok(None),
        }
    }

    /// Takes in the lines of a text. Returns what comes next, and the number of the last line.
    fn take_lines(&mut self, text: &[u8]) -> Result<(Part, usize), ReportFault>
        ensures claims { AnswersAs (claims_from part.Events self.old 0 (lines text.now))
            self.new result }
        ensures last { IfOk result (λ r. r.1 ≡ length (lines text.now)) }
    {
        let mut rest = text;
        let mut part = Part::Events;
        let mut line = 0;
        while !rest.is_empty() {
            let (bytes, others) = split_line(rest);
            line += 1;
            let Some(next) = self.take(part, bytes)? else {
                return Err(ReportFault::BadLine(line));
            };
            part = next;
            rest = others;
        }
        Ok((part, line))
    }

    /// What a report claims: `events N`, a line for each thread, `verdict clean` and the lines of a
    /// serial order, or `verdict alarm P`, `transaction Q`, the blocks to blame and the line of a
    /// cycle. Each line ends in a newline. Threads and blocks to blame are not looked at, and the
    /// order or the cycle may be missing.
    ///
    /// # Errors
    /// `TooManyBytes`, and else `BadLine` for the first line that is not what comes at its place,
    /// and else `EndsEarly`. `Memory` if an allocation failed.
    pub fn parse(alloc: Global, bytes: &[u8]) -> Result<Claim, ReportFault>
        ensures { ReadsAs bytes.now result }
    {
        if bytes.len() > MAX_REPORT_BYTES {
            return Err(ReportFault::TooManyBytes);
        }
        let mut claim = Claim::new(alloc);
        let (part, last) = claim.take_lines(bytes)?;
        if !is_whole(part, bytes) {
            return Err(ReportFault::EndsEarly(last));
        }
        Ok(claim)
    }

    /// How many events the log has.
    pub fn events(&self) -> usize
        ensures { result ≡ self.now.events }
    {
        self.events
    }

    /// The alarm, if there is one.
    pub fn alarm(&self) -> Option<ClaimedAlarm>
        ensures { result ≡ self.now.alarm }
    {
        self.alarm
    }

    /// The positions of a serial order, or with an alarm the transactions of a cycle. Empty where
    /// the report has no certificate.
    pub fn certificate(&self) -> &[usize]
        ensures { result.now ≡ self.now.certificate }
    {
        self.certificate.as_slice()
    }
}
