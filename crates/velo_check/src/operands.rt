//! The files of a command: none that is to be written is one that is read, or another one that is to be written.
ghost use Rattle.std.specs.Prelude.{◌≡◌, IfErr, IfOk, IfSome, IsTrue};
ghost use Rattle.velo_check.specs.Disk.{AreOne, IsOpened};
ghost use Rattle.velo_check.specs.Barred.{IsBarred, IsBarredApart, IsReadBeside, list_beside};

use crate::failure::Operand;
use crate::fate::Fate;
use crate::files::{Files, is_standard_input, open_at};
use crate::request::Ignored;

/// A file of a command beside its input and its target.
#[derive(Clone, Copy)]
pub struct Beside<'p> {
    /// Which it is.
    pub operand: Operand,
    /// Its path, if it is asked for.
    pub path: Option<&'p str>,
}

/// The list of what is left out of a log, which is read beside it.
pub fn list_beside<'p>(ignored: &Ignored<'p>) -> Beside<'p>
    ensures { result ≡ list_beside ignored.now }
{
    Beside {
        operand: if ignored.is_wide {
            Operand::Ignore
        } else {
            Operand::NotAtomic
        },
        path: ignored.known,
    }
}

/// Whether a file that is read is the file that is to be written.
fn is_one_file<F: Files>(files: &F, input: &str, target: &str) -> bool
    ensures { IsTrue result → (F.disk files.now).one input.now target.now }
{
    if is_standard_input(input) {
        files.is_input(target)
    } else {
        files.are_one(input, target)
    }
}

/// The same, if there are both.
fn is_read_file<F: Files>(files: &F, input: Option<&str>, target: Option<&str>) -> bool
    ensures { IsTrue result → AreOne (F.disk files.now) input.entry target.entry }
{
    match (input, target) {
        (Some(input), Some(target)) => is_one_file(files, input, target),
        _ => false,
    }
}

/// Opens a command's input. Its file may not be the command's target, which is to be emptied, if
/// there is one.
///
/// # Errors
/// `CannotOpen` where it does not open; else `OneFile` where it is the target.
pub fn open_input<F: Files>(
    files: &F,
    operand: Operand,
    input: &str,
    target: Option<&str>,
) -> Result<F::Input, Fate>
    ensures given { IfOk result (IsOpened (F.disk files.now) input.now
        F.Input.remaining F.Input.failures) }
    ensures barred { IfErr result (IsBarred (F.disk files.now) operand input.now target.entry) }
{
    let Some(file) = open_at(files, input) else {
        return Err(Fate::CannotOpen);
    };
    match target {
        Some(target) if is_one_file(files, input, target) => Err(Fate::OneFile(
            operand,
            Operand::Out,
        )),
        _ => Ok(file),
    }
}

/// Whether the two files that are to be written are one, if there are two.
fn are_one_target<F: Files>(files: &F, target: Option<&str>, beside: Option<&str>) -> bool
    ensures { IsTrue result → AreOne (F.disk files.now) target.entry beside.entry }
{
    match (target, beside) {
        (Some(target), Some(beside)) => files.are_one(target, beside),
        _ => false,
    }
}

/// `OneFile` where a file that is read beside the input is the target, or else the file beside this.
fn fate_of_reads<F: Files>(
    files: &F,
    reads: &[Beside],
    target: Option<&str>,
    beside: Beside,
) -> Option<Fate>
    ensures { IfSome result (IsReadBeside (F.disk files.now) reads.now target.entry beside.entry) }
{
    for read in reads {
        if is_read_file(files, read.path, target) {
            return Some(Fate::OneFile(read.operand, Operand::Out));
        }
        if is_read_file(files, read.path, beside.path) {
            return Some(Fate::OneFile(read.operand, beside.operand));
        }
    }
    None
}

/// Opens a command's input. Neither its file nor one of those that are read beside it may be the target or the file beside
/// this, which are two files, if they are asked for.
///
/// # Errors
/// `OneFile` where the files that are to be written are one; `CannotOpen` where the input does not
/// open; `OneFile` where it is the target, and else where it is the file beside this, and else where one that is read beside
/// it is either.
pub fn open_apart<F: Files>(
    files: &F,
    operand: Operand,
    input: &str,
    reads: &[Beside],
    target: Option<&str>,
    beside: Beside,
) -> Result<F::Input, Fate>
    ensures given { IfOk result (IsOpened (F.disk files.now) input.now
        F.Input.remaining F.Input.failures) }
    ensures barred { IfErr result (IsBarredApart (F.disk files.now) operand input.now reads.now
        target.entry beside.entry) }
{
    if are_one_target(files, target, beside.path) {
        return Err(Fate::OneFile(Operand::Out, beside.operand));
    }
    let file = match open_input(files, operand, input, target) {
        Ok(file) => file,
        Err(fate) => return Err(fate),
    };
    if is_read_file(files, Some(input), beside.path) {
        return Err(Fate::OneFile(operand, beside.operand));
    }
    match fate_of_reads(files, reads, target, beside) {
        Some(fate) => Err(fate),
        None => Ok(file),
    }
}
