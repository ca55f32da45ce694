//! Why a command ends before it has said all that it has to say.
use thiserror::Error;
use velo_events::Memory;

/// A file of a command, by its word on the command line.
#[derive(Clone, Copy, Debug, PartialEq, Eq)]
pub enum Operand {
    /// `LOG`, a recorded log.
    Log,
    /// `FILE`, a workload.
    File,
    /// `OUT`, where a log is saved.
    Out,
    /// `NAMES`, where the names of a workload are saved.
    NamesOut,
    /// `MAP`, where the positions of what is left of a log are saved.
    Map,
    /// The file of `--names`, which is read.
    Names,
    /// The file of `--sites`.
    Sites,
    /// The file of `--not-atomic`, a list of labels.
    NotAtomic,
    /// The file of `--ignore`, a list of labels, locks and variables.
    Ignore,
    /// The file of `--turns`, a schedule.
    Turns,
}

/// What failed, of memory and devices. What the files say is not at fault.
#[derive(Clone, Copy, Debug, PartialEq, Eq, Error)]
pub enum Failure {
    /// The file could not be opened.
    #[error("cannot open")]
    CannotOpen(Operand),
    /// The file could not be read to its end.
    #[error("read failed")]
    ReadFailed(Operand),
    /// The file could not be written; a beginning was.
    #[error("write failed")]
    WriteFailed(Operand),
    /// Standard output could not be written; a beginning was.
    #[error("write failed")]
    PrintFailed,
    /// Out of memory.
    #[error(transparent)]
    Memory(Memory),
}
