//! Files, whatever they are.
ghost use Rattle.std.specs.Prelude.{◌≡◌, ◌≢◌, ◌↔◌, codes, IfSome, IsNone, IsTrue};
ghost use Rattle.velo_check.specs.Disk.{Disk, FailsToOpen, IsOpened, untold};

use velo_bytes::{Sink, Source};

/// Where the program finds its files.
pub trait Files {
    /// A source that was opened to be read: a file, or standard input.
    type Input: Source + Drop;
    /// A file that was opened to be written.
    type Output: Sink + Drop;

    /// What is said of the files: nothing, unless an implementation says more.
    ghost disk: { Self → Disk } = { λ _. untold };

    /// Opens the file at a path to be read; none where this fails. The path `-` is that of standard input, and of no file.
    fn open(&self, path: &str) -> Option<Self::Input>
        requires { path.now ≢ codes "-" }
        ensures some { IfSome result (IsOpened (disk self.now) path.now
            Self.Input.remaining Self.Input.failures) }
        ensures none { IsNone result → (disk self.now).fails_to_read path.now };

    /// Standard input.
    fn standard_input(&self) -> Self::Input
        ensures { IsOpened (disk self.now) (codes "-")
            Self.Input.remaining Self.Input.failures result };

    /// Whether the file at a path is the file at another one, which is to be emptied; or would be, where neither is there yet.
    /// Where this is not known, it is another file. The path `-` is that of a file here.
    fn are_one(&self, input: &str, target: &str) -> bool
        ensures { IsTrue result → (disk self.now).one input.now target.now }
    {
        false
    }

    /// Whether standard input is the file at a path, which is to be emptied. Where this is not known, it is another file.
    fn is_input(&self, target: &str) -> bool
        ensures { IsTrue result → (disk self.now).one (codes "-") target.now }
    {
        false
    }

    /// Opens the file at a path to be written, and empties it; none where this fails, and then the files are as they were.
    fn create(&mut self, path: &str) -> Option<Self::Output>
        ensures some { IfSome result (λ file. (disk self.old).empties path.now
            (Self.Output.contents file) (Self.Output.failures file)) }
        ensures none { IsNone result → (disk self.old).fails_to_write path.now }
        ensures kept { IsNone result → self.new ≡ self.old };

    /// Closes the file that was opened at a path to be written.
    fn close(&mut self, path: &str, file: Self::Output)
        ensures { (disk self.new).closed path.now
            (Self.Output.contents file) (Self.Output.failures file) };
}

/// Opens the file at a path, or standard input; none where a file does not open.
pub fn open_at<F: Files>(files: &F, path: &str) -> Option<F::Input>
    ensures some { IfSome result (IsOpened (F.disk files.now) path.now
        F.Input.remaining F.Input.failures) }
    ensures none { IsNone result → FailsToOpen (F.disk files.now) path.now }
{
    if is_standard_input(path) {
        Some(files.standard_input())
    } else {
        files.open(path)
    }
}

/// Whether the path stands for standard input.
pub fn is_standard_input(path: &str) -> bool
    ensures { IsTrue result ↔ (path.now ≡ codes "-") }
{
    path == "-"
}
