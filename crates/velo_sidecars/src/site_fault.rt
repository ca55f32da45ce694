//! Why a file has no sites.
ghost use Rattle.std.specs.Prelude.{◌≡◌};
ghost use Rattle.velo_sidecars.specs.SiteFault.{fault_line, fault_number};

use thiserror::Error;
use velo_events::Memory;

/// Why a file has no sites. Lines are counted from 1.
#[derive(Clone, Copy, Debug, PartialEq, Eq, Error)]
pub enum SitesFault {
    /// This line is not what the header asks for at this place, or is no header.
    #[error("bad line {0}")]
    BadLine(usize),
    /// The file ends in or after this line, before all that the header asks for.
    #[error("ends early in line {0}")]
    EndsEarly(usize),
    /// There are more bytes than [`MAX_SITES_BYTES`](crate::MAX_SITES_BYTES).
    #[error("too many bytes")]
    TooManyBytes,
    /// The bytes are not UTF-8.
    #[error("not UTF-8")]
    NotText,
    /// Out of memory.
    #[error("out of memory")]
    Memory,
}

impl SitesFault {
    /// The number of the fault; `None` if it was out of memory, which is no fault of the file.
    pub fn number(&self) -> Option<u8>
        ensures { result ≡ fault_number self.now }
    {
        match self {
            SitesFault::BadLine(_) => Some(1),
            SitesFault::EndsEarly(_) => Some(2),
            SitesFault::TooManyBytes => Some(3),
            SitesFault::NotText => Some(4),
            SitesFault::Memory => None,
        }
    }

    /// The line of the fault; 0 if it is one of the whole file.
    pub fn line(&self) -> usize
        ensures { result ≡ fault_line self.now }
    {
        match self {
            SitesFault::BadLine(line) | SitesFault::EndsEarly(line) => *line,
            SitesFault::TooManyBytes | SitesFault::NotText | SitesFault::Memory => 0,
        }
    }
}

impl From<Memory> for SitesFault {
    ghost use Rattle.velo_sidecars.specs.declared.site_fault.SitesFault.TheVariants as sites_fault;

    ghost from_gives = { λ _ e. e ≡ sites_fault.Memory };

    fn from(_refused: Memory) -> SitesFault {
        SitesFault::Memory
    }
}
