//! Files that are fetched by name: the trait `Files`.
ghost use Rattle.std.specs.Prelude.{◌≤◌, MatchResult};
ghost use Rattle.ste_io.specs.Outside.{FilesState, IsFetched, WhyNotFetched};

use std::alloc::{AllocError, Global};

/// Why a file was not fetched.
#[derive(Clone, Copy, PartialEq, Eq)]
pub enum FetchFault {
    /// Reading failed; a name that is not there is such a fault.
    Failed,
    /// More bytes than wanted were there; this many, and maybe more, were seen.
    TooLarge { seen: u64 },
    OutOfMemory,
}

impl From<AllocError> for FetchFault {
    ghost use Rattle.std.specs.Prelude.{◌≡◌};
    ghost use Rattle.ste_io.specs.declared.files.FetchFault.TheVariants.{OutOfMemory};

    ghost from_gives = { λ _ fault. fault ≡ OutOfMemory };

    fn from(_fault: AllocError) -> FetchFault {
        FetchFault::OutOfMemory
    }
}

/// Files, by name.
pub trait Files {
    /// What they hold and were asked for, known or not, and how often reading has failed.
    ghost state: { Self → FilesState };

    /// All the bytes of a file, at most `max`. When memory runs out, the name may not count as
    /// asked for.
    fn fetch(&mut self, alloc: Global, name: &str, max: u64) -> Result<Vec<u8>, FetchFault>
        requires { max ≤ 67108864 }
        ensures { MatchResult result
            (λ bytes. IsFetched (state self.old) (state self.new) name.now max bytes.items)
            (λ fault. WhyNotFetched (state self.old) (state self.new) name.now max fault) };
}
