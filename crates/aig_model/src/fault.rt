//! Why a text is refused; begin with `AigFault`.

ghost use Rattle.std.specs.Prelude.{◌≡◌};
ghost use Rattle.aig_model.specs.declared.fault.AigFault.TheVariants.{OutOfMemory};

use std::alloc::{AllocError, AllocFailed};
use ste_base::Name;
use thiserror::Error;

/// Why a text is not read as ASCII AIGER. `line` is the number of the first faulty line.
#[derive(Debug, Drop, Error)]
pub enum AigFault {
    /// The line has not the form that its place asks for, it defines a variable that an earlier
    /// line defines, or the text ends before it.
    #[error("bad line")]
    BadLine { line: u32 },
    /// The line is the header, and one of its further numbers is not 0: the first such number, as
    /// it is written.
    #[error("left out")]
    LeftOut { line: u32, word: Name },
    /// Out of memory.
    #[error("out of memory")]
    OutOfMemory,
}

impl From<AllocError> for AigFault {
    ghost from_gives = { λ _ fault. fault ≡ OutOfMemory };

    fn from(_fault: AllocError) -> AigFault {
        AigFault::OutOfMemory
    }
}

impl<T: Drop> From<AllocFailed<T>> for AigFault {
    ghost from_gives = { λ _ fault. fault ≡ OutOfMemory };

    fn from(_fault: AllocFailed<T>) -> AigFault {
        AigFault::OutOfMemory
    }
}
