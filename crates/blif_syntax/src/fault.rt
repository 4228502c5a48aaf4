//! Why a netlist is refused; begin with `BlifFault`.

ghost use Rattle.std.specs.Prelude.{◌≡◌};
ghost use Rattle.blif_syntax.specs.declared.fault.BlifFault.TheVariants.{OutOfMemory};

use std::alloc::{AllocError, AllocFailed};
use ste_base::Name;
use thiserror::Error;

/// Why lines are not read as models. `line` is the number of the first faulty line.
#[derive(Debug, Drop, Error)]
pub enum BlifFault {
    /// The line has none of the forms, or stands where it may not.
    #[error("bad line")]
    BadLine { line: u32 },
    /// The line's first word begins with a dot and is none that is known.
    #[error("unknown word")]
    UnknownWord { line: u32, word: Name },
    /// The line has a word of the lines that are left out.
    #[error("left out")]
    LeftOut { line: u32, word: Name },
    /// No line is faulty, and no line starts a model.
    #[error("no model")]
    NoModel,
    /// Out of memory.
    #[error("out of memory")]
    OutOfMemory,
}

impl From<AllocError> for BlifFault {
    ghost from_gives = { λ _ fault. fault ≡ OutOfMemory };

    fn from(_fault: AllocError) -> BlifFault {
        BlifFault::OutOfMemory
    }
}

impl<T: Drop> From<AllocFailed<T>> for BlifFault {
    ghost from_gives = { λ _ fault. fault ≡ OutOfMemory };

    fn from(_fault: AllocFailed<T>) -> BlifFault {
        BlifFault::OutOfMemory
    }
}
