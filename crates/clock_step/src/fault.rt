//! Why an input file is refused; begin with `InputFault`.

ghost use Rattle.std.specs.Prelude.{◌≡◌};
ghost use Rattle.clock_step.specs.declared.fault.InputFault.TheVariants.{OutOfMemory};

use std::alloc::{AllocError, AllocFailed};
use ste_base::Name;
use thiserror::Error;

/// Why lines are not read as inputs. `line` is the number of the first faulty line, and a fault
/// further up goes before.
#[derive(Debug, Drop, Error)]
pub enum InputFault {
    /// The line has another form than its place asks for.
    #[error("bad line")]
    BadLine { line: u32 },
    /// The name names the net of a name before it: the first such name.
    #[error("double name")]
    DoubleName { line: u32, name: Name },
    /// The name names no net: the first such name.
    #[error("unknown node")]
    UnknownNode { line: u32, name: Name },
    /// The name names a net that is neither an input nor free: the first such name.
    #[error("not an input")]
    NotAnInput { line: u32, name: Name },
    /// The row is the 10,001st, or with it the rows times the nets are above 100,000,000.
    #[error("too many")]
    TooMany { line: u32 },
    /// Out of memory.
    #[error("out of memory")]
    OutOfMemory,
}

impl From<AllocError> for InputFault {
    ghost from_gives = { λ _ fault. fault ≡ OutOfMemory };

    fn from(_fault: AllocError) -> InputFault {
        InputFault::OutOfMemory
    }
}

impl<T: Drop> From<AllocFailed<T>> for InputFault {
    ghost from_gives = { λ _ fault. fault ≡ OutOfMemory };

    fn from(_fault: AllocFailed<T>) -> InputFault {
        InputFault::OutOfMemory
    }
}
