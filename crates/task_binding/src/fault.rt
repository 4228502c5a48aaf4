//! Why tasks are not bound; begin with `BindFault`.

ghost use Rattle.std.specs.Prelude.{◌≡◌};
ghost use Rattle.task_binding.specs.declared.fault.BindFault.TheVariants.{OutOfMemory};

use std::alloc::{AllocError, AllocFailed};
use ste_base::Name;
use thiserror::Error;

/// Why tasks are not bound to a netlist. `line` is a line of the task file.
#[derive(Debug, Drop, Error)]
pub enum BindFault {
    /// The node of this line names no net: the first such line.
    #[error("unknown node")]
    UnknownNode { line: u32, name: Name },
    /// With the task that begins on this line the tasks have more than 100,000,000 cells.
    #[error("task too large")]
    TooLarge { line: u32 },
    /// Out of memory.
    #[error("out of memory")]
    OutOfMemory,
}

impl From<AllocError> for BindFault {
    ghost from_gives = { λ _ fault. fault ≡ OutOfMemory };

    fn from(_fault: AllocError) -> BindFault {
        BindFault::OutOfMemory
    }
}

impl<T: Drop> From<AllocFailed<T>> for BindFault {
    ghost from_gives = { λ _ fault. fault ≡ OutOfMemory };

    fn from(_fault: AllocFailed<T>) -> BindFault {
        BindFault::OutOfMemory
    }
}
