//! Why a task file is refused; begin with `TaskFault`.

ghost use Rattle.std.specs.Prelude.{◌≡◌};
ghost use Rattle.assert_syntax.specs.declared.fault.TaskFault.TheVariants.{OutOfMemory};

use std::alloc::{AllocError, AllocFailed};
use ste_base::Name;
use thiserror::Error;

/// Why lines are not read as tasks. `line` is the number of the first faulty line.
#[derive(Debug, Drop, Error)]
pub enum TaskFault {
    /// The line has none of the forms, stands where it may not, or has a text for an expression
    /// that is none.
    #[error("bad line")]
    BadLine { line: u32 },
    /// An expression of the line is nested above 100.
    #[error("too deep")]
    TooDeep { line: u32 },
    /// The line declares a variable or names a task a second time: the first such name.
    #[error("double name")]
    DoubleName { line: u32, name: Name },
    /// An expression of the line uses a variable that is not declared: the first such in the line.
    #[error("unknown variable")]
    UnknownVar { line: u32, name: Name },
    /// With this line there are more than 4,000 variables, 256 tasks, or 1,000 vertices or 10,000
    /// edges of a graph, or a time of the line is above 100,000.
    #[error("too many")]
    TooMany { line: u32 },
    /// No line is faulty, and no line starts a task.
    #[error("no task")]
    NoTask,
    /// Out of memory.
    #[error("out of memory")]
    OutOfMemory,
}

impl From<AllocError> for TaskFault {
    ghost from_gives = { λ _ fault. fault ≡ OutOfMemory };

    fn from(_fault: AllocError) -> TaskFault {
        TaskFault::OutOfMemory
    }
}

impl<T: Drop> From<AllocFailed<T>> for TaskFault {
    ghost from_gives = { λ _ fault. fault ≡ OutOfMemory };

    fn from(_fault: AllocFailed<T>) -> TaskFault {
        TaskFault::OutOfMemory
    }
}
