//! Why a derivation is refused; begin with `ProofFault`.

ghost use Rattle.std.specs.Prelude.{◌≡◌};
ghost use Rattle.ste_rules.specs.declared.fault.ProofFault.TheVariants.{OutOfMemory};

use std::alloc::{AllocError, AllocFailed};
use ste_base::Name;
use thiserror::Error;

/// Why lines are not read as a derivation. `line` is the number of the first faulty line. Where a
/// line has several faults, the one that stands first here is told.
#[derive(Debug, Drop, Error)]
pub enum ProofFault {
    /// The line has none of the forms, stands where it may not, has a text for an expression that
    /// is none, or numbers of consequents that do not rise.
    #[error("bad line")]
    BadLine { line: u32 },
    /// An expression of the line is nested above 100.
    #[error("too deep")]
    TooDeep { line: u32 },
    /// A step of this name was given before.
    #[error("double name")]
    DoubleName { line: u32, name: Name },
    /// The first name of the line that is that of no earlier step, or of no assertion of the task
    /// file.
    #[error("unknown name")]
    UnknownName { line: u32, name: Name },
    /// The first variable of the line that is not declared.
    #[error("unknown variable")]
    UnknownVar { line: u32, name: Name },
    /// The node names no net.
    #[error("unknown node")]
    UnknownNode { line: u32, name: Name },
    /// A step with `reset` is moved to later times.
    #[error("has reset")]
    HasReset { line: u32 },
    /// There is no consequent of one of the numbers.
    #[error("bad number")]
    BadNumber { line: u32 },
    /// An antecedent of the second step is covered by no quintuple of the first.
    #[error("not covered")]
    NotCovered { line: u32 },
    /// With the line there are more than 1,000 steps, or its step has a time above 100,000, more
    /// than 20,000 items, or an expression of more than 1,000 levels.
    #[error("too many")]
    TooMany { line: u32 },
    /// No line is faulty, and there is no step.
    #[error("no step")]
    NoStep,
    /// Out of memory.
    #[error("out of memory")]
    OutOfMemory,
}

impl From<AllocError> for ProofFault {
    ghost from_gives = { λ _ fault. fault ≡ OutOfMemory };

    fn from(_fault: AllocError) -> ProofFault {
        ProofFault::OutOfMemory
    }
}

impl<T: Drop> From<AllocFailed<T>> for ProofFault {
    ghost from_gives = { λ _ fault. fault ≡ OutOfMemory };

    fn from(_fault: AllocFailed<T>) -> ProofFault {
        ProofFault::OutOfMemory
    }
}
