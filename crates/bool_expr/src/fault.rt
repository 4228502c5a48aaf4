//! Why a text is refused; begin with `ExprFault`.

ghost use Rattle.std.specs.Prelude.{◌≡◌};
ghost use Rattle.bool_expr.specs.declared.fault.ExprFault.TheVariants.{OutOfMemory};

use std::alloc::{AllocError, AllocFailed};
use ste_base::Name;
use thiserror::Error;

/// Why a text is not read as an expression.
#[derive(Debug, Drop, Error)]
pub enum ExprFault {
    /// The text is no expression.
    #[error("bad expression")]
    BadExpr,
    /// The text is an expression that is nested above 100.
    #[error("too deep")]
    TooDeep,
    /// A variable is not declared: the first such in the text.
    #[error("unknown variable")]
    UnknownVar { name: Name },
    /// Out of memory.
    #[error("out of memory")]
    OutOfMemory,
}

impl From<AllocError> for ExprFault {
    ghost from_gives = { λ _ fault. fault ≡ OutOfMemory };

    fn from(_fault: AllocError) -> ExprFault {
        ExprFault::OutOfMemory
    }
}

impl<T: Drop> From<AllocFailed<T>> for ExprFault {
    ghost from_gives = { λ _ fault. fault ≡ OutOfMemory };

    fn from(_fault: AllocFailed<T>) -> ExprFault {
        ExprFault::OutOfMemory
    }
}
