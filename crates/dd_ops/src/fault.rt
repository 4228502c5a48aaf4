//! Why an operation has no result.

ghost use Rattle.std.specs.Prelude.{◌≡◌};
ghost use Rattle.dd_ops.specs.declared.fault.OpFault.TheVariants.{OutOfMemory};

use dd_nodes::MkFault;
use std::alloc::AllocError;
use thiserror::Error;

/// Why an operation has no result.
#[derive(Clone, Copy, Debug, PartialEq, Eq, Drop, Error)]
pub enum OpFault {
    /// A node of the result is new, and the store may make no more.
    #[error("no step is left for a new node")]
    StepsOut,
    /// There is no memory for a node, or for what the call remembers.
    #[error("out of memory")]
    OutOfMemory,
}

impl From<MkFault> for OpFault {
    ghost use Rattle.std.specs.Prelude.{◌≡◌};
    ghost use Rattle.dd_ops.specs.Answer.{op_fault};

    ghost from_gives = { λ fault result. result ≡ op_fault fault };

    fn from(fault: MkFault) -> OpFault {
        match fault {
            MkFault::StepsOut => OpFault::StepsOut,
            MkFault::OutOfMemory => OpFault::OutOfMemory,
        }
    }
}

impl From<AllocError> for OpFault {
    ghost from_gives = { λ _ fault. fault ≡ OutOfMemory };

    fn from(_fault: AllocError) -> OpFault {
        OpFault::OutOfMemory
    }
}
