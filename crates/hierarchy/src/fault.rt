//! Why a hierarchy is refused; begin with `NetFault`.

ghost use Rattle.std.specs.Prelude.{◌≡◌};
ghost use Rattle.hierarchy.specs.declared.fault.NetFault.TheVariants.{OutOfMemory};

use std::alloc::{AllocError, AllocFailed};
use ste_base::Name;
use thiserror::Error;

/// Why a netlist has no flat net, in the order in which the kinds are chosen. `line` is the number
/// of the faulty line. It is the first of its kind: of the file among all models for a double
/// model, of the file among the models that the top reaches for the other kinds of lines, and by
/// instance in preorder and then by line for the last two kinds.
#[derive(Debug, Drop, Error)]
pub enum NetFault {
    /// An earlier model has the model's name.
    #[error("double model")]
    DoubleModel { line: u32, name: Name },
    /// A use names no model.
    #[error("unknown model")]
    UnknownModel { line: u32, name: Name },
    /// A use names a model that reaches the model of its own line.
    #[error("recursive model")]
    Recursive { line: u32, name: Name },
    /// A use binds a name that is no formal of the model that it names, or binds a formal twice.
    #[error("bad formal")]
    BadFormal { line: u32, name: Name },
    /// A use leaves a word of an `.inputs` line of the model that it names unbound.
    #[error("missing formal")]
    MissingFormal { line: u32, name: Name },
    /// A gate has more than 1,000 inputs, or more than 65,536 cases.
    #[error("cover too wide")]
    GateTooWide { line: u32 },
    /// Some instance lies more than 64 levels below the top.
    #[error("hierarchy too deep")]
    TooDeep,
    /// There are more than 200,000 nets, or the size is above 4,000,000: over all instances one,
    /// and one for each word that names a signal.
    #[error("too many nodes")]
    TooManyNodes,
    /// A gate or latch drives a net that is an input or has an earlier driver; `name` is the net's
    /// own name.
    #[error("driven twice")]
    DrivenTwice { line: u32, name: Name },
    /// A latch has another type, or another control net, than the first latch that has one; `name`
    /// is the own name of its output's net.
    #[error("mixed clocks")]
    MixedClocks { line: u32, name: Name },
    /// Out of memory.
    #[error("out of memory")]
    OutOfMemory,
}

impl From<AllocError> for NetFault {
    ghost from_gives = { λ _ fault. fault ≡ OutOfMemory };

    fn from(_fault: AllocError) -> NetFault {
        NetFault::OutOfMemory
    }
}

impl<T: Drop> From<AllocFailed<T>> for NetFault {
    ghost from_gives = { λ _ fault. fault ≡ OutOfMemory };

    fn from(_fault: AllocFailed<T>) -> NetFault {
        NetFault::OutOfMemory
    }
}
