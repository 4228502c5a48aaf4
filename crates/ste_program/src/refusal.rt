//! Why there is no report: `Refusal`, one variant for each cause.
ghost use Rattle.std.specs.Prelude.{◌≡◌};
ghost use Rattle.ste_program.specs.declared.refusal.Refusal.TheVariants as refusal;
ghost use Rattle.ste_program.specs.Refused.{aig_refused, binding_refused, hierarchy_refused, inputs_refused, netlist_refused, tasks_refused};

use aig_model::AigFault;
use assert_syntax::TaskFault;
use blif_syntax::BlifFault;
use clock_step::InputFault;
use hierarchy::NetFault;
use std::alloc::AllocError;
use ste_base::Name;
use task_binding::BindFault;

/// Which file of a command.
#[derive(Clone, Copy, PartialEq, Eq)]
pub enum File {
    /// The netlist's.
    Net,
    /// The tasks' of a check, or the inputs' of a simulation.
    Second,
}

/// Why there is no report. Each refusal has one line on the error sink. The faults that are carried
/// never say that memory is out, which is `OutOfMemory`.
#[derive(Drop)]
pub enum Refusal {
    /// The words are no command.
    Usage,
    /// The file could not be read, or is not there.
    CannotRead(File),
    /// The file has more bytes than are read.
    TooLarge(File),
    /// The netlist's text, as BLIF, has a faulty line, or no model.
    Netlist(BlifFault),
    /// The netlist's text, as AIGER, has a faulty line.
    Aig(AigFault),
    /// The tasks' text has a faulty line, or no task.
    Tasks(TaskFault),
    /// The netlist has no flat net.
    Hierarchy(NetFault),
    /// Gates drive one another in a loop: the own name of the least net that does not settle.
    Loop(Name),
    /// A node of the tasks names no net, or the tasks are too large.
    Binding(BindFault),
    /// The inputs' text has a faulty line.
    Inputs(InputFault),
    /// The node steps of all tasks together are too many.
    TooManySteps,
    OutOfMemory,
}

impl From<BlifFault> for Refusal {
    ghost from_gives = { λ fault found. found ≡ netlist_refused fault };

    fn from(fault: BlifFault) -> Refusal {
        match fault {
            BlifFault::OutOfMemory => Refusal::OutOfMemory,
            fault => Refusal::Netlist(fault),
        }
    }
}

impl From<AigFault> for Refusal {
    ghost from_gives = { λ fault found. found ≡ aig_refused fault };

    fn from(fault: AigFault) -> Refusal {
        match fault {
            AigFault::OutOfMemory => Refusal::OutOfMemory,
            fault => Refusal::Aig(fault),
        }
    }
}

impl From<TaskFault> for Refusal {
    ghost from_gives = { λ fault found. found ≡ tasks_refused fault };

    fn from(fault: TaskFault) -> Refusal {
        match fault {
            TaskFault::OutOfMemory => Refusal::OutOfMemory,
            fault => Refusal::Tasks(fault),
        }
    }
}

impl From<NetFault> for Refusal {
    ghost from_gives = { λ fault found. found ≡ hierarchy_refused fault };

    fn from(fault: NetFault) -> Refusal {
        match fault {
            NetFault::OutOfMemory => Refusal::OutOfMemory,
            fault => Refusal::Hierarchy(fault),
        }
    }
}

impl From<BindFault> for Refusal {
    ghost from_gives = { λ fault found. found ≡ binding_refused fault };

    fn from(fault: BindFault) -> Refusal {
        match fault {
            BindFault::OutOfMemory => Refusal::OutOfMemory,
            fault => Refusal::Binding(fault),
        }
    }
}

impl From<InputFault> for Refusal {
    ghost from_gives = { λ fault found. found ≡ inputs_refused fault };

    fn from(fault: InputFault) -> Refusal {
        match fault {
            InputFault::OutOfMemory => Refusal::OutOfMemory,
            fault => Refusal::Inputs(fault),
        }
    }
}

impl From<AllocError> for Refusal {
    ghost from_gives = { λ _ found. found ≡ refusal.OutOfMemory };

    fn from(_: AllocError) -> Refusal {
        Refusal::OutOfMemory
    }
}
