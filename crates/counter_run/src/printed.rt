//! The run that is printed for a failure of an assertion; begin with `ste_run`.

ghost use Rattle.std.specs.Prelude.{IfOk};
ghost use Rattle.ste_model.specs.Runs.{HasRows, run_of};
ghost use Rattle.ste_model.specs.Asked.{cuts_at, depth};
ghost use Rattle.ste_model.specs.Found.{IsContradictory};
ghost use Rattle.ste_model.specs.Holds.{RunMeets};
ghost use Rattle.ste_model.specs.Shown.{AsksOfNets, IsBindable, IsPrinted};
ghost use Rattle.ste_model.specs.declared.task.Task.TheVariants.{Ste};
ghost use Rattle.counter_run.specs.Starts.{AsksNoWeakStart};

use crate::asked::{put_quints, start_rows};
use crate::completion::run_from;
use net_core::Net;
use std::alloc::{AllocError, Global};
use ste_model::{Assertion, Run, depth};

/// The run in which what the antecedent asks is there, and 0 where it asks nothing: the printed run
/// where the assignment is not contradictory, and no latch output of which the antecedent asks
/// something at time 0 is weakened then.
pub fn run_as_asked(
    alloc: Global,
    net: &Net,
    task: &Assertion,
    bits: &[bool],
) -> Result<Run, AllocError>
    requires nets { AsksOfNets net.now.raw (Ste task.now) }
    ensures rows { IfOk result (λ run. HasRows net.now.raw.nets (depth task.now) run) }
    ensures printed { IfOk result (λ run. ¬ IsContradictory net.now.raw task.now bits.now
        → AsksNoWeakStart net.now.raw task.now bits.now
        → IsPrinted net.now.raw task.now bits.now (run_of run)) }
{
    let times = depth(task);
    let mut rows = start_rows(alloc, net, task.reset, times)?;
    put_quints(rows.as_mut_slice(), bits, task.ant.as_slice());
    let made = run_from(alloc, net, times, rows)?;
    Ok(made)
}

/// The printed run of an assertion under an assignment, which has a bit for each variable and is
/// not contradictory: it has the antecedent's bits, and 0 at every other input and free net and
/// first value of a latch that nothing fixes. Its length is the depth of the assertion. It meets
/// the antecedent, which has to be bindable, over nets of the net.
///
/// The time is linear in the size of the net times the depth, and in the times of the antecedent's
/// quintuples; it takes a vector for each net.
pub fn ste_run(alloc: Global, net: &Net, task: &Assertion, bits: &[bool]) -> Result<Run, AllocError>
    requires nets { AsksOfNets net.now.raw (Ste task.now) }
    requires bindable { IsBindable net.now.raw (Ste task.now) }
    requires possible { ¬ IsContradictory net.now.raw task.now bits.now }
    ensures rows { IfOk result (λ run. HasRows net.now.raw.nets (depth task.now) run) }
    ensures printed { IfOk result (λ run. IsPrinted net.now.raw task.now bits.now (run_of run)) }
    ensures meets { IfOk result (λ run. RunMeets (cuts_at task.now.ant bits.now) (run_of run)) }
{
    let made = run_as_asked(alloc, net, task, bits)?;
    Ok(made)
}
