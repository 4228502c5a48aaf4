//! What a failure shows: the least assignment, the run and the place; begin with `shown_of`.

ghost use Rattle.std.specs.Prelude.{◌≡◌, ◌≤◌, IfOk, None, length, take};
ghost use Rattle.ste_model.specs.declared.verdict.Verdict.TheVariants.{Pass};
ghost use Rattle.ste_model.specs.Asked.{cuts_at};
ghost use Rattle.ste_model.specs.Holds.{RunMeets};
ghost use Rattle.ste_model.specs.Runs.{run_of};
ghost use Rattle.exact_model.specs.ExactReport.{IsBrokenFirst};
ghost use Rattle.exact_engine.specs.private.Reporting.{IsLeastCounter, IsLeastFound, IsShownExactly};

use crate::breaking::first_broken;
use crate::running::{beyond, run_with};
use net_core::Net;
use std::alloc::{AllocError, Global};
use ste_base::{Items, NodeId, Time};
use ste_model::{Assertion, Run, Verdict};

/// The verdict, with what a failure shows: the least assignment, the place where the run breaks the
/// consequent, and this run. Where there is no failure all else is None.
#[derive(Drop)]
pub struct Shown {
    pub verdict: Verdict,
    pub least: Option<Items<bool>>,
    pub fails: Option<(NodeId, Time)>,
    pub run: Option<Run>,
}

/// The first bits of a list, so many.
pub fn front(alloc: Global, bits: &[bool], count: usize) -> Result<Items<bool>, AllocError>
    requires { count ≤ length bits.now }
    ensures { IfOk result (λ some. some ≡ take count bits.now) }
{
    let some: Vec<bool> = bits[..count].iter().copied().collect(alloc)?;
    Ok(some.into())
}

/// The place at which a run breaks the consequent, which it does not meet.
pub fn broken_place(run: &Run, bits: &[bool], task: &Assertion) -> (NodeId, Time)
    requires { ¬ RunMeets (cuts_at task.now.con bits.now) (run_of run.now) }
    ensures { IsBrokenFirst task.now bits.now (run_of run.now) result }
{
    match first_broken(run, bits, task) {
        Some(place) => place,
        None => unreachable!(),
    }
}

/// What is shown under the least assignment and the least choices that make a counterexample.
fn failure_shown(
    alloc: Global,
    net: &Net,
    task: &Assertion,
    vars: u32,
    all: &[bool],
) -> Result<Shown, AllocError>
    requires { IsLeastCounter net.now.raw vars task.now all.now }
    ensures { IfOk result (λ shown. IsShownExactly net.now.raw vars task.now shown) }
{
    let bits = front(alloc, all, vars as usize)?;
    let told = run_with(alloc, net, task, beyond(all, vars as usize))?;
    let place = broken_place(&told, bits.as_slice(), task);
    Ok(Shown {
        verdict: Verdict::Strong,
        least: Some(bits),
        fails: Some(place),
        run: Some(told),
    })
}

/// The verdict where there is no failure, which shows nothing.
pub fn pass_shown() -> Shown
    ensures { result ≡ record { verdict = Pass; least = None; fails = None; run = None } }
{
    Shown {
        verdict: Verdict::Pass,
        least: None,
        fails: None,
        run: None,
    }
}

/// The verdict with what is shown, from the least assignment and choices, where there are such,
/// that make a counterexample.
pub fn shown_of(
    alloc: Global,
    net: &Net,
    task: &Assertion,
    vars: u32,
    least: Option<Items<bool>>,
) -> Result<Shown, AllocError>
    requires { IsLeastFound net.now.raw vars task.now least }
    ensures { IfOk result (λ shown. IsShownExactly net.now.raw vars task.now shown) }
{
    match least {
        Some(all) => failure_shown(alloc, net, task, vars, all.as_slice()),
        None => Ok(pass_shown()),
    }
}
