//! The steps that are read so far; begin with `Steps`.

ghost use Rattle.std.specs.Prelude.{◌≡◌, ◌++◌, ◌∷◌, [], IfOk, IfErr, OnOk, Result, Ok, false, bytes_eq};
ghost use Rattle.std.specs.List.{list_any};
ghost use Rattle.rule_model.specs.Claims.{Claim};
ghost use Rattle.ste_rules.specs.Steps as said;
ghost use Rattle.ste_rules.specs.Steps.{StepFault, and_then, fresh, step_named, begun, no_steps, with_leaf};
ghost use Rattle.ste_rules.specs.private.Held.{step_claim, steps_held};
ghost use Rattle.ste_rules.specs.private.Turns.{IsTold, IsTurn};

use crate::fault::ProofFault;
use crate::form::Growth;
use crate::sizes::step_fits;
use crate::step::Step;
use indexmap::IndexSet;
use std::alloc::{AllocError, Global};
use ste_base::{Items, Name};

/// The greatest number of steps.
const MAX_STEPS: usize = 1_000;

/// The steps that are read so far: their names, what they claim, the numbers of the tasks of the
/// leaves, and what an `.ant` line adds to.
#[derive(Drop)]
pub struct Steps {
    pub names: IndexSet<Name>,
    pub claims: Vec<Step>,
    pub leaves: Items<u32>,
    pub growth: Growth,
}

/// Adds a name that is not there.
fn add_name(names: &mut IndexSet<Name>, name: &Name) -> Result<(), AllocError>
    requires { list_any (bytes_eq name.now) names.old.keys ≡ false }
    ensures { OnOk result (names.new.keys ≡ names.old.keys ++ name.now ∷ []) }
{
    names.insert(name.clone()?)?;
    Ok(())
}

impl Steps {
    /// Before the first line.
    pub fn new(alloc: Global) -> Steps
        ensures { steps_held result ≡ no_steps }
    {
        Steps {
            names: IndexSet::new(alloc),
            claims: Vec::new(alloc),
            leaves: Items::new(alloc),
            growth: Growth::Closed,
        }
    }

    /// That no step has this name.
    pub fn fresh(&self, line: u32, name: &Name) -> Result<(), ProofFault>
        ensures ok { IfOk result (λ _. fresh (steps_held self.now) name.now ≡ Ok tt) }
        ensures new { IfOk result (λ _. list_any (bytes_eq name.now) self.now.names.keys ≡ false) }
        ensures err { IfErr result (λ fault.
            IsTold line (fresh (steps_held self.now) name.now) fault) }
    {
        if self.names.contains(name) {
            return Err(ProofFault::DoubleName {
                line,
                name: name.clone()?,
            });
        }
        Ok(())
    }

    /// The step of this name.
    fn step_named(&self, line: u32, name: &Name) -> Result<&Step, ProofFault>
        ensures ok { IfOk result (λ step. step_named (steps_held self.now) name.now
            ≡ Ok (step_claim step.now)) }
        ensures err { IfErr result (λ fault.
            IsTold line (step_named (steps_held self.now) name.now) fault) }
    {
        if let Some(place) = self.names.get_index_of(name)
            && let Some(step) = self.claims.get(place)
        {
            return Ok(step);
        }
        Err(ProofFault::UnknownName {
            line,
            name: name.clone()?,
        })
    }

    /// The step of a name, for a new one.
    pub fn one_named(&self, line: u32, name: &Name, one: &Name) -> Result<&Step, ProofFault>
        ensures new { IfOk result (λ _. list_any (bytes_eq name.now) self.now.names.keys ≡ false) }
        ensures ok { IfOk result (λ step. (f : Claim → Result said.Steps StepFault) →
            and_then (fresh (steps_held self.now) name.now) (λ _.
            and_then (step_named (steps_held self.now) one.now) f) ≡ f (step_claim step.now)) }
        ensures err { IfErr result (λ fault. (f : Claim → Result said.Steps StepFault) →
            IsTold line (and_then (fresh (steps_held self.now) name.now) (λ _.
            and_then (step_named (steps_held self.now) one.now) f)) fault) }
    {
        self.fresh(line, name)?;
        self.step_named(line, one)
    }

    /// The steps of two names, for a new one.
    pub fn two_named(
        &self,
        line: u32,
        name: &Name,
        one: &Name,
        other: &Name,
    ) -> Result<(&Step, &Step), ProofFault>
        ensures new { IfOk result (λ _. list_any (bytes_eq name.now) self.now.names.keys ≡ false) }
        ensures ok { IfOk result (λ both. (f : Claim → Claim → Result said.Steps StepFault) →
            and_then (fresh (steps_held self.now) name.now) (λ _.
            and_then (step_named (steps_held self.now) one.now) (λ first.
            and_then (step_named (steps_held self.now) other.now) (λ second. f first second)))
            ≡ f (step_claim both.0.now) (step_claim both.1.now)) }
        ensures err { IfErr result (λ fault. (f : Claim → Claim → Result said.Steps StepFault) →
            IsTold line (and_then (fresh (steps_held self.now) name.now) (λ _.
            and_then (step_named (steps_held self.now) one.now) (λ first.
            and_then (step_named (steps_held self.now) other.now) (λ second.
            f first second)))) fault) }
    {
        let first = match self.one_named(line, name, one) {
            Ok(first) => first,
            Err(fault) => return Err(fault),
        };
        match self.step_named(line, other) {
            Ok(second) => Ok((first, second)),
            Err(fault) => Err(fault),
        }
    }

    /// Adds a step.
    pub fn begin(
        &mut self,
        line: u32,
        name: &Name,
        step: Step,
        growth: Growth,
    ) -> Result<(), ProofFault>
        requires new { list_any (bytes_eq name.now) self.old.names.keys ≡ false }
        ensures { IsTurn line (begun (steps_held self.old) name.now (step_claim step) growth)
            (steps_held self.new) result }
    {
        if !step_fits(&step) || self.names.len() >= MAX_STEPS {
            return Err(ProofFault::TooMany { line });
        }
        add_name(&mut self.names, name)?;
        self.claims.push(step)?;
        self.growth = growth;
        Ok(())
    }
}
