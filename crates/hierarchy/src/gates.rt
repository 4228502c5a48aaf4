//! Gates that are too wide; begin with `refuse_wide_gates`.

ghost use Rattle.std.specs.Prelude.{◌≡◌, ◌⊎◌, ◌≤◌, All, IfErr, IfOk, None, OnOk, Some, nat_lt};
ghost use Rattle.net_core.specs.Cases.{cases_of};
ghost use Rattle.blif_syntax.specs.Covered.{AreCovered, IsCovered};
ghost use Rattle.hierarchy.specs.Faults.{HasGateTooWide, IsFree, is_too_wide};
ghost use Rattle.hierarchy.specs.private.Checks.{AreReachable, first_fault_in};
ghost use Rattle.hierarchy.specs.private.Kinds.{wide_gate};

use crate::checks::ItemAt;
use crate::fault::NetFault;
use blif_syntax::{Item, Model, What};
use net_core::{Cover, cases};
use std::alloc::{AllocError, Global};

/// The most inputs that a gate may have.
const MOST_INPUTS: usize = 1000;

/// The most cases that a gate may have.
const MOST_CASES: u32 = 65_536;

/// With so many inputs a gate has at most 65,536 cases, however its rows are.
const FEW_INPUTS: u32 = 16;

/// Whether a cover has more than 65,536 cases.
#[tactic(auto, using(crate::proofs::Cases::not_many))]
fn has_many_cases(alloc: Global, cover: &Cover) -> Result<bool, AllocError>
    requires { cover.now.inputs ≤ 1000 }
    ensures { IfOk result (λ many. many ≡ nat_lt 65536 (cases_of cover.now.inputs cover.now.rows)) }
{
    if cover.inputs <= FEW_INPUTS {
        return Ok(false);
    }
    Ok(cases(alloc, cover)? > MOST_CASES)
}

/// Whether a line is a gate that is too wide. The cover has as many inputs as the line names.
fn is_too_wide(alloc: Global, what: &What) -> Result<bool, AllocError>
    requires { IsCovered what.now }
    ensures { IfOk result (λ wide. wide ≡ is_too_wide what.now) }
{
    match what {
        What::Names { inputs, cover, .. } => {
            if inputs.as_slice().len() > MOST_INPUTS {
                return Ok(true);
            }
            has_many_cases(alloc, cover)
        }
        _ => Ok(false),
    }
}

/// Refuses a line that is a gate that is too wide.
fn refuse_wide_gate(alloc: Global, item: &Item) -> Result<(), NetFault>
    requires { IsCovered item.now.what }
    ensures ok { OnOk result (wide_gate item.now ≡ None) }
    ensures err { IfErr result (λ fault. (fault ≡ NetFault.OutOfMemory)
        ⊎ (wide_gate item.now ≡ Some fault)) }
{
    if is_too_wide(alloc, &item.what)? {
        return Err(NetFault::GateTooWide { line: item.line });
    }
    Ok(())
}

/// Refuses the first of the lines that are gates that are too wide.
fn first_wide_gate(alloc: Global, lines: &[ItemAt]) -> Result<(), NetFault>
    requires { All (λ at. IsCovered at.item.what) lines.now }
    ensures ok { OnOk result (first_fault_in (λ at. wide_gate at.item) lines.now ≡ None) }
    ensures err { IfErr result (λ fault. (fault ≡ NetFault.OutOfMemory)
        ⊎ (first_fault_in (λ at. wide_gate at.item) lines.now ≡ Some fault)) }
{
    for at in lines {
        refuse_wide_gate(alloc, at.item)?;
    }
    Ok(())
}

/// Refuses the first line of a reachable model that is a gate with more than 1,000 inputs or more
/// than 65,536 cases. `lines` has the items of just the reachable models.
pub(crate) fn refuse_wide_gates(
    alloc: Global,
    models: &[Model],
    lines: &[ItemAt],
) -> Result<(), NetFault>
    requires covered { AreCovered models.now }
    requires lines { AreReachable models.now lines.now }
    ensures ok { OnOk result (IsFree (HasGateTooWide models.now)) }
    ensures err { IfErr result (λ fault. (fault ≡ NetFault.OutOfMemory)
        ⊎ HasGateTooWide models.now fault) }
{
    first_wide_gate(alloc, lines)
}
