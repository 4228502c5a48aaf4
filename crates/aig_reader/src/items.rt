//! The items of a model; begin with `and_item`.

ghost use Rattle.std.specs.Prelude.{◌≡◌, ◌∷◌, [], IfOk};
ghost use Rattle.aig_model.specs.Netlist.{and_item, item_at, latch_item, lit_of, one_row, opposite_item, output_item, zero_item};

use crate::naming::{Naming, own_opposite};
use crate::words::{is_odd, variable_of};
use aig_model::{AigAnd, AigLatch, AigOutput};
use blif_syntax::{Item, LatchKind, What};
use net_core::{Cover, Lit};
use std::alloc::{AllocError, Global};
use ste_base::{Items, Name};

/// What a row asks of a literal's variable.
fn lit_of(literal: u32) -> Lit
    ensures { result ≡ lit_of literal }
{
    if is_odd(literal) { Lit::Zero } else { Lit::One }
}

/// A cover of one input, with one on-row.
fn one_input(alloc: Global, lit: Lit) -> Result<Cover, AllocError>
    ensures { IfOk result (λ cover. cover ≡ one_row 1 (lit ∷ [])) }
{
    let mut row = Items::new(alloc);
    row.push(lit)?;
    let mut rows = Items::new(alloc);
    rows.push(row)?;
    Ok(Cover {
        inputs: 1,
        on: true,
        rows,
    })
}

/// A cover of two inputs, with one on-row.
fn two_inputs(alloc: Global, left: Lit, right: Lit) -> Result<Cover, AllocError>
    ensures { IfOk result (λ cover. cover ≡ one_row 2 (left ∷ right ∷ [])) }
{
    let mut row = Items::new(alloc);
    row.push(left)?;
    row.push(right)?;
    let mut rows = Items::new(alloc);
    rows.push(row)?;
    Ok(Cover {
        inputs: 2,
        on: true,
        rows,
    })
}

/// The list of one name.
fn one_name(alloc: Global, name: Name) -> Result<Items<Name>, AllocError>
    ensures { IfOk result (λ names. names ≡ name ∷ []) }
{
    let mut names = Items::new(alloc);
    names.push(name)?;
    Ok(names)
}

/// The item of a latch.
pub fn latch_item(alloc: Global, naming: &Naming, latch: &AigLatch) -> Result<Item, AllocError>
    ensures { IfOk result (λ item. item ≡ latch_item naming.now latch.now) }
{
    let input = naming.literal_name(alloc, latch.next)?;
    let output = naming.variable_name(alloc, latch.var)?;
    Ok(Item {
        line: latch.line,
        what: What::Latch {
            input,
            output,
            kind: LatchKind::Plain,
            control: None,
            init: latch.init,
        },
    })
}

/// The item of an AND.
pub fn and_item(alloc: Global, naming: &Naming, gate: &AigAnd) -> Result<Item, AllocError>
    ensures { IfOk result (λ item. item ≡ and_item naming.now gate.now) }
{
    let mut inputs = Items::new(alloc);
    inputs.push(naming.variable_name(alloc, variable_of(gate.left))?)?;
    inputs.push(naming.variable_name(alloc, variable_of(gate.right))?)?;
    let output = naming.variable_name(alloc, gate.var)?;
    let cover = two_inputs(alloc, lit_of(gate.left), lit_of(gate.right))?;
    Ok(Item {
        line: gate.line,
        what: What::Names {
            inputs,
            output,
            cover,
        },
    })
}

/// The item of an output of this name.
pub fn output_item(
    alloc: Global,
    naming: &Naming,
    output: &AigOutput,
    name: &Name,
) -> Result<Item, AllocError>
    ensures { IfOk result (λ item. item ≡ output_item naming.now output.now name.now) }
{
    let input = naming.variable_name(alloc, variable_of(output.literal))?;
    let inputs = one_name(alloc, input)?;
    let cover = one_input(alloc, lit_of(output.literal))?;
    Ok(Item {
        line: output.line,
        what: What::Names {
            inputs,
            output: name.clone()?,
            cover,
        },
    })
}

/// An inverter, which gives the opposite of a variable.
pub fn opposite_item(alloc: Global, naming: &Naming, var: u32) -> Result<Item, AllocError>
    ensures { IfOk result (λ item. item ≡ opposite_item naming.now var) }
{
    let inputs = one_name(alloc, naming.variable_name(alloc, var)?)?;
    let output = own_opposite(alloc, var)?;
    let cover = one_input(alloc, Lit::Zero)?;
    Ok(Item {
        line: 1,
        what: What::Names {
            inputs,
            output,
            cover,
        },
    })
}

/// A cover without inputs and rows, which gives variable 0.
pub fn zero_item(alloc: Global, naming: &Naming) -> Result<Item, AllocError>
    ensures { IfOk result (λ item. item ≡ zero_item naming.now) }
{
    let output = naming.variable_name(alloc, 0)?;
    Ok(Item {
        line: 1,
        what: What::Names {
            inputs: Items::new(alloc),
            output,
            cover: Cover {
                inputs: 0,
                on: true,
                rows: Items::new(alloc),
            },
        },
    })
}
