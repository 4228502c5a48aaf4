//! What `sim` writes: the outputs of the run on given inputs.
ghost use Rattle.std.specs.Prelude.{◌≡◌, ◌≤◌, ◌<◌, ◌++◌, ℕ, Bool, List, All, IfOk, IsTrue, MatchResult, true, length, flat_map};
ghost use Rattle.blif_syntax.specs.declared.models.Model.{Model};
ghost use Rattle.clock_step.specs.Order.{is_undriven};
ghost use Rattle.clock_step.specs.Simulation.{AreOutputs};
ghost use Rattle.ste_program.specs.Netlist.{IsNetlist};
ghost use Rattle.ste_program.specs.Order.{IsFirstRefusal, sim_stages};
ghost use Rattle.ste_program.specs.Report.{greatest};
ghost use Rattle.ste_program.specs.Simulated.{IsSimulated, name_part, outputs_line, sim_text};
ghost use Rattle.ste_program.specs.private.Made.{IsNetOf};
ghost use Rattle.ste_program.specs.private.Simulated.{AreGiven, AreNotGiven, own_names};
ghost use Rattle.ste_program.specs.private.Texts.{OrMemory};

use crate::netlist::{FlatNet, netlist_of};
use crate::refusal::Refusal;
use crate::report::Written;
use blif_lines::logical_lines;
use clock_step::{Inputs, read_inputs, simulate};
use net_names::NetNames;
use report_text::put_codes;
use std::alloc::{AllocError, Global};
use ste_base::{Items, NodeId};

/// The inputs that the text of an input file spells. The text is dropped once its lines are there.
fn inputs_of(alloc: Global, flat: &FlatNet, text: Vec<u8>) -> Result<Inputs, Refusal>
    requires { length text.items ≤ greatest }
    ensures { MatchResult result
        (λ inputs. AreGiven flat.now.net.raw flat.now.names text.items inputs)
        (λ found. OrMemory (AreNotGiven flat.now.net.raw flat.now.names text.items) found) }
{
    let lines = logical_lines(alloc, &text)?;
    drop(text);
    Ok(read_inputs(alloc, lines.as_slice(), &flat.net, &flat.names)?)
}

/// Puts the line of one time behind a text.
fn put_row(text: &mut Vec<u8>, row: &[bool]) -> Result<(), AllocError>
    ensures { IfOk result (λ _. text.new.items ≡ text.old.items ++ outputs_line row.now) }
{
    put_codes(text, row)?;
    text.push(b'\n')?;
    Ok(())
}

/// Puts the names of nets behind a text, each behind a space.
fn put_names(text: &mut Vec<u8>, names: &NetNames, ids: &[NodeId]) -> Result<(), AllocError>
    requires { All (λ id. id.0 < length names.now.own) ids.now }
    ensures { IfOk result (λ _. text.new.items
        ≡ text.old.items ++ flat_map name_part (own_names names.now ids.now)) }
{
    for id in ids {
        text.extend_from_slice(b" ")?;
        text.extend_from_slice(names.name(*id).bytes())?;
    }
    Ok(())
}

/// The names of nets, and rows with a bit for each.
fn sim_text(
    alloc: Global,
    names: &NetNames,
    ids: &[NodeId],
    rows: &[Items<bool>],
) -> Result<Vec<u8>, AllocError>
    requires { All (λ id. id.0 < length names.now.own) ids.now }
    ensures { IfOk result (λ text. text.items ≡ sim_text (own_names names.now ids.now) rows.now) }
{
    let mut text = b"outputs".to_vec(alloc)?;
    put_names(&mut text, names, ids)?;
    text.push(b'\n')?;
    for row in rows {
        put_row(&mut text, row.as_slice())?;
    }
    Ok(text)
}

/// The outputs of the run on the inputs.
fn text_of(alloc: Global, flat: &FlatNet, inputs: Inputs) -> Result<Vec<u8>, AllocError>
    requires undriven { All (λ node. IsTrue (is_undriven flat.now.net.raw node.0)) inputs.nodes }
    requires named { length flat.now.names.own ≡ flat.now.net.raw.nets }
    ensures { IfOk result (λ text. (rows : List (List Bool))
        × AreOutputs flat.now.net.raw inputs rows
        × (text.items ≡ sim_text (own_names flat.now.names flat.now.net.raw.outputs) rows)) }
{
    let rows = simulate(alloc, &flat.net, &inputs)?;
    sim_text(alloc, &flat.names, flat.net.outputs(), rows.as_slice())
}

/// What `sim` writes on a flat net with the names of its nets, and the text of an input file.
fn outputs_of(alloc: Global, flat: &FlatNet, input_text: Vec<u8>) -> Result<Written, Refusal>
    requires named { length flat.now.names.own ≡ flat.now.net.raw.nets }
    requires inputs { length input_text.items ≤ greatest }
    ensures { (net_text : List ℕ) (models : List Model) → IsNetlist net_text models →
        IsNetOf models flat.now.net.raw flat.now.names → MatchResult result
        (λ report. (report.passes ≡ true) × IsSimulated net_text input_text.items report.bytes)
        (λ found. OrMemory (IsFirstRefusal (sim_stages net_text input_text.items)) found) }
{
    let inputs = inputs_of(alloc, flat, input_text)?;
    let bytes = text_of(alloc, flat, inputs)?;
    Ok(Written {
        bytes: bytes.into(),
        passes: true,
    })
}

/// What `sim` writes on the texts of a netlist and of an input file.
pub fn simulated(alloc: Global, net_text: Vec<u8>, input_text: Vec<u8>) -> Result<Written, Refusal>
    requires net { length net_text.items ≤ greatest }
    requires inputs { length input_text.items ≤ greatest }
    ensures { MatchResult result
        (λ report. (report.passes ≡ true)
        × IsSimulated net_text.items input_text.items report.bytes)
        (λ found. OrMemory (IsFirstRefusal (sim_stages net_text.items input_text.items)) found) }
{
    let flat = netlist_of(alloc, net_text)?;
    outputs_of(alloc, &flat, input_text)
}
