//! From the lines of an input file to the bits that it gives; begin with `read_inputs`.

ghost use Rattle.std.specs.Prelude.{◌≡◌, All, IfOk, IsTrue};
ghost use Rattle.clock_step.specs.Answer.{IsInputsAnswer};
ghost use Rattle.clock_step.specs.Order.{is_undriven};

use crate::fault::InputFault;
use crate::inputs::Inputs;
use crate::order::read_order;
use crate::rows::read_rows;
use blif_lines::Line;
use net_core::{Net, Resolve};
use std::alloc::Global;
use ste_base::Items;

/// Reads the inputs of a net that the lines of an input file spell: the nets of the names behind
/// `.order`, and a row for each line behind the first. A file without lines has no names and no
/// rows. The fault is that of the first line that has one, and on one line the first of these:
///
/// - `BadLine`: the first line does not begin with `.order`; or a later line is not one word with a
///   character 0 or 1 for each name, or the one word `-` where there are no names.
/// - `DoubleName`: a name names the net of a name before it.
/// - `UnknownNode`: a name names no net.
/// - `NotAnInput`: a name names a net that is neither an input nor free.
/// - `TooMany`: the row is the 10,001st, or with it the rows times the nets are above 100,000,000.
///
/// A name is the first of its kind in the line. `OutOfMemory` may come at any lines.
pub fn read_inputs<N: Resolve>(
    alloc: Global,
    lines: &[Line],
    net: &Net,
    names: &N,
) -> Result<Inputs, InputFault>
    ensures exact { IsInputsAnswer (N.net_of names.now) net.now.raw lines.now result }
    ensures undriven { IfOk result (λ inputs.
        All (λ node. IsTrue (is_undriven net.now.raw node.0)) inputs.nodes) }
{
    let [first, later @ ..] = lines else {
        return Ok(Inputs {
            nodes: Items::new(alloc),
            rows: Items::new(alloc),
        });
    };
    let nodes = read_order(alloc, first, net, names)?;
    let rows = read_rows(alloc, nodes.len(), net.nets(), later)?;
    Ok(Inputs { nodes, rows })
}
