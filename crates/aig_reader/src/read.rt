//! From a text to its model; begin with `read_aig`.

ghost use Rattle.std.specs.Prelude.{◌≡◌, ◌≤◌, length, IfOk};
ghost use Rattle.blif_syntax.specs.Covered.{AreCovered};
ghost use Rattle.aig_model.specs.Answer.{IsAigAnswer};

use crate::netlist::model_of;
use crate::text::read_text;
use aig_model::AigFault;
use blif_syntax::Models;
use std::alloc::Global;
use ste_base::Items;

/// Reads an ASCII AIGER text as the one model that it stands for. A text has at most 67,108,864
/// bytes. The errors:
///
/// - `BadLine` with the number of the first faulty line: one that has not the form that its place
///   asks for, that defines a variable which an earlier line defines, or, where the text ends too
///   early, the one behind the last.
/// - `LeftOut` where that line is the first, a header with a further number that is not 0: the
///   first such number.
/// - `OutOfMemory`.
pub fn read_aig(alloc: Global, bytes: &[u8]) -> Result<Models, AigFault>
    requires { length bytes.now ≤ 67108864 }
    ensures answer { IsAigAnswer bytes.now result }
    ensures covered { IfOk result (λ models. AreCovered models.models) }
{
    let aig = read_text(alloc, bytes)?;
    let model = model_of(alloc, &aig)?;
    let mut models = Items::new(alloc);
    models.push(model)?;
    Ok(Models { models })
}
