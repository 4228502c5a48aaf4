//! From lines to models; begin with `read_models`.

ghost use Rattle.std.specs.Prelude.{◌≡◌, ◌<◌, ◌^◌, All, length};
ghost use Rattle.blif_syntax.specs.Answer.{IsBlifAnswer, entries_of, fault_of};
ghost use Rattle.blif_syntax.specs.Places.{line_fault_of};

use crate::draft::{Draft, line_added, models_of, open_cover_of};
use crate::fault::BlifFault;
use crate::form::forms::entry_of;
use crate::form::{Form, LineFault};
use crate::models::Models;
use crate::open_cover::may_stand;
use blif_lines::Line;
use std::alloc::Global;
use ste_base::Items;

/// The fault of a line of this number and form, which may not stand where it does.
fn fault_of(line: u32, form: Form) -> BlifFault
    ensures { result ≡ fault_of line (line_fault_of form) }
{
    match form {
        Form::Wrong(LineFault::Unknown(word)) => BlifFault::UnknownWord { line, word },
        Form::Wrong(LineFault::LeftOut(word)) => BlifFault::LeftOut { line, word },
        _ => BlifFault::BadLine { line },
    }
}

/// Reads the models that a netlist's lines spell. A line has fewer than 2^32 words. The errors:
///
/// - `BadLine`, `UnknownWord` or `LeftOut` where some line may not stand where it does: the number
///   of the first such line. It is `LeftOut` where the line's first word is one of those that are
///   left out, or where it is a latch of a type that is left out; `UnknownWord` where its first
///   word begins with a dot and is none that is known; and else `BadLine`.
/// - `NoModel` where each line may stand and none starts a model.
/// - `OutOfMemory`.
pub fn read_models(alloc: Global, lines: &[Line]) -> Result<Models, BlifFault>
    requires words { All (λ line. length line.words < 2 ^ 32) lines.now }
    ensures { IsBlifAnswer (entries_of lines.now) result }
{
    let mut draft = Draft {
        models: Items::new(alloc),
        model: None,
        cover: None,
    };
    for line in lines {
        let entry = entry_of(alloc, line)?;
        if !may_stand(
            &entry.form,
            draft.model.is_some(),
            open_cover_of(&draft.cover),
        ) {
            return Err(fault_of(entry.line, entry.form));
        }
        draft = line_added(alloc, draft, entry)?;
    }
    let models = models_of(draft)?;
    if models.len() == 0 {
        return Err(BlifFault::NoModel);
    }
    Ok(Models { models })
}
