//! The gates and latches of a model, by line; begin with `gate_lines`.

ghost use Rattle.std.specs.Prelude.{◌≡◌, IfOk};
ghost use Rattle.hierarchy.specs.Lines.{gate_lines, gate_of, latch_lines, latch_of};

use blif_syntax::{Item, LatchKind, What};
use net_core::{Cover, Init};
use std::alloc::{AllocError, Global};
use std::marker::Model;
use ste_base::Name;

/// A gate, as a line gives it.
#[derive(Drop)]
pub struct GateLine<'a> {
    pub inputs: &'a [Name],
    pub output: &'a Name,
    pub cover: &'a Cover,
}

impl<'a> Model for GateLine<'a> {
    ghost use Rattle.hierarchy.specs.Lines.{GateLine};

    ghost Value = { GateLine };

    ghost view = { λ line. record {
      inputs = line.inputs.now;
      output = line.output.now;
      cover = line.cover.now;
    } };
}

/// A latch, as a line gives it.
#[derive(Drop)]
pub struct LatchLine<'a> {
    pub input: &'a Name,
    pub output: &'a Name,
    pub kind: LatchKind,
    pub control: &'a Option<Name>,
    pub init: Init,
}

impl<'a> Model for LatchLine<'a> {
    ghost use Rattle.hierarchy.specs.Lines.{LatchLine};

    ghost Value = { LatchLine };

    ghost view = { λ line. record {
      input = line.input.now;
      output = line.output.now;
      kind = line.kind;
      control = line.control.now;
      init = line.init;
    } };
}

/// The gate of a line, where it is one.
fn gate_of(what: &What) -> Option<GateLine<'_>>
    ensures { result ≡ gate_of what.now }
{
    match what {
        What::Names {
            inputs,
            output,
            cover,
        } => Some(GateLine {
            inputs: inputs.as_slice(),
            output,
            cover,
        }),
        _ => None,
    }
}

/// The latch of a line, where it is one.
fn latch_of(what: &What) -> Option<LatchLine<'_>>
    ensures { result ≡ latch_of what.now }
{
    match what {
        What::Latch {
            input,
            output,
            kind,
            control,
            init,
        } => Some(LatchLine {
            input,
            output,
            kind: *kind,
            control,
            init: *init,
        }),
        _ => None,
    }
}

/// The gates of a model, by line.
pub fn gate_lines<'a>(
    alloc: Global,
    model: &'a blif_syntax::Model,
) -> Result<Vec<GateLine<'a>>, AllocError>
    ensures { IfOk result (λ lines. lines.items ≡ gate_lines model.now) }
{
    let items: &'a [Item] = model.items.as_slice();
    items
        .iter()
        .filter_map(|item| gate_of(&item.what))
        .collect::<Vec<GateLine>>(alloc)
}

/// The latches of a model, by line.
pub fn latch_lines<'a>(
    alloc: Global,
    model: &'a blif_syntax::Model,
) -> Result<Vec<LatchLine<'a>>, AllocError>
    ensures { IfOk result (λ lines. lines.items ≡ latch_lines model.now) }
{
    let items: &'a [Item] = model.items.as_slice();
    items
        .iter()
        .filter_map(|item| latch_of(&item.what))
        .collect::<Vec<LatchLine>>(alloc)
}
