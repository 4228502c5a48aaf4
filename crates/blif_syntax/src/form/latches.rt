//! What the words of a `.latch` line say; begin with `form_of_latch`.

ghost use Rattle.std.specs.Prelude.{◌≡◌, IfOk};
ghost use Rattle.blif_syntax.specs.Words.{init_of, kind_named, control_of};
ghost use Rattle.blif_syntax.specs.Forms.{latch_with, latch_typed, form_of_latch};

use crate::form::{Form, LineFault};
use crate::models::{LatchKind, What};
use crate::words::{is, is_left_out_type};
use net_core::Init;
use std::alloc::AllocError;
use ste_base::Name;

/// The initial value of a word.
fn init_of(word: &[u8]) -> Option<Init>
    ensures { result ≡ init_of word.now }
{
    if is(word, "0") {
        Some(Init::Zero)
    } else if is(word, "1") {
        Some(Init::One)
    } else if is(word, "2") || is(word, "3") {
        Some(Init::Free)
    } else {
        None
    }
}

/// The type of a word.
fn kind_named(word: &[u8]) -> Option<LatchKind>
    ensures { result ≡ kind_named word.now }
{
    if is(word, "re") {
        Some(LatchKind::Rising)
    } else if is(word, "fe") {
        Some(LatchKind::Falling)
    } else {
        None
    }
}

/// The control of a word, which `NIL` is not.
fn control_of(word: &Name) -> Result<Option<Name>, AllocError>
    ensures { IfOk result (λ control. control ≡ control_of word.now) }
{
    if is(word.bytes(), "NIL") {
        return Ok(None);
    }
    Ok(Some(word.clone()?))
}

/// A latch, where its type and its initial value are known.
fn latch_with(
    input: &Name,
    output: &Name,
    kind: Option<LatchKind>,
    control: Option<Name>,
    init: Option<Init>,
) -> Result<Form, AllocError>
    ensures { IfOk result (λ form. form ≡ latch_with input.now output.now kind control init) }
{
    match (kind, init) {
        (Some(kind), Some(init)) => Ok(Form::Item(What::Latch {
            input: input.clone()?,
            output: output.clone()?,
            kind,
            control,
            init,
        })),
        _ => Ok(Form::Wrong(LineFault::Bad)),
    }
}

/// A latch with a type and a control.
fn latch_typed(
    input: &Name,
    output: &Name,
    kind: &Name,
    control: &Name,
    init: Option<Init>,
) -> Result<Form, AllocError>
    ensures { IfOk result (λ form. form
        ≡ latch_typed input.now output.now kind.now control.now init) }
{
    if is_left_out_type(kind.bytes()) {
        return Ok(Form::Wrong(LineFault::LeftOut(kind.clone()?)));
    }
    latch_with(
        input,
        output,
        kind_named(kind.bytes()),
        control_of(control)?,
        init,
    )
}

/// What the words behind `.latch` spell.
pub fn form_of_latch(words: &[Name]) -> Result<Form, AllocError>
    ensures { IfOk result (λ form. form ≡ form_of_latch words.now) }
{
    match words {
        [input, output] => latch_with(
            input,
            output,
            Some(LatchKind::Plain),
            None,
            Some(Init::Free),
        ),
        [input, output, init] => latch_with(
            input,
            output,
            Some(LatchKind::Plain),
            None,
            init_of(init.bytes()),
        ),
        [input, output, kind, control] => latch_typed(
            input,
            output,
            kind,
            control,
            Some(Init::Free),
        ),
        [input, output, kind, control, init] => latch_typed(
            input,
            output,
            kind,
            control,
            init_of(init.bytes()),
        ),
        _ => Ok(Form::Wrong(LineFault::Bad)),
    }
}
