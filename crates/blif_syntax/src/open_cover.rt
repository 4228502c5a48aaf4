//! Where a line may stand; begin with `may_stand`.

ghost use Rattle.std.specs.Prelude.{◌≡◌};
ghost use Rattle.blif_syntax.specs.Places.{first_or, row_fits, may_stand};

use crate::form::Form;

/// The cover that a row may go on with: the number of its inputs, and the output character of its
/// first row, once there is one.
#[derive(Clone, Copy, PartialEq, Eq)]
pub struct OpenCover {
    pub width: u32,
    pub first: Option<bool>,
}

/// The output character of a cover's first row, from a row behind it.
pub(crate) fn first_or(first: Option<bool>, on: bool) -> bool
    ensures { result ≡ first_or first on }
{
    match first {
        None => on,
        Some(first) => first,
    }
}

/// Whether a row of this width and output character goes on with the cover.
fn row_fits(width: usize, on: bool, cover: Option<OpenCover>) -> bool
    ensures { result ≡ row_fits width on cover }
{
    match cover {
        None => false,
        Some(opened) => width == opened.width as usize && first_or(opened.first, on) == on,
    }
}

/// Whether a line of this form may stand where a model is open, or none is, and where a row may go
/// on with this cover.
pub(crate) fn may_stand(form: &Form, inside: bool, cover: Option<OpenCover>) -> bool
    ensures { result ≡ may_stand form.now inside cover }
{
    match form {
        Form::Skipped | Form::Model(_) => true,
        Form::Wrong(_) => false,
        Form::Row(row, on) => row_fits(row.len(), *on, cover),
        Form::End | Form::Item(_) | Form::Names(_, _, _) => inside,
    }
}
