//! Where a line may stand; begin with `may_stand`.

ghost use Rattle.std.specs.Prelude.{◌≡◌};
ghost use Rattle.assert_syntax.specs.Places.{is_inside, is_start, holds_edges, span_fits, may_stand_at};
ghost use Rattle.assert_syntax.specs.Held.{form_held};

use crate::form::{Form, Span};

/// Where in a task file a line stands, by the lines before it.
#[derive(Clone, Copy, PartialEq, Eq)]
pub enum Position {
    /// Before the first task.
    Start,
    /// In an assertion.
    Assertion,
    /// In a graph, before its first edge.
    Graph,
    /// In a graph, behind an edge.
    Edge,
    /// Behind the end of a task.
    Ended,
}

/// Whether no task stands before this position.
fn is_start(position: Position) -> bool
    ensures { result ≡ is_start position }
{
    match position {
        Position::Start => true,
        _ => false,
    }
}

/// Whether a task is open here.
fn is_inside(position: Position) -> bool
    ensures { result ≡ is_inside position }
{
    match position {
        Position::Assertion | Position::Graph | Position::Edge => true,
        Position::Start | Position::Ended => false,
    }
}

/// Whether a graph is open here.
fn holds_edges(position: Position) -> bool
    ensures { result ≡ holds_edges position }
{
    match position {
        Position::Graph | Position::Edge => true,
        _ => false,
    }
}

/// Whether a clause or a weakening with these times may stand here: without times behind an edge,
/// and with times in an assertion.
fn span_fits(span: Span, position: Position) -> bool
    ensures { result ≡ span_fits span position }
{
    match (span, position) {
        (Span::Absent, Position::Edge) => true,
        (Span::Absent, _) => false,
        (_, Position::Assertion) => true,
        (_, _) => false,
    }
}

/// Whether a line of this form may stand here.
pub(crate) fn may_stand(form: &Form, position: Position) -> bool
    ensures { result ≡ may_stand_at (form_held form.now) position }
{
    match form {
        Form::Vars(_) => is_start(position),
        Form::Ste(_, _) | Form::Gste(_, _, _) => true,
        Form::Edge(_, _) => holds_edges(position),
        Form::Clause(clause) => span_fits(clause.span, position),
        Form::Weak(_, times) => span_fits(*times, position),
        Form::End => is_inside(position),
        Form::Wrong => false,
    }
}
