//! The forms of task lines; begin with `Form`.

use ste_base::{Name, Time};

/// What is wrong with a faulty line.
#[derive(Drop)]
pub enum LineFault {
    /// It has no form, stands where it may not, or has a text for an expression that is none.
    Bad,
    /// An expression is nested above 100.
    Deep,
    /// It declares this variable, or names this task, a second time.
    Double(Name),
    /// An expression uses this variable, which is not declared.
    Unknown(Name),
    /// With it there are too many of something, or a time is too late.
    Many,
}

/// Which part of a task a clause belongs to: what is given, or what has to follow.
#[derive(Clone, Copy, PartialEq, Eq)]
pub enum Side {
    Antecedent,
    Consequent,
}

/// What a word says as a time.
#[derive(Clone, Copy, PartialEq, Eq)]
pub enum Moment {
    /// A time of at most 100,000.
    At(Time),
    /// A number above 100,000.
    Late,
    /// No number.
    Never,
}

/// The times of a clause or of a weakening.
#[derive(Clone, Copy, PartialEq, Eq)]
pub enum Span {
    /// The line has none.
    Absent,
    /// From the first up to, but not at, the second. The first is not above the second.
    During(Time, Time),
    /// One of the two is above 100,000.
    Late,
}

/// The guard of a clause.
#[derive(Clone, Copy)]
pub enum Guard<'a> {
    /// There is none: it is 1.
    Absent,
    /// The words of its text, which may be no expression.
    Words(&'a [Name]),
}

/// A line of an antecedent or of a consequent, over the words of its line. The text of its value
/// may be no expression.
#[derive(Clone, Copy)]
pub struct Clause<'a> {
    pub side: Side,
    pub node: &'a Name,
    pub value: &'a [Name],
    pub guard: Guard<'a>,
    pub span: Span,
}

/// What the words of a line spell, wherever the line stands, over these words.
#[derive(Clone, Copy)]
pub enum Form<'a> {
    /// A line that declares these variables.
    Vars(&'a [Name]),
    /// A line that starts an assertion: its name, and whether latches begin with their initial
    /// values.
    Ste(&'a Name, bool),
    /// A line that starts a graph: its name, its initial vertex, and whether latches begin with
    /// their initial values.
    Gste(&'a Name, &'a Name, bool),
    /// A line that starts an edge between two vertices.
    Edge(&'a Name, &'a Name),
    /// A line of an antecedent or of a consequent.
    Clause(Clause<'a>),
    /// A line that weakens this node, perhaps at these times.
    Weak(&'a Name, Span),
    /// A line that ends a task.
    End,
    /// A line that may stand nowhere.
    Wrong,
}
