//! The forms of the lines of a derivation; begin with `Form`.

use assert_syntax::form::Clause;
use ste_base::Name;

/// What an `.ant` line adds to.
#[derive(Clone, Copy, PartialEq, Eq)]
pub enum Growth {
    /// Nothing: it may not stand here.
    Closed,
    /// The antecedent of the last step.
    Antecedent,
    /// The antecedent and the consequent of the last step.
    Both,
}

/// What the words of a line spell, wherever the line stands, over these words. The name of the new
/// step comes first.
#[derive(Clone, Copy)]
pub enum Form<'a> {
    /// The task of this name.
    Leaf(&'a Name, &'a Name),
    /// What the following lines give, as antecedent and as consequent.
    Identity(&'a Name),
    /// Two steps together.
    Both(&'a Name, &'a Name, &'a Name),
    /// A step, later by the number that this word says.
    Shift(&'a Name, &'a Name, &'a Name),
    /// A step with an expression for this variable; its words may spell none.
    Specialise(&'a Name, &'a Name, &'a Name, &'a [Name]),
    /// A step with a longer antecedent.
    Stronger(&'a Name, &'a Name),
    /// A step with the consequents of the numbers that these words say.
    Weaker(&'a Name, &'a Name, &'a [Name]),
    /// The antecedent of a step with the consequent of another.
    Cut(&'a Name, &'a Name, &'a Name),
    /// A line that adds to the step before it.
    Given(Clause<'a>),
    /// A line that may stand nowhere.
    Wrong,
}
