//! The laws of expressions: each is the contract of a function that does nothing.

ghost use Rattle.bool_expr.specs.Laws.{OneTextSpellsOneTree, OneTreeHasOneValue, TreesAreFull};

/// Law: one text spells at most one tree, with one nesting.
pub fn one_text_spells_one_tree()
    ensures { OneTextSpellsOneTree }
{}

/// Law: expressions with one tree have one value under each assignment.
pub fn one_tree_has_one_value()
    ensures { OneTreeHasOneValue }
{}

/// Law: each list of a tree that is spelled has two or more parts.
pub fn trees_are_full()
    ensures { TreesAreFull }
{}
