//! What holds of the grammar of task files. The bodies are empty: each contract is a law.

ghost use Rattle.assert_syntax.specs.Rules.{FirstFaultIsLeast};
ghost use Rattle.assert_syntax.specs.Texts.{WordsAreTheText};
ghost use Rattle.assert_syntax.specs.Written.{WrittenIsRead};

/// Law: the words of an expression, joined by one blank, spell what its text spells, whatever
/// blanks stand between the words. Words on several physical lines have the tokens of the lines.
pub fn words_are_the_text()
    ensures { WordsAreTheText }
{}

/// Law: the first fault is that of the first line that has one, and where there is none no line has
/// one.
pub fn first_fault_is_least()
    ensures { FirstFaultIsLeast }
{}

/// Law: tasks that are written out as lines are read back, with no fault.
pub fn written_is_read()
    ensures { WrittenIsRead }
{}
