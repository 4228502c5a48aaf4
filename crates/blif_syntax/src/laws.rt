//! What holds of the grammar. The bodies are empty: each contract is a law.

ghost use Rattle.blif_syntax.specs.Rules.{FirstFaultIsLeast};
ghost use Rattle.blif_syntax.specs.Sayable.{ReadIsSayable};
ghost use Rattle.blif_syntax.specs.Written.{WrittenIsRead};

/// Law: the first fault is that of the first line that may not stand where it does.
pub fn first_fault_is_least()
    ensures { FirstFaultIsLeast }
{}

/// Law: models that are written out as lines are read back.
pub fn written_is_read()
    ensures { WrittenIsRead }
{}

/// Law: models that are read from lines without a fault can be written out. Each cover is sound,
/// and has as many inputs as its line names.
pub fn read_is_sayable()
    ensures { ReadIsSayable }
{}
