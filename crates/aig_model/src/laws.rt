//! The laws of ASCII AIGER texts: each is the contract of a function that does nothing.

ghost use Rattle.aig_model.specs.Corresponds.{LiteralsCorrespond};
ghost use Rattle.aig_model.specs.NetLiterals.{NetsHaveLiterals};
ghost use Rattle.aig_model.specs.ReadIsSound.{ReadIsSound};

/// Law: literal runs, and the runs of the model that a text is read as, correspond one to one on
/// the variables that the text mentions. Each output has the bit of its literal, and latches start
/// alike.
pub fn literals_correspond()
    ensures { LiteralsCorrespond }
{}

/// Law: where a run of the model has the bits of a literal run, each net of the model has the bit of
/// its literal.
pub fn nets_have_literals()
    ensures { NetsHaveLiterals }
{}

/// Law: what a text of at most 67,108,864 bytes says that has no fault is sound: no variable is
/// defined twice, nor 0, and all variables and the number of outputs are below 2^31. So
/// `literals_correspond` speaks of each text that is read.
pub fn read_is_sound()
    ensures { ReadIsSound }
{}
