//! The laws of input files and simulations: each is the contract of a function that does nothing.

ghost use Rattle.clock_step.specs.Rules.{FirstDoubleIsLeast};
ghost use Rattle.clock_step.specs.Laws.{NodesAreGiven, OneAnswer, OneSimulation, WrittenIsRead};

/// Law: lines have one answer at most, besides out of memory.
pub fn one_answer()
    ensures { OneAnswer }
{}

/// Law: the double name that is reported is the first whose net an earlier name names too.
pub fn first_double_is_least()
    ensures { FirstDoubleIsLeast }
{}

/// Law: inputs that are written out as lines are read back.
pub fn written_is_read()
    ensures { WrittenIsRead }
{}

/// Law: at each time of a run on given inputs each node has the bit at its place in the row.
pub fn nodes_are_given()
    ensures { NodesAreGiven }
{}

/// Law: a net has one list of outputs on given inputs.
pub fn one_simulation()
    ensures { OneSimulation }
{}
