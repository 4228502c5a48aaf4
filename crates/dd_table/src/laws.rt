//! What holds of the table in every schedule. The bodies are empty: each contract is a law over
//! lists of steps.

ghost use Rattle.dd_table.specs.Schedules.{SchedulesKeepRules, NodesStandOnce, MovesAddWords};
ghost use Rattle.dd_table.specs.Schedules.{SeatsAgree, OperationsAreMoves};

/// After every list of steps of any seats the table keeps its rules: the node-word rule, the walk
/// rule, the view rule and the quota rule. So no node stands in two slots.
pub fn schedules_keep_the_rules()
    ensures rules { SchedulesKeepRules }
    ensures once { NodesStandOnce }
{}

/// A step changes at most one word, and that from 0.
pub fn words_are_only_added()
    ensures { MovesAddWords }
{}

/// After every list of steps of any seats, two of them never hold one node under two references, or
/// two nodes under one.
pub fn seats_agree()
    ensures { SeatsAgree }
{}

/// Each compare-exchange and each load of the code is one of the steps that the other laws speak
/// of, whatever it finds; and so is a fork, and a merge, by what their clauses say of sessions.
pub fn operations_are_moves()
    ensures { OperationsAreMoves }
{}
