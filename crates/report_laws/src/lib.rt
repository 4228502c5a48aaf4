//! What the theorem on `run` comes to for two commands, and for the parts of a task file: a report
//! is one, but for budgets, and may be made in parts. Begin with `one_report`.
#![tactic(auto)]

ghost use Rattle.report_laws.specs.OneReport.{OneReport};
ghost use Rattle.report_laws.specs.PartsOfTexts.{PartsOfTexts};
ghost use Rattle.report_laws.specs.PartsReport.{PartsReport};

/// Two reports on the same texts, of commands that ask for the same with whatever workers and
/// steps, differ in what one of them reports as budget, and in the number of shared nodes, and in
/// nothing else.
pub fn one_report()
    ensures { OneReport }
{}

/// A report on some tasks and behind it one on others, over one net and the same variables, with
/// the same steps for each task, is a report on all of them; and each report on all of them is two
/// such.
pub fn parts_report()
    ensures { PartsReport }
{}

/// What checks write on two task texts over one netlist, one behind the other, a check writes on a
/// text that says the tasks of both, where all three have the same steps for each task.
pub fn parts_of_texts()
    ensures { PartsOfTexts }
{}
