//! The laws of this crate: each is the contract of a function that does nothing.

ghost use Rattle.ste_model.specs.Assignments.{AssignmentsAreOrdered};
ghost use Rattle.ste_model.specs.Breaks.{MeetsOrBreaks};
ghost use Rattle.ste_model.specs.Expressions.{FunctionsAreValues};
ghost use Rattle.ste_model.specs.Found.{FindingsAreDecided, OneVerdict, PassHolds};
ghost use Rattle.ste_model.specs.Need.{OneNeed, ResultsAreFindings};
ghost use Rattle.ste_model.specs.Report.{OneReportOf};
ghost use Rattle.ste_model.specs.Samples.{SamplesAreCounted};
ghost use Rattle.ste_model.specs.Table.{OneTable};

/// Of two assignments of the same variables that are not one, exactly one stands before the other.
pub fn assignments_are_ordered()
    ensures { AssignmentsAreOrdered }
{}

/// There is exactly one possible table of each length.
pub fn one_table()
    ensures { OneTable }
{}

/// A run meets the consequent, or breaks it at some place, and not both.
pub fn meets_or_breaks()
    ensures { MeetsOrBreaks }
{}

/// Some function of the assignments decides each finding.
pub fn findings_are_decided()
    ensures { FindingsAreDecided }
{}

/// An assertion has exactly one verdict.
pub fn one_verdict()
    ensures { OneVerdict }
{}

/// An assertion with the verdict pass, or contradictory antecedent, holds.
pub fn pass_holds()
    ensures { PassHolds }
{}

/// The function of an expression has its value under each assignment.
pub fn functions_are_values()
    ensures { FunctionsAreValues }
{}

/// The functions of the results give under which assignments an assertion is strong, weak and
/// contradictory.
pub fn results_are_findings()
    ensures { ResultsAreFindings }
{}

/// The check of an assertion needs exactly one number of steps.
pub fn one_need()
    ensures { OneNeed }
{}

/// The work functions of an AND of two variables have 7 nodes; with a guard and a latch, over two
/// times, they have 8.
pub fn samples_are_counted()
    ensures { SamplesAreCounted }
{}

/// An assertion has one report at most.
pub fn one_report_of()
    ensures { OneReportOf }
{}
