//! The laws of assertion graphs: each is the contract of a function that does nothing.

ghost use Rattle.ste_model.specs.GraphFound.{GraphFindingsAreDecided, GraphPassHolds, OneGraphVerdict};
ghost use Rattle.ste_model.specs.GraphHops.{PathsAreShown};
ghost use Rattle.ste_model.specs.GraphNeed.{GraphResultsAreFindings, OneGraphNeed};
ghost use Rattle.ste_model.specs.GraphReport.{OneGraphReportOf};
ghost use Rattle.ste_model.specs.GraphSamples.{GraphSamplesAreCounted};
ghost use Rattle.ste_model.specs.GraphShown.{DueBreaksAlong, FoundHasCandidate};
ghost use Rattle.ste_model.specs.GraphTable.{OneLeastClosed, RoundsSettle};
ghost use Rattle.ste_model.specs.Weakened.{WeakenedGrow};

/// There are rounds, and only one table of each; after enough of them it is the least closed one.
pub fn rounds_settle()
    ensures { RoundsSettle }
{}

/// There is exactly one least closed table.
pub fn one_least_closed()
    ensures { OneLeastClosed }
{}

/// Some function of the assignments decides each finding of a graph.
pub fn graph_findings_are_decided()
    ensures { GraphFindingsAreDecided }
{}

/// A graph has exactly one verdict.
pub fn one_graph_verdict()
    ensures { OneGraphVerdict }
{}

/// A graph with the verdict pass, or contradictory antecedent, holds.
pub fn graph_pass_holds()
    ensures { GraphPassHolds }
{}

/// Weakening more nets takes no bit out of a table, and makes no assignment of an assertion strong
/// that was neither strong nor contradictory.
pub fn weakened_grow()
    ensures { WeakenedGrow }
{}

/// What is found under an assignment has a candidate path.
pub fn found_has_candidate()
    ensures { FoundHasCandidate }
{}

/// Where hops say what is known of the edges under the least closed table, the path along them is
/// the shown one; where there is none there is no candidate.
pub fn paths_are_shown()
    ensures { PathsAreShown }
{}

/// A printed run along a candidate path meets the antecedents, and breaks the consequents where the
/// failure is strong.
pub fn due_breaks_along()
    ensures { DueBreaksAlong }
{}

/// The check of a graph needs exactly one number of steps.
pub fn one_graph_need()
    ensures { OneGraphNeed }
{}

/// The functions of the results give under which assignments a graph is strong, weak and
/// contradictory.
pub fn graph_results_are_findings()
    ensures { GraphResultsAreFindings }
{}

/// A graph has one report at most.
pub fn one_graph_report_of()
    ensures { OneGraphReportOf }
{}

/// The work functions of a graph of two edges over a latch have 8 nodes.
pub fn graph_samples_are_counted()
    ensures { GraphSamplesAreCounted }
{}
