//! What two-valued runs say of assertions: choices of a run, exact findings, verdict and report,
//! and what an exact check has to build; and their laws, each of which is the contract of a
//! function that does nothing. Begin with `specs/Exact.antt`.
#![tactic(auto)]

ghost use Rattle.exact_model.specs.Bindable.{BindableIsFree, PrintedIsLeast};
ghost use Rattle.exact_model.specs.Choices.{RunsAreChoices, WidthIsGreatest};
ghost use Rattle.exact_model.specs.Decided.{DecidedSaysRuns};
ghost use Rattle.exact_model.specs.Exact.{ExactPassIsHolding, OneExactVerdict, SetsAreSafe};
ghost use Rattle.exact_model.specs.ExactNeed.{ExactResultsAreFindings, OneExactNeed};
ghost use Rattle.exact_model.specs.ExactReport.{ExactFailureBreaks, OneExactReportOf};
ghost use Rattle.exact_model.specs.ExactSamples.{ExactSamplesAreCounted};
ghost use Rattle.exact_model.specs.Wider.{WiderHasAsManyNodes, WiderNeedsAsMany};
ghost use Rattle.exact_model.specs.WiderGraphs.{WiderGraphs};

/// An assertion holds exactly where its exact verdict is pass.
pub fn exact_pass_is_holding()
    ensures { ExactPassIsHolding }
{}

/// An exact report that is no pass shows a run that meets the antecedent and breaks the consequent,
/// and the first place where it does.
pub fn exact_failure_breaks()
    ensures { ExactFailureBreaks }
{}

/// An assertion has exactly one exact verdict.
pub fn one_exact_verdict()
    ensures { OneExactVerdict }
{}

/// An assertion has one exact report at most.
pub fn one_exact_report_of()
    ensures { OneExactReportOf }
{}

/// Each list of bits is the choices of exactly one run of an assertion's depth.
pub fn runs_are_choices()
    ensures { RunsAreChoices }
{}

/// The exact check of all tasks takes the variables of the file, or as many as the task that takes
/// most.
pub fn width_is_greatest()
    ensures { WidthIsGreatest }
{}

/// The functions of the exact results give under which assignments an assertion is exactly strong
/// and exactly contradictory.
pub fn exact_results_are_findings()
    ensures { ExactResultsAreFindings }
{}

/// The exact check of an assertion needs exactly one number of steps.
pub fn one_exact_need()
    ensures { OneExactNeed }
{}

/// Seven small assertions need 6, 5, 25, 11, 11, 2 and 7 steps, and the kept functions of one have
/// 4 nodes.
pub fn exact_samples_are_counted()
    ensures { ExactSamplesAreCounted }
{}

/// What passes by sets of bits, or is contradictory everywhere, passes exactly; what is
/// contradictory by sets is exactly so; and what is exactly strong is strong or weak by sets.
pub fn sets_are_safe()
    ensures { SetsAreSafe }
{}

/// Where the antecedent decides each choice, an assignment is strong by sets exactly where it is so
/// by runs, and contradictory by sets exactly where it is so by runs; and it is never weak.
pub fn decided_says_runs()
    ensures { DecidedSaysRuns }
{}

/// Under a bindable antecedent an assignment is contradictory by sets exactly where it is so by
/// runs, and what is strong by sets is exactly strong.
pub fn bindable_is_free()
    ensures { BindableIsFree }
{}

/// The printed run of a strong assignment is the counterexample with the least choices.
pub fn printed_is_least()
    ensures { PrintedIsLeast }
{}

/// Functions of the first variables alone have as many nodes over more variables.
pub fn wider_has_as_many_nodes()
    ensures { WiderHasAsManyNodes }
{}

/// Over more variables the exact work functions of an assertion have as many nodes as it needs
/// steps.
pub fn wider_needs_as_many()
    ensures { WiderNeedsAsMany }
{}

/// Over more variables than it reads a graph has the same report, but for the bits that stand
/// behind its least assignment, and needs as many steps.
pub fn wider_graphs()
    ensures { WiderGraphs }
{}
