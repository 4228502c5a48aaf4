//! The engine; begin with `exact_results`.

ghost use Rattle.std.specs.Prelude.{◌≡◌, ◌<◌, ◌≤◌, ◌+◌, ℕ, All, Err, IfOk, length};
ghost use Rattle.ste_base.specs.Functions.{Function};
ghost use Rattle.dd_nodes.specs.Stores.{Keeps};
ghost use Rattle.dd_ops.specs.declared.fault.OpFault.TheVariants.{StepsOut};
ghost use Rattle.dual_rail.specs.Rail.{Built};
ghost use Rattle.ste_model.specs.Need.{ReadBelow};
ghost use Rattle.exact_model.specs.Choices.{choices};
ghost use Rattle.exact_model.specs.ExactNeed.{IsExactNeed};
ghost use Rattle.exact_model.specs.ExactWork.{AreExactBits, exact_work};
ghost use Rattle.exact_model.specs.Wider.{bits_over_more};
ghost use Rattle.exact_engine.specs.Results.{AreExactRefs, TellExactly};

use crate::finishing::finish;
use crate::results::ExactResults;
use crate::timed_cuts::timed_cuts_of;
use crate::times::broken_sums;
use dd_nodes::Nodes;
use dd_ops::{OpFault, Ops};
use net_core::Net;
use std::alloc::Global;
use ste_model::Assertion;

/// The results of an assertion. Every guard and value is built before the first time.
fn results<N: Nodes>(
    alloc: Global,
    ops: &Ops,
    nodes: &mut N,
    net: &Net,
    task: &Assertion,
    vars: u32,
) -> Result<ExactResults, OpFault>
    requires ant { All (λ quint. quint.node.0 < net.now.raw.nets) task.now.ant }
    requires con { All (λ quint. quint.node.0 < net.now.raw.nets) task.now.con }
    requires reads_ant { ReadBelow vars task.now.ant }
    requires reads_con { ReadBelow vars task.now.con }
    requires room { vars + length (choices net.now.raw task.now) ≤ (N.store nodes.old).vars }
    ensures { (bit : ℕ → ℕ → Function) → AreExactBits net.now.raw vars task.now bit
        → Built (exact_work net.now.raw vars task.now
        (bits_over_more (vars + length (choices net.now.raw task.now)) bit))
        (AreExactRefs net.now.raw vars task.now
        (bits_over_more (vars + length (choices net.now.raw task.now)) bit))
        (N.store nodes.old) (N.store nodes.new) result }
{
    let ant = timed_cuts_of(alloc, ops, nodes, task.ant.as_slice())?;
    let con = timed_cuts_of(alloc, ops, nodes, task.con.as_slice())?;
    let broken = broken_sums(
        alloc,
        ops,
        nodes,
        net,
        task,
        ant.as_slice(),
        con.as_slice(),
        vars,
    )?;
    finish(alloc, ops, nodes, broken, vars)
}

/// The exactly strong and the exactly contradictory assignments of an assertion over `vars`
/// variables, with where assignments and choices make a counterexample. The choices are the
/// variables from `vars` on, in their order; the store may have more. The task's nodes are nets of
/// the net.
///
/// `StepsOut` comes only where fewer steps were left at the start than the assertion needs.
/// Whatever the answer, each node that is made is a node of the exact work functions, and what was
/// held stays.
pub fn exact_results<N: Nodes>(
    alloc: Global,
    nodes: &mut N,
    net: &Net,
    task: &Assertion,
    vars: u32,
) -> Result<ExactResults, OpFault>
    requires ant { All (λ quint. quint.node.0 < net.now.raw.nets) task.now.ant }
    requires con { All (λ quint. quint.node.0 < net.now.raw.nets) task.now.con }
    requires reads_ant { ReadBelow vars task.now.ant }
    requires reads_con { ReadBelow vars task.now.con }
    requires room { vars + length (choices net.now.raw task.now) ≤ (N.store nodes.old).vars }

    // The references tell the findings.
    ensures told { IfOk result (λ r. TellExactly net.now.raw vars task.now (N.store nodes.new) r) }

    // Only nodes of the exact work functions are made, and steps are out only where one is missing.
    ensures built { (bit : ℕ → ℕ → Function) → AreExactBits net.now.raw vars task.now bit
        → Built (exact_work net.now.raw vars task.now
        (bits_over_more (vars + length (choices net.now.raw task.now)) bit))
        (AreExactRefs net.now.raw vars task.now
        (bits_over_more (vars + length (choices net.now.raw task.now)) bit))
        (N.store nodes.old) (N.store nodes.new) result }

    // What was held stays, and so does the limit.
    ensures keeps { Keeps (N.store nodes.old) (N.store nodes.new) }
    ensures limit { (N.store nodes.new).limit ≡ (N.store nodes.old).limit }

    // Where steps are out, fewer were left than the assertion needs.
    ensures short { result ≡ Err StepsOut
        → (need : ℕ) → IsExactNeed net.now.raw vars task.now need
        → (N.store nodes.old).limit < length (N.store nodes.old).made + need }
{
    let ops = Ops::new(alloc);
    results(alloc, &ops, nodes, net, task, vars)
}
