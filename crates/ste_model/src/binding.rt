//! Whether an antecedent can be bound; begin with `bindable`.

ghost use Rattle.std.specs.Prelude.{◌≡◌, ◌==◌, ◌&&◌, ◌<◌, ◌≤◌, ◌↔◌, ◌⊎◌, All, IsTrue};
ghost use Rattle.std.specs.List.{list_any};
ghost use Rattle.net_core.specs.Possible.{is_weakened};
ghost use Rattle.net_core.specs.Run.{IsUndriven};
ghost use Rattle.ste_model.specs.Asked.{weakened_at, weakens};
ghost use Rattle.ste_model.specs.Shown.{AsksOfNets, IsBindable, IsLatchOutput, IsQuintBindable};

use crate::task::{Bind, Edge, Quint, Task, Weakening};
use net_core::{Net, Source};
use ste_base::NodeId;

/// Whether nothing drives a net.
fn is_free(net: &Net, node: NodeId) -> bool
    requires { node.0 < net.now.raw.nets }
    ensures { IsTrue result ↔ IsUndriven net.now.raw node.0 }
{
    match net.source(node) {
        Source::Input => true,
        Source::Free => true,
        Source::Gate(_) => false,
        Source::Latch(_) => false,
    }
}

/// Whether a net is the output of a latch.
fn is_latch_output(net: &Net, node: NodeId) -> bool
    requires { node.0 < net.now.raw.nets }
    ensures { IsTrue result ↔ IsLatchOutput net.now.raw node.0 }
{
    match net.source(node) {
        Source::Input => false,
        Source::Free => false,
        Source::Gate(_) => false,
        Source::Latch(_) => true,
    }
}

/// Whether a weakening is of this net, and has time 0.
fn is_of_start(weakening: &Weakening, node: NodeId) -> bool
    ensures { result ≡ (weakens 0 weakening.now && (weakening.now.node.0 == node.0)) }
{
    weakening.from <= 0 && 0 < weakening.to && weakening.node == node
}

/// Whether one of the weakenings is of this net, and has time 0.
fn some_of_start(weak: &[Weakening], node: NodeId) -> bool
    ensures { result
        ≡ list_any (λ weakening. weakens 0 weakening && (weakening.node.0 == node.0)) weak.now }
{
    weak.iter().any(|weakening| is_of_start(weakening, node))
}

/// Whether a net is weakened at time 0.
fn is_weak_at_start(weak: &[Weakening], node: NodeId) -> bool
    ensures { result ≡ is_weakened (weakened_at weak.now 0) node.0 }
{
    some_of_start(weak, node)
}

/// Whether a quintuple asks of an input or free net, or at time 0 alone of a latch output that is
/// not weakened then.
fn is_quint_bindable(net: &Net, weak: &[Weakening], quint: &Quint) -> bool
    requires { quint.now.node.0 < net.now.raw.nets }
    ensures { IsTrue result ↔ IsQuintBindable net.now.raw weak.now quint.now }
{
    if is_free(net, quint.node) {
        return true;
    }
    if quint.to > 1 {
        return false;
    }
    is_latch_output(net, quint.node) && !is_weak_at_start(weak, quint.node)
}

/// Whether each quintuple asks of an input or free net, or at time 0 alone of a latch output that
/// is not weakened then, so that a run can be made to meet them all. It takes no memory.
pub fn are_quints_bindable(net: &Net, weak: &[Weakening], quints: &[Quint]) -> bool
    requires { All (λ quint. quint.node.0 < net.now.raw.nets) quints.now }
    ensures { IsTrue result ↔ All (IsQuintBindable net.now.raw weak.now) quints.now }
{
    for quint in quints {
        if !is_quint_bindable(net, weak, quint) {
            return false;
        }
    }
    true
}

/// Whether all bindings ask of inputs and free nets.
fn are_binds_free(net: &Net, binds: &[Bind]) -> bool
    requires { All (λ bind. bind.node.0 < net.now.raw.nets) binds.now }
    ensures { IsTrue result ↔ All (λ bind. IsUndriven net.now.raw bind.node.0) binds.now }
{
    for bind in binds {
        if !is_free(net, bind.node) {
            return false;
        }
    }
    true
}

/// Whether the antecedents of all edges ask of inputs and free nets.
pub fn are_edges_free(net: &Net, edges: &[Edge]) -> bool
    requires { All (λ edge. All (λ bind. bind.node.0 < net.now.raw.nets) edge.ant) edges.now }
    ensures { IsTrue result
        ↔ All (λ edge. All (λ bind. IsUndriven net.now.raw bind.node.0) edge.ant) edges.now }
{
    for edge in edges {
        if !are_binds_free(net, edge.ant.as_slice()) {
            return false;
        }
    }
    true
}

/// Whether the antecedent of a task asks of inputs and free nets alone, and in an assertion also,
/// at time 0 alone, of latch outputs that are not weakened then, so that a run can be made to meet
/// it. It takes no memory.
pub fn bindable(net: &Net, task: &Task) -> bool
    requires { AsksOfNets net.now.raw task.now }
    ensures { IsTrue result ↔ IsBindable net.now.raw task.now }
{
    match task {
        Task::Ste(assertion) => {
            are_quints_bindable(net, assertion.weak.as_slice(), assertion.ant.as_slice())
        }
        Task::Gste(graph) => are_edges_free(net, graph.edges.as_slice()),
    }
}
