//! Tasks with nets in the place of names; begin with `bind_task`.

ghost use Rattle.std.specs.Prelude.{◌≡◌, ◌&&◌, is_some, map, IfOk, OnOk};
ghost use Rattle.std.specs.List.{list_all};
ghost use Rattle.bool_expr.specs.Tree.{tree_of};
ghost use Rattle.ste_model.specs.Trees.{quint_tree, bind_tree, weak_tree, edge_tree, task_tree};
ghost use Rattle.task_binding.specs.Bound.{net_by, quint_bound, bind_bound, edge_bound, task_bound};
ghost use Rattle.task_binding.specs.Bound.{weak_bound, mark_bound};
ghost use Rattle.task_binding.specs.private.Known.{quint_known, bind_known, edge_known, task_known};
ghost use Rattle.task_binding.specs.private.Known.{weak_known, mark_known};

use assert_syntax::tasks::{RawBind, RawEdge, RawMark, RawQuint, RawTask, RawWeak};
use bool_expr::{Expr, copy_expr};
use net_core::Resolve;
use std::alloc::{AllocError, Global};
use ste_base::{Items, Name, NodeId, copies};
use ste_model::{Assertion, Bind, Edge, Graph, Quint, Task, Weakening};

/// The net that a name names; where it names none, net 0, and `known` becomes false.
fn named_net<N: Resolve>(names: &N, known: &mut bool, node: &Name) -> NodeId
    ensures net { result.0 ≡ net_by (N.net_of names.now) node.now }
    ensures known { known.new ≡ (known.old && is_some (N.net_of names.now node.now)) }
{
    match names.resolve(node.bytes()) {
        Some(net) => net,
        None => {
            *known = false;
            NodeId(0)
        }
    }
}

/// The same expression again. A constant, as most guards are, takes no call.
fn copy_of(alloc: Global, expr: &Expr) -> Result<Expr, AllocError>
    ensures { IfOk result (λ copy. tree_of copy ≡ tree_of expr.now) }
{
    match expr {
        Expr::Const(bit) => Ok(Expr::Const(*bit)),
        _ => copy_expr(alloc, expr),
    }
}

/// A quintuple over nets; `known` becomes false where its node names none.
fn bind_quint<N: Resolve>(
    alloc: Global,
    names: &N,
    known: &mut bool,
    quint: &RawQuint,
) -> Result<Quint, AllocError>
    ensures bound { IfOk result (λ bound. quint_tree bound
        ≡ quint_bound (net_by (N.net_of names.now)) quint.now) }
    ensures known { OnOk result (known.new
        ≡ (known.old && quint_known (N.net_of names.now) quint.now)) }
{
    Ok(Quint {
        guard: copy_of(alloc, &quint.guard)?,
        node: named_net(names, known, &quint.node),
        value: copy_of(alloc, &quint.value)?,
        from: quint.from,
        to: quint.to,
    })
}

/// A binding of an edge over nets; `known` becomes false where its node names none.
fn bind_edge_clause<N: Resolve>(
    alloc: Global,
    names: &N,
    known: &mut bool,
    bind: &RawBind,
) -> Result<Bind, AllocError>
    ensures bound { IfOk result (λ bound. bind_tree bound
        ≡ bind_bound (net_by (N.net_of names.now)) bind.now) }
    ensures known { OnOk result (known.new
        ≡ (known.old && bind_known (N.net_of names.now) bind.now)) }
{
    Ok(Bind {
        guard: copy_of(alloc, &bind.guard)?,
        node: named_net(names, known, &bind.node),
        value: copy_of(alloc, &bind.value)?,
    })
}

/// Quintuples over nets, in order; `known` becomes false where a node names none.
fn bind_quints<N: Resolve>(
    alloc: Global,
    names: &N,
    known: &mut bool,
    quints: &[RawQuint],
) -> Result<Items<Quint>, AllocError>
    ensures bound { IfOk result (λ bound. map quint_tree bound
        ≡ map (quint_bound (net_by (N.net_of names.now))) quints.now) }
    ensures known { OnOk result (known.new
        ≡ (known.old && list_all (quint_known (N.net_of names.now)) quints.now)) }
{
    let mut bound = Vec::with_capacity(alloc, quints.len())?;
    for quint in quints {
        bound.push(bind_quint(alloc, names, known, quint)?)?;
    }
    Ok(bound.into())
}

/// Bindings of an edge over nets, in order; `known` becomes false where a node names none.
fn bind_edge_clauses<N: Resolve>(
    alloc: Global,
    names: &N,
    known: &mut bool,
    binds: &[RawBind],
) -> Result<Items<Bind>, AllocError>
    ensures bound { IfOk result (λ bound. map bind_tree bound
        ≡ map (bind_bound (net_by (N.net_of names.now))) binds.now) }
    ensures known { OnOk result (known.new
        ≡ (known.old && list_all (bind_known (N.net_of names.now)) binds.now)) }
{
    let mut bound = Vec::with_capacity(alloc, binds.len())?;
    for bind in binds {
        bound.push(bind_edge_clause(alloc, names, known, bind)?)?;
    }
    Ok(bound.into())
}

/// A weakening over nets; `known` becomes false where its node names none.
fn bind_weak<N: Resolve>(names: &N, known: &mut bool, weak: &RawWeak) -> Weakening
    ensures bound { weak_tree result ≡ weak_bound (net_by (N.net_of names.now)) weak.now }
    ensures known { known.new ≡ (known.old && weak_known (N.net_of names.now) weak.now) }
{
    Weakening {
        node: named_net(names, known, &weak.node),
        from: weak.from,
        to: weak.to,
    }
}

/// Weakenings over nets, in order; `known` becomes false where a node names none.
fn bind_weaks<N: Resolve>(
    alloc: Global,
    names: &N,
    known: &mut bool,
    weaks: &[RawWeak],
) -> Result<Items<Weakening>, AllocError>
    ensures bound { IfOk result (λ bound. map weak_tree bound
        ≡ map (weak_bound (net_by (N.net_of names.now))) weaks.now) }
    ensures known { OnOk result (known.new
        ≡ (known.old && list_all (weak_known (N.net_of names.now)) weaks.now)) }
{
    let mut bound = Vec::with_capacity(alloc, weaks.len())?;
    for weak in weaks {
        bound.push(bind_weak(names, known, weak))?;
    }
    Ok(bound.into())
}

/// The nets that an edge weakens, in order; `known` becomes false where a node names none.
fn bind_marks<N: Resolve>(
    alloc: Global,
    names: &N,
    known: &mut bool,
    marks: &[RawMark],
) -> Result<Items<NodeId>, AllocError>
    ensures bound { IfOk result (λ bound. map (λ node. node.0) bound
        ≡ map (mark_bound (net_by (N.net_of names.now))) marks.now) }
    ensures known { OnOk result (known.new
        ≡ (known.old && list_all (mark_known (N.net_of names.now)) marks.now)) }
{
    let mut bound = Vec::with_capacity(alloc, marks.len())?;
    for mark in marks {
        bound.push(named_net(names, known, &mark.node))?;
    }
    Ok(bound.into())
}

/// An edge over nets; `known` becomes false where a node names none.
fn bind_edge<N: Resolve>(
    alloc: Global,
    names: &N,
    known: &mut bool,
    edge: &RawEdge,
) -> Result<Edge, AllocError>
    ensures bound { IfOk result (λ bound. edge_tree bound
        ≡ edge_bound (net_by (N.net_of names.now)) edge.now) }
    ensures known { OnOk result (known.new
        ≡ (known.old && edge_known (N.net_of names.now) edge.now)) }
{
    Ok(Edge {
        from: edge.from,
        to: edge.to,
        ant: bind_edge_clauses(alloc, names, known, edge.ant.as_slice())?,
        con: bind_edge_clauses(alloc, names, known, edge.con.as_slice())?,
        weak: bind_marks(alloc, names, known, edge.weak.as_slice())?,
    })
}

/// Edges over nets, in order; `known` becomes false where a node names none.
fn bind_edges<N: Resolve>(
    alloc: Global,
    names: &N,
    known: &mut bool,
    edges: &[RawEdge],
) -> Result<Items<Edge>, AllocError>
    ensures bound { IfOk result (λ bound. map edge_tree bound
        ≡ map (edge_bound (net_by (N.net_of names.now))) edges.now) }
    ensures known { OnOk result (known.new
        ≡ (known.old && list_all (edge_known (N.net_of names.now)) edges.now)) }
{
    let mut bound = Vec::with_capacity(alloc, edges.len())?;
    for edge in edges {
        bound.push(bind_edge(alloc, names, known, edge)?)?;
    }
    Ok(bound.into())
}

/// A task over nets; `known` becomes false where a node names none.
pub fn bind_task<N: Resolve>(
    alloc: Global,
    names: &N,
    known: &mut bool,
    task: &RawTask,
) -> Result<Task, AllocError>
    ensures bound { IfOk result (λ bound. task_tree bound
        ≡ task_bound (net_by (N.net_of names.now)) task.now) }
    ensures known { OnOk result (known.new
        ≡ (known.old && task_known (N.net_of names.now) task.now)) }
{
    match task {
        RawTask::Ste {
            name,
            reset,
            ant,
            con,
            weak,
            ..
        } => Ok(Task::Ste(Assertion {
            name: name.clone()?,
            reset: *reset,
            ant: bind_quints(alloc, names, known, ant.as_slice())?,
            con: bind_quints(alloc, names, known, con.as_slice())?,
            weak: bind_weaks(alloc, names, known, weak.as_slice())?,
        })),
        RawTask::Gste {
            name,
            reset,
            vertices,
            edges,
            ..
        } => Ok(Task::Gste(Graph {
            name: name.clone()?,
            reset: *reset,
            vertices: copies(alloc, vertices.as_slice())?,
            edges: bind_edges(alloc, names, known, edges.as_slice())?,
        })),
    }
}
