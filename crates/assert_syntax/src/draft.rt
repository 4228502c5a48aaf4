//! The tasks that are read so far; begin with `Draft`.

ghost use Rattle.std.specs.Prelude.{◌≡◌, IfOk, OnOk};
ghost use Rattle.assert_syntax.specs.Spelled.{from_of, to_of};
ghost use Rattle.assert_syntax.specs.private.Drafts.{side_added, edge_with, clause_added, edges_closed, edge_added, tasks_closed, quint_of, bind_of};
ghost use Rattle.assert_syntax.specs.private.Drafts.{mark_added, weak_added};
ghost use Rattle.assert_syntax.specs.Held.{clause_held};

use crate::form::{Clause, Side, Span};
use crate::tasks::{RawBind, RawEdge, RawMark, RawQuint, RawTask, RawWeak};
use bool_expr::Expr;
use std::alloc::{AllocError, Global};
use ste_base::{Items, Name, Time};

/// The task that later lines may add to, with the number of its first line.
#[derive(Drop)]
pub enum OpenTask {
    /// There is none so far.
    Closed,
    /// An assertion.
    Ste {
        head: u32,
        name: Name,
        reset: bool,
        ant: Items<RawQuint>,
        con: Items<RawQuint>,
        weak: Items<RawWeak>,
    },
    /// A graph: its edges, and the one that later lines may add to.
    Gste {
        head: u32,
        name: Name,
        reset: bool,
        edges: Items<RawEdge>,
        edge: Option<RawEdge>,
    },
}

/// The tasks that are read so far, and the one that later lines may add to.
#[derive(Drop)]
pub struct Draft {
    pub tasks: Items<RawTask>,
    pub task: OpenTask,
}

/// Adds one more on this side of two lists.
fn side_added<T: Drop>(
    side: Side,
    ant: &mut Items<T>,
    con: &mut Items<T>,
    item: T,
) -> Result<(), AllocError>
    ensures { OnOk result ((ant.new, con.new) ≡ side_added side ant.old con.old item) }
{
    match side {
        Side::Antecedent => ant.push(item)?,
        Side::Consequent => con.push(item)?,
    }
    Ok(())
}

/// The first time of a clause or of a weakening; without times it is 0.
fn from_of(span: Span) -> Time
    ensures { result ≡ from_of span }
{
    match span {
        Span::During(from, _) => from,
        _ => 0,
    }
}

/// The time up to which a clause or a weakening goes; without times it is 0.
fn to_of(span: Span) -> Time
    ensures { result ≡ to_of span }
{
    match span {
        Span::During(_, to) => to,
        _ => 0,
    }
}

/// The quintuple of a line.
fn quint_of(line: u32, clause: &Clause, value: Expr, guard: Expr) -> Result<RawQuint, AllocError>
    ensures { IfOk result (λ quint. quint ≡ quint_of line (clause_held clause.now) value guard) }
{
    Ok(RawQuint {
        line,
        guard,
        node: clause.node.clone()?,
        value,
        from: from_of(clause.span),
        to: to_of(clause.span),
    })
}

/// The binding of a line.
fn bind_of(line: u32, clause: &Clause, value: Expr, guard: Expr) -> Result<RawBind, AllocError>
    ensures { IfOk result (λ bind. bind ≡ bind_of line (clause_held clause.now) value guard) }
{
    Ok(RawBind {
        line,
        guard,
        node: clause.node.clone()?,
        value,
    })
}

/// Adds a clause to the edge.
fn edge_with(edge: &mut Option<RawEdge>, side: Side, bind: RawBind) -> Result<(), AllocError>
    ensures { OnOk result (edge.new ≡ edge_with edge.old side bind) }
{
    if let Some(RawEdge { ant, con, .. }) = edge {
        side_added(side, ant, con, bind)?;
    }
    Ok(())
}

/// Adds a clause to the open task, in place.
pub fn clause_added(
    task: &mut OpenTask,
    line: u32,
    clause: &Clause,
    value: Expr,
    guard: Expr,
) -> Result<(), AllocError>
    ensures { OnOk result (task.new
        ≡ clause_added task.old line (clause_held clause.now) value guard) }
{
    let side = clause.side;
    match task {
        OpenTask::Closed => Ok(()),
        OpenTask::Ste { ant, con, .. } => {
            side_added(side, ant, con, quint_of(line, clause, value, guard)?)
        }
        OpenTask::Gste { edge, .. } => {
            edge_with(edge, side, bind_of(line, clause, value, guard)?)
        }
    }
}

/// Adds a weakened node to the edge.
fn mark_added(edge: &mut Option<RawEdge>, mark: RawMark) -> Result<(), AllocError>
    ensures { OnOk result (edge.new ≡ mark_added edge.old mark) }
{
    if let Some(RawEdge { weak, .. }) = edge {
        weak.push(mark)?;
    }
    Ok(())
}

/// Adds a weakening to the open task, in place.
pub fn weak_added(
    task: &mut OpenTask,
    line: u32,
    node: &Name,
    times: Span,
) -> Result<(), AllocError>
    ensures { OnOk result (task.new ≡ weak_added task.old line node.now times) }
{
    match task {
        OpenTask::Closed => Ok(()),
        OpenTask::Ste { weak, .. } => weak.push(RawWeak {
            line,
            node: node.clone()?,
            from: from_of(times),
            to: to_of(times),
        }),
        OpenTask::Gste { edge, .. } => mark_added(
            edge,
            RawMark {
                line,
                node: node.clone()?,
            },
        ),
    }
}

/// Adds the edge that was open to the others.
fn edges_closed(edges: &mut Items<RawEdge>, edge: Option<RawEdge>) -> Result<(), AllocError>
    ensures { OnOk result (edges.new ≡ edges_closed edges.old edge) }
{
    match edge {
        Some(edge) => edges.push(edge),
        None => Ok(()),
    }
}

/// Adds an edge to the open task, in place.
pub fn edge_added(
    alloc: Global,
    task: &mut OpenTask,
    line: u32,
    from: u32,
    to: u32,
) -> Result<(), AllocError>
    ensures { OnOk result (task.new ≡ edge_added task.old line from to) }
{
    let OpenTask::Gste { edges, edge, .. } = task else {
        return Ok(());
    };
    let next = RawEdge {
        line,
        from,
        to,
        ant: Items::new(alloc),
        con: Items::new(alloc),
        weak: Items::new(alloc),
    };
    edges_closed(edges, edge.replace(next))
}

/// Adds the task that was open, whose vertices are these, to the others.
pub fn tasks_closed(
    alloc: Global,
    tasks: &mut Items<RawTask>,
    task: OpenTask,
    vertices: &[Name],
) -> Result<(), AllocError>
    ensures { OnOk result (tasks.new ≡ tasks_closed tasks.old task vertices.now) }
{
    match task {
        OpenTask::Closed => Ok(()),
        OpenTask::Ste {
            head,
            name,
            reset,
            ant,
            con,
            weak,
        } => tasks.push(RawTask::Ste {
            line: head,
            name,
            reset,
            ant,
            con,
            weak,
        }),
        OpenTask::Gste {
            head,
            name,
            reset,
            mut edges,
            edge,
        } => {
            let vertices = vertices.to_vec(alloc)?.into();
            edges_closed(&mut edges, edge)?;
            tasks.push(RawTask::Gste {
                line: head,
                name,
                reset,
                vertices,
                edges,
            })
        }
    }
}
