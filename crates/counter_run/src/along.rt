//! The run that is printed for a failure of an assertion graph; begin with `graph_run`.

ghost use Rattle.std.specs.Prelude.{◌≡◌, ◌≢◌, ◌<◌, ℕ, [], All, IfOk, List, Some, length, slice_get, slice_index_or};
ghost use Rattle.ste_model.specs.declared.task.Edge.{Edge as AnEdge};
ghost use Rattle.ste_model.specs.declared.task.Task.TheVariants.{Gste};
ghost use Rattle.ste_model.specs.Edges.{AreNumbers, bind_at, bind_cuts};
ghost use Rattle.ste_model.specs.GraphHolds.{MeetsAlong};
ghost use Rattle.ste_model.specs.GraphShown.{IsPrintedAlong};
ghost use Rattle.ste_model.specs.Runs.{HasRows, run_of};
ghost use Rattle.ste_model.specs.Shown.{AsksOfNets, IsBindable};
ghost use Rattle.counter_run.specs.Along.{DoAgree, IsNumberedPath};
ghost use Rattle.counter_run.specs.private.Asking.{IsAskedOr, after_cut};
ghost use Rattle.counter_run.specs.private.Matrix.{SameShape, cell};

use crate::asked::start_rows;
use crate::completion::run_from;
use crate::row::Row;
use bool_expr::value;
use net_core::Net;
use std::alloc::{AllocError, Global};
use ste_base::Time;
use ste_model::{Bind, Edge, Graph, Run};

/// Puts at a time what a binding asks.
fn put_bind(rows: &mut [Row], bits: &[bool], t: Time, bind: &Bind)
    requires inside { bind.now.node.0 < length rows.old }
    requires below { t < length (slice_index_or rows.old bind.now.node.0 []) }
    ensures shape { SameShape rows.old rows.new }
    ensures here { (id : ℕ) → cell rows.new t id
        ≡ after_cut (bind_at bits.now bind.now) id (cell rows.old t id) }
    ensures others { (s id : ℕ) → s ≢ t → cell rows.new s id ≡ cell rows.old s id }
{
    if value(&bind.guard, bits) {
        let bit = value(&bind.value, bits);
        rows[bind.node.0 as usize].set(t, bit);
    }
}

/// Puts at a time what bindings ask, one after another.
fn put_binds(rows: &mut [Row], bits: &[bool], t: Time, binds: &[Bind])
    requires inside { All (λ bind. bind.node.0 < length rows.old) binds.now }
    requires wide { All (λ row. t < length row) rows.old }
    ensures shape { SameShape rows.old rows.new }
    ensures here { (id : ℕ) → IsAskedOr (bind_cuts binds.now bits.now) id
        (cell rows.old t id) (cell rows.new t id) }
    ensures others { (s id : ℕ) → s ≢ t → cell rows.new s id ≡ cell rows.old s id }
{
    for bind in binds {
        put_bind(rows, bits, t, bind);
    }
}

/// Puts what the edges of a path ask, those of each place at the time of that number.
fn put_path(rows: &mut [Row], bits: &[bool], edges: &[Edge], path: &[u32])
    requires numbers { All (λ number. number < length edges.now) path.now }
    requires inside { All (λ edge. All (λ bind. bind.node.0 < length rows.old) edge.ant)
        edges.now }
    requires wide { All (λ row. length row ≡ length path.now) rows.old }
    requires short { length path.now < 4294967296 }
    ensures shape { SameShape rows.old rows.new }
    ensures each { (i : ℕ) (edge : AnEdge) (id : ℕ) → i < length path.now
        → slice_get edges.now (slice_index_or path.now i 0) ≡ Some edge
        → IsAskedOr (bind_cuts edge.ant bits.now) id (cell rows.old i id) (cell rows.new i id) }
{
    for (i, number) in path.iter().enumerate() {
        let edge = &edges[*number as usize];
        put_binds(rows, bits, i as Time, edge.ant.as_slice());
    }
}

/// The run in which what the edges of a path ask is there, each at its time, and 0 where they ask
/// nothing: the printed run where the antecedent is bindable, and no edge of the path binds a net
/// to both bits.
pub fn run_along(
    alloc: Global,
    net: &Net,
    task: &Graph,
    path: &[u32],
    bits: &[bool],
) -> Result<Run, AllocError>
    requires nets { AsksOfNets net.now.raw (Gste task.now) }
    requires numbers { All (λ number. number < length task.now.edges) path.now }
    requires short { length path.now < 4294967296 }
    ensures rows { IfOk result (λ run. HasRows net.now.raw.nets (length path.now) run) }
    ensures printed { IfOk result (λ run. IsBindable net.now.raw (Gste task.now)
        → (edges : List AnEdge) → AreNumbers task.now path.now edges
        → All (λ edge. DoAgree (bind_cuts edge.ant bits.now)) edges
        → IsPrintedAlong net.now.raw task.now bits.now edges (run_of run)) }
{
    let times = path.len() as Time;
    let mut rows = start_rows(alloc, net, task.reset, times)?;
    put_path(rows.as_mut_slice(), bits, task.edges.as_slice(), path);
    let made = run_from(alloc, net, times, rows)?;
    Ok(made)
}

/// The printed run of a graph along a path from vertex 0, by the numbers of its edges, under an
/// assignment, which has a bit for each variable, and under which no edge of the path binds a net
/// to both bits: at each time it has the bits of the antecedent of the edge at that place, and 0 at
/// every other input and free net and first value of a latch that nothing fixes. Its length is that
/// of the path. It meets the antecedents, which have to be bindable, over nets of the net.
///
/// The time is linear in the size of the net times the length of the path, and in the bindings
/// along it; it takes a vector for each net.
pub fn graph_run(
    alloc: Global,
    net: &Net,
    task: &Graph,
    path: &[u32],
    bits: &[bool],
) -> Result<Run, AllocError>
    requires nets { AsksOfNets net.now.raw (Gste task.now) }
    requires bindable { IsBindable net.now.raw (Gste task.now) }
    requires path { IsNumberedPath task.now bits.now path.now }
    requires short { length path.now < 4294967296 }
    ensures rows { IfOk result (λ run. HasRows net.now.raw.nets (length path.now) run) }
    ensures printed { IfOk result (λ run. (edges : List AnEdge)
        → AreNumbers task.now path.now edges
        → IsPrintedAlong net.now.raw task.now bits.now edges (run_of run)) }
    ensures meets { IfOk result (λ run. (edges : List AnEdge)
        → AreNumbers task.now path.now edges
        → MeetsAlong (λ edge. edge.ant) bits.now edges (run_of run)) }
{
    let made = run_along(alloc, net, task, path, bits)?;
    Ok(made)
}
