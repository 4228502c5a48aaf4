//! The instances of a hierarchy as a table, each by the one above it; begin with `instance_rows`.

ghost use Rattle.std.specs.Prelude.{◌≡◌, ◌<◌, ◌++◌, ◌∷◌, [], ℕ, List, IfOk, OnOk, All, length, slice_index_or};
ghost use Rattle.hierarchy.specs.Faults.{HasUnknownModel, IsFree};
ghost use Rattle.hierarchy.specs.Reach.{uses};
ghost use Rattle.instances.specs.Numbers.{AreRows};
ghost use Rattle.instances.specs.Table.{Fits, IsTable, instances_on};

use blif_syntax::Model;
use std::alloc::{AllocError, Global};
use ste_base::Items;

/// An instance: the row of the instance above it, none for the top, its number there, and the
/// number of its model.
#[derive(Clone, Copy)]
pub struct Row {
    pub above: Option<usize>,
    pub number: usize,
    pub model: usize,
}

/// The numbers of the models that a model uses.
fn used_at(graph: &[Items<usize>], model: usize) -> &[usize]
    requires { model < length graph.now }
    ensures { result.now ≡ slice_index_or graph.now model [] }
{
    graph[model].as_slice()
}

/// Adds an instance and those below it, in preorder, where some depth is left.
fn add_below(
    graph: &[Items<usize>],
    depth: u32,
    row: Row,
    rows: &mut Vec<Row>,
) -> Result<(), AllocError>
    requires in_range { All (λ used. All (λ k. k < length graph.now) used) graph.now }
    requires model { row.model < length graph.now }
    ensures { OnOk result ((paths : List (List ℕ)) (path : List ℕ) →
        IsTable graph.now rows.old.items paths → Fits graph.now paths row path →
        IsTable graph.now rows.new.items (paths ++ instances_on graph.now depth path row.model)) }
{
    if depth == 0 {
        return Ok(());
    }
    let here = rows.len();
    rows.push(row)?;
    for (number, model) in used_at(graph, row.model).iter().enumerate() {
        let below = Row {
            above: Some(here),
            number,
            model: *model,
        };
        add_below(graph, depth - 1, below, rows)?;
    }
    Ok(())
}

/// The instances whose paths have fewer numbers than `depth`, in preorder. `graph` has for each
/// model the numbers of those that it uses; the top is number 0. The recursion is at most `depth`
/// calls deep.
fn rows_on(alloc: Global, graph: &[Items<usize>], depth: u32) -> Result<Vec<Row>, AllocError>
    requires in_range { All (λ used. All (λ k. k < length graph.now) used) graph.now }
    requires some { 0 < length graph.now }
    ensures { IfOk result (λ rows. IsTable graph.now rows.items
        (instances_on graph.now depth [] 0)) }
{
    let mut rows = Vec::new(alloc);
    let top = Row {
        above: None,
        number: 0,
        model: 0,
    };
    add_below(graph, depth, top, &mut rows)?;
    Ok(rows)
}

/// One more than the numbers that an instance's path may have.
const LEVELS: u32 = 65;

/// The instances of a hierarchy, in preorder. `graph` has for each model the numbers of those that
/// it uses. The recursion is at most 65 calls deep.
pub fn instance_rows(
    alloc: Global,
    models: &[Model],
    graph: &[Items<usize>],
) -> Result<Vec<Row>, AllocError>
    requires some { 0 < length models.now }
    requires known { IsFree (HasUnknownModel models.now) }
    requires graph { graph.now ≡ uses models.now }
    ensures { IfOk result (λ rows. AreRows models.now rows.items) }
{
    let _ = models;
    let rows = rows_on(alloc, graph, LEVELS)?;
    Ok(rows)
}
