//! Uses that lead back to their own model; begin with `refuse_recursive`.

ghost use Rattle.std.specs.Prelude.{◌≡◌, ◌⊎◌, IfErr, OnOk, false, slice_index_or};
ghost use Rattle.hierarchy.specs.declared.fault.NetFault.{NetFault};
ghost use Rattle.hierarchy.specs.Faults.{HasRecursive, IsFree, IsRecursive};
ghost use Rattle.hierarchy.specs.Instances.{model_names};
ghost use Rattle.hierarchy.specs.Reach.{uses};
ghost use Rattle.hierarchy.specs.private.Checks.{AreReachable, FirstIn, NoneIn};
ghost use Rattle.hierarchy.specs.private.Depth.{has_steps};
ghost use Rattle.hierarchy.specs.private.Ranks.{AreRanks};

use crate::checks::ItemAt;
use crate::fault::NetFault;
use crate::ranks::{is_above, ranks};
use crate::reach::reached_marks;
use crate::uses::use_of;
use blif_syntax::Model;
use indexmap::IndexSet;
use std::alloc::Global;
use ste_base::{Items, Name};

/// Whether a number is marked.
fn is_marked(marks: &[bool], number: usize) -> bool
    ensures { result ≡ slice_index_or marks.now number false }
{
    marks.get(number).copied().unwrap_or(false)
}

/// Refuses a line that uses a model from which its own model is reached. There is a search only
/// where the ranks do not show that it is not.
fn refuse_circle(
    alloc: Global,
    models: &[Model],
    names: &IndexSet<Name>,
    graph: &[Items<usize>],
    ranks: &[usize],
    at: &ItemAt,
) -> Result<(), NetFault>
    requires names { names.now.keys ≡ model_names models.now }
    requires graph { graph.now ≡ uses models.now }
    requires ranks { AreRanks graph.now ranks.now }
    ensures ok { OnOk result
        ((its : NetFault) → IsRecursive models.now at.now.number at.now.item its → ⊥) }
    ensures err { IfErr result (λ fault. (fault ≡ NetFault.OutOfMemory)
        ⊎ IsRecursive models.now at.now.number at.now.item fault) }
{
    let Some(used) = use_of(at.item) else {
        return Ok(())
    };
    let Some(number) = names.get_index_of(used.model) else {
        return Ok(())
    };
    if is_above(graph, ranks, number, at.number) {
        return Ok(());
    }
    let marks = reached_marks(alloc, graph, number)?;
    if !is_marked(marks.as_slice(), at.number) {
        return Ok(());
    }
    let name = used.model.clone()?;
    Err(NetFault::Recursive {
        line: used.line,
        name,
    })
}

/// Refuses the first of the lines that use a model from which their own model is reached. The first
/// line whose models have the same rank is that line, so that there is one search.
fn first_recursive(
    alloc: Global,
    models: &[Model],
    names: &IndexSet<Name>,
    graph: &[Items<usize>],
    lines: &[ItemAt],
) -> Result<(), NetFault>
    requires names { names.now.keys ≡ model_names models.now }
    requires graph { graph.now ≡ uses models.now }
    ensures ok { OnOk result
        (NoneIn (λ at its. IsRecursive models.now at.number at.item its) lines.now) }
    ensures err { IfErr result (λ fault. (fault ≡ NetFault.OutOfMemory)
        ⊎ FirstIn (λ at its. IsRecursive models.now at.number at.item its) lines.now fault) }
{
    let ranks = ranks(alloc, graph)?;
    for at in lines {
        if let Err(fault) = refuse_circle(alloc, models, names, graph, ranks.as_slice(), at) {
            return Err(fault);
        }
    }
    Ok(())
}

/// Refuses the first line of a reachable model that uses a model from which its own model is
/// reached. `lines` has the items of just the reachable models, `names` the names of all, and
/// `graph` the numbers of those that each uses. Where no more than 64 steps lead on from the top
/// (`deep` says whether they do) no line is searched for.
pub(crate) fn refuse_recursive(
    alloc: Global,
    models: &[Model],
    names: &IndexSet<Name>,
    graph: &[Items<usize>],
    lines: &[ItemAt],
    deep: bool,
) -> Result<(), NetFault>
    requires names { names.now.keys ≡ model_names models.now }
    requires graph { graph.now ≡ uses models.now }
    requires lines { AreReachable models.now lines.now }
    requires deep { deep ≡ has_steps (uses models.now) 65 0 }
    ensures ok { OnOk result (IsFree (HasRecursive models.now)) }
    ensures err { IfErr result (λ fault. (fault ≡ NetFault.OutOfMemory)
        ⊎ HasRecursive models.now fault) }
{
    if !deep {
        return Ok(());
    }
    first_recursive(alloc, models, names, graph, lines)
}
