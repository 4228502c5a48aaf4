//! What the signals of the instance in a row are bound to; begin with `row_bounds`.

ghost use Rattle.std.specs.Prelude.{◌≡◌, ◌<◌, IfOk, length, map, slice_index_or, []};
ghost use Rattle.hierarchy.specs.Lines.{use_lines};
ghost use Rattle.instances.specs.private.Above.{above_at, bound_by};

use crate::bounds::{bounds_of, empty_bounds};
use crate::table::Row;
use hierarchy::uses::{UseLine, use_of};
use indexmap::IndexSet;
use std::alloc::{AllocError, Global};
use std::marker::Model;
use ste_base::{Items, Name};

/// The signals of an instance with the numbers of their nets, and what a use in it binds.
#[derive(Drop)]
pub(crate) struct Above<'a> {
    names: &'a IndexSet<Name>,
    numbers: &'a [u32],
    bindings: &'a [(Name, Name)],
}

impl<'a> Model for Above<'a> {
    ghost use Rattle.instances.specs.private.Above.{Above};

    ghost Value = { Above };

    ghost view = { λ above. record {
      names = above.names.now.keys;
      numbers = above.numbers.now;
      bindings = above.bindings.now;
    } };
}

/// The uses of models in a model, by line.
pub fn use_lines<'a>(
    alloc: Global,
    model: &'a blif_syntax::Model,
) -> Result<Items<UseLine<'a>>, AllocError>
    ensures { IfOk result (λ uses. uses ≡ use_lines model.now) }
{
    let mut uses = Items::new(alloc);
    for item in model.items.as_slice() {
        if let Some(used) = use_of(item) {
            uses.push(used)?;
        }
    }
    Ok(uses)
}

/// What stands above a row, where something does. `uses` and `names` are by model, `numbers` by
/// row.
fn above_at<'a, 'b: 'a>(
    uses: &'a [Items<UseLine<'b>>],
    names: &'a [IndexSet<Name>],
    rows: &[Row],
    numbers: &'a [Items<u32>],
    row: &Row,
) -> Option<Above<'a>>
    ensures { result
        ≡ above_at uses.now (map (λ set. set.keys) names.now) rows.now numbers.now row.now }
{
    let above = row.above?;
    let over = rows.get(above)?;
    let its_names = names.get(over.model)?;
    let its_numbers = numbers.get(above)?;
    let its_uses = uses.get(over.model)?;
    let used = its_uses.as_slice().get(row.number)?;
    Some(Above {
        names: its_names,
        numbers: its_numbers.as_slice(),
        bindings: used.bindings,
    })
}

/// By signal of the instance in a row: the number of the actual that is bound to it, where one is.
/// `uses` and `names` are by model, `numbers` has those of the nets of signals for the rows before.
pub(crate) fn row_bounds(
    alloc: Global,
    uses: &[Items<UseLine<'_>>],
    names: &[IndexSet<Name>],
    rows: &[Row],
    numbers: &[Items<u32>],
    row: &Row,
) -> Result<Vec<Option<u32>>, AllocError>
    requires { row.now.model < length names.now }
    ensures { IfOk result (λ bounds. bounds.items
        ≡ map (bound_by (above_at uses.now (map (λ set. set.keys) names.now) rows.now numbers.now
        row.now))
        (slice_index_or (map (λ set. set.keys) names.now) row.now.model [])) }
{
    let own = &names[row.model];
    match above_at(uses, names, rows, numbers, row) {
        None => empty_bounds(alloc, own),
        Some(above) => bounds_of(alloc, own, above.bindings, above.names, above.numbers),
    }
}
