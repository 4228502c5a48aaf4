//! The covers of a flat net: those of each model that has an instance, once; begin with
//! `all_covers`.

ghost use Rattle.std.specs.Prelude.{◌≡◌, ◌<◌, ◌≤◌, ◌+◌, ◌++◌, All, IfOk, OnOk, flat_map, length, map, slice_get};
ghost use Rattle.std.specs.List.{AllZip};
ghost use Rattle.hierarchy.specs.Instances.{had_by};
ghost use Rattle.hierarchy.specs.Lines.{gate_lines};
ghost use Rattle.flat_net.specs.private.Passes.{AreNarrow, AreSeen, IsFilled, IsFirstCover, IsNarrow, lines_at};

use blif_syntax::{Model, What};
use instances::Row;
use net_core::Cover;
use std::alloc::{AllocError, Global};
use ste_base::Items;

/// The covers, and for each instance the number of its first.
#[derive(Drop)]
pub(crate) struct Covers {
    pub(crate) firsts: Vec<u32>,
    pub(crate) covers: Items<Cover>,
}

/// A copy of these rows.
fn copy_rows(alloc: Global, rows: &[net_core::Row]) -> Result<Items<net_core::Row>, AllocError>
    ensures { IfOk result (λ copy. copy ≡ rows.now) }
{
    let mut copy = Items::new(alloc);
    for row in rows {
        copy.push(Items::from(row.as_slice().to_vec(alloc)?))?;
    }
    Ok(copy)
}

/// A copy of a cover.
fn copy_cover(alloc: Global, cover: &Cover) -> Result<Cover, AllocError>
    ensures { IfOk result (λ copy. copy ≡ cover.now) }
{
    Ok(Cover {
        inputs: cover.inputs,
        on: cover.on,
        rows: copy_rows(alloc, cover.rows.as_slice())?,
    })
}

/// Adds a copy of the cover of each gate of a model.
fn add_covers(alloc: Global, covers: &mut Items<Cover>, model: &Model) -> Result<(), AllocError>
    ensures { OnOk result
        (covers.new ≡ covers.old ++ map (λ line. line.cover) (gate_lines model.now)) }
{
    for item in model.items.as_slice() {
        if let What::Names { cover, .. } = &item.what {
            covers.push(copy_cover(alloc, cover)?)?;
        }
    }
    Ok(())
}

/// The number of the first cover of the model of that number; its covers are added where they are
/// not there yet. `seen` has for each model the number of its first cover, where they are there.
fn first_cover(
    alloc: Global,
    covers: &mut Items<Cover>,
    seen: &mut Vec<Option<u32>>,
    models: &[Model],
    number: usize,
) -> Result<u32, AllocError>
    requires number { number < length models.now }
    requires long { length seen.old.items ≡ length models.now }
    requires seen { AreSeen models.now covers.old seen.old.items }
    requires few { length covers.old + length (had_by gate_lines (slice_get models.now number))
        ≤ 4294967295 }
    ensures { IfOk result
        (λ first. IsFilled models.now number covers.old covers.new seen.new.items first) }
{
    if let Some(first) = seen[number] {
        return Ok(first);
    }
    let first = covers.len() as u32;
    add_covers(alloc, covers, &models[number])?;
    seen[number] = Some(first);
    Ok(first)
}

/// The covers of all models that have an instance, and for each instance the number of its first.
pub(crate) fn all_covers(
    alloc: Global,
    models: &[Model],
    rows: &[Row],
) -> Result<Covers, AllocError>
    requires rows { All (λ row. row.model < length models.now) rows.now }
    requires few { length (flat_map (lines_at models.now) rows.now) ≤ 4294967295 }
    requires narrow { All (λ row. AreNarrow (lines_at models.now row)) rows.now }
    ensures firsts { IfOk result (λ made.
        AllZip (IsFirstCover models.now made.covers) made.firsts.items rows.now) }
    ensures few { IfOk result (λ made.
        length made.covers ≤ length (flat_map (lines_at models.now) rows.now)) }
    ensures narrow { IfOk result (λ made. All IsNarrow made.covers) }
{
    let mut seen = models
        .iter()
        .map(|_model| None)
        .collect::<Vec<Option<u32>>>(alloc)?;
    let mut firsts = Vec::new(alloc);
    let mut covers = Items::new(alloc);
    for row in rows {
        firsts.push(first_cover(alloc, &mut covers, &mut seen, models, row.model)?)?;
    }
    Ok(Covers { firsts, covers })
}
