//! The instances of a hierarchy, as the passes over them see them; begin with `Instance`.

ghost use Rattle.std.specs.Prelude.{◌≡◌, ◌<◌, [], List, Some, IfOk, length, map, slice_get, slice_index_or};
ghost use Rattle.std.specs.List.{AllZip};
ghost use Rattle.net_core.specs.declared.cover.Cover.{Cover};
ghost use Rattle.hierarchy.specs.Instances.{instances};
ghost use Rattle.hierarchy.specs.Lines.{signals};
ghost use Rattle.instances.specs.Numbers.{AreRows, numbers_in};
ghost use Rattle.flat_net.specs.private.Passes.{AreInstances, IsFirstCover, node_in};

use indexmap::IndexSet;
use instances::Row;
use instances::bounds::number_of;
use std::alloc::{AllocError, Global};
use std::marker::Model;
use ste_base::{Items, Name, NodeId};

/// An instance: its model, the signals of that with the numbers of their nets, and the number of
/// its first cover.
#[derive(Drop)]
pub(crate) struct Instance<'a> {
    pub(crate) model: &'a blif_syntax::Model,
    pub(crate) names: &'a IndexSet<Name>,
    pub(crate) numbers: &'a [u32],
    pub(crate) cover: u32,
}

impl<'a> Model for Instance<'a> {
    ghost use Rattle.flat_net.specs.private.Passes.{Instance};

    ghost Value = { Instance };

    ghost view = { λ a. record {
      model = a.model.now;
      names = a.names.now.keys;
      numbers = a.numbers.now;
      cover = a.cover;
    } };
}

/// The net of a word.
pub(crate) fn node_in(instance: &Instance, word: &Name) -> NodeId
    ensures { result ≡ node_in instance.now word.now }
{
    NodeId(number_of(instance.names, instance.numbers, word))
}

/// The nets of these words.
pub(crate) fn nodes_in(
    alloc: Global,
    instance: &Instance,
    words: &[Name],
) -> Result<Items<NodeId>, AllocError>
    ensures { IfOk result (λ nodes. nodes ≡ map (node_in instance.now) words.now) }
{
    let mut nodes = Items::new(alloc);
    for word in words {
        nodes.push(node_in(instance, word))?;
    }
    Ok(nodes)
}

/// An instance of the model of that number.
fn instance_of<'a>(
    models: &'a [blif_syntax::Model],
    names: &'a [IndexSet<Name>],
    number: usize,
    numbers: &'a [u32],
    cover: u32,
) -> Instance<'a>
    requires models { number < length models.now }
    requires names { number < length names.now }
    ensures model { slice_get models.now number ≡ Some result.model }
    ensures names { result.names ≡ slice_index_or (map (λ set. set.keys) names.now) number [] }
    ensures numbers { result.numbers ≡ numbers.now }
    ensures cover { result.cover ≡ cover }
{
    Instance {
        model: &models[number],
        names: &names[number],
        numbers,
        cover,
    }
}

/// The instances of a hierarchy, in preorder. `names` has the signals of each model, `rows` the
/// instances, and for each of these `numbers` those of its signals' nets, and `firsts` the number
/// of its first cover.
pub(crate) fn all_instances<'a>(
    alloc: Global,
    models: &'a [blif_syntax::Model],
    names: &'a [IndexSet<Name>],
    rows: &[Row],
    numbers: &'a [Items<u32>],
    firsts: &[u32],
) -> Result<Vec<Instance<'a>>, AllocError>
    requires names { map (λ set. set.keys) names.now ≡ map signals models.now }
    requires rows { AreRows models.now rows.now }
    requires numbers { numbers.now
        ≡ map (λ path. numbers_in models.now path) (instances models.now) }
    requires firsts { length firsts.now ≡ length rows.now }
    ensures { IfOk result (λ all. (covers : List Cover) →
        AllZip (IsFirstCover models.now covers) firsts.now rows.now →
        AreInstances models.now covers all.items) }
{
    let mut all = Vec::with_capacity(alloc, rows.len())?;
    for (place, row) in rows.iter().enumerate() {
        all.push(instance_of(
            models,
            names,
            row.model,
            numbers[place].as_slice(),
            firsts[place],
        ))?;
    }
    Ok(all)
}
