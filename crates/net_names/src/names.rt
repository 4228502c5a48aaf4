//! What the nets of a hierarchy are called, and which net a text names; begin with `NetNames`.

ghost use Rattle.std.specs.Prelude.{◌≡◌, ◌<◌, List, Some, IfOk, length, map, option_map, slice_get};
ghost use Rattle.blif_syntax.specs.declared.models.Model.{Model};
ghost use Rattle.hierarchy.specs.Instances.{instances};
ghost use Rattle.hierarchy.specs.Lines.{signals, top, use_lines};
ghost use Rattle.hierarchy.specs.Names.{net_named, own_name};
ghost use Rattle.hierarchy.specs.Nets.{nets};
ghost use Rattle.hierarchy.specs.Sizes.{IsShallow};
ghost use Rattle.instances.specs.Numbers.{AreRows, numbers_in};
ghost use Rattle.net_names.specs.Names.{AreNamesOf, link_of, named_by, named_from, number_named, row_below};

use crate::number::number_below;
use crate::text::{place_of, place_of_slash};
use hierarchy::uses::use_of;
use indexmap::IndexSet;
use instances::{Numbered, Row};
use net_core::Resolve;
use std::alloc::{AllocError, Global};
use ste_base::{Items, Name, NodeId};

/// What leads to an instance: the row of the instance above it, none for the top, and its number
/// there.
#[derive(Clone, Copy, PartialEq, Eq, Hash)]
pub struct Link {
    pub above: Option<usize>,
    pub number: usize,
}

/// The names of the nets of a hierarchy.
#[derive(Drop)]
pub struct NetNames {
    /// The name of the top model.
    top: Name,
    /// The nets' own names, by number.
    pub(crate) own: Items<Name>,
    /// The signals of each model, by first mention.
    signals: Vec<IndexSet<Name>>,
    /// How often each model uses models.
    uses: Vec<usize>,
    /// The instances, in preorder.
    rows: Vec<Row>,
    /// By row, the numbers of the nets of its signals.
    numbers: Vec<Items<u32>>,
    /// By row, what leads to it.
    links: IndexSet<Link>,
}

/// How often a model uses models.
fn uses_in(model: &blif_syntax::Model) -> usize
    ensures { result ≡ length (use_lines model.now) }
{
    let mut count = 0;
    for item in model.items.as_slice() {
        if let Some(_used) = use_of(item) {
            count += 1;
        }
    }
    count
}

/// How often each model uses models.
fn all_uses(alloc: Global, models: &[blif_syntax::Model]) -> Result<Vec<usize>, AllocError>
    ensures { IfOk result (λ uses. uses.items
        ≡ map (λ model. length (use_lines model)) models.now) }
{
    let mut uses = Vec::new(alloc);
    for model in models {
        uses.push(uses_in(model))?;
    }
    Ok(uses)
}

/// By row, what leads to it.
fn all_links(alloc: Global, rows: &[Row]) -> Result<IndexSet<Link>, AllocError>
    ensures { IfOk result (λ links. (models : List Model) → AreRows models rows.now →
        links.keys ≡ map link_of rows.now) }
{
    let mut links = IndexSet::new(alloc);
    for row in rows {
        links.insert(Link {
            above: row.above,
            number: row.number,
        })?;
    }
    Ok(links)
}

/// One more than the numbers that an instance's path may have.
const LEVELS: u32 = 65;

impl NetNames {
    /// The names of the nets of a hierarchy that is not too deep: of its models, `names`, the
    /// signals of each, its instances as rows, and the numbers and own names of its nets.
    pub fn new(
        alloc: Global,
        models: &[blif_syntax::Model],
        names: Vec<IndexSet<Name>>,
        rows: Vec<Row>,
        numbered: Numbered,
    ) -> Result<NetNames, AllocError>
        requires some { 0 < length models.now }
        requires shallow { IsShallow models.now }
        requires names { map (λ set. set.keys) names.items ≡ map signals models.now }
        requires rows { AreRows models.now rows.items }
        requires numbers { numbered.numbers.items
            ≡ map (λ path. numbers_in models.now path) (instances models.now) }
        requires own { numbered.names ≡ map own_name (nets models.now) }
        ensures { IfOk result (λ names. AreNamesOf models.now names) }
    {
        let top = models[0].name.clone()?;
        let uses = all_uses(alloc, models)?;
        let links = all_links(alloc, rows.as_slice())?;
        let Numbered {
            numbers,
            names: own,
        } = numbered;
        Ok(NetNames {
            top,
            own,
            signals: names,
            uses,
            rows,
            numbers,
            links,
        })
    }

    /// The name of the top model. It takes no memory.
    pub fn top(&self) -> &Name
        ensures { (models : List Model) → AreNamesOf models self.now →
            result.now ≡ (top models).name }
    {
        &self.top
    }

    /// The own name of a net: its instance's path, then its signal. It takes no memory.
    pub fn name(&self, id: NodeId) -> &Name
        requires { id.0 < length self.now.own }
        ensures entry { slice_get self.now.own id.0 ≡ Some result.now }
        ensures known { (models : List Model) → AreNamesOf models self.now →
            slice_get (map own_name (nets models)) id.0 ≡ Some result.now }
    {
        &self.own.as_slice()[id.0 as usize]
    }

    /// The number of the net of a signal of the instance in a row; None where the text is no signal
    /// of it.
    fn number_named(&self, place: usize, text: &[u8]) -> Option<u32>
        ensures { result ≡ number_named self.now place text.now }
    {
        let row = self.rows.get(place)?;
        let signals = self.signals.get(row.model)?;
        let numbers = self.numbers.get(place)?;
        let signal = place_of(signals, text)?;
        numbers.as_slice().get(signal).copied()
    }

    /// The row of the subcircuit that a text counts in the instance in a row; None where it counts
    /// none.
    fn row_below(&self, place: usize, text: &[u8]) -> Option<usize>
        ensures { result ≡ row_below self.now place text.now }
    {
        let row = self.rows.get(place)?;
        let uses = self.uses.get(row.model)?;
        let number = number_below(*uses, text)?;
        self.links.get_index_of(&Link {
            above: Some(place),
            number,
        })
    }

    /// The number of the net that a text names in the instance in a row, with so many levels left.
    fn named_in(&self, depth: u32, place: usize, text: &[u8]) -> Option<u32>
        ensures { result ≡ named_from self.now depth place text.now }
    {
        if depth == 0 {
            return None;
        }
        if let Some(number) = self.number_named(place, text) {
            return Some(number);
        }
        let slash = place_of_slash(text)?;
        let below = self.row_below(place, &text[..slash])?;
        self.named_in(depth - 1, below, &text[slash + 1..])
    }

    /// The net that a text names, from the top: in an instance, a text that is a signal of its
    /// model names that signal's net; another text with a slash names what the text behind it names
    /// in the subcircuit that the number before it counts. It takes no memory, and a few look-ups
    /// by name a level.
    pub fn resolve(&self, text: &[u8]) -> Option<NodeId>
        ensures same { option_map (λ id. id.0) result ≡ named_by self.now text.now }
        ensures known { (models : List Model) → AreNamesOf models self.now →
            option_map (λ id. id.0) result ≡ net_named models text.now }
    {
        let number = self.named_in(LEVELS, 0, text)?;
        Some(NodeId(number))
    }
}

impl Resolve for NetNames {
    ghost net_of = { named_by };

    fn resolve(&self, text: &[u8]) -> Option<NodeId> {
        NetNames::resolve(self, text)
    }
}
