//! What is asked of one time: which nets are weakened, the cuts, the nets of both, and where the
//! cuts of each net stand. Begin with `Demands`; `linked` makes its index. What a cut does to a set
//! is in `cuts.rt`.

ghost use Rattle.std.specs.Prelude.{◌≡◌, ◌<◌, ◌≤◌, ◌+◌, ℕ, Bool, false, true, All, IfOk, length, slice_index_or};
ghost use Rattle.net_core.specs.Possible.{is_weakened};
ghost use Rattle.sym_step.specs.declared.cut.Cut.{Cut as AnCut};
ghost use Rattle.sym_step.specs.Frame.{is_listed};
ghost use Rattle.sym_step.specs.Step.{ids_of};
ghost use Rattle.sym_step.specs.private.Demands.{AreFlaggedNets, AreLinked, HaveFlags, IsNearest, node_at, nodes_of, place_of_cut};

use crate::cut::Cut;
use std::alloc::{AllocError, Global};
use std::marker::Model;
use ste_base::NodeId;

/// Where the cuts of each net stand in a list: a flag for each net that is cut or weakened, the
/// place of its first cut, or the number of cuts, and for each cut the place of the next one of the
/// same net, or the number of cuts. The place of a net without a flag says nothing.
#[derive(Drop)]
pub struct CutLinks {
    pub is_asked: Vec<bool>,
    pub first: Vec<usize>,
    pub next: Vec<usize>,
}

/// What is asked of one time: the cuts, in order, and the weakened nets; the nets of both, the
/// links of the cuts, and a flag for each weakened net, or none at all where no net is weakened.
/// Contracts see the cuts, the weakened nets, and the number of nets.
#[derive(Drop)]
pub struct Demands<'a> {
    pub(crate) cuts: &'a [Cut],
    pub(crate) weak: &'a [NodeId],
    pub(crate) nodes: &'a [NodeId],
    pub(crate) is_asked: &'a [bool],
    pub(crate) is_weak: &'a [bool],
    pub(crate) first: &'a [usize],
    pub(crate) next: &'a [usize],
}

impl<'a> Model for Demands<'a> {
    ghost use Rattle.std.specs.Prelude.{length};
    ghost use Rattle.sym_step.specs.private.Demands.{AreDemands, Demanded};

    ghost Value = { Demanded };

    ghost view = { λ d. record {
      cuts = d.cuts.now;
      weak = d.weak.now;
      nets = length d.is_asked.now;
    } };

    ghost invariant = { λ d. AreDemands d.cuts.now d.weak.now d.nodes.now
        d.is_asked.now d.is_weak.now d.first.now d.next.now };
}

/// The place of the first cut of a net: its own where it has a flag, and else the number of cuts.
fn place_of_cut(is_asked: &[bool], first: &[usize], count: usize, id: u32) -> usize
    requires { length is_asked.now ≤ length first.now }
    ensures { result ≡ place_of_cut (slice_index_or is_asked.now id false)
        (slice_index_or first.now id 0) count }
{
    match is_asked.get(id as usize) {
        Some(true) => first[id as usize],
        _ => count,
    }
}

/// The flag of a net; none for a number beyond the flags.
fn flag_of(flags: &[bool], id: u32) -> bool
    ensures { result ≡ slice_index_or flags.now id false }
{
    match flags.get(id as usize) {
        Some(flag) => *flag,
        None => false,
    }
}

/// The cut at a place.
fn cut_at(cuts: &[Cut], place: usize) -> Cut
    requires { place < length cuts.now }
    ensures { (d : AnCut) → result ≡ slice_index_or cuts.now place d }
{
    cuts[place]
}

/// The place that is noted behind a place.
fn behind(next: &[usize], place: usize) -> usize
    requires { place < length next.now }
    ensures { result ≡ slice_index_or next.now place 0 }
{
    next[place]
}

impl<'a> Demands<'a> {
    /// The weakened nets, and behind them those that are cut, one for each cut.
    pub fn nodes(&self) -> &[NodeId]
        ensures nodes { result.now ≡ nodes_of self.now.weak self.now.cuts }
        ensures inside { All (λ node. node.0 < self.now.nets) result.now }
    {
        self.nodes
    }

    /// Whether something is asked of a net: it is cut, or weakened.
    pub fn is_asked(&self, id: u32) -> bool
        requires { id < self.now.nets }
        ensures { result ≡ false → is_listed (nodes_of self.now.weak self.now.cuts) id ≡ false }
    {
        self.is_asked[id as usize]
    }

    /// Whether a net is weakened.
    pub fn is_weak(&self, id: u32) -> bool
        ensures { result ≡ is_weakened (ids_of self.now.weak) id }
    {
        flag_of(self.is_weak, id)
    }

    /// The number of cuts.
    pub fn len(&self) -> usize
        ensures { result ≡ length self.now.cuts }
    {
        self.cuts.len()
    }

    /// The cut at this place.
    pub fn at(&self, place: usize) -> Cut
        requires { place < length self.now.cuts }
        ensures { (d : AnCut) → result ≡ slice_index_or self.now.cuts place d }
    {
        cut_at(self.cuts, place)
    }

    /// The place of the first cut of a net, or the number of cuts where there is none.
    pub fn first(&self, id: u32) -> usize
        ensures { IsNearest self.now.cuts id 0 result }
    {
        place_of_cut(self.is_asked, self.first, self.cuts.len(), id)
    }

    /// The place of the next cut of the net of the one at this place, or the number of cuts where
    /// there is none.
    pub fn next(&self, place: usize) -> usize
        requires { place < length self.now.cuts }
        ensures { IsNearest self.now.cuts (node_at self.now.cuts place) (place + 1) result }
    {
        behind(self.next, place)
    }
}

/// No flag for any of `nets` nets, in this memory where it is that of so many flags.
fn no_flags(alloc: Global, used: Vec<bool>, nets: u32) -> Result<Vec<bool>, AllocError>
    ensures long { IfOk result (λ flags. length flags.items ≡ nets) }
    ensures none { IfOk result (λ flags. (id : ℕ) → slice_index_or flags.items id false ≡ false) }
{
    if used.len() != nets as usize {
        return vec![in alloc; false; nets as usize];
    }
    let mut flags = used;
    flags.fill(false);
    Ok(flags)
}

/// At least so many places, in this memory where it has them.
fn places(alloc: Global, used: Vec<usize>, count: usize) -> Result<Vec<usize>, AllocError>
    ensures { IfOk result (λ places. count ≤ length places.items) }
{
    if used.len() >= count {
        return Ok(used);
    }
    vec![in alloc; 0; count]
}

impl CutLinks {
    /// Links without memory.
    pub fn none(alloc: Global) -> CutLinks {
        CutLinks {
            is_asked: Vec::new(alloc),
            first: Vec::new(alloc),
            next: Vec::new(alloc),
        }
    }
}

/// Gives each weakened net a flag, and as the place of its first cut the number of cuts.
fn flag_weakened(weak: &[NodeId], count: usize, flags: &mut Vec<bool>, first: &mut Vec<usize>)
    requires inside { All (λ node. node.0 < length flags.old.items) weak.now }
    requires wide { length flags.old.items ≤ length first.old.items }
    requires none { (id : ℕ) → slice_index_or flags.old.items id false ≡ false }
    ensures long { length flags.new.items ≡ length flags.old.items }
    ensures wide { length first.new.items ≡ length first.old.items }
    ensures flagged { AreFlaggedNets weak.now flags.new.items }
    ensures places { (id : ℕ) → slice_index_or flags.new.items id false ≡ true
        → slice_index_or first.new.items id 0 ≡ count }
{
    for node in weak {
        flags[node.0 as usize] = true;
        first[node.0 as usize] = count;
    }
}

/// A flag for each weakened net, in this memory where it is that of `nets` flags; no flags at all
/// where no net is weakened.
pub fn weak_flags(
    alloc: Global,
    used: Vec<bool>,
    weak: &[NodeId],
    nets: u32,
) -> Result<Vec<bool>, AllocError>
    requires { All (λ node. node.0 < nets) weak.now }
    ensures { IfOk result (λ flags. HaveFlags weak.now flags.items) }
{
    if weak.is_empty() {
        return Ok(Vec::new(alloc));
    }
    let mut flags = no_flags(alloc, used, nets)?;
    for node in weak {
        flags[node.0 as usize] = true;
    }
    Ok(flags)
}

/// The links of these cuts, which are of `nets` nets, with a flag for each weakened net too, in
/// this memory where it fits.
#[tactic(auto, using(crate::proofs::CutLists::begin, crate::proofs::CutLists::turn))]
pub fn links_of(
    alloc: Global,
    used: CutLinks,
    weak: &[NodeId],
    cuts: &[Cut],
    nets: u32,
) -> Result<CutLinks, AllocError>
    requires weak { All (λ node. node.0 < nets) weak.now }
    requires cuts { All (λ c. c.node.0 < nets) cuts.now }
    ensures long { IfOk result (λ links. length links.is_asked.items ≡ nets) }
    ensures linked { IfOk result (λ links. AreLinked cuts.now 0
        links.is_asked.items links.first.items links.next.items) }
    ensures flagged { IfOk result (λ links. AreFlaggedNets weak.now links.is_asked.items) }
{
    let mut is_asked = no_flags(alloc, used.is_asked, nets)?;
    let mut first = places(alloc, used.first, nets as usize)?;
    let mut next = places(alloc, used.next, cuts.len())?;
    flag_weakened(weak, cuts.len(), &mut is_asked, &mut first);
    let mut at = cuts.len();
    while at > 0 {
        at -= 1;
        let id = cuts[at].node.0;
        next[at] = place_of_cut(&is_asked, &first, cuts.len(), id);
        first[id as usize] = at;
        is_asked[id as usize] = true;
    }
    Ok(CutLinks {
        is_asked,
        first,
        next,
    })
}
