//! The set of one net behind its cuts; begin with `cut_net`, and with `cut_full` where it is known
//! that no set is empty. Which nets are cut, and where, is in `demands.rt`.

ghost use Rattle.std.specs.Prelude.{◌≡◌, ◌≢◌, ◌<◌, ◌∷◌, [], ℕ, List, All, IsTrue, length};
ghost use Rattle.std.specs.List.{AllZip};
ghost use Rattle.dd_nodes.specs.Stores.{IsRef, Means};
ghost use Rattle.ste_base.specs.Functions.{Function};
ghost use Rattle.net_core.specs.Work.{SymbolicSet, SymbolicCut, after_cut, after_cuts, cut_set, cut_work, cuts_work, negation, some_bit};
ghost use Rattle.dual_rail.specs.Rail.{AreRefs, AreRails, Built};
ghost use Rattle.sym_step.specs.Step.{IsCutBy};
ghost use Rattle.gate_sets.specs.declared.filling.Filling.TheVariants.{MayBeEmpty, TwoValued};
ghost use Rattle.gate_sets.specs.NetSets.{AreFlagged, AreFlaggedRefs, HasFlagged, HasNetSet, IsKnown};
ghost use Rattle.sym_step.specs.private.Parts.{IsEverywhere};

use crate::cut::Cut;
use crate::demands::Demands;
use dd_nodes::{Nodes, Ref};
use dd_ops::{OpFault, Ops};
use dual_rail::{Rails, cut, either, opposite};
use gate_sets::{Filling, FlaggedRails, NetRails, is_clear, is_constant, is_free};

/// The set of the value alone, which is what a cut with the guard 1 leaves of an unknown.
fn value_set<N: Nodes>(ops: &Ops, nodes: &mut N, value: Ref) -> Result<FlaggedRails, OpFault>
    requires { IsRef (N.store nodes.old) value }
    ensures { (x : Function) → Means (N.store nodes.old) x value
        → Built (negation x ∷ []) (HasFlagged (record { zero = negation x; one = x }))
        (N.store nodes.old) (N.store nodes.new) result }
{
    let can0 = opposite(ops, nodes, value)?;
    Ok(FlaggedRails {
        rails: Rails { can0, can1: value },
        known: true,
    })
}

/// The set behind a cut, of which nothing is known.
fn set_behind_cut<N: Nodes>(
    ops: &Ops,
    nodes: &mut N,
    r: Rails,
    guard: Ref,
    value: Ref,
) -> Result<FlaggedRails, OpFault>
    requires rails { AreRefs (N.store nodes.old) r }
    requires guard { IsRef (N.store nodes.old) guard }
    requires value { IsRef (N.store nodes.old) value }
    ensures { (w : SymbolicSet) (g x : Function)
        → AreRails (N.store nodes.old) w r
        → Means (N.store nodes.old) g guard → Means (N.store nodes.old) x value
        → Built (cut_work w g x) (HasFlagged (cut_set w g x))
        (N.store nodes.old) (N.store nodes.new) result }
{
    let rails = cut(ops, nodes, r, guard, value)?;
    Ok(FlaggedRails {
        rails,
        known: false,
    })
}

/// The set behind one cut, where it is of this net.
fn cut_once<N: Nodes>(
    ops: &Ops,
    nodes: &mut N,
    c: Cut,
    id: u32,
    r: FlaggedRails,
) -> Result<FlaggedRails, OpFault>
    requires rails { AreRefs (N.store nodes.old) r.rails }
    requires guard { IsRef (N.store nodes.old) c.guard }
    requires value { IsRef (N.store nodes.old) c.value }
    ensures { (d : SymbolicCut) (sets : ℕ → SymbolicSet)
        → IsCutBy (N.store nodes.old) d c → AreFlagged (N.store nodes.old) (sets id) r
        → Built (cut_work (sets d.node) d.guard d.value) (HasFlagged (after_cut d sets id))
        (N.store nodes.old) (N.store nodes.new) result }
{
    if c.node.0 != id {
        return Ok(r);
    }
    if c.guard == Ref::TRUE && is_free(r.rails) {
        return value_set(ops, nodes, c.value);
    }
    set_behind_cut(ops, nodes, r.rails, c.guard, c.value)
}

/// The set of a net behind all cuts of it, in order. Cuts of other nets are not looked at.
fn cut_all<N: Nodes>(
    ops: &Ops,
    nodes: &mut N,
    demands: &Demands,
    id: u32,
    r: FlaggedRails,
) -> Result<FlaggedRails, OpFault>
    requires rails { AreFlaggedRefs (N.store nodes.old) r }
    requires guards { All (λ c. IsRef (N.store nodes.old) c.guard) demands.now.cuts }
    requires values { All (λ c. IsRef (N.store nodes.old) c.value) demands.now.cuts }
    ensures { (ds : List SymbolicCut) (sets : ℕ → SymbolicSet)
        → AllZip (IsCutBy (N.store nodes.old)) ds demands.now.cuts
        → AreFlagged (N.store nodes.old) (sets id) r
        → Built (cuts_work ds sets) (HasFlagged (after_cuts ds sets id))
        (N.store nodes.old) (N.store nodes.new) result }
{
    let mut left = r;
    let mut at = demands.first(id);
    while at < demands.len() {
        left = cut_once(ops, nodes, demands.at(at), id, left)?;
        at = demands.next(at);
    }
    Ok(left)
}

/// The same; the cuts are looked at only where there is one of the net.
fn cut_marked<N: Nodes>(
    ops: &Ops,
    nodes: &mut N,
    demands: &Demands,
    id: u32,
    r: FlaggedRails,
) -> Result<FlaggedRails, OpFault>
    requires rails { AreFlaggedRefs (N.store nodes.old) r }
    requires guards { All (λ c. IsRef (N.store nodes.old) c.guard) demands.now.cuts }
    requires values { All (λ c. IsRef (N.store nodes.old) c.value) demands.now.cuts }
    requires id { id < demands.now.nets }
    ensures { (ds : List SymbolicCut) (sets : ℕ → SymbolicSet)
        → AllZip (IsCutBy (N.store nodes.old)) ds demands.now.cuts
        → AreFlagged (N.store nodes.old) (sets id) r
        → Built (cuts_work ds sets) (HasFlagged (after_cuts ds sets id))
        (N.store nodes.old) (N.store nodes.new) result }
{
    if demands.is_asked(id) {
        cut_all(ops, nodes, demands, id, r)
    } else {
        Ok(r)
    }
}

/// The set with where it has a bit.
fn with_some_bit<N: Nodes>(ops: &Ops, nodes: &mut N, r: FlaggedRails) -> Result<NetRails, OpFault>
    requires { AreRefs (N.store nodes.old) r.rails }
    ensures { (w : SymbolicSet) → AreFlagged (N.store nodes.old) w r
        → Built (some_bit w ∷ []) (HasNetSet w)
        (N.store nodes.old) (N.store nodes.new) result }
{
    let rails = r.rails;
    if r.known {
        return Ok(NetRails {
            can0: rails.can0,
            can1: rails.can1,
            some: Ref::TRUE,
            known: true,
        });
    }
    let some = either(ops, nodes, rails.can0, rails.can1)?;
    Ok(NetRails {
        can0: rails.can0,
        can1: rails.can1,
        some,
        known: false,
    })
}

/// The set of a net behind all cuts of it, with where it has a bit.
pub fn cut_net<N: Nodes>(
    ops: &Ops,
    nodes: &mut N,
    demands: &Demands,
    id: u32,
    r: Rails,
) -> Result<NetRails, OpFault>
    requires rails { AreRefs (N.store nodes.old) r }
    requires guards { All (λ c. IsRef (N.store nodes.old) c.guard) demands.now.cuts }
    requires values { All (λ c. IsRef (N.store nodes.old) c.value) demands.now.cuts }
    requires id { id < demands.now.nets }
    ensures { (ds : List SymbolicCut) (sets : ℕ → SymbolicSet)
        → AllZip (IsCutBy (N.store nodes.old)) ds demands.now.cuts
        → AreRails (N.store nodes.old) (sets id) r
        → Built (some_bit (after_cuts ds sets id) ∷ cuts_work ds sets)
        (HasNetSet (after_cuts ds sets id))
        (N.store nodes.old) (N.store nodes.new) result }
{
    let known = is_constant(r);
    let flagged = FlaggedRails { rails: r, known };
    let left = cut_marked(ops, nodes, demands, id, flagged)?;
    with_some_bit(ops, nodes, left)
}

/// The same where so much is known of the set; then nothing is called for a net
/// without a cut.
pub fn cut_full<N: Nodes>(
    ops: &Ops,
    nodes: &mut N,
    demands: &Demands,
    id: u32,
    r: Rails,
    filling: Filling,
) -> Result<NetRails, OpFault>
    requires rails { AreRefs (N.store nodes.old) r }
    requires guards { All (λ c. IsRef (N.store nodes.old) c.guard) demands.now.cuts }
    requires values { All (λ c. IsRef (N.store nodes.old) c.value) demands.now.cuts }
    requires id { id < demands.now.nets }
    ensures { (ds : List SymbolicCut) (sets : ℕ → SymbolicSet)
        → AllZip (IsCutBy (N.store nodes.old)) ds demands.now.cuts
        → AreRails (N.store nodes.old) (sets id) r
        → (filling ≢ MayBeEmpty → IsEverywhere (N.store nodes.old).vars (some_bit (sets id)))
        → (filling ≡ TwoValued → IsKnown (N.store nodes.old).vars (sets id))
        → Built (some_bit (after_cuts ds sets id) ∷ cuts_work ds sets)
        (HasNetSet (after_cuts ds sets id))
        (N.store nodes.old) (N.store nodes.new) result }
{
    if filling.is_full() && !demands.is_asked(id) {
        let known = is_clear(filling.is_known(), r);
        return Ok(NetRails {
            can0: r.can0,
            can1: r.can1,
            some: Ref::TRUE,
            known,
        });
    }
    cut_net(ops, nodes, demands, id, r)
}
