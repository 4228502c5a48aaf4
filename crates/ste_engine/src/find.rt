//! What is found of the consequents of one time; begin with `find_all`.

ghost use Rattle.std.specs.Prelude.{◌≡◌, ◌<◌, ◌++◌, ◌∷◌, [], ℕ, List, All, length};
ghost use Rattle.std.specs.List.{AllZip};
ghost use Rattle.ste_base.specs.Functions.{Function};
ghost use Rattle.dd_nodes.specs.Stores.{IsRef, Means};
ghost use Rattle.net_core.specs.Work.{SymbolicCut, SymbolicSet, conjunction, disjunction};
ghost use Rattle.dual_rail.specs.Rail.{AreRails, AreRefs, Built, HasFunction};
ghost use Rattle.sym_step.specs.Step.{IsCutBy, rails_at};
ghost use Rattle.sym_step.specs.Frame.{nets_of};
ghost use Rattle.ste_model.specs.Work.{both_bits, found_strong, found_weak};
ghost use Rattle.ste_engine.specs.private.Finds.{AreFound, AreFoundRefs, add_work, find_work, found_work, more_strong, more_weak, strong_work, weak_work};

use crate::results::Found;
use dd_nodes::{Nodes, Ref};
use dd_ops::{OpFault, Ops};
use dual_rail::{Rails, both, either};
use engine_parts::refuted;
use sym_step::{Cut, Frame};

/// The sum with where the guard is 1 and something is found.
fn add<N: Nodes>(ops: &Ops, nodes: &mut N, sum: Ref, guard: Ref, found: Ref) -> Result<Ref, OpFault>
    requires sum { IsRef (N.store nodes.old) sum }
    requires guard { IsRef (N.store nodes.old) guard }
    requires found { IsRef (N.store nodes.old) found }
    ensures { (f h y : Function) → Means (N.store nodes.old) f sum
        → Means (N.store nodes.old) h guard → Means (N.store nodes.old) y found
        → Built (add_work f h y) (HasFunction (disjunction f (conjunction h y)))
        (N.store nodes.old) (N.store nodes.new) result }
{
    let more = both(ops, nodes, guard, found)?;
    either(ops, nodes, sum, more)
}

/// The sum with where one more consequent is found strong.
fn add_strong<N: Nodes>(
    ops: &Ops,
    nodes: &mut N,
    sum: Ref,
    r: Rails,
    c: Cut,
) -> Result<Ref, OpFault>
    requires sum { IsRef (N.store nodes.old) sum }
    requires rails { AreRefs (N.store nodes.old) r }
    requires guard { IsRef (N.store nodes.old) c.guard }
    requires value { IsRef (N.store nodes.old) c.value }
    ensures { (f : Function) (w : SymbolicSet) (h x : Function) → Means (N.store nodes.old) f sum
        → AreRails (N.store nodes.old) w r
        → Means (N.store nodes.old) h c.guard → Means (N.store nodes.old) x c.value
        → Built (strong_work f w h x) (HasFunction (disjunction f (found_strong w h x)))
        (N.store nodes.old) (N.store nodes.new) result }
{
    let found = refuted(ops, nodes, r, c.value)?;
    add(ops, nodes, sum, c.guard, found)
}

/// The sum with where one more consequent is found weak.
fn add_weak<N: Nodes>(
    ops: &Ops,
    nodes: &mut N,
    sum: Ref,
    r: Rails,
    guard: Ref,
) -> Result<Ref, OpFault>
    requires sum { IsRef (N.store nodes.old) sum }
    requires rails { AreRefs (N.store nodes.old) r }
    requires guard { IsRef (N.store nodes.old) guard }
    ensures { (f : Function) (w : SymbolicSet) (h x : Function) → Means (N.store nodes.old) f sum
        → AreRails (N.store nodes.old) w r → Means (N.store nodes.old) h guard
        → Built (weak_work f w h) (HasFunction (disjunction f (found_weak w h x)))
        (N.store nodes.old) (N.store nodes.new) result }
{
    let found = both(ops, nodes, r.can0, r.can1)?;
    add(ops, nodes, sum, guard, found)
}

/// What is found so far, with one more consequent.
fn find<N: Nodes>(
    ops: &Ops,
    nodes: &mut N,
    r: Rails,
    c: Cut,
    found: Found,
) -> Result<Found, OpFault>
    requires rails { AreRefs (N.store nodes.old) r }
    requires guard { IsRef (N.store nodes.old) c.guard }
    requires value { IsRef (N.store nodes.old) c.value }
    requires found { AreFoundRefs (N.store nodes.old) found }
    ensures { (f k : Function) (w : SymbolicSet) (h x : Function)
        → AreFound f k (N.store nodes.old) found → AreRails (N.store nodes.old) w r
        → Means (N.store nodes.old) h c.guard → Means (N.store nodes.old) x c.value
        → Built (find_work f k w h x)
        (AreFound (disjunction f (found_strong w h x)) (disjunction k (found_weak w h x)))
        (N.store nodes.old) (N.store nodes.new) result }
{
    let strong = add_strong(ops, nodes, found.strong, r, c)?;
    let weak = add_weak(ops, nodes, found.weak, r, c.guard)?;
    Ok(Found { strong, weak })
}

/// What is found so far, with all consequents of one time, in order.
pub fn find_all<N: Nodes>(
    ops: &Ops,
    nodes: &mut N,
    frame: &Frame,
    cuts: &[Cut],
    found: Found,
) -> Result<Found, OpFault>
    requires nets { All (AreRefs (N.store nodes.old)) (nets_of frame.now) }
    requires inside { All (λ c. c.node.0 < length (nets_of frame.now)) cuts.now }
    requires guards { All (λ c. IsRef (N.store nodes.old) c.guard) cuts.now }
    requires values { All (λ c. IsRef (N.store nodes.old) c.value) cuts.now }
    requires found { AreFoundRefs (N.store nodes.old) found }
    ensures { (sets : ℕ → SymbolicSet) (ds : List SymbolicCut) (f h : Function)
        → ((id : ℕ) → id < length (nets_of frame.now)
        → AreRails (N.store nodes.old) (sets id) (rails_at (nets_of frame.now) id))
        → AllZip (IsCutBy (N.store nodes.old)) ds cuts.now → AreFound f h (N.store nodes.old) found
        → Built (found_work sets ds f h) (AreFound (more_strong sets ds f) (more_weak sets ds h))
        (N.store nodes.old) (N.store nodes.new) result }
{
    let mut all = found;
    for c in cuts {
        all = find(ops, nodes, frame.rails(c.node), *c, all)?;
    }
    Ok(all)
}
