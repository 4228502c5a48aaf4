//! What is found of the consequents of one edge, where the edge is feasible; begin with
//! `with_found`.

ghost use Rattle.std.specs.Prelude.{◌≡◌, ℕ, List, All, IfOk, length};
ghost use Rattle.std.specs.List.{AllZip};
ghost use Rattle.ste_base.specs.Functions.{Function};
ghost use Rattle.dd_nodes.specs.Stores.{IsRef, Keeps, Means};
ghost use Rattle.net_core.specs.Work.{SymbolicCut, SymbolicSet, conjunction, disjunction};
ghost use Rattle.dual_rail.specs.Rail.{AreRails, AreRefs, Built, HasFunction};
ghost use Rattle.sym_step.specs.Step.{IsCutBy};
ghost use Rattle.ste_model.specs.Work.{both_bits, found_strong, found_weak, refutes};
ghost use Rattle.gste_engine.specs.private.EdgeFinds.{AreFindings, AreFindingsRefs, gated_add_work, gated_find_work, gated_finding, gated_finds_work, gated_strong_work, gated_weak_work, more_gated_strong, more_gated_weak, with_found_work};

use dd_nodes::{Nodes, Ref};
use dd_ops::{OpFault, Ops};
use dual_rail::{Rails, both, either};
use engine_parts::refuted;
use sym_step::Cut;

/// Where some consequent so far is found strong, where one is found weak, and where an edge is
/// feasible.
#[derive(Clone, Copy, PartialEq, Eq, Drop)]
pub struct Findings {
    pub strong: Ref,
    pub weak: Ref,
    pub feasible: Ref,
}

/// The sum with where the guard is 1 and something is found, on an edge that is feasible where
/// `gate` is 1.
fn add<N: Nodes>(
    ops: &Ops,
    nodes: &mut N,
    sum: Ref,
    guard: Ref,
    found: Ref,
    gate: Ref,
) -> Result<Ref, OpFault>
    requires sum { IsRef (N.store nodes.old) sum }
    requires guard { IsRef (N.store nodes.old) guard }
    requires found { IsRef (N.store nodes.old) found }
    requires gate { IsRef (N.store nodes.old) gate }
    ensures { (f h y z : Function) → Means (N.store nodes.old) f sum
        → Means (N.store nodes.old) h guard → Means (N.store nodes.old) y found
        → Means (N.store nodes.old) z gate
        → Built (gated_add_work f h y z) (HasFunction (disjunction f (gated_finding h y z)))
        (N.store nodes.old) (N.store nodes.new) result }
{
    let asked = both(ops, nodes, guard, found)?;
    let more = both(ops, nodes, asked, gate)?;
    either(ops, nodes, sum, more)
}

/// The sum with where one more consequent is found strong.
fn add_strong<N: Nodes>(
    ops: &Ops,
    nodes: &mut N,
    sum: Ref,
    r: Rails,
    cut: Cut,
    gate: Ref,
) -> Result<Ref, OpFault>
    requires sum { IsRef (N.store nodes.old) sum }
    requires rails { AreRefs (N.store nodes.old) r }
    requires guard { IsRef (N.store nodes.old) cut.guard }
    requires value { IsRef (N.store nodes.old) cut.value }
    requires gate { IsRef (N.store nodes.old) gate }
    ensures { (f : Function) (w : SymbolicSet) (h x z : Function)
        → Means (N.store nodes.old) f sum → AreRails (N.store nodes.old) w r
        → Means (N.store nodes.old) h cut.guard → Means (N.store nodes.old) x cut.value
        → Means (N.store nodes.old) z gate
        → Built (gated_strong_work f w h x z)
        (HasFunction (disjunction f (conjunction (found_strong w h x) z)))
        (N.store nodes.old) (N.store nodes.new) result }
{
    let found = refuted(ops, nodes, r, cut.value)?;
    add(ops, nodes, sum, cut.guard, found, gate)
}

/// The sum with where one more consequent is found weak.
fn add_weak<N: Nodes>(
    ops: &Ops,
    nodes: &mut N,
    sum: Ref,
    r: Rails,
    guard: Ref,
    gate: Ref,
) -> Result<Ref, OpFault>
    requires sum { IsRef (N.store nodes.old) sum }
    requires rails { AreRefs (N.store nodes.old) r }
    requires guard { IsRef (N.store nodes.old) guard }
    requires gate { IsRef (N.store nodes.old) gate }
    ensures { (f : Function) (w : SymbolicSet) (h x z : Function)
        → Means (N.store nodes.old) f sum → AreRails (N.store nodes.old) w r
        → Means (N.store nodes.old) h guard → Means (N.store nodes.old) z gate
        → Built (gated_weak_work f w h z)
        (HasFunction (disjunction f (conjunction (found_weak w h x) z)))
        (N.store nodes.old) (N.store nodes.new) result }
{
    let found = both(ops, nodes, r.can0, r.can1)?;
    add(ops, nodes, sum, guard, found, gate)
}

/// What is found so far, with one more consequent of an edge that is feasible where `gate` is 1.
fn find<N: Nodes>(
    ops: &Ops,
    nodes: &mut N,
    r: Rails,
    cut: Cut,
    gate: Ref,
    found: Findings,
) -> Result<Findings, OpFault>
    requires rails { AreRefs (N.store nodes.old) r }
    requires guard { IsRef (N.store nodes.old) cut.guard }
    requires value { IsRef (N.store nodes.old) cut.value }
    requires gate { IsRef (N.store nodes.old) gate }
    requires found { AreFindingsRefs (N.store nodes.old) found }
    ensures { (f k e : Function) (w : SymbolicSet) (h x z : Function)
        → AreFindings f k e (N.store nodes.old) found → AreRails (N.store nodes.old) w r
        → Means (N.store nodes.old) h cut.guard → Means (N.store nodes.old) x cut.value
        → Means (N.store nodes.old) z gate
        → Built (gated_find_work f k w h x z)
        (AreFindings (disjunction f (conjunction (found_strong w h x) z))
        (disjunction k (conjunction (found_weak w h x) z)) e)
        (N.store nodes.old) (N.store nodes.new) result }
{
    let strong = add_strong(ops, nodes, found.strong, r, cut, gate)?;
    let weak = add_weak(ops, nodes, found.weak, r, cut.guard, gate)?;
    Ok(Findings {
        strong,
        weak,
        feasible: found.feasible,
    })
}

/// What is found so far, with all consequents of an edge that is feasible where `gate` is 1, in
/// order. `seen` are the sets of their nets, one by one.
fn find_all<N: Nodes>(
    ops: &Ops,
    nodes: &mut N,
    seen: &[Rails],
    cuts: &[Cut],
    gate: Ref,
    found: Findings,
) -> Result<Findings, OpFault>
    requires seen { All (AreRefs (N.store nodes.old)) seen.now }
    requires long { length seen.now ≡ length cuts.now }
    requires guards { All (λ c. IsRef (N.store nodes.old) c.guard) cuts.now }
    requires values { All (λ c. IsRef (N.store nodes.old) c.value) cuts.now }
    requires gate { IsRef (N.store nodes.old) gate }
    requires found { AreFindingsRefs (N.store nodes.old) found }
    ensures keeps { Keeps (N.store nodes.old) (N.store nodes.new) }
    ensures refs { IfOk result (AreFindingsRefs (N.store nodes.new)) }
    ensures found { (sets : ℕ → SymbolicSet) (ds : List SymbolicCut) (z f h e : Function)
        → AllZip (λ d r. AreRails (N.store nodes.old) (sets d.node) r) ds seen.now
        → AllZip (IsCutBy (N.store nodes.old)) ds cuts.now
        → Means (N.store nodes.old) z gate → AreFindings f h e (N.store nodes.old) found
        → Built (gated_finds_work sets ds z f h)
        (AreFindings (more_gated_strong sets ds z f) (more_gated_weak sets ds z h) e)
        (N.store nodes.old) (N.store nodes.new) result }
{
    let mut all = found;
    for k in 0..cuts.len() {
        all = find(ops, nodes, seen[k], cuts[k], gate, all)?;
    }
    Ok(all)
}

/// What is found so far, with all consequents of an edge, and with where the edge is feasible.
pub fn with_found<N: Nodes>(
    ops: &Ops,
    nodes: &mut N,
    seen: &[Rails],
    cuts: &[Cut],
    gate: Ref,
    found: Findings,
) -> Result<Findings, OpFault>
    requires seen { All (AreRefs (N.store nodes.old)) seen.now }
    requires long { length seen.now ≡ length cuts.now }
    requires guards { All (λ c. IsRef (N.store nodes.old) c.guard) cuts.now }
    requires values { All (λ c. IsRef (N.store nodes.old) c.value) cuts.now }
    requires gate { IsRef (N.store nodes.old) gate }
    requires found { AreFindingsRefs (N.store nodes.old) found }
    ensures { (sets : ℕ → SymbolicSet) (ds : List SymbolicCut) (z f h e : Function)
        → AllZip (λ d r. AreRails (N.store nodes.old) (sets d.node) r) ds seen.now
        → AllZip (IsCutBy (N.store nodes.old)) ds cuts.now
        → Means (N.store nodes.old) z gate → AreFindings f h e (N.store nodes.old) found
        → Built (with_found_work sets ds z f h e)
        (AreFindings (more_gated_strong sets ds z f) (more_gated_weak sets ds z h)
        (disjunction e z))
        (N.store nodes.old) (N.store nodes.new) result }
{
    let more = find_all(ops, nodes, seen, cuts, gate, found)?;
    let feasible = either(ops, nodes, more.feasible, gate)?;
    Ok(Findings {
        strong: more.strong,
        weak: more.weak,
        feasible,
    })
}
