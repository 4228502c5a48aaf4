//! Where the quintuples of one time are broken; begin with `add_both`.

ghost use Rattle.std.specs.Prelude.{◌≡◌, ◌<◌, ℕ, List, All, IfOk, length};
ghost use Rattle.ste_base.specs.Functions.{Function};
ghost use Rattle.dd_nodes.specs.Stores.{IsRef, Keeps, Means};
ghost use Rattle.net_core.specs.Work.{disjunction, whole};
ghost use Rattle.ste_model.specs.declared.task.Quint.{Quint};
ghost use Rattle.ste_model.specs.Work.{symbolic_cuts_at};
ghost use Rattle.dual_rail.specs.Rail.{Built, HasFunction};
ghost use Rattle.exact_engine.specs.private.TimedCuts.{AreTimedCuts, AreBothAdded, IsTimedCutRef, timed_cut_work, broken, both_added, broken_at, broken_work, cuts_added, only_if, runs_at};
ghost use Rattle.exact_engine.specs.private.Bits.{AreBits};

use crate::results::Broken;
use crate::timed_cut::TimedCut;
use dd_nodes::{Nodes, Ref};
use dd_ops::{OpFault, Ops};
use dual_rail::{both, either};
use ste_base::Time;

/// The sum so far with where a net whose bit this is breaks a quintuple.
fn add_broken<N: Nodes>(
    ops: &Ops,
    nodes: &mut N,
    sum: Ref,
    guard: Ref,
    value: Ref,
    bit: Ref,
) -> Result<Ref, OpFault>
    requires sum { IsRef (N.store nodes.old) sum }
    requires guard { IsRef (N.store nodes.old) guard }
    requires value { IsRef (N.store nodes.old) value }
    requires bit { IsRef (N.store nodes.old) bit }
    ensures { (f b g x : Function)
        → Means (N.store nodes.old) f sum → Means (N.store nodes.old) b bit
        → Means (N.store nodes.old) g guard → Means (N.store nodes.old) x value
        → Built (broken_work f b g x) (HasFunction (disjunction f (broken b g x)))
        (N.store nodes.old) (N.store nodes.new) result }
{
    let differs = ops.xor(nodes, bit, value)?;
    let broken = both(ops, nodes, guard, differs)?;
    either(ops, nodes, sum, broken)
}

/// The same where the quintuple has the time, and else the sum so far.
fn add_timed_cut<N: Nodes>(
    ops: &Ops,
    nodes: &mut N,
    sum: Ref,
    timed_cut: TimedCut,
    time: Time,
    bit: Ref,
) -> Result<Ref, OpFault>
    requires sum { IsRef (N.store nodes.old) sum }
    requires guard { IsRef (N.store nodes.old) timed_cut.guard }
    requires value { IsRef (N.store nodes.old) timed_cut.value }
    requires bit { IsRef (N.store nodes.old) bit }
    ensures { (f b g x : Function)
        → Means (N.store nodes.old) f sum → Means (N.store nodes.old) b bit
        → Means (N.store nodes.old) g timed_cut.guard → Means (N.store nodes.old) x timed_cut.value
        → Built (timed_cut_work (runs_at time timed_cut) f b g x)
        (HasFunction (whole disjunction f (only_if (runs_at time timed_cut) (broken b g x))))
        (N.store nodes.old) (N.store nodes.new) result }
{
    if time < timed_cut.from {
        return Ok(sum);
    }
    if timed_cut.to <= time {
        return Ok(sum);
    }
    add_broken(ops, nodes, sum, timed_cut.guard, timed_cut.value, bit)
}

/// The sum so far with where the quintuples that have the time are broken, in text order.
fn add_time<N: Nodes>(
    ops: &Ops,
    nodes: &mut N,
    sum: Ref,
    timed_cuts: &[TimedCut],
    time: Time,
    bits: &[Ref],
) -> Result<Ref, OpFault>
    requires sum { IsRef (N.store nodes.old) sum }
    requires timed_cuts { All (IsTimedCutRef (N.store nodes.old) (length bits.now)) timed_cuts.now }
    requires refs { All (IsRef (N.store nodes.old)) bits.now }
    ensures built { (f : Function) (bit : ℕ → Function) (quints : List Quint)
        → Means (N.store nodes.old) f sum
        → AreBits (N.store nodes.old) (length bits.now) bit bits.now
        → AreTimedCuts (N.store nodes.old) quints timed_cuts.now
        → Built (cuts_added f bit (symbolic_cuts_at quints time))
        (HasFunction (whole disjunction f (broken_at bit (symbolic_cuts_at quints time))))
        (N.store nodes.old) (N.store nodes.new) result }
    ensures keeps { Keeps (N.store nodes.old) (N.store nodes.new) }
    ensures held { IfOk result (λ r. IsRef (N.store nodes.new) r) }
{
    let mut sum = sum;
    for k in 0..timed_cuts.len() {
        sum = add_timed_cut(
            ops,
            nodes,
            sum,
            timed_cuts[k],
            time,
            bits[timed_cuts[k].node.0 as usize],
        )?;
    }
    Ok(sum)
}

/// Both sums so far with where the quintuples that have the time are broken.
pub fn add_both<N: Nodes>(
    ops: &Ops,
    nodes: &mut N,
    sums: Broken,
    ant: &[TimedCut],
    con: &[TimedCut],
    time: Time,
    bits: &[Ref],
) -> Result<Broken, OpFault>
    requires ant_sum { IsRef (N.store nodes.old) sums.ant }
    requires con_sum { IsRef (N.store nodes.old) sums.con }
    requires ant { All (IsTimedCutRef (N.store nodes.old) (length bits.now)) ant.now }
    requires con { All (IsTimedCutRef (N.store nodes.old) (length bits.now)) con.now }
    requires refs { All (IsRef (N.store nodes.old)) bits.now }
    ensures built { (f h : Function) (bit : ℕ → Function) (one two : List Quint)
        → Means (N.store nodes.old) f sums.ant → Means (N.store nodes.old) h sums.con
        → AreBits (N.store nodes.old) (length bits.now) bit bits.now
        → AreTimedCuts (N.store nodes.old) one ant.now
        → AreTimedCuts (N.store nodes.old) two con.now
        → Built (both_added f h bit (symbolic_cuts_at one time) (symbolic_cuts_at two time))
        (AreBothAdded f h bit (symbolic_cuts_at one time) (symbolic_cuts_at two time))
        (N.store nodes.old) (N.store nodes.new) result }
    ensures keeps { Keeps (N.store nodes.old) (N.store nodes.new) }
    ensures ant_held { IfOk result (λ r. IsRef (N.store nodes.new) r.ant) }
    ensures con_held { IfOk result (λ r. IsRef (N.store nodes.new) r.con) }
{
    let first = add_time(ops, nodes, sums.ant, ant, time, bits)?;
    let second = add_time(ops, nodes, sums.con, con, time, bits)?;
    Ok(Broken {
        ant: first,
        con: second,
    })
}
