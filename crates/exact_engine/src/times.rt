//! The bits of all nets time by time, and where quintuples are broken; begin with `broken_sums`.

ghost use Rattle.std.specs.Prelude.{◌≡◌, ◌<◌, ◌≤◌, ◌+◌, ℕ, All, IfOk, length, suc};
ghost use Rattle.std.specs.declared.vec.Vec.{Vec};
ghost use Rattle.ste_base.specs.Functions.{Function};
ghost use Rattle.dd_nodes.specs.Stores.{IsRef, Keeps};
ghost use Rattle.dual_rail.specs.Rail.{Built};
ghost use Rattle.ste_model.specs.Asked.{depth as depth_of};
ghost use Rattle.exact_model.specs.Choices.{choices};
ghost use Rattle.exact_model.specs.ExactWork.{exact_work};
ghost use Rattle.exact_engine.specs.private.TimedCuts.{AreTimedCuts, IsTimedCutRef};
ghost use Rattle.exact_engine.specs.private.Bits.{AreBits, FollowGates, time_work};
ghost use Rattle.exact_engine.specs.private.Counts.{first_count, open_count};
ghost use Rattle.exact_engine.specs.private.Sources.{IsFirstTime, IsNextTime};
ghost use Rattle.exact_engine.specs.private.Times.{AreSums, AreTimes, choice_at};

use crate::adding::add_both;
use crate::counting::{first_count, open_count};
use crate::results::Broken;
use crate::settling::settle;
use crate::sources::{first_sources, next_sources};
use crate::timed_cut::TimedCut;
use dd_nodes::{Nodes, Ref};
use dd_ops::{OpFault, Ops};
use net_core::Net;
use std::alloc::Global;
use ste_base::Time;
use ste_model::{Assertion, depth};

/// The bits of all nets at time 0, with the variables of the first choices.
fn first_bits<N: Nodes>(
    alloc: Global,
    ops: &Ops,
    nodes: &mut N,
    net: &Net,
    reset: bool,
    first: u32,
    choice: u32,
) -> Result<Vec<Ref>, OpFault>
    requires first { first + first_count net.now.raw reset ≤ (N.store nodes.old).vars }
    requires choice { choice + open_count net.now.raw ≤ (N.store nodes.old).vars }
    ensures built { (bit : ℕ → Function)
        → IsFirstTime (N.store nodes.old).vars net.now.raw reset first choice bit
        → FollowGates (N.store nodes.old).vars net.now.raw bit
        → Built (time_work net.now.raw bit)
        (λ t (bits : Vec Ref Global). AreBits t net.now.raw.nets bit bits.items)
        (N.store nodes.old) (N.store nodes.new) result }
    ensures keeps { Keeps (N.store nodes.old) (N.store nodes.new) }
    ensures refs { IfOk result (λ bits. All (IsRef (N.store nodes.new)) bits.items) }
    ensures long { IfOk result (λ bits. length bits.items ≡ net.now.raw.nets) }
{
    let sources = first_sources(alloc, ops, nodes, net, reset, first, choice)?;
    settle(ops, nodes, net, sources)
}

/// The bits of all nets at a later time, from those of one time earlier, with the variable of this
/// time's first choice.
fn next_bits<N: Nodes>(
    alloc: Global,
    ops: &Ops,
    nodes: &mut N,
    net: &Net,
    last: &[Ref],
    choice: u32,
) -> Result<Vec<Ref>, OpFault>
    requires long { length last.now ≡ net.now.raw.nets }
    requires refs { All (IsRef (N.store nodes.old)) last.now }
    requires choice { choice + open_count net.now.raw ≤ (N.store nodes.old).vars }
    ensures built { (before bit : ℕ → Function)
        → AreBits (N.store nodes.old) net.now.raw.nets before last.now
        → IsNextTime (N.store nodes.old).vars net.now.raw choice before bit
        → FollowGates (N.store nodes.old).vars net.now.raw bit
        → Built (time_work net.now.raw bit)
        (λ t (bits : Vec Ref Global). AreBits t net.now.raw.nets bit bits.items)
        (N.store nodes.old) (N.store nodes.new) result }
    ensures keeps { Keeps (N.store nodes.old) (N.store nodes.new) }
    ensures refs { IfOk result (λ bits. All (IsRef (N.store nodes.new)) bits.items) }
    ensures long { IfOk result (λ bits. length bits.items ≡ net.now.raw.nets) }
{
    let sources = next_sources(alloc, ops, nodes, net, last, choice)?;
    settle(ops, nodes, net, sources)
}

/// The bits of all nets at a time, from those of one time earlier, where there is one. `choice` is
/// the variable of this time's first input.
fn bits_at<N: Nodes>(
    alloc: Global,
    ops: &Ops,
    nodes: &mut N,
    net: &Net,
    task: &Assertion,
    vars: u32,
    last: &[Ref],
    time: Time,
    choice: u32,
) -> Result<Vec<Ref>, OpFault>
    requires first { vars + first_count net.now.raw task.now.reset ≤ (N.store nodes.old).vars }
    requires choice { choice + open_count net.now.raw ≤ (N.store nodes.old).vars }
    requires at { choice ≡ choice_at net.now.raw vars task.now time }
    requires long { 0 < time → length last.now ≡ net.now.raw.nets }
    requires refs { All (IsRef (N.store nodes.old)) last.now }
    ensures built { (bit : ℕ → ℕ → Function)
        → AreTimes (N.store nodes.old).vars net.now.raw vars task.now bit → time < depth_of task.now
        → ((k : ℕ) → suc k ≡ time → AreBits (N.store nodes.old) net.now.raw.nets (bit k) last.now)
        → Built (time_work net.now.raw (bit time))
        (λ t (bits : Vec Ref Global). AreBits t net.now.raw.nets (bit time) bits.items)
        (N.store nodes.old) (N.store nodes.new) result }
    ensures keeps { Keeps (N.store nodes.old) (N.store nodes.new) }
    ensures refs { IfOk result (λ bits. All (IsRef (N.store nodes.new)) bits.items) }
    ensures long { IfOk result (λ bits. length bits.items ≡ net.now.raw.nets) }
{
    if time == 0 {
        return first_bits(alloc, ops, nodes, net, task.reset, vars, choice);
    }
    next_bits(alloc, ops, nodes, net, last, choice)
}

/// The variable of the next time's first choice, which is not behind the limit.
fn behind_time(choice: u32, each: u32, limit: u32) -> u32
    requires { choice + each ≤ limit }
    ensures { result ≡ choice + each }
{
    let _ = limit;
    choice + each
}

/// Where the quintuples of the antecedent, and those of the consequent, are broken at some time: by
/// time and then in text order. `ant` and `con` are what they ask.
pub fn broken_sums<N: Nodes>(
    alloc: Global,
    ops: &Ops,
    nodes: &mut N,
    net: &Net,
    task: &Assertion,
    ant: &[TimedCut],
    con: &[TimedCut],
    vars: u32,
) -> Result<Broken, OpFault>
    requires room { vars + length (choices net.now.raw task.now) ≤ (N.store nodes.old).vars }
    requires ant { All (IsTimedCutRef (N.store nodes.old) net.now.raw.nets) ant.now }
    requires con { All (IsTimedCutRef (N.store nodes.old) net.now.raw.nets) con.now }
    ensures built { (bit : ℕ → ℕ → Function)
        → AreTimes (N.store nodes.old).vars net.now.raw vars task.now bit
        → AreTimedCuts (N.store nodes.old) task.now.ant ant.now
        → AreTimedCuts (N.store nodes.old) task.now.con con.now
        → Built (exact_work net.now.raw vars task.now bit)
        (λ t broken. AreSums t task.now bit (depth_of task.now) broken)
        (N.store nodes.old) (N.store nodes.new) result }
    ensures keeps { Keeps (N.store nodes.old) (N.store nodes.new) }
    ensures ant_held { IfOk result (λ r. IsRef (N.store nodes.new) r.ant) }
    ensures con_held { IfOk result (λ r. IsRef (N.store nodes.new) r.con) }
{
    let limit = nodes.vars();
    let each = open_count(net);
    let times = depth(task);
    let mut choice = behind_time(vars, first_count(net, task.reset), limit);
    let mut bits = Vec::new(alloc);
    let mut broken = Broken {
        ant: Ref::FALSE,
        con: Ref::FALSE,
    };
    for t in 0..times {
        bits = bits_at(
            alloc,
            ops,
            nodes,
            net,
            task,
            vars,
            bits.as_slice(),
            t,
            choice,
        )?;
        broken = add_both(ops, nodes, broken, ant, con, t, bits.as_slice())?;
        choice = behind_time(choice, each, limit);
    }
    Ok(broken)
}
