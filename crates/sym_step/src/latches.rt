//! The sets that latches get at a time, all of them read before any is written; begin with
//! `latch_sets`. They are written in `source.rt`.

ghost use Rattle.std.specs.Prelude.{◌≡◌, ◌≢◌, ◌⊎◌, ◌<◌, ℕ, [], IfOk, IfSome, IsTrue, None, OnOk, false, length, map};
ghost use Rattle.net_core.specs.Possible.{is_weakened};
ghost use Rattle.sym_step.specs.Step.{ids_of};
ghost use Rattle.sym_step.specs.Frame.{bare, input_rails, is_listed, mark_count, next_of};
ghost use Rattle.sym_step.specs.private.Frames.{AreCarried};
ghost use Rattle.sym_step.specs.private.Demands.{nodes_of};
ghost use Rattle.sym_step.specs.private.Latches.{AreLatchSets, IsCopied, latch_set, rails_unless};
ghost use Rattle.gate_sets.specs.NetSets.{net_at};
ghost use Rattle.sym_step.specs.private.Readers.{AreReaders, flag_at};

use crate::board::{Board, are_same};
use crate::demands::Demands;
use crate::frame::Frame;
use dual_rail::{Rails, free};
use gate_sets::{Compiled, NetRails};
use net_core::Latch;
use std::alloc::AllocError;
use ste_base::NodeId;

/// The set that the output of a latch gets, before any cut of it, and the set that the latch's
/// input had at the time before.
#[derive(Clone, Copy, Drop)]
pub struct LatchSet {
    pub output: NodeId,
    pub rails: Rails,
    pub given: NetRails,
}

/// The rails of a latch's output before its cuts: those of both bits where it is weakened, and else
/// these.
fn before_cuts(demands: &Demands, id: u32, r: Rails) -> Rails
    ensures { result ≡ rails_unless (is_weakened (ids_of demands.now.weak) id) r }
{
    if demands.is_weak(id) {
        return free();
    }
    r
}

/// The set of a latch, which is to have these rails; none where nothing is left to do: its output
/// is neither cut nor weakened, and has them already.
fn given_set(nets: &[NetRails], demands: &Demands, latch: &Latch, told: Rails) -> Option<LatchSet>
    requires over { demands.now.nets ≡ length nets.now }
    requires input { latch.now.input.0 < length nets.now }
    requires output { latch.now.output.0 < length nets.now }
    ensures some { IfSome result (λ set. set ≡ record {
      output = latch.now.output;
      rails = rails_unless (is_weakened (ids_of demands.now.weak) latch.now.output.0) told;
      given = net_at nets.now latch.now.input.0;
    }) }
    ensures none { result ≡ None
        → (is_listed (nodes_of demands.now.weak demands.now.cuts) latch.now.output.0 ≡ false)
        × (told ≡ bare (net_at nets.now latch.now.output.0)) }
{
    let output = latch.output.0 as usize;
    let now = nets[output];
    if !demands.is_asked(latch.output.0) && told.can0 == now.can0 && told.can1 == now.can1 {
        return None;
    }
    Some(LatchSet {
        output: latch.output,
        rails: before_cuts(demands, latch.output.0, told),
        given: nets[latch.input.0 as usize],
    })
}

/// No set, in this memory.
fn no_sets(used: Vec<LatchSet>) -> Vec<LatchSet>
    ensures { result.items ≡ [] }
{
    let mut none = used;
    none.clear();
    none
}

/// The sets of the latches that do not have theirs yet, of which each is to have the given rails,
/// in this memory.
fn given_sets(
    used: Vec<LatchSet>,
    net: &Compiled,
    demands: &Demands,
    nets: &[NetRails],
    told: &[Rails],
) -> Result<Vec<LatchSet>, AllocError>
    requires nets { length nets.now ≡ net.now.raw.nets }
    requires over { demands.now.nets ≡ net.now.raw.nets }
    requires told { length told.now ≡ length net.now.raw.latches }
    ensures { IfOk result (λ sets. AreLatchSets net.now.raw told.now
        demands.now.weak (nodes_of demands.now.weak demands.now.cuts) nets.now sets.items) }
{
    let latches = net.latches();
    let mut sets = no_sets(used);
    for l in 0..latches.len() {
        if let Some(set) = given_set(nets, demands, &latches[l], told[l]) {
            sets.push(set)?;
        }
    }
    Ok(sets)
}

/// Whether nothing is left to do for a latch: its output is neither cut nor weakened, and has the
/// set of its input already.
fn is_copied(nets: &[NetRails], demands: &Demands, latch: &Latch) -> bool
    requires over { demands.now.nets ≡ length nets.now }
    requires input { latch.now.input.0 < length nets.now }
    requires output { latch.now.output.0 < length nets.now }
    ensures { IsTrue result → IsCopied
        (nodes_of demands.now.weak demands.now.cuts) nets.now latch.now }
{
    let output = latch.output.0 as usize;
    !demands.is_asked(latch.output.0) && are_same(nets[output], nets[latch.input.0 as usize])
}

/// The set of a latch of this number, where it is due and something is left to do. Where nothing
/// is, its mark is taken away, but not without lists, since then no change of its input would bring
/// it back.
fn due_set(
    latch: &Latch,
    number: usize,
    demands: &Demands,
    listed: bool,
    board: &mut Board,
) -> Option<LatchSet>
    requires number { number < length board.old.due.flags.items }
    requires over { demands.now.nets ≡ length board.old.nets.items }
    requires input { latch.now.input.0 < length board.old.nets.items }
    requires output { latch.now.output.0 < length board.old.nets.items }
    ensures nets { board.new.nets ≡ board.old.nets }
    ensures readers { board.new.readers ≡ board.old.readers }
    ensures order { board.new.due.order ≡ board.old.due.order }
    ensures full { board.new.full ≡ board.old.full }
    ensures long { length board.new.due.flags.items ≡ length board.old.due.flags.items }
    ensures others { (k : ℕ) → k ≢ number
        → flag_at board.new.due.flags.items k ≡ flag_at board.old.due.flags.items k }
    ensures some { IfSome result (λ set. set
        ≡ latch_set demands.now.weak board.old.nets.items latch.now) }
    ensures none { result ≡ None → (flag_at board.old.due.flags.items number ≡ false)
        ⊎ IsCopied (nodes_of demands.now.weak demands.now.cuts) board.old.nets.items latch.now }
    ensures cleared { flag_at board.new.due.flags.items number ≡ false
        → (flag_at board.old.due.flags.items number ≡ false)
        ⊎ (IsTrue listed × IsCopied
        (nodes_of demands.now.weak demands.now.cuts) board.old.nets.items latch.now) }
{
    if !board.due.is_marked(number) {
        return None;
    }
    if is_copied(&board.nets, demands, latch) {
        if listed {
            board.due.unmark(number);
        }
        return None;
    }
    let given = board.nets[latch.input.0 as usize];
    Some(LatchSet {
        output: latch.output,
        rails: before_cuts(demands, latch.output.0, given.rails()),
        given,
    })
}

/// The sets of the due latches that do not have theirs yet: those that their inputs have now. The
/// marks of due latches that have theirs are taken away, where there are lists.
fn due_sets(
    used: Vec<LatchSet>,
    net: &Compiled,
    demands: &Demands,
    listed: bool,
    board: &mut Board,
) -> Result<Vec<LatchSet>, AllocError>
    requires nets { length board.old.nets.items ≡ net.now.raw.nets }
    requires due { length board.old.due.flags.items ≡ mark_count net.now.raw }
    requires gates { length board.old.due.order.items ≡ length net.now.raw.gates }
    requires over { demands.now.nets ≡ net.now.raw.nets }
    requires lists { IsTrue listed → AreReaders net.now.raw board.old.readers }
    ensures nets { board.new.nets ≡ board.old.nets }
    ensures readers { board.new.readers ≡ board.old.readers }
    ensures order { board.new.due.order ≡ board.old.due.order }
    ensures full { board.new.full ≡ board.old.full }
    ensures long { length board.new.due.flags.items ≡ length board.old.due.flags.items }
    ensures gates { (k : ℕ) → k < length net.now.raw.gates
        → flag_at board.new.due.flags.items k ≡ flag_at board.old.due.flags.items k }
    ensures carried { OnOk result (AreCarried net.now.raw
        (nodes_of demands.now.weak demands.now.cuts) board.old
        → AreCarried net.now.raw (nodes_of demands.now.weak demands.now.cuts) board.new) }
    ensures sets { IfOk result (λ sets.
        AreCarried net.now.raw (nodes_of demands.now.weak demands.now.cuts) board.old
        → AreLatchSets net.now.raw
        (map (input_rails (map bare board.old.nets.items)) net.now.raw.latches)
        demands.now.weak (nodes_of demands.now.weak demands.now.cuts) board.old.nets.items
        sets.items) }
{
    let gates = net.gates().len();
    let latches = net.latches();
    let mut sets = no_sets(used);
    let mut l = board.due.next_latch(0, latches.len());
    while l < latches.len() {
        if let Some(set) = due_set(&latches[l], gates + l, demands, listed, board) {
            sets.push(set)?;
        }
        l = board.due.next_latch(l + 1, latches.len());
    }
    Ok(sets)
}

/// The sets of the latches that do not have theirs yet: at a first time those that the frame starts
/// with, which it then has no longer, and else those that the inputs of the latches have. All are
/// read before any is written, since the input of a latch may be the output of another. They stand
/// in the memory of `used`.
pub fn latch_sets(
    used: Vec<LatchSet>,
    net: &Compiled,
    demands: &Demands,
    frame: &mut Frame,
) -> Result<Vec<LatchSet>, AllocError>
    requires nets { length frame.old.board.nets.items ≡ net.now.raw.nets }
    requires due { length frame.old.board.due.flags.items ≡ mark_count net.now.raw }
    requires gates { length frame.old.board.due.order.items ≡ length net.now.raw.gates }
    requires over { demands.now.nets ≡ net.now.raw.nets }
    requires first { length (next_of net.now.raw frame.old) ≡ length net.now.raw.latches }
    requires lists { IsTrue frame.old.listed → AreReaders net.now.raw frame.old.board.readers }
    ensures rest { frame.new ≡ record frame.old { first = None; board = frame.new.board } }
    ensures nets { frame.new.board.nets ≡ frame.old.board.nets }
    ensures readers { frame.new.board.readers ≡ frame.old.board.readers }
    ensures order { frame.new.board.due.order ≡ frame.old.board.due.order }
    ensures full { frame.new.board.full ≡ frame.old.board.full }
    ensures long { length frame.new.board.due.flags.items ≡ length frame.old.board.due.flags.items }
    ensures gates { (k : ℕ) → k < length net.now.raw.gates
        → flag_at frame.new.board.due.flags.items k ≡ flag_at frame.old.board.due.flags.items k }
    ensures carried { OnOk result (
        AreCarried net.now.raw (nodes_of demands.now.weak demands.now.cuts) frame.old.board
        → AreCarried net.now.raw (nodes_of demands.now.weak demands.now.cuts) frame.new.board) }
    ensures sets { IfOk result (λ sets.
        AreCarried net.now.raw (nodes_of demands.now.weak demands.now.cuts) frame.old.board
        → AreLatchSets net.now.raw (next_of net.now.raw frame.old)
        demands.now.weak (nodes_of demands.now.weak demands.now.cuts) frame.old.board.nets.items
        sets.items) }
{
    match frame.first.take() {
        Some(told) => given_sets(used, net, demands, &frame.board.nets, told.as_slice()),
        None => due_sets(used, net, demands, frame.listed, &mut frame.board),
    }
}
