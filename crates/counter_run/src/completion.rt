//! A run from its inputs and free nets; begin with `complete`.

ghost use Rattle.std.specs.Prelude.{◌≡◌, ◌<◌, OnOk, IfOk, length, map, replicate, true};
ghost use Rattle.net_core.specs.OneRun.{IsGivenRun};
ghost use Rattle.clock_step.specs.Determined.{bit_at};
ghost use Rattle.ste_model.specs.Runs.{HasRows, run_of};
ghost use Rattle.counter_run.specs.private.Matrix.{AreSourceNodes, IsMatrix, cell};

use crate::asked::first_bits;
use crate::block::Block;
use crate::matrix::{gather, lists_of, put_column};
use crate::row::Row;
use crate::undriven::undriven_nets;
use clock_step::readers::Readers;
use clock_step::resettle::resettle;
use clock_step::settle::{bit_at, settle};
use net_core::Net;
use std::alloc::{AllocError, Global};
use ste_base::{NodeId, Time};
use ste_model::Run;

/// The same bits.
fn copy_of(alloc: Global, bits: &[bool]) -> Result<Vec<bool>, AllocError>
    ensures { IfOk result (λ copy. copy.items ≡ bits.now) }
{
    bits.iter().copied().collect(alloc)
}

/// What the latches hold one time later, in place of what they held.
fn hold_next(net: &Net, bits: &[bool], held: &mut Vec<bool>) -> Result<(), AllocError>
    ensures { OnOk result (held.new.items
        ≡ map (λ latch. bit_at bits.now latch.input.0) net.now.raw.latches) }
{
    held.clear();
    for latch in net.latches() {
        held.push(bit_at(bits, latch.input))?;
    }
    Ok(())
}

/// Gives each net its bit at each time, from what is given. `bits` is a row with a bit for each
/// net, used again at each time.
fn complete_times(
    alloc: Global,
    net: &Net,
    nodes: &[NodeId],
    times: Time,
    first: &[bool],
    rows: &mut [Row],
    bits: &mut [bool],
) -> Result<(), AllocError>
    requires nodes { AreSourceNodes net.now.raw nodes.now }
    requires first { length first.now ≡ length net.now.raw.latches }
    requires matrix { IsMatrix net.now.raw.nets times rows.old }
    requires long { length bits.old ≡ net.now.raw.nets }
    ensures matrix { OnOk result (IsMatrix net.now.raw.nets times rows.new) }
    ensures run { OnOk result (IsGivenRun net.now.raw (cell rows.old) first.now times
        (cell rows.new)) }
{
    let mut held = copy_of(alloc, first)?;
    let mut row = Vec::new(alloc);
    for t in 0..times {
        gather(rows, nodes, t, &mut row)?;
        settle(net, nodes, &row, &held, bits);
        put_column(rows, t, bits);
        hold_next(net, bits, &mut held)?;
    }
    Ok(())
}

/// From so many times on a run is worth the lists of which gates read each net.
const MANY_TIMES: Time = 16;

/// The outputs of the latches.
fn latch_outputs(alloc: Global, net: &Net) -> Result<Vec<NodeId>, AllocError>
    ensures { IfOk result (λ outputs. outputs.items
        ≡ map (λ latch. latch.output) net.now.raw.latches) }
{
    net.latches()
        .iter()
        .map(|latch| latch.output)
        .collect(alloc)
}

/// Gives each net its bit at each time, from what is given, where there are many times: a gate is
/// looked at where an input has another bit than at the time before. `bits` is a row with a bit
/// for each net, kept from each time to the next, and `due` has a mark for each gate.
fn complete_many(
    alloc: Global,
    net: &Net,
    nodes: &[NodeId],
    times: Time,
    first: &[bool],
    rows: &mut [Row],
    bits: &mut [bool],
    due: &mut [bool],
) -> Result<(), AllocError>
    requires nodes { AreSourceNodes net.now.raw nodes.now }
    requires first { length first.now ≡ length net.now.raw.latches }
    requires matrix { IsMatrix net.now.raw.nets times rows.old }
    requires long { length bits.old ≡ net.now.raw.nets }
    requires due { due.old ≡ replicate (length net.now.settled) true }
    ensures matrix { OnOk result (IsMatrix net.now.raw.nets times rows.new) }
    ensures run { OnOk result (IsGivenRun net.now.raw (cell rows.old) first.now times
        (cell rows.new)) }
{
    let readers = Readers::of_net(alloc, net)?;
    let outputs = latch_outputs(alloc, net)?;
    let mut held = copy_of(alloc, first)?;
    let mut row = Vec::new(alloc);
    let mut block = Block::new(alloc, net.nets())?;
    for time in 0..times {
        gather(rows, nodes, time, &mut row)?;
        resettle(
            net,
            &readers,
            nodes,
            &row,
            outputs.as_slice(),
            &held,
            bits,
            due,
        );
        block.push(rows, bits)?;
        hold_next(net, bits, &mut held)?;
    }
    block.write_out(rows);
    Ok(())
}

/// Gives each net its bit at each time: inputs and free nets, which are the nodes, keep theirs, the
/// latches begin with the first bits, and all else follows.
pub fn complete(
    alloc: Global,
    net: &Net,
    nodes: &[NodeId],
    times: Time,
    first: &[bool],
    rows: &mut [Row],
) -> Result<(), AllocError>
    requires nodes { AreSourceNodes net.now.raw nodes.now }
    requires first { length first.now ≡ length net.now.raw.latches }
    requires matrix { IsMatrix net.now.raw.nets times rows.old }
    ensures matrix { OnOk result (IsMatrix net.now.raw.nets times rows.new) }
    ensures run { OnOk result (IsGivenRun net.now.raw (cell rows.old) first.now times
        (cell rows.new)) }
{
    let mut bits = vec![in alloc; false; net.nets() as usize]?;
    if times < MANY_TIMES {
        return complete_times(alloc, net, nodes, times, first, rows, bits.as_mut_slice());
    }
    let mut due = vec![in alloc; true; net.settled().len()]?;
    complete_many(
        alloc,
        net,
        nodes,
        times,
        first,
        rows,
        bits.as_mut_slice(),
        due.as_mut_slice(),
    )
}

/// The run from these rows, which give the bits at inputs and free nets, and those at time 0 of the
/// latches.
pub fn run_from(alloc: Global, net: &Net, times: Time, rows: Vec<Row>) -> Result<Run, AllocError>
    requires { IsMatrix net.now.raw.nets times rows.items }
    ensures rows { IfOk result (λ run. HasRows net.now.raw.nets times run) }
    ensures run { IfOk result (λ run. IsGivenRun net.now.raw (cell rows.items)
        (map (λ latch. cell rows.items 0 latch.output.0) net.now.raw.latches) times
        (run_of run)) }
{
    let mut rows = rows;
    let nodes = undriven_nets(alloc, net)?;
    let first = first_bits(alloc, net, rows.as_slice())?;
    complete(
        alloc,
        net,
        nodes.as_slice(),
        times,
        first.as_slice(),
        rows.as_mut_slice(),
    )?;
    Ok(Run {
        length: times,
        rows: lists_of(alloc, rows)?,
    })
}
