//! The run with given bits; begin with `two_valued`.

ghost use Rattle.std.specs.Prelude.{◌≡◌, ◌<◌, ◌≢◌, ℕ, All, AllPairs, IfOk, length, map, slice_index_or, []};
ghost use Rattle.ste_base.specs.declared.id.NodeId.{NodeId};
ghost use Rattle.counter_run.specs.Runs.{IsRunOn};
ghost use Rattle.counter_run.specs.Undriven.{undriven_nets};
ghost use Rattle.counter_run.specs.private.Matrix.{SameShape};

use crate::completion::complete;
use crate::matrix::{lists_of, zeros};
use crate::row::Row;
use crate::undriven::undriven_nets;
use net_core::Net;
use std::alloc::{AllocError, Global};
use ste_base::{Items, NodeId, Time};
use ste_model::Run;

/// Puts rows of bits at these nets, one for each.
fn put_inputs(rows: &mut [Row], nodes: &[NodeId], inputs: &[Items<bool>])
    requires within { All (λ node. node.0 < length rows.old) nodes.now }
    requires different { AllPairs (λ one other. one.0 ≢ other.0) nodes.now }
    requires tall { length inputs.now ≡ length nodes.now }
    requires wide { (k : ℕ) (d : NodeId) → k < length nodes.now →
        length (slice_index_or inputs.now k [])
        ≡ length (slice_index_or rows.old (slice_index_or nodes.now k d).0 []) }
    ensures rows { map (λ node. slice_index_or rows.new node.0 []) nodes.now ≡ inputs.now }
    ensures shape { SameShape rows.old rows.new }
{
    for (k, node) in nodes.iter().enumerate() {
        rows[node.0 as usize].assign(inputs[k].as_slice());
    }
}

/// The one run of so many times with these bits at inputs and free nets, a row for each in the
/// order of their numbers with a bit for each time, and these first bits of the latches, one for
/// each.
///
/// The time is linear in the size of the net times the number of times; it takes a vector for each
/// net, and one more byte for each net, input and latch.
pub fn two_valued(
    alloc: Global,
    net: &Net,
    times: Time,
    inputs: &[Items<bool>],
    first: &[bool],
) -> Result<Run, AllocError>
    requires tall { length inputs.now ≡ length (undriven_nets net.now.raw) }
    requires wide { All (λ row. length row ≡ times) inputs.now }
    requires first { length first.now ≡ length net.now.raw.latches }
    ensures { IfOk result (λ run. IsRunOn net.now.raw times inputs.now first.now run) }
{
    let nodes = undriven_nets(alloc, net)?;
    let mut rows = zeros(alloc, net.nets(), times)?;
    put_inputs(rows.as_mut_slice(), nodes.as_slice(), inputs);
    complete(
        alloc,
        net,
        nodes.as_slice(),
        times,
        first,
        rows.as_mut_slice(),
    )?;
    Ok(Run {
        length: times,
        rows: lists_of(alloc, rows)?,
    })
}
