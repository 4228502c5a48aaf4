//! Nets of two-input gates whose inputs are drawn at random; begin with `net`.

ghost use Rattle.std.specs.Prelude.{◌≡◌, ◌≤◌, ◌+◌, [], IfOk, IfSome};
ghost use Rattle.step_bench.specs.Made.{AreGates, IsGate, and_cover, xor_cover, covers_of, row_of};

use net_core::{Cover, Gate, Lit, Net, OrderFault, RawNet, Row, order};
use std::alloc::{AllocError, Global};
use ste_base::{Items, NodeId};

/// Which gates a net has.
#[derive(Clone, Copy, Drop)]
pub enum Mix {
    /// All are AND.
    And,
    /// About half of them are exclusive OR.
    Mixed,
}

fn row(alloc: Global, first: Lit, second: Lit) -> Result<Row, AllocError>
    ensures { IfOk result (λ r. r ≡ row_of first second) }
{
    let mut row: Row = Items::new(alloc);
    row.push(first)?;
    row.push(second)?;
    Ok(row)
}

fn and(alloc: Global) -> Result<Cover, AllocError>
    ensures { IfOk result (λ cover. cover ≡ and_cover) }
{
    let mut rows: Items<Row> = Items::new(alloc);
    rows.push(row(alloc, Lit::One, Lit::One)?)?;
    Ok(Cover {
        inputs: 2,
        on: true,
        rows,
    })
}

fn xor(alloc: Global) -> Result<Cover, AllocError>
    ensures { IfOk result (λ cover. cover ≡ xor_cover) }
{
    let mut rows: Items<Row> = Items::new(alloc);
    rows.push(row(alloc, Lit::One, Lit::Zero)?)?;
    rows.push(row(alloc, Lit::Zero, Lit::One)?)?;
    Ok(Cover {
        inputs: 2,
        on: true,
        rows,
    })
}

fn covers(alloc: Global) -> Result<Items<Cover>, AllocError>
    ensures { IfOk result (λ covers. covers ≡ covers_of) }
{
    let mut covers: Items<Cover> = Items::new(alloc);
    covers.push(and(alloc)?)?;
    covers.push(xor(alloc)?)?;
    Ok(covers)
}

/// A gate that drives the net behind so many gates, from two nets before it.
fn gate(alloc: Global, number: u32, seed: u32, mix: Mix) -> Result<Gate, AllocError>
    requires { number ≤ 100000 }
    ensures { IfOk result (λ g. IsGate number g) }
{
    let mut inputs: Items<NodeId> = Items::new(alloc);
    inputs.push(NodeId(seed % (number + 8)))?;
    inputs.push(NodeId((seed / 65536) % (number + 8)))?;
    let cover = match mix {
        Mix::And => 0,
        Mix::Mixed => (seed / 8) % 2,
    };
    Ok(Gate {
        inputs,
        output: NodeId(number + 8),
        cover,
    })
}

fn gates(alloc: Global, count: u32, mix: Mix) -> Result<Items<Gate>, AllocError>
    requires { count ≤ 100000 }
    ensures { IfOk result (λ gates. AreGates count gates) }
{
    let mut gates: Items<Gate> = Items::new(alloc);
    let mut seed = 12345u32;
    for k in 0..count {
        seed = seed.wrapping_mul(1664525).wrapping_add(1013904223);
        gates.push(gate(alloc, k, seed, mix)?)?;
    }
    Ok(gates)
}

/// A net of so many gates behind 8 free nets.
pub fn net(alloc: Global, count: u32, mix: Mix) -> Result<Net, OrderFault>
    requires { count ≤ 100000 }
    ensures { IfOk result (λ net. (net.raw.covers ≡ covers_of)
        × (net.raw.latches ≡ []) × (net.raw.nets ≡ count + 8)) }
{
    let raw = RawNet {
        nets: count + 8,
        inputs: Items::new(alloc),
        outputs: Items::new(alloc),
        gates: gates(alloc, count, mix)?,
        latches: Items::new(alloc),
        covers: covers(alloc)?,
    };
    order(alloc, raw)
}
