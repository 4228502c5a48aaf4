//! Gates of up to four inputs over every list of constant sets, against all choices of bits; cuts,
//! unions and the test for an empty set, over constant sets.

ghost use Rattle.std.specs.Prelude.{◌≡◌, ◌≤◌, ◌<◌, List, All, IfOk, IsTrue, length};
ghost use Rattle.dd_nodes.specs.Stores.{Store};
ghost use Rattle.net_core.specs.Work.{AreWide};
ghost use Rattle.dual_rail.specs.Rail.{AreRefs};

use dd_nodes::{Nodes, PlainNodes, Ref};
use dd_ops::Ops;
use dual_rail::{Rails, cut, empty, free, gate, join, one, zero};
use net_core::{Cover, Lit, Row, cases, eval, other_rows};
use std::alloc::{AllocError, Global};
use std::test::Fail;
use ste_base::Items;

/// The reference of a constant.
fn constant(bit: bool) -> Ref
    ensures { result.0 < 2 }
{
    if bit { Ref::TRUE } else { Ref::FALSE }
}

/// The constant set of this number: an odd one has 0, and the half of it says whether it has 1.
fn constant_set(number: usize) -> Rails
    ensures { (s : Store) → AreRefs s result }
{
    Rails {
        can0: constant(number % 2 == 1),
        can1: constant((number / 2) % 2 == 1),
    }
}

/// The literal of this number.
fn literal(number: usize) -> Lit {
    match number % 3 {
        0 => Lit::Zero,
        1 => Lit::One,
        _ => Lit::Any,
    }
}

/// The row of this number over so many inputs.
fn row(alloc: Global, inputs: usize, number: usize) -> Result<Row, AllocError>
    ensures { IfOk result (λ row. length row ≡ inputs) }
{
    let mut row = Items::new(alloc);
    let mut rest = number;
    for _ in 0..inputs {
        row.push(literal(rest))?;
        rest /= 3;
    }
    Ok(row)
}

/// The sets of this number for so many inputs.
fn sets(alloc: Global, inputs: usize, number: usize) -> Result<Vec<Rails>, AllocError>
    ensures long { IfOk result (λ sets. length sets.items ≡ inputs) }
    ensures refs { (s : Store) → IfOk result (λ sets. All (AreRefs s) sets.items) }
{
    let mut sets = Vec::new(alloc);
    let mut rest = number;
    for _ in 0..inputs {
        sets.push(constant_set(rest))?;
        rest /= 4;
    }
    Ok(sets)
}

/// Whether some choice of bits from the sets of this number gives the bit.
fn may_give(alloc: Global, cover: &Cover, sets: usize, bit: bool) -> Result<bool, AllocError> {
    let inputs = cover.inputs as usize;
    for choice in 0..16usize {
        let mut bits = Vec::new(alloc);
        let mut rest = sets;
        let mut left = choice;
        let mut fits = true;
        for _ in 0..inputs {
            let one = left % 2 == 1;
            fits = fits
                && if one {
                    (rest / 2) % 2 == 1
                } else {
                    rest % 2 == 1
                };
            bits.push(one)?;
            rest /= 4;
            left /= 2;
        }
        if fits && eval(cover, &bits) == bit {
            return Ok(true);
        }
    }
    Ok(false)
}

/// The set that a gate of this cover gives; none where the cover is not sound.
fn gate_of<N: Nodes>(
    alloc: Global,
    ops: &Ops,
    nodes: &mut N,
    cover: &Cover,
    inputs: &[Rails],
) -> Result<Rails, Fail>
    requires wide { AreWide cover.now.rows cover.now.inputs }
    requires long { length inputs.now ≡ cover.now.inputs }
    requires refs { (s : Store) → All (AreRefs s) inputs.now }
{
    if cover.inputs > 1000 || cases(alloc, cover)? > 65536 {
        return Err("too many cases".into());
    }
    let others = other_rows(alloc, cover)?;
    let made = if cover.on {
        gate(ops, nodes, cover.rows.as_slice(), others.as_slice(), inputs)
    } else {
        gate(ops, nodes, others.as_slice(), cover.rows.as_slice(), inputs)
    };
    match made {
        Ok(rails) => Ok(rails),
        Err(_) => Err("no result".into()),
    }
}

/// Whether the gate of this cover gives the exact set, for each list of constant sets.
fn is_exact(alloc: Global, cover: &Cover) -> Result<bool, Fail>
    requires wide { AreWide cover.now.rows cover.now.inputs }
    requires few { cover.now.inputs ≤ 4 }
{
    let ops = Ops::new(alloc);
    let mut nodes = PlainNodes::new(alloc, 0, 1)?;
    let inputs = cover.inputs as usize;
    for number in 0..1usize << (2 * inputs) {
        let sets = sets(alloc, inputs, number)?;
        let made = gate_of(alloc, &ops, &mut nodes, cover, &sets)?;
        let zero = may_give(alloc, cover, number, false)?;
        let one = may_give(alloc, cover, number, true)?;
        if made.can0 != constant(zero) || made.can1 != constant(one) {
            return Ok(false);
        }
    }
    Ok(true)
}

/// The cover of these rows.
fn cover(
    alloc: Global,
    inputs: usize,
    on: bool,
    first: usize,
    second: usize,
) -> Result<Cover, AllocError>
    requires { inputs ≤ 4 }
    ensures wide { IfOk result (λ cover. AreWide cover.rows cover.inputs) }
    ensures few { IfOk result (λ cover. cover.inputs ≤ 4) }
{
    let rows = [row(alloc, inputs, first)?, row(alloc, inputs, second)?];
    Ok(Cover {
        inputs: inputs as u32,
        on,
        rows: Items::from(Vec::from_array(alloc, rows)?),
    })
}

#[test]
fn gates_are_exact_on_constant_sets(rt: HostRuntime) -> Result<(), Fail> {
    for inputs in 0..5 {
        assert!(rt; inputs <= 4);
        for first in 0..81 {
            let other = (first * 7 + 5) % 81;
            let on = cover(rt.alloc(), inputs, true, first, other)?;
            assert!(rt; is_exact(rt.alloc(), &on)?, "on {inputs} {first}");
            let off = cover(rt.alloc(), inputs, false, first, other)?;
            assert!(rt; is_exact(rt.alloc(), &off)?, "off {inputs} {first}");
        }
    }
    Ok(())
}

/// Unknown sets for so many inputs, and 0 alone for the last one.
fn unknowns(alloc: Global, inputs: usize) -> Result<Vec<Rails>, AllocError>
    ensures long { IfOk result (λ sets. length sets.items ≡ inputs) }
    ensures refs { (s : Store) → IfOk result (λ sets. All (AreRefs s) sets.items) }
{
    let mut sets = Vec::new(alloc);
    for k in 0..inputs {
        sets.push(constant_set(if inputs - k == 1 { 1 } else { 3 }))?;
    }
    Ok(sets)
}

/// A row of ones.
fn ones(alloc: Global, inputs: usize) -> Result<Row, AllocError>
    ensures { IfOk result (λ row. length row ≡ inputs) }
{
    let mut row = Items::new(alloc);
    for _ in 0..inputs {
        row.push(Lit::One)?;
    }
    Ok(row)
}

/// The cover of one row of ones.
fn and_of(alloc: Global, inputs: u32) -> Result<Cover, AllocError>
    ensures wide { IfOk result (λ cover. AreWide cover.rows cover.inputs) }
    ensures inputs { IfOk result (λ cover. cover.inputs ≡ inputs) }
{
    let rows = [ones(alloc, inputs as usize)?];
    Ok(Cover {
        inputs,
        on: true,
        rows: Items::from(Vec::from_array(alloc, rows)?),
    })
}

#[test]
fn a_gate_of_a_thousand_inputs_is_0_where_one_is(rt: HostRuntime) -> Result<(), Fail> {
    let ops = Ops::new(rt.alloc());
    let mut nodes = PlainNodes::new(rt.alloc(), 0, 1)?;
    let cover = and_of(rt.alloc(), 1000)?;
    let sets = unknowns(rt.alloc(), 1000)?;
    let made = gate_of(rt.alloc(), &ops, &mut nodes, &cover, &sets)?;
    assert!(rt; made.can0 == Ref::TRUE && made.can1 == Ref::FALSE);
    Ok(())
}

/// Whether a cut of this set leaves out just what the guard and the value refuse.
fn is_cut<N: Nodes>(
    ops: &Ops,
    nodes: &mut N,
    number: usize,
    guard: bool,
    value: bool,
) -> Result<bool, Fail> {
    let zero = number % 2 == 1 && !(guard && value);
    let one = (number / 2) % 2 == 1 && (!guard || value);
    let set = constant_set(number);
    match cut(ops, nodes, set, constant(guard), constant(value)) {
        Ok(left) => Ok(left.can0 == constant(zero) && left.can1 == constant(one)),
        Err(_) => Err("no cut".into()),
    }
}

/// Whether the union of these sets has the bits of both.
fn is_union<N: Nodes>(ops: &Ops, nodes: &mut N, first: usize, second: usize) -> Result<bool, Fail> {
    let zero = first % 2 == 1 || second % 2 == 1;
    let one = (first / 2) % 2 == 1 || (second / 2) % 2 == 1;
    match join(ops, nodes, constant_set(first), constant_set(second)) {
        Ok(all) => Ok(all.can0 == constant(zero) && all.can1 == constant(one)),
        Err(_) => Err("no union".into()),
    }
}

/// Whether `empty` says of this set whether it is empty.
fn is_empty_where_it_should_be<N: Nodes>(
    ops: &Ops,
    nodes: &mut N,
    number: usize,
) -> Result<bool, Fail> {
    match empty(ops, nodes, constant_set(number)) {
        Ok(none) => Ok(none == constant(number % 4 == 0)),
        Err(_) => Err("no answer".into()),
    }
}

#[test]
fn cuts_unions_and_empty_sets_of_constants(rt: HostRuntime) -> Result<(), Fail> {
    let ops = Ops::new(rt.alloc());
    let mut nodes = PlainNodes::new(rt.alloc(), 0, 1)?;
    for number in 0..4usize {
        for (guard, value) in [(false, false), (false, true), (true, false), (true, true)] {
            assert!(rt;
                is_cut(&ops, &mut nodes, number, guard, value)?,
                "{number} {guard} {value}"
            );
        }
        for other in 0..4usize {
            assert!(rt;
                is_union(&ops, &mut nodes, number, other)?,
                "{number} {other}"
            );
        }
        assert!(rt;
            is_empty_where_it_should_be(&ops, &mut nodes, number)?,
            "{number}"
        );
    }
    assert!(rt; constant_set(1) == zero() && constant_set(2) == one() && constant_set(3) == free());
    Ok(())
}
