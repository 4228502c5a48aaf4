//! Arithmetic, queens and parity; begin with `adder`.

use crate::trace::{Act, ONE, Trace, ZERO, var};
use std::alloc::{AllocError, Global};

/// The variable of bit `i` of the first or second operand, where both are interleaved.
fn bit(i: u32, operand: u32) -> u32 {
    var(i.wrapping_mul(2).wrapping_add(operand))
}

/// Sum and carry of two numbers of so many bits, interleaved.
pub fn adder(alloc: Global, bits: u32) -> Result<Trace, AllocError> {
    let mut trace = Trace::new(alloc, bits.wrapping_mul(2))?;
    let mut carry = ZERO;
    for i in 0..bits {
        carry = add(&mut trace, bit(i, 0), bit(i, 1), carry)?.1;
    }
    Ok(trace)
}

/// The sum of three bits, and its carry.
fn add(trace: &mut Trace, a: u32, b: u32, carry: u32) -> Result<(u32, u32), AllocError> {
    let differ = trace.xor(a, b)?;
    let sum = trace.xor(differ, carry)?;
    let both = trace.and(a, b)?;
    let passed = trace.and(differ, carry)?;
    let next = trace.or(both, passed)?;
    Ok((sum, next))
}

/// The carry of two numbers, all bits of the first before those of the second.
pub fn carry(alloc: Global, bits: u32) -> Result<Trace, AllocError> {
    let mut trace = Trace::new(alloc, bits.wrapping_mul(2))?;
    let mut carry = ZERO;
    for i in 0..bits {
        let a = var(i);
        let b = var(bits.wrapping_add(i));
        let both = trace.and(a, b)?;
        let differ = trace.xor(a, b)?;
        let passed = trace.and(differ, carry)?;
        carry = trace.or(both, passed)?;
    }
    Ok(trace)
}

/// Whether one number is below another, and whether they are equal, interleaved.
pub fn comparator(alloc: Global, bits: u32) -> Result<Trace, AllocError> {
    let mut trace = Trace::new(alloc, bits.wrapping_mul(2))?;
    let mut below = ZERO;
    let mut equal = ONE;
    for i in 0..bits {
        let differ = trace.xor(bit(i, 0), bit(i, 1))?;
        below = trace.ite(differ, bit(i, 1), below)?;
        let same = trace.not(differ)?;
        equal = trace.and(equal, same)?;
    }
    Ok(trace)
}

/// All bits of a product, interleaved.
pub fn multiplier(alloc: Global, bits: u32) -> Result<Trace, AllocError> {
    let mut trace = Trace::new(alloc, bits.wrapping_mul(2))?;
    let mut sums = Vec::new(alloc);
    for _ in 0..bits.wrapping_mul(2) {
        sums.push(ZERO)?;
    }
    for i in 0..bits {
        add_row(&mut trace, &mut sums, bits, i)?;
    }
    Ok(trace)
}

/// Adds the first number times bit `i` of the second.
fn add_row(trace: &mut Trace, sums: &mut [u32], bits: u32, i: u32) -> Result<(), AllocError> {
    let mut carry = ZERO;
    for j in 0..bits {
        let product = trace.and(bit(j, 0), bit(i, 1))?;
        let place = i.wrapping_add(j) as usize;
        let (sum, next) = add(trace, sum_at(sums, place), product, carry)?;
        put_sum(sums, place, sum);
        carry = next;
    }
    put_sum(sums, i.wrapping_add(bits) as usize, carry);
    Ok(())
}

fn sum_at(sums: &[u32], place: usize) -> u32 {
    match sums.get(place) {
        Some(sum) => *sum,
        None => ZERO,
    }
}

fn put_sum(sums: &mut [u32], place: usize, sum: u32) {
    if let Some(slot) = sums.get_mut(place) {
        *slot = sum;
    }
}

/// The difference of all variables.
pub fn parity(alloc: Global, vars: u32) -> Result<Trace, AllocError> {
    let mut trace = Trace::new(alloc, vars)?;
    let mut odd = ZERO;
    for v in 0..vars {
        odd = trace.xor(odd, var(v))?;
    }
    Ok(trace)
}

/// The placings of queens, one in each row, that don't meet.
pub fn queens(alloc: Global, size: u32) -> Result<Trace, AllocError> {
    let mut trace = Trace::new(alloc, size.wrapping_mul(size))?;
    let mut all = ONE;
    for i in 0..size {
        let mut some = ZERO;
        for j in 0..size {
            some = trace.or(some, field(size, i, j))?;
        }
        all = trace.and(all, some)?;
    }
    for place in 0..size.wrapping_mul(size) {
        let alone = alone(&mut trace, size, place)?;
        all = trace.and(all, alone)?;
    }
    Ok(trace)
}

fn field(size: u32, i: u32, j: u32) -> u32 {
    var(i.wrapping_mul(size).wrapping_add(j))
}

/// No other queen is on a line of the field.
fn alone(trace: &mut Trace, size: u32, place: u32) -> Result<u32, AllocError> {
    let mut alone = ONE;
    for other in 0..size.wrapping_mul(size) {
        if other != place && on_line(size, place, other) {
            let both = trace.and(var(other), var(place))?;
            let apart = trace.not(both)?;
            alone = trace.and(alone, apart)?;
        }
    }
    Ok(alone)
}

/// Whether two fields are in one row, column or diagonal.
fn on_line(size: u32, a: u32, b: u32) -> bool {
    let (Some(i), Some(k)) = (a.checked_div(size), b.checked_div(size)) else {
        return false;
    };
    let j = a.wrapping_sub(i.wrapping_mul(size));
    let l = b.wrapping_sub(k.wrapping_mul(size));
    i == k || j == l || i.abs_diff(k) == j.abs_diff(l)
}
