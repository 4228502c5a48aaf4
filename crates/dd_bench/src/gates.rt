//! One time of a trajectory evaluation of random gates; begin with `gates`.

use crate::trace::{ONE, Trace, ZERO, var};
use std::alloc::{AllocError, Global};

/// What the inputs of a block of gates are.
#[derive(Clone, Copy, Drop)]
pub struct Mix {
    /// How many are variables.
    pub symbols: u32,
    /// How many are the constant 0, and as many are 1.
    pub constants: u32,
    /// How many are unknown.
    pub unknown: u32,
}

/// Where a net may be 0, and where it may be 1.
#[derive(Clone, Copy, Drop)]
struct Rails {
    zero: u32,
    one: u32,
}

/// Pseudo-random numbers, the same at each run.
#[derive(Drop)]
struct Dice {
    state: u64,
}

impl Dice {
    fn below(&mut self, count: usize) -> usize {
        self.state ^= self.state.wrapping_shl(13);
        self.state ^= self.state.wrapping_shr(7);
        self.state ^= self.state.wrapping_shl(17);
        let roll = self.state.wrapping_shr(20) as usize;
        match roll.checked_rem(count) {
            Some(rest) => rest,
            None => 0,
        }
    }
}

/// The on-rows and the off-rows of a cover; no two rows of one list match the same bits.
fn cover(kind: usize) -> (&'static str, &'static str) {
    match kind {
        0 => ("11", "0- 10"),
        1 => ("01 1-", "00"),
        2 => ("01 10", "00 11"),
        3 => ("0- 10", "11"),
        4 => ("00", "01 1-"),
        5 => ("01- 1-1", "00- 1-0"),
        6 => ("111", "0-- 10- 110"),
        7 => ("0-0 100", "0-1 101 11-"),
        8 => ("011 101 11-", "00- 010 100"),
        9 => ("001 010 100 111", "000 011 101 110"),
        10 => ("0-11 1011 11--", "0-0- 0-10 100- 1010"),
        11 => ("1111", "0--- 10-- 110- 1110"),
        _ => ("0101 011- 10-- 1100", "00-- 0100 1101 111-"),
    }
}

/// So many gates in blocks of forty. Each gate reads late nets of its block, and gets the exact set
/// of its outputs.
pub fn gates(alloc: Global, count: u32, mix: Mix) -> Result<Trace, AllocError> {
    let mut trace = Trace::new(alloc, 64)?;
    let mut dice = Dice {
        state: 88172645463325252,
    };
    for block in 0..count / 40 {
        let mut nets = inputs(alloc, &mut trace, &mut dice, block % 8, mix)?;
        for _ in 0..40 {
            let net = gate(alloc, &mut trace, &mut dice, &nets)?;
            nets.push(net)?;
        }
    }
    Ok(trace)
}

/// The inputs of a block, mixed.
fn inputs(
    alloc: Global,
    trace: &mut Trace,
    dice: &mut Dice,
    block: u32,
    mix: Mix,
) -> Result<Vec<Rails>, AllocError> {
    let mut nets = Vec::new(alloc);
    for i in 0..mix.symbols {
        let one = var(block.wrapping_mul(8).wrapping_add(i % 8));
        let zero = trace.not(one)?;
        put_at_chance(&mut nets, dice, Rails { zero, one })?;
    }
    for _ in 0..mix.constants {
        put_at_chance(
            &mut nets,
            dice,
            Rails {
                zero: ONE,
                one: ZERO,
            },
        )?;
        put_at_chance(
            &mut nets,
            dice,
            Rails {
                zero: ZERO,
                one: ONE,
            },
        )?;
    }
    for _ in 0..mix.unknown {
        put_at_chance(
            &mut nets,
            dice,
            Rails {
                zero: ONE,
                one: ONE,
            },
        )?;
    }
    Ok(nets)
}

fn put_at_chance(nets: &mut Vec<Rails>, dice: &mut Dice, net: Rails) -> Result<(), AllocError> {
    nets.push(net)?;
    let last = nets.len().wrapping_sub(1);
    let place = dice.below(nets.len());
    if place < nets.len() && last < nets.len() {
        nets.swap(place, last);
    }
    Ok(())
}

fn net_at(nets: &[Rails], place: usize) -> Rails {
    match nets.get(place) {
        Some(net) => *net,
        None => Rails {
            zero: ONE,
            one: ONE,
        },
    }
}

/// A gate of a cover at chance on some of the last 24 nets.
fn gate(
    alloc: Global,
    trace: &mut Trace,
    dice: &mut Dice,
    nets: &[Rails],
) -> Result<Rails, AllocError> {
    let (on, off) = cover(dice.below(13));
    let mut ins = Vec::new(alloc);
    let mut eithers = Vec::new(alloc);
    for _ in 0..4 {
        let near = dice.below(nets.len().min(24));
        let net = net_at(nets, nets.len().wrapping_sub(1).wrapping_sub(near));
        ins.push(net)?;
    }
    for net in ins.iter().take(width(on)) {
        eithers.push(trace.or(net.zero, net.one)?)?;
    }
    let one = sum(trace, on, &ins, &eithers)?;
    let zero = sum(trace, off, &ins, &eithers)?;
    Ok(Rails { zero, one })
}

/// The length of the first row.
fn width(rows: &str) -> usize {
    for (i, sign) in rows.bytes().enumerate() {
        if sign == b' ' {
            return i;
        }
    }
    rows.len()
}

/// The sum of the rows' products.
fn sum(trace: &mut Trace, rows: &str, ins: &[Rails], eithers: &[u32]) -> Result<u32, AllocError> {
    let mut sum = ZERO;
    let mut product = ONE;
    let mut place = 0usize;
    for sign in rows.bytes() {
        if sign == b' ' {
            sum = trace.or(sum, product)?;
            product = ONE;
            place = 0;
        } else {
            let net = net_at(ins, place);
            let either = eithers.get(place).copied().unwrap_or(ONE);
            let factor = factor(sign, net, either);
            product = trace.and(product, factor)?;
            place = place.wrapping_add(1);
        }
    }
    trace.or(sum, product)
}

fn factor(sign: u8, net: Rails, either: u32) -> u32 {
    match sign {
        b'0' => net.zero,
        b'1' => net.one,
        _ => either,
    }
}
