//! The program `dd_bench`: runs a workload of diagram operations over the store that grows, and
//! measures it. `dd_bench WORKLOAD SIZE RUNS` prints the operations and the nodes made, and to the
//! error output the least time of so many runs, with nodes and operations a second. `dd_bench print
//! WORKLOAD SIZE` prints the operations, for another package to run.
#![tactic(auto)]

mod gates;
mod shelf;
mod trace;
mod workloads;

use crate::gates::{Mix, gates};
use crate::shelf::Shelf;
use crate::trace::{Act, Trace};
use crate::workloads::{adder, carry, comparator, multiplier, parity, queens};
use dd_growing::GrowingNodes;
use std::alloc::{AllocError, Global};
use std::time::Instant;
use std::{env, io};

/// What is run at most, in bits, variables, fields of a side or gates.
const GREATEST: u32 = 1000000;

/// The workload of this name and size; an unknown one is empty.
fn workload(alloc: Global, name: &str, size: u32) -> Result<Trace, AllocError> {
    match name {
        "adder" => adder(alloc, size),
        "carry" => carry(alloc, size),
        "comparator" => comparator(alloc, size),
        "multiplier" => multiplier(alloc, size),
        "parity" => parity(alloc, size),
        "queens" => queens(alloc, size),
        "symbolic" => gates(alloc, size, mix(8, 1, 2)),
        "mixed" => gates(alloc, size, mix(4, 2, 12)),
        "constant" => gates(alloc, size, mix(1, 5, 20)),
        _ => Trace::new(alloc, 0),
    }
}

fn mix(symbols: u32, constants: u32, unknown: u32) -> Mix {
    Mix {
        symbols,
        constants,
        unknown,
    }
}

/// Whether all operations were done.
fn run_all(shelf: &mut Shelf<GrowingNodes>, acts: &[Act]) -> bool {
    for act in acts {
        if !shelf.put(*act) {
            return false;
        }
    }
    true
}

/// The nodes made and the nanoseconds of the operations on a shelf; none where they could not be
/// done.
fn timed(
    rt: &HostRuntime,
    shelf: &mut Shelf<GrowingNodes>,
    acts: &[Act],
) -> io::Result<Option<(u32, u64)>> {
    let start = Instant::now(rt)?;
    let done = shelf.put_constants() && run_all(shelf, acts);
    let took = u64::try_from(start.elapsed(rt)?.as_nanos()).unwrap_or(u64::MAX);
    Ok(if done {
        Some((shelf.used(), took))
    } else {
        None
    })
}

/// The same of one run in a store of its own.
fn run_once(rt: &HostRuntime, trace: &Trace) -> io::Result<Option<(u32, u64)>> {
    let Ok(nodes) = GrowingNodes::new(rt.alloc(), trace.vars, 32000000) else {
        return Ok(None);
    };
    let mut shelf = Shelf::new(rt.alloc(), nodes);
    timed(rt, &mut shelf, trace.acts.as_slice())
}

/// How many a second.
fn rate(count: u64, nanos: u64) -> u64 {
    match count.wrapping_mul(1000000000).checked_div(nanos) {
        Some(rate) => rate,
        None => 0,
    }
}

/// The nodes made and the least nanoseconds of so many runs; none where one could not be done.
fn best_of(rt: &HostRuntime, trace: &Trace, runs: u32) -> io::Result<Option<(u32, u64)>> {
    let mut least = u64::MAX;
    let mut used = 0u32;
    for _ in 0..runs {
        let Some((made, took)) = run_once(rt, trace)? else {
            return Ok(None);
        };
        used = made;
        least = least.min(took);
    }
    Ok(Some((used, least)))
}

/// Prints what was measured.
fn report(rt: &HostRuntime, name: &str, acts: u64, used: u32, least: u64) -> io::Result<()> {
    println!(rt; "{name}: {acts} operations, {used} nodes")?;
    let nodes = rate(used as u64, least);
    let operations = rate(acts, least);
    eprintln!(rt; "{name}: {least} ns, {nodes} nodes a second, {operations} operations a second")
}

/// Runs a workload so often, and prints what was found.
fn measure(rt: &HostRuntime, name: &str, trace: &Trace, runs: u32) -> io::Result<()> {
    match best_of(rt, trace, runs)? {
        Some((used, least)) => report(rt, name, trace.acts.len() as u64, used, least),
        None => Ok(()),
    }
}

/// An operation as it is printed: its kind and three operands, 0 for those that it lacks.
fn numbers_of(act: &Act) -> (u32, u32, u32, u32) {
    match act {
        Act::Var(v) => (0, *v, 0, 0),
        Act::Not(a) => (1, *a, 0, 0),
        Act::And(a, b) => (2, *a, *b, 0),
        Act::Or(a, b) => (3, *a, *b, 0),
        Act::Xor(a, b) => (4, *a, *b, 0),
        Act::Ite(c, a, b) => (5, *c, *a, *b),
    }
}

/// Prints the operations: the number of variables and of operations, and a line for each.
fn print(rt: &HostRuntime, trace: &Trace) -> io::Result<()> {
    println!(rt; "{} {}", trace.vars, trace.acts.len())?;
    for act in &trace.acts {
        let (kind, a, b, c) = numbers_of(act);
        println!(rt; "{kind} {a} {b} {c}")?;
    }
    Ok(())
}

fn number(word: &str) -> u32 {
    match word.parse::<u32>() {
        Ok(n) => n.min(GREATEST),
        Err(_) => 0,
    }
}

/// Does what the words behind the program's name ask for.
fn answer(rt: &HostRuntime, words: &[String]) -> io::Result<()> {
    match words {
        [first, name, size] if first.as_str() == "print" => {
            print(rt, &workload(rt.alloc(), name, number(size))?)
        }
        [name, size, runs] => measure(
            rt,
            name,
            &workload(rt.alloc(), name, number(size))?,
            number(runs),
        ),
        _ => println!(rt; "dd_bench [print] WORKLOAD SIZE [RUNS]"),
    }
}

fn main(rt: HostRuntime) -> io::Result<()> {
    let words = env::args(&rt)?.skip(1).collect::<Vec<String>>(rt.alloc())?;
    answer(&rt, words.as_slice())
}
