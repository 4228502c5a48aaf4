//! Tasks shared out to workers: the same reports for any number of them, the number of shared
//! nodes, and that two workers meet.

use program_fixture::texts::{INVERTER, INVERTS};
use program_fixture::{Fixture, NOTHING, run_on};
use std::alloc::{AllocError, Global};
use std::process::Abort;
use std::sync::atomic::{AtomicU64, Ordering};
use std::test::Fail;
use std::thread::Threads;
use ste_base::read_number;
use ste_program::run::Status;
use work_pool::{Gate, NoGate};

const AND: &str = ".model and\n.inputs a b\n.outputs y\n.names a b y\n11 1\n.end\n";

const SHIFT: &str =
    ".model shift\n.inputs d e\n.outputs c\n.names d e n\n11 1\n.latch n a\n.latch a b\n.latch b c\n.end\n";

/// Runs the program on a fixture, and compares what it answers; it writes no message.
fn run_well<G: Gate + Sync>(
    rt: &(impl Abort + Threads + Sync),
    alloc: Global,
    fixture: &mut Fixture,
    status: Status,
    gate: &G,
    what: &str,
) {
    let found = run_on(rt, alloc, fixture, gate);
    assert_eq!(rt; fixture.err().len(), 0, "{what}");
    assert_eq!(rt; found, status, "{what}");
}

/// What a check of the files `n` and `t` with these options writes to the output.
fn report<G: Gate + Sync>(
    rt: &(impl Abort + Threads + Sync),
    alloc: Global,
    options: &str,
    net: &str,
    tasks: &str,
    status: Status,
    gate: &G,
) -> Result<Vec<u8>, AllocError> {
    let words = format!(in alloc; "check n t {options}")?;
    let files = &[("n", net.as_bytes()), ("t", tasks.as_bytes())];
    let mut fixture = Fixture::new(alloc, &words, files, 60000, 1000, NOTHING)?;
    run_well(rt, alloc, &mut fixture, status, gate, options);
    fixture.out().to_vec(alloc)
}

/// A flag for each of two tasks, and how many tasks saw the flag of the other.
#[derive(Drop)]
struct Meeting {
    first: AtomicU64,
    second: AtomicU64,
    met: AtomicU64,
}

/// Sets one flag, and waits for the other for at most so many turns; whether it was seen.
fn meets(own: &AtomicU64, other: &AtomicU64, turns: u64) -> bool {
    own.store(1, Ordering::SeqCst);
    for _ in 0..turns {
        if other.load(Ordering::SeqCst) == 1 {
            return true;
        }
    }
    false
}

impl Gate for Meeting {
    fn at_task(&self, task: u32) {
        let seen = if task == 0 {
            meets(&self.first, &self.second, 100_000_000)
        } else {
            meets(&self.second, &self.first, 100_000_000)
        };
        if seen {
            self.met.fetch_add(1, Ordering::SeqCst);
        }
    }
}

#[test]
fn two_workers_meet(rt: HostRuntime) -> Result<(), Fail> {
    let alloc = rt.alloc();
    let meeting = Meeting {
        first: AtomicU64::new(0),
        second: AtomicU64::new(0),
        met: AtomicU64::new(0),
    };
    let mut tasks = String::from_str(alloc, INVERTS)?;
    tasks.push_str(".ste t2\n.ant a = p from 0 to 1\n.con y = !p from 0 to 1\n.end\n")?;
    let words = "--workers 2 --steps 1000";
    let text = report(
        &rt,
        alloc,
        words,
        INVERTER,
        &tasks,
        Status::Passed,
        &meeting,
    )?;
    assert_eq!(&rt; text.as_slice(), b"t1: pass\nt2: pass\n" as &[u8]);
    assert_eq!(&rt; meeting.met.load(Ordering::SeqCst), 2);
    Ok(())
}

/// So many assertions over the chain of three latches, of different lengths, of which most fail;
/// each fifth has a graph behind it.
fn many_tasks(alloc: Global, count: u32) -> Result<String, AllocError> {
    let mut text = String::from_str(alloc, ".vars p q r\n")?;
    for i in 0..count {
        let to = 1 + i.wrapping_mul(7) % 40;
        let value = if i % 3 == 0 { "p | q" } else { "p & q" };
        let task = format!(in alloc;
            ".ste t{i}\n.ant d = p from 0 to {to}\n.ant e = q from 0 to {to}\n.con a = {value} from 1 to {to}\n.end\n"
        )?;
        text.push_str(&task)?;
        if i % 5 == 0 {
            let graph = format!(in alloc;
                ".gste g{i} s\n.edge s s\n.ant d = r\n.ant e = 1\n.con n = r\n.edge s v\n.ant d = q\n.con b = r & p\n.end\n"
            )?;
            text.push_str(&graph)?;
        }
    }
    Ok(text)
}

#[test]
fn any_number_of_workers(rt: HostRuntime) -> Result<(), Fail> {
    let alloc = rt.alloc();
    let tasks = many_tasks(alloc, 213)?;
    let one = "--workers 1 --steps 1000";
    let first = report(&rt, alloc, one, SHIFT, &tasks, Status::NotPassed, &NoGate)?;
    assert!(&rt; first.len() > 10000);
    for words in [
        "--workers 2 --steps 1000",
        "--workers 3 --steps 2000",
        "--workers 4 --steps 1000",
        "--workers 64 --steps 1000",
    ] {
        let other = report(&rt, alloc, words, SHIFT, &tasks, Status::NotPassed, &NoGate)?;
        assert!(&rt; other.as_slice() == first.as_slice(), "{words}");
    }
    Ok(())
}

/// The number behind these words at the end of a report; none where it ends otherwise.
fn number_at_end(text: &[u8], before: &[u8]) -> Option<u64> {
    let rest = text.strip_prefix(before)?;
    let (last, digits) = rest.split_last()?;
    if *last != b'\n' {
        return None;
    }
    match read_number(digits, 1000) {
        Ok(number) => Some(number),
        Err(_) => None,
    }
}

#[test]
fn shared_nodes(rt: HostRuntime) -> Result<(), Fail> {
    let alloc = rt.alloc();
    let task =
        ".ste t1\n.ant a = p from 0 to 1\n.ant b = q from 0 to 1\n.con y = p & q from 0 to 1\n.end\n";
    let mut once = String::from_str(alloc, ".vars p q\n")?;
    once.push_str(task)?;
    let mut twice = String::from_str(alloc, &once)?;
    twice.push_str(
        ".ste t2\n.ant a = p from 0 to 1\n.ant b = q from 0 to 1\n.con y = p & q from 0 to 1\n.end\n",
    )?;
    let words = "--nodes --steps 1000";
    let one = report(&rt, alloc, words, AND, &once, Status::Passed, &NoGate)?;
    let words = "--workers 2 --nodes --steps 1000";
    let two = report(&rt, alloc, words, AND, &twice, Status::Passed, &NoGate)?;
    let number = number_at_end(&one, b"t1: pass\nshared nodes: ");
    let again = number_at_end(&two, b"t1: pass\nt2: pass\nshared nodes: ");
    assert!(&rt; number.is_some());
    assert!(&rt; number == again);
    if let Some(count) = number {
        assert!(&rt; 2 <= count && count <= 14, "{count}");
    }
    Ok(())
}

/// The line of the variables of the tasks of this file.
fn variables(alloc: Global) -> Result<String, AllocError> {
    let mut text = String::from_str(alloc, ".vars")?;
    for name in ["p", "q"] {
        for i in 0..14 {
            text.push_str(&format!(in alloc; " {name}{i}")?)?;
        }
    }
    text.push_str("\n")?;
    Ok(text)
}

/// A small task over the inverter.
fn small_task(alloc: Global, name: &str) -> Result<String, AllocError> {
    format!(in alloc; ".ste {name}\n.ant a = p0 from 0 to 1\n.con y = !p0 from 0 to 1\n.end\n")
}

/// A task over the inverter that takes some 80,000 nodes: sums of products of variables that stand
/// far apart in the order.
fn large_task(alloc: Global, name: &str) -> Result<String, AllocError> {
    let mut sum = String::from_str(alloc, "p0 & q0")?;
    for i in 1..14 {
        sum.push_str(&format!(in alloc; " | p{i} & q{i}")?)?;
    }
    format!(in alloc;
        ".ste {name}\n.ant a = {sum} from 0 to 1\n.con y = !({sum}) from 0 to 1\n.end\n"
    )
}

/// Small tasks, so many, and behind them a large one.
fn one_large_task(alloc: Global, count: u32) -> Result<String, AllocError> {
    let mut text = variables(alloc)?;
    for i in 0..count {
        let name = format!(in alloc; "t{i}")?;
        text.push_str(&small_task(alloc, &name)?)?;
    }
    text.push_str(&large_task(alloc, "large")?)?;
    Ok(text)
}

/// 40 tasks, of which those of the numbers 5, 18 and 31 are large.
fn three_large_tasks(alloc: Global) -> Result<String, AllocError> {
    let mut text = variables(alloc)?;
    for i in 0..40 {
        let name = format!(in alloc; "t{i}")?;
        let task = if i % 13 == 5 {
            large_task(alloc, &name)?
        } else {
            small_task(alloc, &name)?
        };
        text.push_str(&task)?;
    }
    Ok(text)
}

/// The steps of a task that are tried first do not suffice for the large one; all of them do, and
/// 5,000 do not.
#[test]
fn few_steps_first(rt: HostRuntime) -> Result<(), Fail> {
    let alloc = rt.alloc();
    let tasks = one_large_task(alloc, 40)?;
    for words in [
        "--workers 1 --steps 200000",
        "--workers 4 --steps 300000 --nodes",
    ] {
        let text = report(&rt, alloc, words, INVERTER, &tasks, Status::Passed, &NoGate)?;
        assert!(&rt; text.starts_with(b"t0: pass\nt1: pass\n"), "{words}");
        assert!(&rt;
            text.ends_with(b"large: pass\n") || words.ends_with("--nodes"),
            "{words}"
        );
    }
    let words = "--workers 2 --steps 5000";
    let text = report(
        &rt,
        alloc,
        words,
        INVERTER,
        &tasks,
        Status::NotPassed,
        &NoGate,
    )?;
    assert!(&rt; text.ends_with(b"t39: pass\nlarge: budget\n"), "{words}");
    Ok(())
}

/// Counts the tasks that are begun.
#[derive(Drop)]
struct Begun {
    count: AtomicU64,
}

impl Gate for Begun {
    fn at_task(&self, _task: u32) {
        self.count.fetch_add(1, Ordering::SeqCst);
    }
}

/// Only the large tasks are begun twice, and the reports are in order; where the shared nodes are
/// counted, all tasks are begun twice, and their reports are the same.
#[test]
fn large_tasks_alone_are_tried_again(rt: HostRuntime) -> Result<(), Fail> {
    let alloc = rt.alloc();
    let tasks = three_large_tasks(alloc)?;
    let mut passes = String::new(alloc);
    for i in 0..40 {
        passes.push_str(&format!(in alloc; "t{i}: pass\n")?)?;
    }
    for (words, begun) in [
        ("--workers 3 --steps 200000", 43),
        ("--workers 2 --steps 200000 --nodes", 80),
    ] {
        let gate = Begun {
            count: AtomicU64::new(0),
        };
        let text = report(&rt, alloc, words, INVERTER, &tasks, Status::Passed, &gate)?;
        assert!(&rt; text.starts_with(passes.as_bytes()), "{words}");
        assert_eq!(rt; text.len() == passes.len(), begun == 43, "{words}");
        assert_eq!(rt; gate.count.load(Ordering::SeqCst), begun, "{words}");
    }
    Ok(())
}
