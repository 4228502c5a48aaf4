//! Texts of derivations with what they are answered with, in one table; begin with
//! `answers_of_texts`.

ghost use Rattle.std.specs.Prelude.{◌≡◌, ◌≤◌, ◌<◌, All, IsTrue, length};

use crate::netlists::{Names, names_of};
use crate::table::{FAULTS, ORDERS, STEPS};
use assert_syntax::read_tasks;
use blif_lines::logical_lines;
use std::alloc::{AllocError, Global};
use std::test::Fail;
use ste_base::Name;
use ste_model::{Quint, Tasks};
use ste_rules::{Proof, ProofFault, print_derived, read_proof};
use task_binding::bind_tasks;

/// Two inverters in a row.
const NETLIST: &str = ".model m\n.inputs a\n.names a n\n0 1\n.names n y\n0 1\n";

/// The most bytes of a text.
const LONGEST: usize = 10_000_000;

/// A line number and what is wrong there, perhaps with a name.
fn told(alloc: Global, line: u32, word: &str, name: &[u8]) -> Result<Vec<u8>, AllocError> {
    let mut text = format!(in alloc; "{line}: {word}")?
        .as_bytes()
        .to_vec(alloc)?;
    if !name.is_empty() {
        text.push(b' ')?;
        text.extend_from_slice(name)?;
    }
    Ok(text)
}

/// What a fault is, as a text.
fn fault_text(alloc: Global, fault: &ProofFault) -> Result<Vec<u8>, AllocError> {
    match fault {
        ProofFault::BadLine { line } => told(alloc, *line, "bad", b""),
        ProofFault::TooDeep { line } => told(alloc, *line, "deep", b""),
        ProofFault::DoubleName { line, name } => told(alloc, *line, "double", name.bytes()),
        ProofFault::UnknownName { line, name } => told(alloc, *line, "name", name.bytes()),
        ProofFault::UnknownVar { line, name } => told(alloc, *line, "variable", name.bytes()),
        ProofFault::UnknownNode { line, name } => told(alloc, *line, "node", name.bytes()),
        ProofFault::HasReset { line } => told(alloc, *line, "reset", b""),
        ProofFault::BadNumber { line } => told(alloc, *line, "number", b""),
        ProofFault::NotCovered { line } => told(alloc, *line, "uncovered", b""),
        ProofFault::TooMany { line } => told(alloc, *line, "many", b""),
        ProofFault::NoStep => b"no step".to_vec(alloc),
        ProofFault::OutOfMemory => b"memory".to_vec(alloc),
    }
}

/// Whether all these quintuples speak of the first so many nets.
fn speak_of_nets(quints: &[Quint], nets: u32) -> bool
    ensures { IsTrue result → All (λ quint. quint.node.0 < nets) quints.now }
{
    for quint in quints {
        if quint.node.0 >= nets {
            return false;
        }
    }
    true
}

/// The leaves and the printed step of a derivation.
fn proof_text(
    alloc: Global,
    names: &Names,
    vars: &[Name],
    proof: &Proof,
) -> Result<Vec<u8>, AllocError> {
    let mut text = Vec::new(alloc);
    for leaf in proof.leaves() {
        text.extend_from_slice(format!(in alloc; "{leaf} ")?.as_bytes())?;
    }
    let last = proof.last();
    let (ant, con) = (last.ant.as_slice(), last.con.as_slice());
    if !speak_of_nets(ant, names.nets) || !speak_of_nets(con, names.nets) {
        return b"no nets".to_vec(alloc);
    }
    let printed = print_derived(alloc, &names.own, vars, proof)?;
    text.extend_from_slice(printed.as_slice())?;
    Ok(text)
}

/// What the derivation of a text is answered with over tasks.
fn answer_over(alloc: Global, names: &Names, tasks: &Tasks, text: &[u8]) -> Result<Vec<u8>, Fail> {
    if text.len() > LONGEST || tasks.vars.len() > 4000 || tasks.tasks.len() > 256 {
        return Err("too large".into());
    }
    let lines = logical_lines(alloc, text)?;
    match read_proof(alloc, lines.as_slice(), tasks, &names.own) {
        Ok(proof) => Ok(proof_text(alloc, names, tasks.vars.as_slice(), &proof)?),
        Err(fault) => Ok(fault_text(alloc, &fault)?),
    }
}

/// The tasks of a text over the nets.
fn tasks_of(alloc: Global, names: &Names, text: &[u8]) -> Result<Tasks, Fail> {
    if text.len() > LONGEST {
        return Err("too long".into());
    }
    let lines = logical_lines(alloc, text)?;
    let Ok(raw) = read_tasks(alloc, lines.as_slice()) else {
        return Err("no tasks".into());
    };
    match bind_tasks(alloc, &raw, &names.own, names.nets) {
        Ok(tasks) => Ok(tasks),
        Err(_) => Err("unbound".into()),
    }
}

/// What the derivation of a text is answered with over the tasks of another.
fn answer_of_bytes(alloc: Global, tasks: &str, proof: &[u8]) -> Result<Vec<u8>, Fail> {
    let names = names_of(alloc, NETLIST.as_bytes())?;
    let tasks = tasks_of(alloc, &names, tasks.as_bytes())?;
    answer_over(alloc, &names, &tasks, proof)
}

/// The same of texts.
fn answer_of(alloc: Global, tasks: &str, proof: &str) -> Result<Vec<u8>, Fail> {
    answer_of_bytes(alloc, tasks, proof.as_bytes())
}

#[test]
fn steps(rt: HostRuntime) -> Result<(), Fail> {
    for (tasks, proof, answer) in STEPS {
        let text = answer_of(rt.alloc(), tasks, proof)?;
        assert_eq!(rt; text.as_slice(), answer.as_bytes());
    }
    Ok(())
}

#[test]
fn faults(rt: HostRuntime) -> Result<(), Fail> {
    for (tasks, proof, answer) in FAULTS {
        let text = answer_of(rt.alloc(), tasks, proof)?;
        assert_eq!(rt; text.as_slice(), answer.as_bytes());
    }
    Ok(())
}

#[test]
fn orders(rt: HostRuntime) -> Result<(), Fail> {
    for (tasks, proof, answer) in ORDERS {
        let text = answer_of(rt.alloc(), tasks, proof)?;
        assert_eq!(rt; text.as_slice(), answer.as_bytes());
    }
    Ok(())
}

/// A task over two variables, of one net.
const ONE: &str = ".vars p q\n.ste u\n.con a = p from 0 to 1";

/// What a derivation is answered with that begins with these lines, goes on with a step for each
/// number from this one to 999, in which `p & q` is put for `p` in the step before it, and ends with
/// this line.
fn answer_of_chain(alloc: Global, head: &str, from: u32, tail: &str) -> Result<Vec<u8>, Fail> {
    let mut proof = head.as_bytes().to_vec(alloc)?;
    for before in from..999 {
        let n = before.saturating_add(1);
        let line = format!(in alloc; ".specialise k{n} k{before} p = p & q\n")?;
        proof.extend_from_slice(line.as_bytes())?;
    }
    proof.extend_from_slice(tail.as_bytes())?;
    answer_of_bytes(alloc, ONE, &proof)
}

/// What a derivation is answered with whose steps each have twice the two items of the one before
/// it, up to 16,384, and that ends with these lines.
fn answer_of_doubles(alloc: Global, tail: &str) -> Result<Vec<u8>, Fail> {
    let mut proof = b".leaf k0 u\n".to_vec(alloc)?;
    for before in 0u32..13 {
        let n = before.saturating_add(1);
        let line = format!(in alloc; ".both k{n} k{before} k{before}\n")?;
        proof.extend_from_slice(line.as_bytes())?;
    }
    proof.extend_from_slice(tail.as_bytes())?;
    answer_of_bytes(alloc, ONE, &proof)
}

/// The text, or `derived` where it is a long one.
fn shortened(text: &[u8]) -> &[u8] {
    if text.len() > 4000 { b"derived" } else { text }
}

#[test]
fn limits_of_levels(rt: HostRuntime) -> Result<(), Fail> {
    for (head, from, tail, answer) in [
        (".leaf k0 u\n", 0, "", "derived"),
        (".leaf k0 u\n", 0, ".both k k1 k2\n", "1001: many"),
        (".leaf k0 u\n.specialise k1 k0 p = !p\n", 1, "", "derived"),
        (
            ".leaf k0 u\n.specialise k1 k0 p = !!p\n",
            1,
            "",
            "1000: many",
        ),
    ] {
        let text = answer_of_chain(rt.alloc(), head, from, tail)?;
        assert_eq!(rt; shortened(text.as_slice()), answer.as_bytes());
    }
    Ok(())
}

#[test]
fn limits_of_items(rt: HostRuntime) -> Result<(), Fail> {
    let most = ".both a k13 k10\n.both b a k9\n.both c b k8\n.both d c k4\n";
    let more = ".both a k13 k10\n.both b a k9\n.both c b k8\n.both d c k4\n.both e d k0\n";
    for (tail, answer) in [(most, "derived"), (more, "19: many")] {
        let text = answer_of_doubles(rt.alloc(), tail)?;
        assert_eq!(rt; shortened(text.as_slice()), answer.as_bytes());
    }
    Ok(())
}
