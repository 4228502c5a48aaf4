//! Flat nets and faults, as the tables write them; begin with `shown`.

ghost use Rattle.std.specs.Prelude.{◌≡◌, length};

use hierarchy::NetFault;
use net_core::{Cover, Gate, Init, Latch, Lit, RawNet};
use net_names::NetNames;
use std::alloc::{AllocError, Global};
use ste_base::{Name, NodeId};

/// Adds the names of the nets, by number, each behind a space.
fn show_names(out: &mut Vec<u8>, count: u32, names: &NetNames) -> Result<(), AllocError>
    requires { count ≡ length names.now.own }
{
    for number in 0..count {
        out.push(b' ')?;
        out.extend_from_slice(names.name(NodeId(number)).bytes())?;
    }
    Ok(())
}

/// Adds the nets, each behind a space.
fn show_nets(alloc: Global, out: &mut Vec<u8>, nets: &[NodeId]) -> Result<(), AllocError> {
    for net in nets {
        out.extend_from_slice(format!(in alloc; " {}", net.0)?.as_bytes())?;
    }
    Ok(())
}

/// Adds a cover: its rows, and its output character.
fn show_cover(out: &mut Vec<u8>, cover: &Cover) -> Result<(), AllocError> {
    for row in cover.rows.as_slice() {
        for lit in row.as_slice() {
            out.push(match lit {
                Lit::Zero => b'0',
                Lit::One => b'1',
                Lit::Any => b'-',
            })?;
        }
    }
    out.extend_from_slice(if cover.on { b" 1" } else { b" 0" })
}

/// Adds a gate with its cover.
fn show_gate(
    alloc: Global,
    out: &mut Vec<u8>,
    gate: &Gate,
    covers: &[Cover],
) -> Result<(), AllocError> {
    out.extend_from_slice(b" (")?;
    for input in gate.inputs.as_slice() {
        out.extend_from_slice(format!(in alloc; "{} ", input.0)?.as_bytes())?;
    }
    out.extend_from_slice(format!(in alloc; "> {} c{} ", gate.output.0, gate.cover)?.as_bytes())?;
    if let Some(cover) = covers.get(gate.cover as usize) {
        show_cover(out, cover)?;
    }
    out.push(b')')?;
    Ok(())
}

/// Adds a latch.
fn show_latch(alloc: Global, out: &mut Vec<u8>, latch: &Latch) -> Result<(), AllocError> {
    let init = match latch.init {
        Init::Zero => '0',
        Init::One => '1',
        Init::Free => '?',
    };
    out.extend_from_slice(format!(in alloc;
        " ({} > {} {init})",
        latch.input.0, latch.output.0
    )?.as_bytes())
}

/// A net with the names of its nets.
pub(crate) fn shown(alloc: Global, net: &RawNet, names: &NetNames) -> Result<Vec<u8>, AllocError>
    requires { net.now.nets ≡ length names.now.own }
{
    let mut out = Vec::new(alloc);
    show_names(&mut out, net.nets, names)?;
    out.push(b'|')?;
    show_nets(alloc, &mut out, net.inputs.as_slice())?;
    out.push(b'|')?;
    show_nets(alloc, &mut out, net.outputs.as_slice())?;
    out.push(b'|')?;
    for gate in net.gates.as_slice() {
        show_gate(alloc, &mut out, gate, net.covers.as_slice())?;
    }
    out.push(b'|')?;
    for latch in net.latches.as_slice() {
        show_latch(alloc, &mut out, latch)?;
    }
    Ok(out)
}

/// A kind of fault with a line and a name.
fn line_fault(alloc: Global, kind: &[u8], line: u32, name: &Name) -> Result<Vec<u8>, AllocError> {
    let mut out = kind.to_vec(alloc)?;
    out.extend_from_slice(format!(in alloc; " {line} ")?.as_bytes())?;
    out.extend_from_slice(name.bytes())?;
    Ok(out)
}

/// A fault.
pub(crate) fn fault_text(alloc: Global, fault: &NetFault) -> Result<Vec<u8>, AllocError> {
    match fault {
        NetFault::UnknownModel { line, name } => line_fault(alloc, b"unknown model", *line, name),
        NetFault::Recursive { line, name } => line_fault(alloc, b"recursive", *line, name),
        NetFault::DrivenTwice { line, name } => line_fault(alloc, b"driven twice", *line, name),
        NetFault::MixedClocks { line, name } => line_fault(alloc, b"mixed clocks", *line, name),
        NetFault::TooManyNodes => b"too many nodes".to_vec(alloc),
        _ => b"another kind".to_vec(alloc),
    }
}
