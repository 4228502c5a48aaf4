//! What a failure shows: the least assignment, the path and the failing place; begin with
//! `put_least`.

ghost use Rattle.std.specs.Prelude.{◌≡◌, ◌<◌, ◌++◌, [], IfOk, IfSome, Some, flat_map, length, slice_index_or, zip};
ghost use Rattle.report_text.specs.Text.{bit_part, edge_part, fails_line, least_line, path_line};

use crate::pieces::{bit_code, put_number};
use net_names::NetNames;
use std::alloc::{AllocError, Global};
use ste_base::{Items, Name, NodeId, Time};

/// Puts a variable and its bit behind a text.
fn put_bit(text: &mut Vec<u8>, name: &[u8], bit: bool) -> Result<(), AllocError>
    ensures { IfOk result (λ _. text.new.items ≡ text.old.items ++ bit_part (name.now, bit)) }
{
    text.push(b' ')?;
    text.extend_from_slice(name)?;
    text.push(b'=')?;
    text.push(bit_code(bit))?;
    Ok(())
}

/// Puts each variable and its bit behind a text.
fn put_bits(text: &mut Vec<u8>, vars: &[Name], bits: &[bool]) -> Result<(), AllocError>
    ensures { IfOk result (λ _. text.new.items
        ≡ text.old.items ++ flat_map bit_part (zip vars.now bits.now)) }
{
    for (place, bit) in bits.iter().enumerate() {
        if let Some(name) = vars.get(place) {
            put_bit(text, name.bytes(), *bit)?;
        }
    }
    Ok(())
}

/// Puts the line of the least assignment behind a text, where there is one.
pub fn put_least(
    text: &mut Vec<u8>,
    vars: &[Name],
    least: &Option<Items<bool>>,
) -> Result<(), AllocError>
    ensures { IfOk result (λ _. text.new.items ≡ text.old.items ++ least_line vars.now least.now) }
{
    if let Some(bits) = least {
        text.extend_from_slice(b"  least:")?;
        put_bits(text, vars, bits.as_slice())?;
        text.push(b'\n')?;
    }
    Ok(())
}

/// Puts the number of an edge behind a text.
fn put_edge(alloc: Global, text: &mut Vec<u8>, edge: u32) -> Result<(), AllocError>
    ensures { IfOk result (λ _. text.new.items ≡ text.old.items ++ edge_part edge) }
{
    text.push(b' ')?;
    put_number(alloc, text, edge)
}

/// Puts the numbers of edges behind a text.
fn put_edges(alloc: Global, text: &mut Vec<u8>, edges: &[u32]) -> Result<(), AllocError>
    ensures { IfOk result (λ _. text.new.items
        ≡ text.old.items ++ flat_map edge_part edges.now) }
{
    for edge in edges {
        put_edge(alloc, text, *edge)?;
    }
    Ok(())
}

/// Puts the line of the shown path behind a text, where there is one.
pub fn put_path(alloc: Global, text: &mut Vec<u8>, edges: &[u32]) -> Result<(), AllocError>
    ensures { IfOk result (λ _. text.new.items ≡ text.old.items ++ path_line edges.now) }
{
    if !edges.is_empty() {
        text.extend_from_slice(b"  path:")?;
        put_edges(alloc, text, edges)?;
        text.push(b'\n')?;
    }
    Ok(())
}

/// Puts the own name of a net behind a text.
fn put_name(text: &mut Vec<u8>, names: &NetNames, id: NodeId) -> Result<(), AllocError>
    requires { id.0 < length names.now.own }
    ensures { IfOk result (λ _. text.new.items
        ≡ text.old.items ++ slice_index_or names.now.own id.0 []) }
{
    text.extend_from_slice(names.name(id).bytes())?;
    Ok(())
}

/// Puts the line of a failing place behind a text: a net's own name, and a time.
fn put_place(
    alloc: Global,
    text: &mut Vec<u8>,
    names: &NetNames,
    id: NodeId,
    time: Time,
) -> Result<(), AllocError>
    requires { id.0 < length names.now.own }
    ensures { IfOk result (λ _. text.new.items
        ≡ text.old.items ++ fails_line names.now.own (Some (id, time))) }
{
    text.extend_from_slice(b"  fails: ")?;
    put_name(text, names, id)?;
    text.extend_from_slice(b" at ")?;
    put_number(alloc, text, time)?;
    text.push(b'\n')?;
    Ok(())
}

/// Puts the line of the failing place behind a text, where there is one.
pub fn put_fails(
    alloc: Global,
    text: &mut Vec<u8>,
    names: &NetNames,
    fails: Option<(NodeId, Time)>,
) -> Result<(), AllocError>
    requires { IfSome fails (λ place. place.0.0 < length names.now.own) }
    ensures { IfOk result (λ _. text.new.items
        ≡ text.old.items ++ fails_line names.now.own fails) }
{
    match fails {
        Some((id, time)) => put_place(alloc, text, names, id, time),
        None => Ok(()),
    }
}
