//! The printed run: a line for each shown net; begin with `put_run`.

ghost use Rattle.std.specs.Prelude.{◌≡◌, ◌≤◌, ◌<◌, ◌++◌, [], false, IfOk, IfSome, Some, flat_map, length, slice_index_or, zip};
ghost use Rattle.std.specs.List.{enumerate_from};
ghost use Rattle.report_text.specs.Text.{net_line, run_text};
ghost use Rattle.report_text.specs.private.Marks.{marked_line};

use crate::marks::shown_nets;
use crate::pieces::put_codes;
use net_names::NetNames;
use std::alloc::{AllocError, Global};
use ste_base::{Items, NodeId};
use ste_model::{Run, Task};

/// Puts the line of a net in a run behind a text.
fn put_net(text: &mut Vec<u8>, name: &[u8], bits: &[bool]) -> Result<(), AllocError>
    ensures { IfOk result (λ _. text.new.items
        ≡ text.old.items ++ net_line (name.now, bits.now)) }
{
    text.extend_from_slice(b"    ")?;
    text.extend_from_slice(name)?;
    text.extend_from_slice(b": ")?;
    put_codes(text, bits)?;
    text.push(b'\n')?;
    Ok(())
}

/// Puts the line of the net with this number behind a text. More nets than there are numbers of
/// nets would not fit into memory.
fn put_numbered(
    text: &mut Vec<u8>,
    names: &NetNames,
    place: usize,
    bits: &[bool],
) -> Result<(), AllocError>
    requires { place < length names.now.own }
    ensures { IfOk result (λ _. text.new.items ≡ text.old.items
        ++ net_line (slice_index_or names.now.own place [], bits.now)) }
{
    let Ok(number) = u32::try_from(place) else {
        return Err(AllocError);
    };
    put_net(text, names.name(NodeId(number)).bytes(), bits)
}

/// Whether the net with this number is marked.
fn is_marked(marks: &[bool], place: usize) -> bool
    ensures { result ≡ slice_index_or marks.now place false }
{
    match marks.get(place) {
        Some(mark) => *mark,
        None => false,
    }
}

/// Puts the line of the net with this number behind a text, where it is marked.
fn put_marked(
    text: &mut Vec<u8>,
    names: &NetNames,
    marks: &[bool],
    place: usize,
    bits: &[bool],
) -> Result<(), AllocError>
    requires { place < length names.now.own }
    ensures { IfOk result (λ _. text.new.items ≡ text.old.items
        ++ marked_line marks.now (place, (slice_index_or names.now.own place [], bits.now))) }
{
    if is_marked(marks, place) {
        put_numbered(text, names, place, bits)?;
    }
    Ok(())
}

/// Puts the lines of the marked nets behind a text.
fn put_rows(
    text: &mut Vec<u8>,
    names: &NetNames,
    marks: &[bool],
    rows: &[Items<bool>],
) -> Result<(), AllocError>
    requires { length rows.now ≤ length names.now.own }
    ensures { IfOk result (λ _. text.new.items ≡ text.old.items
        ++ flat_map (marked_line marks.now) (enumerate_from 0 (zip names.now.own rows.now))) }
{
    for (place, row) in rows.iter().enumerate() {
        put_marked(text, names, marks, place, row.as_slice())?;
    }
    Ok(())
}

/// Puts the lines of a run of a task behind a text.
fn put_lines(
    alloc: Global,
    text: &mut Vec<u8>,
    names: &NetNames,
    wave: bool,
    task: &Task,
    run: &Run,
) -> Result<(), AllocError>
    requires { length run.now.rows ≤ length names.now.own }
    ensures { IfOk result (λ _. text.new.items
        ≡ text.old.items ++ run_text names.now.own wave task.now (Some run.now)) }
{
    let rows = run.rows.as_slice();
    let marks = shown_nets(alloc, wave, task, rows.len())?;
    text.extend_from_slice(b"  run:\n")?;
    put_rows(text, names, &marks, rows)?;
    Ok(())
}

/// Puts the lines of the run of a task behind a text, where there is one: of the nets that the task
/// names, with `wave` of all nets.
pub fn put_run(
    alloc: Global,
    text: &mut Vec<u8>,
    names: &NetNames,
    wave: bool,
    task: &Task,
    run: &Option<Run>,
) -> Result<(), AllocError>
    requires { IfSome run.now (λ run. length run.rows ≤ length names.now.own) }
    ensures { IfOk result (λ _. text.new.items
        ≡ text.old.items ++ run_text names.now.own wave task.now run.now) }
{
    match run {
        Some(run) => put_lines(alloc, text, names, wave, task, run),
        None => Ok(()),
    }
}
