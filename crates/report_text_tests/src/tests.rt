//! Reports with their texts, in tables; begin with `texts_of_assertions`.

ghost use Rattle.std.specs.Prelude.{◌≡◌, ◌≤◌, ◌<◌, IfOk, IfSome, OnOk, length};

use crate::netlists::{Names, names_of};
use crate::reported::{report_of, reports_of, tasks_of};
use crate::table::{ASSERTIONS, Entry, NETS_AND_TASKS, Named, PATHS_AND_LISTS, Reported};
use report_text::render;
use std::alloc::{AllocError, Global};
use std::test::Fail;
use ste_base::{Items, Name, VarId};
use ste_model::{Cube, Report, Tasks, Verdict};

/// The names of the nets of a netlist.
fn names_in(alloc: Global, netlist: &str) -> Result<Names, Fail> {
    let bytes = netlist.as_bytes();
    if bytes.len() > 20000 {
        return Err("a long text".into());
    }
    names_of(alloc, bytes)
}

/// The text of the reports of tasks.
fn text_of_tasks(
    alloc: Global,
    names: &Names,
    tasks: &Tasks,
    reported: &[Reported],
    wave: bool,
    nodes: Option<u32>,
) -> Result<Vec<u8>, Fail> {
    let reports = reports_of(alloc, names.nets, reported)?;
    Ok(render(alloc, &names.own, tasks, reports.as_slice(), wave, nodes)?)
}

/// The text of the reports of an entry over the nets of its netlist.
fn text_of_entry(alloc: Global, names: &Names, entry: &Entry) -> Result<Vec<u8>, Fail> {
    let tasks = tasks_of(alloc, entry.vars, entry.tasks)?;
    text_of_tasks(alloc, names, &tasks, entry.tasks, entry.wave, entry.nodes)
}

/// The text of the reports of an entry.
fn text_of(alloc: Global, entry: &Entry) -> Result<Vec<u8>, Fail> {
    let names = names_in(alloc, entry.netlist)?;
    text_of_entry(alloc, &names, entry)
}

#[test]
fn texts_of_assertions(rt: HostRuntime) -> Result<(), Fail> {
    for entry in ASSERTIONS {
        let text = text_of(rt.alloc(), entry)?;
        assert_eq!(rt; text.as_slice(), entry.text.as_bytes());
    }
    Ok(())
}

#[test]
fn texts_of_paths_and_lists(rt: HostRuntime) -> Result<(), Fail> {
    for entry in PATHS_AND_LISTS {
        let text = text_of(rt.alloc(), entry)?;
        assert_eq!(rt; text.as_slice(), entry.text.as_bytes());
    }
    Ok(())
}

#[test]
fn texts_of_nets_and_tasks(rt: HostRuntime) -> Result<(), Fail> {
    for entry in NETS_AND_TASKS {
        let text = text_of(rt.alloc(), entry)?;
        assert_eq!(rt; text.as_slice(), entry.text.as_bytes());
    }
    Ok(())
}

const ONE_NET: &str = ".model m\n.inputs d\n.end\n";

/// A failure of which contracts know nothing but its place.
const FAILURE: Reported = Reported {
    name: "f",
    named: Named::Ste(&[], &[0]),
    verdict: Verdict::Strong,
    lists: ((&[], false), (&[], false), (&[], false)),
    least: None,
    path: &[],
    fails: Some((0, 0)),
    run: None,
};

/// The text of reports of some tasks over others, and over the nets with these names.
fn text_with(
    alloc: Global,
    names: &Names,
    tasks: &[Reported],
    reports: &[Reported],
) -> Result<Vec<u8>, Fail> {
    let tasks = tasks_of(alloc, &[], tasks)?;
    text_of_tasks(alloc, names, &tasks, reports, false, Some(1))
}

/// The same over one net.
fn text_over(alloc: Global, tasks: &[Reported], reports: &[Reported]) -> Result<Vec<u8>, Fail> {
    let names = names_in(alloc, ONE_NET)?;
    text_with(alloc, &names, tasks, reports)
}

const LINES: &[u8] = b"f: strong failure\n  fails: d at 0\nshared nodes: 1\n";

#[test]
fn more_tasks_than_reports(rt: HostRuntime) -> Result<(), Fail> {
    let text = text_over(rt.alloc(), &[FAILURE, FAILURE], &[FAILURE])?;
    assert_eq!(rt; text.as_slice(), LINES);
    Ok(())
}

#[test]
fn more_reports_than_tasks(rt: HostRuntime) -> Result<(), Fail> {
    let text = text_over(rt.alloc(), &[FAILURE], &[FAILURE, FAILURE])?;
    assert_eq!(rt; text.as_slice(), LINES);
    Ok(())
}

/// A thousand variables, a and b in turn.
fn many_names(alloc: Global) -> Result<Items<Name>, AllocError> {
    let mut names = Items::new(alloc);
    for _ in 0u32..500 {
        names.push(Name::from_bytes(alloc, b"a")?)?;
        names.push(Name::from_bytes(alloc, b"b")?)?;
    }
    Ok(names)
}

/// The cube of a thousand variables with the bits 0 and 1 in turn.
fn many_literals(alloc: Global) -> Result<Cube, AllocError> {
    let mut cube = Items::new(alloc);
    for k in 0u32..1000 {
        cube.push((VarId(k), k % 2 == 1))?;
    }
    Ok(cube)
}

/// A thousand bits, 0 and 1 in turn.
fn many_bits(alloc: Global) -> Result<Items<bool>, AllocError> {
    let mut bits = Items::new(alloc);
    for k in 0u32..1000 {
        bits.push(k % 2 == 1)?;
    }
    Ok(bits)
}

/// Makes a report of those bits, and of more.
fn widen(alloc: Global, report: &mut Report) -> Result<(), AllocError>
    ensures fails { OnOk result (report.new.fails ≡ report.old.fails) }
    ensures run { OnOk result (report.new.run ≡ report.old.run) }
{
    report.guards.strong.cubes.push(many_literals(alloc)?)?;
    report.guards.strong.more = true;
    report.least = Some(many_bits(alloc)?);
    Ok(())
}

/// A failure over so many nets, under those bits and more.
fn wide_failure(alloc: Global, nets: u32) -> Result<Report, Fail>
    ensures fails { IfOk result (λ report. IfSome report.fails (λ place. place.0.0 < nets)) }
    ensures rows { IfOk result (λ report. IfSome report.run (λ run. length run.rows ≤ nets)) }
{
    let mut report = report_of(alloc, nets, &FAILURE)?;
    widen(alloc, &mut report)?;
    Ok(report)
}

/// The task of that failure over a thousand variables.
fn wide_tasks(alloc: Global) -> Result<Tasks, AllocError> {
    let mut tasks = tasks_of(alloc, &[], &[FAILURE])?;
    tasks.vars = many_names(alloc)?;
    Ok(tasks)
}

/// The text of the report of that failure.
fn text_of_wide(alloc: Global, names: &Names, tasks: &Tasks) -> Result<Vec<u8>, Fail> {
    let report = wide_failure(alloc, names.nets)?;
    Ok(render(alloc, &names.own, tasks, &[report], false, None)?)
}

/// The same over one net.
fn text_of_wide_failure(alloc: Global) -> Result<Vec<u8>, Fail> {
    let names = names_in(alloc, ONE_NET)?;
    let tasks = wide_tasks(alloc)?;
    text_of_wide(alloc, &names, &tasks)
}

/// What it is to be.
fn wide_text(alloc: Global) -> Result<Vec<u8>, AllocError> {
    let cube = b" & !a & b".repeat(alloc, 499)?;
    let least = b" a=0 b=1".repeat(alloc, 500)?;
    let mut text = b"f: strong failure\n  strong: !a & b".to_vec(alloc)?;
    text.extend_from_slice(&cube)?;
    text.extend_from_slice(b" | ...\n  least:")?;
    text.extend_from_slice(&least)?;
    text.extend_from_slice(b"\n  fails: d at 0\n")?;
    Ok(text)
}

#[test]
fn a_failure_over_a_thousand_variables(rt: HostRuntime) -> Result<(), Fail> {
    let text = text_of_wide_failure(rt.alloc())?;
    let expected = wide_text(rt.alloc())?;
    assert_eq!(rt; text.as_slice(), expected.as_slice());
    Ok(())
}
