//! Tasks and reports as the table gives them; begin with `tasks_of` and `reports_of`.

ghost use Rattle.std.specs.Prelude.{◌≡◌, ◌≤◌, ◌<◌, All, IfOk, IfSome, length};

use crate::table::{List, Named, Reported};
use bool_expr::Expr;
use std::alloc::{AllocError, Global};
use std::test::Fail;
use ste_base::{Items, Name, NodeId, Time, VarId};
use ste_model::{
    Assertion, Bind, Cube, CubeList, Edge, Graph, Guards, Quint, Report, Run, Task, Tasks,
};

/// Quintuples that name these nets.
fn quints_of(alloc: Global, ids: &[u32]) -> Result<Items<Quint>, AllocError> {
    let mut quints = Items::new(alloc);
    for id in ids {
        quints.push(Quint {
            guard: Expr::Const(true),
            node: NodeId(*id),
            value: Expr::Const(false),
            from: 0,
            to: 1,
        })?;
    }
    Ok(quints)
}

/// Bindings that name these nets.
fn binds_of(alloc: Global, ids: &[u32]) -> Result<Items<Bind>, AllocError> {
    let mut binds = Items::new(alloc);
    for id in ids {
        binds.push(Bind {
            guard: Expr::Const(true),
            node: NodeId(*id),
            value: Expr::Const(false),
        })?;
    }
    Ok(binds)
}

/// Edges with bindings that name these nets.
fn edges_of(
    alloc: Global,
    sides: &[(&'static [u32], &'static [u32])],
) -> Result<Items<Edge>, AllocError> {
    let mut edges = Items::new(alloc);
    for (ant, con) in sides {
        edges.push(Edge {
            from: 0,
            to: 0,
            ant: binds_of(alloc, *ant)?,
            con: binds_of(alloc, *con)?,
            weak: Items::new(alloc),
        })?;
    }
    Ok(edges)
}

/// A task that names these nets.
fn task_of(alloc: Global, reported: &Reported) -> Result<Task, AllocError> {
    let name = Name::from_bytes(alloc, reported.name.as_bytes())?;
    match reported.named {
        Named::Ste(ant, con) => Ok(Task::Ste(Assertion {
            name,
            reset: false,
            ant: quints_of(alloc, ant)?,
            con: quints_of(alloc, con)?,
            weak: Items::new(alloc),
        })),
        Named::Gste(sides) => Ok(Task::Gste(Graph {
            name,
            reset: false,
            vertices: Items::new(alloc),
            edges: edges_of(alloc, sides)?,
        })),
    }
}

/// The names of these texts.
fn names_of(alloc: Global, texts: &[&str]) -> Result<Items<Name>, AllocError> {
    let mut names = Items::new(alloc);
    for text in texts {
        names.push(Name::from_bytes(alloc, text.as_bytes())?)?;
    }
    Ok(names)
}

/// The tasks, over these variables.
pub fn tasks_of(alloc: Global, vars: &[&str], reported: &[Reported]) -> Result<Tasks, AllocError> {
    let mut tasks = Items::new(alloc);
    for one in reported {
        tasks.push(task_of(alloc, one)?)?;
    }
    Ok(Tasks {
        vars: names_of(alloc, vars)?,
        tasks,
    })
}

/// The bits of a text.
fn bits_of(alloc: Global, text: &str) -> Result<Items<bool>, AllocError> {
    let mut bits = Items::new(alloc);
    for byte in text.as_bytes() {
        bits.push(*byte == b'1')?;
    }
    Ok(bits)
}

/// The cube of a text.
fn cube_of(alloc: Global, text: &str) -> Result<Cube, AllocError> {
    let mut cube = Items::new(alloc);
    let mut var = 0u32;
    for byte in text.as_bytes() {
        if *byte != b'-' {
            cube.push((VarId(var), *byte == b'1'))?;
        }
        var = var.wrapping_add(1);
    }
    Ok(cube)
}

/// The cubes of a list.
fn list_of(alloc: Global, list: &List) -> Result<CubeList, AllocError> {
    let mut cubes = Items::new(alloc);
    for text in list.0 {
        cubes.push(cube_of(alloc, *text)?)?;
    }
    Ok(CubeList {
        cubes,
        more: list.1,
    })
}

/// A run of these rows, which are at most so many.
fn run_of(alloc: Global, nets: u32, texts: &[&str]) -> Result<Run, Fail>
    ensures { IfOk result (λ run. length run.rows ≤ nets) }
{
    let mut rows = Items::new(alloc);
    for text in texts {
        rows.push(bits_of(alloc, *text)?)?;
    }
    if rows.len() > nets as usize {
        return Err("more rows than nets".into());
    }
    Ok(Run { length: 0, rows })
}

/// The run that is reported, if one is.
fn reported_run(
    alloc: Global,
    nets: u32,
    texts: Option<&'static [&'static str]>,
) -> Result<Option<Run>, Fail>
    ensures { IfOk result (λ reported. IfSome reported (λ run. length run.rows ≤ nets)) }
{
    match texts {
        Some(rows) => {
            let run = run_of(alloc, nets, rows)?;
            Ok(Some(run))
        }
        None => Ok(None),
    }
}

/// The failing place that is reported, if one is.
fn reported_place(nets: u32, place: Option<(u32, u32)>) -> Result<Option<(NodeId, Time)>, Fail>
    ensures { IfOk result (λ reported. IfSome reported (λ place. place.0.0 < nets)) }
{
    let Some((id, time)) = place else {
        return Ok(None);
    };
    if id < nets {
        Ok(Some((NodeId(id), time)))
    } else {
        Err("no net".into())
    }
}

/// The least assignment that is reported, if one is.
fn reported_least(
    alloc: Global,
    least: Option<&'static str>,
) -> Result<Option<Items<bool>>, AllocError> {
    match least {
        Some(text) => {
            let bits = bits_of(alloc, text)?;
            Ok(Some(bits))
        }
        None => Ok(None),
    }
}

/// The lists of a report.
fn guards_of(alloc: Global, lists: &(List, List, List)) -> Result<Guards, AllocError> {
    Ok(Guards {
        strong: list_of(alloc, &lists.0)?,
        weak: list_of(alloc, &lists.1)?,
        contradictory: list_of(alloc, &lists.2)?,
    })
}

/// The numbers of a path.
fn path_of(alloc: Global, numbers: &[u32]) -> Result<Items<u32>, AllocError> {
    let mut path = Items::new(alloc);
    for number in numbers {
        path.push(*number)?;
    }
    Ok(path)
}

/// The report of a task over so many nets.
pub fn report_of(alloc: Global, nets: u32, reported: &Reported) -> Result<Report, Fail>
    ensures fails { IfOk result (λ report. IfSome report.fails (λ place. place.0.0 < nets)) }
    ensures rows { IfOk result (λ report. IfSome report.run (λ run. length run.rows ≤ nets)) }
{
    Ok(Report {
        fails: reported_place(nets, reported.fails)?,
        name: Name::from_bytes(alloc, reported.name.as_bytes())?,
        verdict: reported.verdict,
        guards: guards_of(alloc, &reported.lists)?,
        least: reported_least(alloc, reported.least)?,
        path: path_of(alloc, reported.path)?,
        run: reported_run(alloc, nets, reported.run)?,
    })
}

/// The reports of tasks over so many nets.
pub fn reports_of(alloc: Global, nets: u32, reported: &[Reported]) -> Result<Items<Report>, Fail>
    ensures fails { IfOk result (λ reports.
        All (λ report. IfSome report.fails (λ place. place.0.0 < nets)) reports) }
    ensures rows { IfOk result (λ reports.
        All (λ report. IfSome report.run (λ run. length run.rows ≤ nets)) reports) }
{
    let mut reports = Items::new(alloc);
    for one in reported {
        let report = report_of(alloc, nets, one)?;
        reports.push(report)?;
    }
    Ok(reports)
}
