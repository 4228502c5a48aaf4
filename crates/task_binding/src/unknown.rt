//! The first node that names no net; begin with `first_unknown`.

ghost use Rattle.std.specs.Prelude.{◌∷◌, ◌++◌, [], map, IfOk};
ghost use Rattle.std.specs.List.{flat_map};
ghost use Rattle.task_binding.specs.Mentions.{quint_mention, bind_mention, edge_mentions, task_mentions, mentions_of};
ghost use Rattle.task_binding.specs.Mentions.{weak_mention, mark_mention};
ghost use Rattle.task_binding.specs.private.Leading.{GoesOn, Leads};

use assert_syntax::tasks::{RawBind, RawEdge, RawMark, RawQuint, RawTask, RawWeak};
use net_core::Resolve;
use std::alloc::AllocError;
use ste_base::{Items, Name};

/// The node of a clause or of a weakening, by name, and the number of its line.
#[derive(Drop)]
pub struct Mention {
    pub line: u32,
    pub node: Name,
}

/// What is found, where this node on this line is looked at too.
#[tactic(auto, using(crate::proofs::Leading::known_on, crate::proofs::Leading::later_on, crate::proofs::Leading::earlier_here, crate::proofs::Leading::first_here))]
fn with_mention<N: Resolve>(
    names: &N,
    found: Option<Mention>,
    line: u32,
    node: &Name,
) -> Result<Option<Mention>, AllocError>
    ensures { IfOk result (λ next. GoesOn (N.net_of names.now)
        (record { line = line; node = node.now } ∷ []) found next) }
{
    if names.resolve(node.bytes()).is_some() {
        return Ok(found);
    }
    if let Some(mention) = found
        && mention.line <= line
    {
        return Ok(Some(mention));
    }
    Ok(Some(Mention {
        line,
        node: node.clone()?,
    }))
}

/// What is found, where the nodes of these quintuples are looked at too.
fn in_quints<N: Resolve>(
    names: &N,
    found: Option<Mention>,
    quints: &[RawQuint],
) -> Result<Option<Mention>, AllocError>
    ensures { IfOk result (λ next. GoesOn (N.net_of names.now)
        (map quint_mention quints.now) found next) }
{
    let mut found = found;
    for quint in quints {
        found = with_mention(names, found, quint.line, &quint.node)?;
    }
    Ok(found)
}

/// What is found, where the nodes of these bindings are looked at too.
fn in_binds<N: Resolve>(
    names: &N,
    found: Option<Mention>,
    binds: &[RawBind],
) -> Result<Option<Mention>, AllocError>
    ensures { IfOk result (λ next. GoesOn (N.net_of names.now)
        (map bind_mention binds.now) found next) }
{
    let mut found = found;
    for bind in binds {
        found = with_mention(names, found, bind.line, &bind.node)?;
    }
    Ok(found)
}

/// What is found, where the nodes of these weakenings are looked at too.
fn in_weaks<N: Resolve>(
    names: &N,
    found: Option<Mention>,
    weaks: &[RawWeak],
) -> Result<Option<Mention>, AllocError>
    ensures { IfOk result (λ next. GoesOn (N.net_of names.now)
        (map weak_mention weaks.now) found next) }
{
    let mut found = found;
    for weak in weaks {
        found = with_mention(names, found, weak.line, &weak.node)?;
    }
    Ok(found)
}

/// What is found, where the nodes that an edge weakens are looked at too.
fn in_marks<N: Resolve>(
    names: &N,
    found: Option<Mention>,
    marks: &[RawMark],
) -> Result<Option<Mention>, AllocError>
    ensures { IfOk result (λ next. GoesOn (N.net_of names.now)
        (map mark_mention marks.now) found next) }
{
    let mut found = found;
    for mark in marks {
        found = with_mention(names, found, mark.line, &mark.node)?;
    }
    Ok(found)
}

/// What is found, where the nodes of an edge are looked at too.
fn in_edge<N: Resolve>(
    names: &N,
    found: Option<Mention>,
    edge: &RawEdge,
) -> Result<Option<Mention>, AllocError>
    ensures { IfOk result (λ next. GoesOn (N.net_of names.now)
        (edge_mentions edge.now) found next) }
{
    let found = in_binds(names, found, edge.ant.as_slice())?;
    let found = in_binds(names, found, edge.con.as_slice())?;
    in_marks(names, found, edge.weak.as_slice())
}

/// What is found, where the nodes of these edges are looked at too.
fn in_edges<N: Resolve>(
    names: &N,
    found: Option<Mention>,
    edges: &[RawEdge],
) -> Result<Option<Mention>, AllocError>
    ensures { IfOk result (λ next. GoesOn (N.net_of names.now)
        (flat_map edge_mentions edges.now) found next) }
{
    let mut found = found;
    for edge in edges {
        found = in_edge(names, found, edge)?;
    }
    Ok(found)
}

/// What is found, where the nodes of an assertion are looked at too.
fn in_assertion<N: Resolve>(
    names: &N,
    found: Option<Mention>,
    ant: &[RawQuint],
    con: &[RawQuint],
    weak: &[RawWeak],
) -> Result<Option<Mention>, AllocError>
    ensures { IfOk result (λ next. GoesOn (N.net_of names.now)
        (map quint_mention ant.now ++ (map quint_mention con.now ++ map weak_mention weak.now))
        found next) }
{
    let found = in_quints(names, found, ant)?;
    let found = in_quints(names, found, con)?;
    in_weaks(names, found, weak)
}

/// What is found, where the nodes of a task are looked at too.
fn in_task<N: Resolve>(
    names: &N,
    found: Option<Mention>,
    task: &RawTask,
) -> Result<Option<Mention>, AllocError>
    ensures { IfOk result (λ next. GoesOn (N.net_of names.now)
        (task_mentions task.now) found next) }
{
    match task {
        RawTask::Ste { ant, con, weak, .. } => in_assertion(
            names,
            found,
            ant.as_slice(),
            con.as_slice(),
            weak.as_slice(),
        ),
        RawTask::Gste { edges, .. } => in_edges(names, found, edges.as_slice()),
    }
}

/// The first node that names no net, by the numbers of the lines; None where each names one.
pub fn first_unknown<N: Resolve>(
    names: &N,
    tasks: &[RawTask],
) -> Result<Option<Mention>, AllocError>
    ensures { IfOk result (λ found. Leads (N.net_of names.now) (mentions_of tasks.now) found) }
{
    let mut found = None;
    for task in tasks {
        found = in_task(names, found, task)?;
    }
    Ok(found)
}
