//! The edges at each vertex, in ascending order; begin with `links_of`.

ghost use Rattle.std.specs.Prelude.{◌≡◌, ◌<◌, All, IfOk, length};
ghost use Rattle.gste_engine.specs.private.Links.{AreLinks, HasNone, end_of};

use std::alloc::{AllocError, Global};
use ste_model::Edge;

/// An end of an edge.
#[derive(Clone, Copy, PartialEq, Eq, Drop)]
pub enum End {
    From,
    To,
}

/// The vertex at this end of an edge.
fn vertex_at(edge: &Edge, end: End) -> usize
    ensures { result ≡ end_of end edge.now }
{
    match end {
        End::From => edge.from as usize,
        End::To => edge.to as usize,
    }
}

/// For each vertex the first edge that has it at one end, and for each edge the next one with the
/// same vertex there. The number of edges stands for none.
#[derive(Drop)]
pub struct Links {
    pub first: Vec<usize>,
    pub next: Vec<usize>,
}

/// No edge at any vertex, and none behind any edge.
fn no_links(alloc: Global, vertices: usize, edges: usize) -> Result<Links, AllocError>
    ensures { IfOk result (λ links. HasNone vertices edges links) }
{
    let first = vec![in alloc; edges; vertices]?;
    let next = vec![in alloc; edges; edges]?;
    Ok(Links { first, next })
}

/// The edges at each of so many vertices, by the vertex at this end.
pub fn links_of(
    alloc: Global,
    vertices: usize,
    edges: &[Edge],
    end: End,
) -> Result<Links, AllocError>
    requires { All (λ edge. end_of end edge < vertices) edges.now }
    ensures { IfOk result (λ links. AreLinks end vertices edges.now links) }
{
    let mut links = no_links(alloc, vertices, edges.len())?;
    for i in 0..edges.len() {
        let k = edges.len() - 1 - i;
        let vertex = vertex_at(&edges[k], end);
        links.next[k] = links.first[vertex];
        links.first[vertex] = k;
    }
    Ok(links)
}
