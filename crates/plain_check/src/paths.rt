//! The path that a failure of a graph shows: the least of the shortest; begin with `shortest_path`.

ghost use Rattle.std.specs.Prelude.{◌≡◌, ◌<◌, ◌*◌, ◌+◌, ◌∷◌, [], ℕ, length, All, IfOk, position, slice_index_or};
ghost use Rattle.plain_check.specs.declared.found.Failure.{Failure as How};
ghost use Rattle.plain_check.specs.private.Hops.{AreBest, IsBest, IsSearched, IsShortest, ends_so, leads};

use crate::found::Failure;
use crate::hops::Hop;
use std::alloc::{AllocError, Global};
use ste_base::Items;

/// The route of a vertex; none for a vertex that the list lacks.
fn route_at(best: &[Items<usize>], vertex: u32) -> &[usize]
    ensures { result.now ≡ slice_index_or best.now vertex [] }
{
    match best.get(vertex as usize) {
        Some(route) => route.as_slice(),
        None => &[],
    }
}

/// Whether a hop is from the vertex and fails so.
fn ends_so(hop: &Hop, failure: Failure, vertex: usize) -> bool
    ensures { result ≡ ends_so failure vertex hop.now }
{
    hop.from as usize == vertex && hop.fails(failure)
}

/// The number of the first hop that is from the vertex and fails so.
fn first_ending(failure: Failure, hops: &[Hop], vertex: usize) -> Option<usize>
    ensures { result ≡ position (ends_so failure vertex) hops.now }
{
    hops.iter().position(|hop| ends_so(hop, failure, vertex))
}

/// Whether a hop is from the vertex, feasible, and leads to a vertex with a route.
fn leads(hop: &Hop, best: &[Items<usize>], vertex: usize) -> bool
    ensures { result ≡ leads best.now vertex hop.now }
{
    hop.from as usize == vertex && hop.feasible && 0 < route_at(best, hop.to).len()
}

/// The number of the first hop that leads so from the vertex.
fn first_leading(hops: &[Hop], best: &[Items<usize>], vertex: usize) -> Option<usize>
    ensures { result ≡ position (leads best.now vertex) hops.now }
{
    hops.iter().position(|hop| leads(hop, best, vertex))
}

/// A list with one number more, the first.
fn with_first(alloc: Global, number: usize, rest: &[usize]) -> Result<Items<usize>, AllocError>
    ensures { IfOk result (λ list. list ≡ number ∷ rest.now) }
{
    let mut list = Vec::new(alloc);
    list.push(number)?;
    list.extend_from_slice(rest)?;
    Ok(Items::from(list))
}

/// The least route of one hop from a vertex.
fn last_hop(
    alloc: Global,
    failure: Failure,
    hops: &[Hop],
    vertex: usize,
) -> Result<Items<usize>, AllocError>
    ensures { IfOk result (λ route. IsBest failure hops.now 1 vertex route) }
{
    match first_ending(failure, hops, vertex) {
        Some(number) => with_first(alloc, number, &[]),
        None => Ok(Items::new(alloc)),
    }
}

/// The least route of one hop more from a vertex. The first hop with the least number is the first
/// that leads.
fn one_hop_more(
    alloc: Global,
    hops: &[Hop],
    best: &[Items<usize>],
    vertex: usize,
) -> Result<Items<usize>, AllocError>
    requires ends { All (λ hop. hop.to < length best.now) hops.now }
    ensures { IfOk result (λ route. (how : How) (n : ℕ) → 0 < n → AreBest how hops.now n best.now →
        IsBest how hops.now (n + 1) vertex route) }
{
    match first_leading(hops, best, vertex) {
        Some(number) => with_first(alloc, number, route_at(best, hops[number].to)),
        None => Ok(Items::new(alloc)),
    }
}

/// The least route of one hop from each vertex.
fn last_hops(
    alloc: Global,
    failure: Failure,
    hops: &[Hop],
    vertices: usize,
) -> Result<Vec<Items<usize>>, AllocError>
    ensures long { IfOk result (λ best. length best.items ≡ vertices) }
    ensures best { IfOk result (λ best. AreBest failure hops.now 1 best.items) }
{
    let mut best = Vec::new(alloc);
    for vertex in 0..vertices {
        best.push(last_hop(alloc, failure, hops, vertex)?)?;
    }
    Ok(best)
}

/// The least route of one hop more from each vertex.
fn all_one_more(
    alloc: Global,
    hops: &[Hop],
    best: &[Items<usize>],
) -> Result<Vec<Items<usize>>, AllocError>
    requires ends { All (λ hop. hop.to < length best.now) hops.now }
    ensures long { IfOk result (λ more. length more.items ≡ length best.now) }
    ensures best { IfOk result (λ more. (how : How) (n : ℕ) → 0 < n →
        AreBest how hops.now n best.now →
        AreBest how hops.now (n + 1) more.items) }
{
    let mut more = Vec::new(alloc);
    for vertex in 0..best.len() {
        more.push(one_hop_more(alloc, hops, best, vertex)?)?;
    }
    Ok(more)
}

/// One step of the search: vertex 0 has a route, or routes of one hop more are looked at.
fn search_on(
    alloc: Global,
    hops: &[Hop],
    best: Vec<Items<usize>>,
) -> Result<Vec<Items<usize>>, AllocError>
    requires some { 0 < length best.items }
    requires ends { All (λ hop. hop.to < length best.items) hops.now }
    ensures long { IfOk result (λ more. length more.items ≡ length best.items) }
    ensures searched { IfOk result (λ more. (how : How) (n : ℕ) →
        IsSearched how hops.now n best.items →
        IsSearched how hops.now (n + 1) more.items) }
{
    if 0 < best[0].len() {
        return Ok(best);
    }
    all_one_more(alloc, hops, &best)
}

/// The shortest route from vertex 0 that ends where some consequent fails so, and among those the
/// least list of numbers. There is none in the answer where each has more hops than are looked at.
pub fn shortest_path(
    alloc: Global,
    failure: Failure,
    hops: &[Hop],
    vertices: usize,
    latches: usize,
) -> Result<Items<usize>, AllocError>
    requires some { 0 < vertices }
    requires few { latches * 2 + 1 < 18446744073709551616 }
    requires ends { All (λ hop. hop.to < vertices) hops.now }
    ensures { IfOk result (λ path.
        IsShortest failure hops.now (vertices * (latches * 2 + 1) + 1) path) }
{
    let mut best = last_hops(alloc, failure, hops, vertices)?;
    for _ in 0..vertices {
        for _ in 0..latches * 2 + 1 {
            best = search_on(alloc, hops, best)?;
        }
    }
    Ok(Items::from(best[0].as_slice().to_vec(alloc)?))
}
