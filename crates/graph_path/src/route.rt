//! The least route to a failure, by the numbers of its hops; begin with `path_of`.

ghost use Rattle.std.specs.Prelude.{◌≡◌, ◌≤◌, ℕ, length, IfOk, IfSome, None};
ghost use Rattle.graph_path.specs.Routes.{IsPathOf, LeadToVertices};
ghost use Rattle.graph_path.specs.private.Distances.{AreDistances, AreNear, IsBeginning, IsFirstBeginning};

use crate::distances::{distances, may_begin};
use crate::hop::Hop;
use std::alloc::{AllocError, Global};
use ste_base::Items;

/// The number of the first hop from a vertex that a route with so many hops behind may begin with.
fn first_beginning(hops: &[Hop], far: &[Option<u32>], vertex: u32, left: u32) -> Option<usize>
    requires ends { LeadToVertices (length far.now) hops.now }
    ensures some { IfSome result (λ n. IsFirstBeginning hops.now far.now vertex left n) }
    ensures none { result ≡ None → (n : ℕ) → ¬ IsBeginning hops.now far.now vertex left n }
{
    for k in 0..hops.len() {
        let hop = hops[k];
        if hop.from == vertex && may_begin(hop, far, left) {
            return Some(k);
        }
    }
    None
}

/// The least route from vertex 0. At each vertex it takes the least hop number of those that lead
/// one nearer.
fn least_route(
    alloc: Global,
    hops: &[Hop],
    far: &[Option<u32>],
) -> Result<Option<Items<u32>>, AllocError>
    requires ends { LeadToVertices (length far.now) hops.now }
    requires few { length hops.now ≤ 4294967296 }
    requires distances { AreDistances hops.now far.now }
    requires near { AreNear (length far.now) far.now }
    ensures path { IfOk result (λ path. IsPathOf hops.now path) }
    ensures short { IfOk result (λ path.
        IfSome path (λ numbers. length numbers ≤ length far.now)) }
{
    if far.is_empty() {
        return Ok(None);
    }
    let Some(fewest) = far[0] else {
        return Ok(None);
    };
    let mut path = Items::new(alloc);
    let mut vertex = 0;
    let mut left = fewest;
    loop {
        let Some(n) = first_beginning(hops, far, vertex, left) else {
            unreachable!();
        };
        path.push(n as u32)?;
        if left == 0 {
            return Ok(Some(path));
        }
        vertex = hops[n].to;
        left -= 1;
    }
}

/// The path that a failure shows, by the numbers of its edges: along feasible hops from vertex 0 to
/// one that fails, with the fewest hops, and among those the least list of numbers. `None` exactly
/// where there is no such path. It has no more hops than there are vertices. There is a hop for
/// each edge, in order. The only error is out of memory.
///
/// It takes a turn for each level and hop, at most `vertices * hops.len()` of them, and as many for
/// the path.
pub fn path_of(alloc: Global, vertices: u32, hops: &[Hop]) -> Result<Option<Items<u32>>, AllocError>
    requires ends { LeadToVertices vertices hops.now }
    requires few { length hops.now ≤ 4294967296 }
    ensures path { IfOk result (λ path. IsPathOf hops.now path) }
    ensures short { IfOk result (λ path. IfSome path (λ numbers. length numbers ≤ vertices)) }
{
    let far = distances(alloc, vertices, hops)?;
    least_route(alloc, hops, far.as_slice())
}
