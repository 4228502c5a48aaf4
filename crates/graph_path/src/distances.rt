//! How far each vertex is from a failure; begin with `distances`.

ghost use Rattle.std.specs.Prelude.{◌≡◌, ◌≢◌, ◌<◌, ◌+◌, ◌↔◌, length, set, All, IfOk, IsTrue, Some, None, false, slice_get};
ghost use Rattle.graph_path.specs.Routes.{LeadToVertices};
ghost use Rattle.graph_path.specs.private.Distances.{AreDistances, AreDistancesBelow, AreNear, MayBegin, count_unknown};

use crate::hop::Hop;
use std::alloc::{AllocError, Global};

/// Whether a route with `level` hops behind its first may begin with this hop.
pub fn may_begin(hop: Hop, far: &[Option<u32>], level: u32) -> bool
    requires { hop.to < length far.now }
    ensures { IsTrue result ↔ MayBegin far.now level hop }
{
    if level == 0 {
        return hop.feasible && hop.fails;
    }
    hop.feasible && far[hop.to as usize] == Some(level - 1)
}

/// Gives the hop's first vertex this distance, where it has none and a route may begin with the
/// hop. The answer is whether it did.
fn visit(hop: Hop, far: &mut Vec<Option<u32>>, level: u32) -> bool
    requires { hop.to < length far.old.items }
    ensures changed { IsTrue result → (slice_get far.old.items hop.from ≡ Some None)
        × MayBegin far.old.items level hop × (far.new.items
        ≡ set far.old.items hop.from (Some level)) }
    ensures same { result ≡ false → far.new.items ≡ far.old.items }
    ensures kept { result ≡ false → MayBegin far.old.items level hop →
        slice_get far.old.items hop.from ≢ Some None }
{
    let from = hop.from as usize;
    if from >= far.len() {
        return false;
    }
    if far[from].is_some() {
        return false;
    }
    if !may_begin(hop, far.as_slice(), level) {
        return false;
    }
    far[from] = Some(level);
    true
}

/// Gives this distance to each vertex that has it. The answer is whether there is one.
fn mark_level(hops: &[Hop], far: &mut Vec<Option<u32>>, level: u32) -> bool
    requires ends { LeadToVertices (length far.old.items) hops.now }
    requires below { AreDistancesBelow hops.now far.old.items level }
    ensures below { AreDistancesBelow hops.now far.new.items (level + 1) }
    ensures long { length far.new.items ≡ length far.old.items }
    ensures same { result ≡ false → far.new.items ≡ far.old.items }
    ensures fewer { IsTrue result → count_unknown far.new.items < count_unknown far.old.items }
{
    let mut changed = false;
    for hop in hops {
        if visit(*hop, far, level) {
            changed = true;
        }
    }
    changed
}

/// No distances yet.
fn unknown(alloc: Global, vertices: u32) -> Result<Vec<Option<u32>>, AllocError>
    ensures long { IfOk result (λ far. length far.items ≡ vertices) }
    ensures none { IfOk result (λ far. All (λ distance. distance ≡ None) far.items) }
{
    let mut far = Vec::new(alloc);
    for _ in 0..vertices {
        far.push(None)?;
    }
    Ok(far)
}

/// For each vertex the fewest hops behind the first of a route from it, where there is one: fewer
/// than there are vertices.
/// Level after level, backwards from the hops that fail.
pub fn distances(alloc: Global, vertices: u32, hops: &[Hop]) -> Result<Vec<Option<u32>>, AllocError>
    requires ends { LeadToVertices vertices hops.now }
    ensures long { IfOk result (λ far. length far.items ≡ vertices) }
    ensures distances { IfOk result (λ far. AreDistances hops.now far.items) }
    ensures near { IfOk result (λ far. AreNear vertices far.items) }
{
    let mut far = unknown(alloc, vertices)?;
    let mut level = 0;
    while mark_level(hops, &mut far, level) {
        level += 1;
    }
    Ok(far)
}
