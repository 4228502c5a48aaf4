//! Where a node stands in a list of nodes: a table of slots that is searched by walks; begin with
//! `find`.

ghost use Rattle.std.specs.Prelude.{◌≡◌, ◌<◌, ◌≤◌, ◌+◌, ◌%◌, ◌^◌, IfSome, IfNone, IfOk, Some, length, true};
ghost use Rattle.dd_nodes.specs.Plain.{plain_held};
ghost use Rattle.dd_growing.specs.private.Slots.{AreInside, HasFirst, IsOnWalk, IsPlaced, far_of, is_used, hash_of, near_of, newer, slot_of, taken, walk};

use dd_nodes::{Node, Ref};
use std::alloc::{AllocError, Global};

/// The number of places near the newer child with which a walk begins: half of what a cache fetches
/// at once.
const NEAR: usize = 8;

/// Whether a slot has a node; one that has none is 0. A used one has the lower 8 bits of the hash
/// of its node, and the node's reference in 24 bits.
fn is_used(slot: u32) -> bool
    ensures { result ≡ is_used slot }
{
    0 < slot
}

/// The slot of a node with this hash.
fn slot_of(hash: u32, r: Ref) -> u32
    requires { r.0 < 16777216 }
    ensures { result ≡ slot_of hash r }
{
    hash % 256 * 16777216 + r.0
}

/// The hash of a node (multiplicative hashing).
pub(crate) fn hash_of(node: Node) -> u32
    ensures { result ≡ hash_of node }
{
    let var = (node.var as u64).wrapping_mul(11400714819323198485);
    let lo = (node.lo.0 as u64).wrapping_mul(14029467366897019727);
    let hi = (node.hi.0 as u64).wrapping_mul(9650029242287828579);
    (var.wrapping_add(lo).wrapping_add(hi) >> 32) as u32
}

/// The newer child of a node.
fn newer(node: Node) -> u32
    ensures { result ≡ newer node }
{
    if node.lo.0 < node.hi.0 {
        node.hi.0
    } else {
        node.lo.0
    }
}

/// The place where the walk of a node begins, of so many places: near its newer child. Nodes that
/// are made one after another have such children too, and so slots near each other.
fn near_of(node: Node, size: usize) -> usize
    requires { 0 < size }
    ensures { (result ≡ near_of size node) × (result < size) }
{
    let twice = newer(node) as usize * 2;
    if twice < size { twice } else { 0 }
}

/// The place where the walk of a node with this hash goes on behind those near its newer child, of
/// so many places.
fn far_of(node: Node, hash: u32, size: usize) -> usize
    requires hash { hash ≡ hash_of node }
    requires some { 0 < size }
    ensures { (result ≡ far_of size node) × (result < size) }
{
    let _ = node;
    ((hash as u128 * size as u128) >> 32) as usize
}

/// The place behind a place, and the first one behind the last.
fn next(at: usize, size: usize) -> usize
    requires { at < size }
    ensures { (result ≡ (at + 1) % size) × (result < size) }
{
    if at + 1 == size { 0 } else { at + 1 }
}

/// The place that the walk of a node with this hash comes to from this one, its n-th.
fn further(at: usize, n: usize, node: Node, hash: u32, size: usize) -> usize
    requires at { at ≡ walk size node n }
    requires inside { at < size }
    requires hash { hash ≡ hash_of node }
    ensures { (result ≡ walk size node (n + 1)) × (result < size) }
{
    if n == NEAR - 1 {
        return far_of(node, hash, size);
    }
    next(at, size)
}

/// Whether a reference of the list is that of the node.
fn is_at(nodes: &[Node], r: Ref, node: Node) -> bool
    requires inside { (1 < r.0) × (r.0 < length nodes.now + 2) }
    ensures yes { result ≡ true → plain_held nodes.now r ≡ Some node }
    ensures no { plain_held nodes.now r ≡ Some node → result ≡ true }
{
    nodes[r.0 as usize - 2] == node
}

/// The reference of the node with this hash, where it stands in the list.
pub(crate) fn find(nodes: &[Node], slots: &[u32], node: Node, hash: u32) -> Option<Ref>
    requires some { 0 < length slots.now }
    requires narrow { length slots.now ≤ 2 ^ 32 }
    requires few { length nodes.now ≤ 16777214 }
    requires hash { hash ≡ hash_of node }
    requires inside { AreInside (length nodes.now) slots.now }
    ensures some { IfSome result (λ r. plain_held nodes.now r ≡ Some node) }
    ensures none { IfNone result ((r : Ref) → IsOnWalk slots.now node (slot_of (hash_of node) r)
        → plain_held nodes.now r ≡ Some node → ⊥) }
{
    let size = slots.len();
    let mut at = near_of(node, size);
    for n in 0..size + NEAR {
        let slot = slots[at];
        if !is_used(slot) {
            return None;
        }
        let r = Ref(slot % 16777216);
        if slot / 16777216 == hash % 256 && is_at(nodes, r, node) {
            return Some(r);
        }
        at = further(at, n, node, hash, size);
    }
    None
}

/// Puts a slot at the first unused place of the walk of a node with this hash.
fn place(table: &mut [u32], node: Node, hash: u32, slot: u32)
    requires narrow { length table.old ≤ 2 ^ 32 }
    requires hash { hash ≡ hash_of node }
    requires room { taken table.old < length table.old }
    ensures { IsPlaced table.old node slot table.new }
{
    let size = table.len();
    let mut at = near_of(node, table.len());
    for n in 0..size + NEAR {
        if !is_used(table[at]) {
            table[at] = slot;
            return;
        }
        at = further(at, n, node, hash, size);
    }
    unreachable!()
}

/// Puts the slot of a node with this hash and this reference into a table.
pub(crate) fn put_into(table: &mut Vec<u32>, node: Node, hash: u32, r: Ref)
    requires narrow { length table.old.items ≤ 2 ^ 32 }
    requires hash { hash ≡ hash_of node }
    requires few { r.0 < 16777216 }
    requires room { taken table.old.items < length table.old.items }
    ensures { IsPlaced table.old.items node (slot_of (hash_of node) r) table.new.items }
{
    place(table, node, hash, slot_of(hash, r));
}

/// A table of so many places with a slot for each of these nodes.
pub(crate) fn table_of(alloc: Global, nodes: &[Node], size: usize) -> Result<Vec<u32>, AllocError>
    requires wide { length nodes.now < size }
    requires narrow { size ≤ 2 ^ 32 }
    requires few { length nodes.now ≤ 16777214 }
    ensures long { IfOk result (λ table. length table.items ≡ size) }
    ensures has { IfOk result (λ table. HasFirst nodes.now (length nodes.now) table.items) }
{
    let mut table = Vec::from_elem(alloc, 0u32, size)?;
    for (k, node) in nodes.iter().enumerate() {
        put_into(&mut table, *node, hash_of(*node), Ref(k as u32 + 2));
    }
    Ok(table)
}
