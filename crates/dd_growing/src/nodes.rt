//! The store for one thread that grows; begin with `GrowingNodes`.

ghost use Rattle.std.specs.Prelude.{◌≤◌, ◌<◌, ◌+◌, ◌^◌, IfOk, length};
ghost use Rattle.std.proofs.Props.{props};
ghost use Rattle.dd_nodes.specs.Plain.{IsOrdered};
ghost use Rattle.dd_recent.specs.Recent.{AreRight};
ghost use Rattle.dd_growing.specs.Growing.{grown_store};
ghost use Rattle.dd_growing.specs.private.Slots.{IsIndexed, hash_of, taken};

use crate::slots::{find, hash_of, put_into, table_of};
use dd_nodes::{MkFault, Node, Nodes, Operator, Ref};
use dd_recent::{Joined, RecentMemo};
use std::alloc::{AllocError, Global};

/// A store for one thread: a list of nodes, a table that says where each stands, and results of
/// operations that it remembers. What was made is counted from the last `begin` on. A node takes 12
/// bytes in the list, and 8 to 16 in the table.
#[derive(Drop)]
pub struct GrowingNodes {
    alloc: Global,
    nodes: Vec<Node>,
    slots: Vec<u32>,
    recent: RecentMemo,
    base: usize,
    limit: u32,
    vars: u32,
    ghost small: { length nodes.items ≤ 16777214 },
    ghost begun: { base ≤ length nodes.items },
    ghost within: { length nodes.items ≤ base + limit },
    ghost room: { length nodes.items < length slots.items },
    ghost narrow: { length slots.items ≤ 2 ^ 32 },
    ghost counted: { taken slots.items ≤ length nodes.items },
    ghost ordered: { IsOrdered vars nodes.items } by { Prim.hlevel props },
    ghost indexed: { IsIndexed nodes.items slots.items } by { Prim.hlevel props },
    ghost right: { AreRight (grown_store nodes.items base limit vars) recent } by { Prim.hlevel props },
}

/// The number of slots at first.
const LEAST: usize = 1024;

/// The most nodes: each has a reference of 24 bits.
const MOST: usize = 16777214;

/// The most slots.
const WIDEST: usize = 4294967296;

/// The number of slots to which so many are widened.
fn wider(slots: usize) -> Result<usize, AllocError>
    requires { slots ≤ 2 ^ 32 }
    ensures more { IfOk result (λ size. slots + 1 < size) }
    ensures narrow { IfOk result (λ size. size ≤ 2 ^ 32) }
{
    let size = if slots < 65536 {
        slots * 4 + 16
    } else {
        slots * 2 + 16
    };
    if size <= WIDEST {
        Ok(size)
    } else {
        Err(AllocError)
    }
}

impl GrowingNodes {
    ghost use Rattle.std.specs.Prelude.{◌≡◌, ◌≢◌, ◌+◌, ◌<◌, ◌≤◌, length, Some, OnErr, OnOk};
    ghost use Rattle.dd_nodes.specs.Diagram.{IsFrom};
    ghost use Rattle.dd_nodes.specs.Stores.{empty_store, gets};
    ghost use Rattle.dd_nodes.specs.Plain.{plain_held, Pushes};

    /// A store of diagrams over `vars` variables that holds nothing, and may make `limit` nodes.
    pub fn new(alloc: Global, vars: u32, limit: u32) -> Result<GrowingNodes, AllocError>
        ensures { IfOk result (λ nodes. ⟦<GrowingNodes as Nodes>⟧.store nodes
            ≡ empty_store limit vars) }
    {
        Ok(GrowingNodes {
            alloc,
            nodes: Vec::new(alloc),
            slots: table_of(alloc, &[], LEAST)?,
            recent: RecentMemo::none(),
            base: 0,
            limit,
            vars,
        })
    }

    /// From here on nothing is made yet, and `limit` nodes may be made. All that is held stays.
    pub fn begin(&mut self, limit: u32)
        ensures { ⟦<GrowingNodes as Nodes>⟧.store self.new
            ≡ gets limit (⟦<GrowingNodes as Nodes>⟧.store self.old) }
    {
        self.base = self.nodes.len();
        self.limit = limit;
    }

    /// Makes the table larger where half of it is used.
    fn make_room(&mut self) -> Result<(), AllocError>
        ensures same { (self.new.nodes ≡ self.old.nodes) × (self.new.base ≡ self.old.base)
            × (self.new.limit ≡ self.old.limit) × (self.new.vars ≡ self.old.vars) }
        ensures room { OnOk result (length self.new.nodes.items + 1 < length self.new.slots.items) }
    {
        if self.nodes.len() < self.slots.len() / 2 {
            return Ok(());
        }
        self.widen()
    }

    /// Makes the table larger.
    #[cold]
    #[inline(never)]
    fn widen(&mut self) -> Result<(), AllocError>
        ensures same { (self.new.nodes ≡ self.old.nodes) × (self.new.base ≡ self.old.base)
            × (self.new.limit ≡ self.old.limit) × (self.new.vars ≡ self.old.vars) }
        ensures room { OnOk result (length self.new.nodes.items + 1 < length self.new.slots.items) }
    {
        let size = wider(self.slots.len())?;
        self.slots = table_of(self.alloc, &self.nodes, size)?;
        Ok(())
    }

    /// Puts a new node behind the others. After an error the list is as before.
    fn add(&mut self, node: Node, hash: u32) -> Result<Ref, AllocError>
        requires room { length self.old.nodes.items < self.old.base + self.old.limit }
        requires hash { hash ≡ hash_of node }
        requires absent { (r : Ref) → plain_held self.old.nodes.items r ≢ Some node }
        requires below { node.var < self.old.vars }
        requires differ { node.lo.0 ≢ node.hi.0 }
        requires low { IsFrom (plain_held self.old.nodes.items) (node.var + 1) node.lo }
        requires high { IsFrom (plain_held self.old.nodes.items) (node.var + 1) node.hi }
        ensures ok { IfOk result (λ r. Pushes self.old.nodes.items self.new.nodes.items node r) }
        ensures err { OnErr result (self.new.nodes.items ≡ self.old.nodes.items) }
        ensures base { self.new.base ≡ self.old.base }
        ensures limit { self.new.limit ≡ self.old.limit }
        ensures vars { self.new.vars ≡ self.old.vars }
    {
        if MOST <= self.nodes.len() {
            return Err(AllocError);
        }
        self.make_room()?;
        let r = Ref(self.nodes.len() as u32 + 2);
        self.nodes.push(node)?;
        put_into(&mut self.slots, node, hash, r);
        Ok(r)
    }
}

impl Nodes for GrowingNodes {
    ghost use Rattle.std.specs.Prelude.{◌≡◌, ◌⊎◌, ◌↔◌, ◌+◌, ◌-◌, ◌<◌, ◌++◌, ◌∷◌, [], length, Err, IsOk, OnErr};
    ghost use Rattle.dd_nodes.specs.declared.node.MkFault.TheVariants as MkFault;
    ghost use Rattle.dd_nodes.specs.Diagram.{IsFrom};
    ghost use Rattle.dd_nodes.specs.Stores.{Keeps, StandsFor, AddsOnly, IsThere, IsRefused};
    ghost use Rattle.dd_growing.specs.GrowingLaws.{growing_diagram, made_held_of, refs_from-distinct, within_of};

    ghost store = { λ s. grown_store s.nodes.items s.base s.limit s.vars };

    /// A node that is not held is made at every Ok, and counted. `StepsOut` comes exactly where the
    /// node would have to be made and `limit` nodes are made. After an error all is unchanged.
    fn mk(&mut self, var: u32, lo: Ref, hi: Ref) -> Result<Ref, MkFault>
        requires var { var < (⟦<GrowingNodes as Nodes>⟧.store self.old).vars }
        requires lo { IsFrom (⟦<GrowingNodes as Nodes>⟧.store self.old).held (var + 1) lo }
        requires hi { IsFrom (⟦<GrowingNodes as Nodes>⟧.store self.old).held (var + 1) hi }
        ensures keeps { Keeps (⟦<GrowingNodes as Nodes>⟧.store self.old)
            (⟦<GrowingNodes as Nodes>⟧.store self.new) }
        ensures limit { (⟦<GrowingNodes as Nodes>⟧.store self.new).limit
            ≡ (⟦<GrowingNodes as Nodes>⟧.store self.old).limit }
        ensures ok { IfOk result (λ r. StandsFor (⟦<GrowingNodes as Nodes>⟧.store self.new)
            var lo hi r) }
        ensures adds { IfOk result (λ r. AddsOnly
            (⟦<GrowingNodes as Nodes>⟧.store self.old)
            (⟦<GrowingNodes as Nodes>⟧.store self.new) r) }
        ensures there { IsThere (⟦<GrowingNodes as Nodes>⟧.store self.old) var lo hi
            → IsOk result × (⟦<GrowingNodes as Nodes>⟧.store self.new
            ≡ ⟦<GrowingNodes as Nodes>⟧.store self.old) }
        ensures new { IfOk result (λ r. IsThere (⟦<GrowingNodes as Nodes>⟧.store self.old) var lo hi
            ⊎ ((⟦<GrowingNodes as Nodes>⟧.store self.new).made
            ≡ (⟦<GrowingNodes as Nodes>⟧.store self.old).made ++ r ∷ [])) }
        ensures err { OnErr result (⟦<GrowingNodes as Nodes>⟧.store self.new
            ≡ ⟦<GrowingNodes as Nodes>⟧.store self.old) }
        ensures out { (result ≡ Err MkFault.StepsOut)
            ↔ IsRefused (⟦<GrowingNodes as Nodes>⟧.store self.old) var lo hi }
    {
        if lo == hi {
            return Ok(lo);
        }
        let node = Node { var, lo, hi };
        let hash = hash_of(node);
        if let Some(r) = find(&self.nodes, &self.slots, node, hash) {
            return Ok(r);
        }
        if self.nodes.len() - self.base == self.limit as usize {
            return Err(MkFault::StepsOut);
        }
        match self.add(node, hash) {
            Ok(r) => Ok(r),
            Err(_) => Err(MkFault::OutOfMemory),
        }
    }

    fn node(&mut self, r: Ref) -> Node {
        self.nodes[r.0 as usize - 2]
    }

    fn recall(&self, operator: Operator, first: Ref, second: Ref, third: Ref) -> Option<Ref> {
        self.recent.find(operator, first, second, third)
    }

    /// It takes the place of another result.
    fn remember(
        &mut self,
        alloc: Global,
        operator: Operator,
        first: Ref,
        second: Ref,
        third: Ref,
        r: Ref,
    ) {
        self.recent.put(
            alloc,
            Joined {
                operator,
                first,
                second,
                third,
                result: r,
            },
        );
    }

    /// It takes in nothing.
    fn learn(&mut self, _other: &mut Self) -> bool {
        false
    }

    fn used(&self) -> u32 {
        (self.nodes.len() - self.base) as u32
    }

    fn limit(&self) -> u32 {
        self.limit
    }

    fn vars(&self) -> u32 {
        self.vars
    }

    ghost diagram = { λ s. growing_diagram s.vars s.nodes.items s.slots.items s.ordered s.indexed };

    ghost within = { λ s. within_of s.nodes.items s.base s.limit s.within };

    ghost distinct = { λ s. refs_from-distinct s.base (length s.nodes.items - s.base) };

    ghost made_held = { λ s. made_held_of s.nodes.items s.base s.begun };
}
