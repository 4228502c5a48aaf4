//! A diagram with its store, for tests; begin with `Shown`.

ghost use Rattle.std.specs.Prelude.{◌≡◌};
ghost use Rattle.std.proofs.Props.{props};
ghost use Rattle.dd_nodes.specs.Stores.{IsRef};

use crate::tables::{of_table, parity};
use dd_nodes::{Nodes, PlainNodes, Ref};
use dd_query::{cubes, eval, least};
use std::alloc::Global;
use std::test::Fail;
use ste_base::Items;
use ste_model::CubeList;

/// A diagram that a test has made, in its store.
#[derive(Drop)]
pub struct Shown<N: Nodes> {
    nodes: N,
    r: Ref,
    ghost held: { IsRef (N.store nodes) r } by { Prim.hlevel props },
}

impl<N: Nodes + Drop> Shown<N> {
    pub fn eval(&mut self, bits: &[bool]) -> Result<bool, Fail> {
        if bits.len() != self.nodes.vars() as usize {
            return Err("a bit for each variable".into());
        }
        Ok(eval(&mut self.nodes, self.r, bits))
    }

    pub fn least(&mut self, alloc: Global) -> Result<Option<Items<bool>>, Fail> {
        let found = least(alloc, &mut self.nodes, self.r)?;
        Ok(found)
    }

    pub fn cubes(&mut self, alloc: Global, max: u32) -> Result<CubeList, Fail> {
        let list = cubes(alloc, &mut self.nodes, self.r, max)?;
        Ok(list)
    }

    pub fn used(&self) -> u32 {
        self.nodes.used()
    }
}

/// The function of three variables with a table of eight bits.
pub fn shown_table(alloc: Global, table: u32) -> Result<Shown<PlainNodes>, Fail> {
    let mut nodes = PlainNodes::new(alloc, 3, 100)?;
    let r = of_table(&mut nodes, table)?;
    Ok(Shown { nodes, r })
}

/// The parity of a thousand variables.
pub fn shown_parity(alloc: Global) -> Result<Shown<PlainNodes>, Fail> {
    let mut nodes = PlainNodes::new(alloc, 1000, 3000)?;
    let r = parity(&mut nodes)?;
    Ok(Shown { nodes, r })
}
