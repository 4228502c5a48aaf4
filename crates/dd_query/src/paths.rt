//! The cubes of a diagram, which are its paths to 1; begin with `cubes`.

ghost use Rattle.std.specs.Prelude.{◌≡◌, ◌++◌, List, Bool, map, IfOk, OnOk};
ghost use Rattle.dd_nodes.specs.Stores.{IsRef, function};
ghost use Rattle.ste_base.specs.declared.id.VarId.{VarId};
ghost use Rattle.ste_model.specs.Cubes.{cube_list, cubes_of, first_cubes};

use dd_nodes::{Nodes, Ref};
use std::alloc::{AllocError, Global};
use ste_base::{Items, VarId};
use ste_model::{Cube, CubeList};

/// A path as a cube.
fn cube_of(alloc: Global, path: &[(VarId, bool)]) -> Result<Cube, AllocError>
    ensures { IfOk result (λ cube. cube ≡ path.now) }
{
    let literals: Vec<(VarId, bool)> = path.iter().copied().collect(alloc)?;
    Ok(literals.into())
}

/// Adds the cubes of a diagram, each behind the path, to a list of at most `max` cubes. Where the
/// list is full, that there are more cubes is known without a look at the next one.
fn add_cubes<N: Nodes>(
    alloc: Global,
    nodes: &mut N,
    r: Ref,
    max: u32,
    path: &mut Vec<(VarId, bool)>,
    list: &mut CubeList,
) -> Result<(), AllocError>
    requires held { IsRef (N.store nodes.old) r }
    ensures list { OnOk result ((before : List (List (VarId × Bool))) →
        list.old ≡ first_cubes max before →
        list.new ≡ first_cubes max (before ++ map (λ cube. path.old.items ++ cube)
        (cubes_of (N.store nodes.old).vars (function (N.store nodes.old) r)))) }
    ensures path { OnOk result (path.new.items ≡ path.old.items) }
    ensures store { N.store nodes.new ≡ N.store nodes.old }
{
    if list.more {
        return Ok(());
    }
    if r == Ref::FALSE {
        return Ok(());
    }
    if list.cubes.len() == max as usize {
        list.more = true;
        return Ok(());
    }
    if r == Ref::TRUE {
        let cube = cube_of(alloc, path.as_slice())?;
        list.cubes.push(cube)?;
        return Ok(());
    }
    let node = nodes.node(r);
    path.push((VarId(node.var), false))?;
    add_cubes(alloc, nodes, node.lo, max, path, list)?;
    let _ = path.pop();
    path.push((VarId(node.var), true))?;
    add_cubes(alloc, nodes, node.hi, max, path, list)?;
    let _ = path.pop();
    Ok(())
}

/// The first `max` cubes of the assignments at which the function of a reference is 1, and whether
/// there are more.
///
/// It looks at a node for each literal of these cubes at most, and besides the list it takes a
/// place for each variable.
pub fn cubes<N: Nodes>(
    alloc: Global,
    nodes: &mut N,
    r: Ref,
    max: u32,
) -> Result<CubeList, AllocError>
    requires held { IsRef (N.store nodes.old) r }
    ensures list { IfOk result (λ list. list ≡ cube_list max (N.store nodes.old).vars
        (function (N.store nodes.old) r)) }
    ensures store { N.store nodes.new ≡ N.store nodes.old }
{
    let mut list = CubeList {
        cubes: Items::new(alloc),
        more: false,
    };
    let mut path = Vec::new(alloc);
    add_cubes(alloc, nodes, r, max, &mut path, &mut list)?;
    Ok(list)
}
