//! What an edge asks, by references; begin with `cuts_of`.

ghost use Rattle.std.specs.Prelude.{◌&&◌, IsTrue};
ghost use Rattle.std.specs.List.{AllZip};
ghost use Rattle.dual_rail.specs.Rail.{Built};
ghost use Rattle.sym_step.specs.Step.{IsCutBy};
ghost use Rattle.ste_model.specs.Expressions.{reads};
ghost use Rattle.ste_model.specs.GraphNeed.{BindsReadBelow};
ghost use Rattle.ste_model.specs.GraphWork.{binds_work, symbolic_bind, symbolic_binds};
ghost use Rattle.gste_engine.specs.private.Given.{bind_work};

use dd_nodes::Nodes;
use dd_ops::{OpFault, Ops};
use engine_parts::build;
use std::alloc::Global;
use ste_model::Bind;
use sym_step::Cut;

/// The references of one binding.
fn cut_of<N: Nodes>(ops: &Ops, nodes: &mut N, bind: &Bind) -> Result<Cut, OpFault>
    requires { IsTrue (reads (N.store nodes.old).vars bind.now.guard
        && reads (N.store nodes.old).vars bind.now.value) }
    ensures { Built (bind_work bind.now) (λ t cut. IsCutBy t (symbolic_bind bind.now) cut)
        (N.store nodes.old) (N.store nodes.new) result }
{
    let guard = build(ops, nodes, &bind.guard)?;
    let value = build(ops, nodes, &bind.value)?;
    Ok(Cut {
        node: bind.node,
        guard,
        value,
    })
}

/// The references of all bindings, in order.
pub fn cuts_of<N: Nodes>(
    alloc: Global,
    ops: &Ops,
    nodes: &mut N,
    binds: &[Bind],
) -> Result<Vec<Cut>, OpFault>
    requires { BindsReadBelow (N.store nodes.old).vars binds.now }
    ensures { Built (binds_work binds.now)
        (λ t cuts. AllZip (IsCutBy t) (symbolic_binds binds.now) cuts.items)
        (N.store nodes.old) (N.store nodes.new) result }
{
    let mut cuts = Vec::with_capacity(alloc, binds.len())?;
    for k in 0..binds.len() {
        let cut = cut_of(ops, nodes, &binds[k])?;
        match cuts.push(cut) {
            Ok(()) => {}
            Err(_) => return Err(OpFault::OutOfMemory),
        }
    }
    Ok(cuts)
}
