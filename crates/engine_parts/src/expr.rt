//! Expressions as diagrams; begin with `build`.

ghost use Rattle.std.specs.Prelude.{◌≡◌, IsTrue};
ghost use Rattle.dual_rail.specs.Rail.{Built, HasFunction};
ghost use Rattle.ste_model.specs.Expressions.{reads, symbolic_value};

use bool_expr::Expr;
use dd_nodes::{Nodes, Ref};
use dd_ops::{OpFault, Ops};
use dual_rail::{both, either};

/// The function of an expression, part by part. Lists are built from their first part on.
pub fn build<N: Nodes>(ops: &Ops, nodes: &mut N, expr: &Expr) -> Result<Ref, OpFault>
    requires { IsTrue (reads (N.store nodes.old).vars expr.now) }
    ensures { Built (symbolic_value expr.now).work (HasFunction (symbolic_value expr.now).value)
        (N.store nodes.old) (N.store nodes.new) result }
{
    match expr {
        Expr::Const(bit) => Ok(if *bit { Ref::TRUE } else { Ref::FALSE }),
        Expr::Var(variable) => ops.var(nodes, variable.0),
        Expr::Not(part) => {
            let r = build(ops, nodes, part)?;
            ops.not(nodes, r)
        }
        Expr::All(parts) => {
            let mut all = Ref::TRUE;
            for part in parts {
                let r = build(ops, nodes, part)?;
                all = both(ops, nodes, all, r)?;
            }
            Ok(all)
        }
        Expr::Odd(parts) => {
            let mut odd = Ref::FALSE;
            for part in parts {
                let r = build(ops, nodes, part)?;
                odd = ops.xor(nodes, odd, r)?;
            }
            Ok(odd)
        }
        Expr::Any(parts) => {
            let mut any = Ref::FALSE;
            for part in parts {
                let r = build(ops, nodes, part)?;
                any = either(ops, nodes, any, r)?;
            }
            Ok(any)
        }
    }
}
