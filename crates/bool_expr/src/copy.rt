//! Copies of expressions; begin with `copy_expr`.

ghost use Rattle.std.specs.Prelude.{◌≡◌, IfOk};
ghost use Rattle.bool_expr.specs.Tree.{tree_of};

use crate::expr::Expr;
use std::alloc::{AllocError, Global};

/// The same expression again, in memory of its own. The depth of calls is that of the expression.
pub fn copy_expr(alloc: Global, expr: &Expr) -> Result<Expr, AllocError>
    ensures { IfOk result (λ copy. tree_of copy ≡ tree_of expr.now) }
{
    match expr {
        Expr::Const(bit) => Ok(Expr::Const(*bit)),
        Expr::Var(variable) => Ok(Expr::Var(*variable)),
        Expr::Not(part) => Ok(Expr::Not(Box::new(alloc, copy_expr(alloc, part)?)?)),
        Expr::All(parts) => {
            let mut copies = Vec::new(alloc);
            for part in parts {
                copies.push(copy_expr(alloc, part)?)?;
            }
            Ok(Expr::All(copies))
        }
        Expr::Odd(parts) => {
            let mut copies = Vec::new(alloc);
            for part in parts {
                copies.push(copy_expr(alloc, part)?)?;
            }
            Ok(Expr::Odd(copies))
        }
        Expr::Any(parts) => {
            let mut copies = Vec::new(alloc);
            for part in parts {
                copies.push(copy_expr(alloc, part)?)?;
            }
            Ok(Expr::Any(copies))
        }
    }
}
