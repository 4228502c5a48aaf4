//! Functions of three variables by their tables, and the parity of many variables, for tests.

ghost use Rattle.std.specs.Prelude.{◌≡◌, ◌+◌, ◌≤◌, IfOk};
ghost use Rattle.dd_nodes.specs.Diagram.{IsFrom};
ghost use Rattle.dd_nodes.specs.Stores.{Keeps};

use dd_nodes::{MkFault, Nodes, Ref};
use std::alloc::AllocError;

/// The node over two diagrams that read later variables alone.
fn node_over<N: Nodes>(nodes: &mut N, var: u32, lo: Ref, hi: Ref) -> Result<Ref, MkFault>
    requires var { var + 1 ≤ (N.store nodes.old).vars }
    requires lo { IsFrom (N.store nodes.old).held (var + 1) lo }
    requires hi { IsFrom (N.store nodes.old).held (var + 1) hi }
    ensures keeps { Keeps (N.store nodes.old) (N.store nodes.new) }
    ensures from { IfOk result (λ r. IsFrom (N.store nodes.new).held var r) }
{
    nodes.mk(var, lo, hi)
}

/// The diagram over the last of three variables of a table of two bits.
fn of_two_bits<N: Nodes>(nodes: &mut N, table: u32) -> Result<Ref, MkFault>
    requires { (N.store nodes.old).vars ≡ 3 }
    ensures keeps { Keeps (N.store nodes.old) (N.store nodes.new) }
    ensures from { IfOk result (λ r. IsFrom (N.store nodes.new).held 2 r) }
{
    let lo = if table % 2 == 1 { Ref(1) } else { Ref(0) };
    let hi = if table / 2 % 2 == 1 { Ref(1) } else { Ref(0) };
    node_over(nodes, 2, lo, hi)
}

/// The diagram over the last two of three variables of a table of four bits.
fn of_four_bits<N: Nodes>(nodes: &mut N, table: u32) -> Result<Ref, MkFault>
    requires { (N.store nodes.old).vars ≡ 3 }
    ensures keeps { Keeps (N.store nodes.old) (N.store nodes.new) }
    ensures from { IfOk result (λ r. IsFrom (N.store nodes.new).held 1 r) }
{
    let lo = of_two_bits(nodes, table % 4)?;
    let hi = of_two_bits(nodes, table / 4)?;
    node_over(nodes, 1, lo, hi)
}

/// The diagram over three variables of a table of eight bits. Bit k of it is the value at the
/// assignment that is k in binary, the first variable's bit first.
pub fn of_table<N: Nodes>(nodes: &mut N, table: u32) -> Result<Ref, MkFault>
    requires { (N.store nodes.old).vars ≡ 3 }
    ensures keeps { Keeps (N.store nodes.old) (N.store nodes.new) }
    ensures from { IfOk result (λ r. IsFrom (N.store nodes.new).held 0 r) }
{
    let lo = of_four_bits(nodes, table % 16)?;
    let hi = of_four_bits(nodes, table / 16)?;
    node_over(nodes, 0, lo, hi)
}

/// The parity of all variables of a store: 1 where an odd number of them is.
pub fn parity<N: Nodes>(nodes: &mut N) -> Result<Ref, MkFault>
    ensures keeps { Keeps (N.store nodes.old) (N.store nodes.new) }
    ensures from { IfOk result (λ r. IsFrom (N.store nodes.new).held 0 r) }
{
    let mut var = nodes.vars();
    let mut odd = Ref(0);
    let mut even = Ref(1);
    while var > 0 {
        var -= 1;
        let more = node_over(nodes, var, odd, even)?;
        even = node_over(nodes, var, even, odd)?;
        odd = more;
    }
    Ok(odd)
}

/// The code of one literal more behind those of a code.
pub fn with_literal(code: u32, var: u32, bit: bool) -> u32 {
    let literal = if bit {
        var.wrapping_mul(2).wrapping_add(2)
    } else {
        var.wrapping_mul(2).wrapping_add(1)
    };
    code.wrapping_mul(7).wrapping_add(literal)
}

/// Adds the codes of the cubes of a table of two bits over the variable `var`, each behind those of
/// a code.
fn add_codes_of_two(
    codes: &mut Vec<u32>,
    table: u32,
    var: u32,
    code: u32,
) -> Result<(), AllocError> {
    let lo = table % 2;
    let hi = table / 2 % 2;
    if lo == hi {
        if lo == 1 {
            codes.push(code)?;
        }
        return Ok(());
    }
    codes.push(with_literal(code, var, hi == 1))?;
    Ok(())
}

/// The same of four bits.
fn add_codes_of_four(codes: &mut Vec<u32>, table: u32, code: u32) -> Result<(), AllocError> {
    let lo = table % 4;
    let hi = table / 4 % 4;
    if lo == hi {
        return add_codes_of_two(codes, lo, 2, code);
    }
    add_codes_of_two(codes, lo, 2, with_literal(code, 1, false))?;
    add_codes_of_two(codes, hi, 2, with_literal(code, 1, true))
}

/// Adds the codes of the cubes of a table of eight bits.
pub fn add_codes(codes: &mut Vec<u32>, table: u32) -> Result<(), AllocError> {
    let lo = table % 16;
    let hi = table / 16 % 16;
    if lo == hi {
        return add_codes_of_four(codes, lo, 0);
    }
    add_codes_of_four(codes, lo, with_literal(0, 0, false))?;
    add_codes_of_four(codes, hi, with_literal(0, 0, true))
}
