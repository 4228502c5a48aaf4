//! Tests of the questions over the plain store.

use crate::shown::{Shown, shown_parity, shown_table};
use crate::tables::{add_codes, with_literal};
use dd_nodes::PlainNodes;
use std::alloc::{AllocError, Global};
use std::process::Abort;
use std::test::Fail;
use ste_base::{Items, VarId};
use ste_model::CubeList;

/// The code of a cube: those of its literals, in order.
fn code_of(cube: &[(VarId, bool)]) -> u32 {
    let mut code = 0;
    for literal in cube {
        code = with_literal(code, literal.0.0, literal.1);
    }
    code
}

/// Whether a list has the first of the cubes with these codes, at most so many, and says whether
/// there are more.
fn has_codes(list: &CubeList, codes: &[u32], max: u32) -> bool {
    let max = max as usize;
    list.cubes.len() == codes.len().min(max)
        && list.more == (codes.len() > max)
        && list
            .cubes
            .as_slice()
            .iter()
            .zip(codes)
            .all(|(cube, code)| code_of(cube.as_slice()) == *code)
}

/// Compares the cubes of a diagram, at most 0 to 4 of them, with those of a table.
fn compare_cubes(
    rt: &impl Abort,
    alloc: Global,
    shown: &mut Shown<PlainNodes>,
    codes: &[u32],
    table: u32,
) -> Result<(), Fail> {
    for max in 0..5 {
        let list = shown.cubes(alloc, max)?;
        assert!(rt;
            has_codes(&list, codes, max),
            "table {table}, at most {max}"
        );
    }
    Ok(())
}

/// The codes of the cubes of a table.
fn codes_of(alloc: Global, table: u32) -> Result<Vec<u32>, AllocError> {
    let mut codes = Vec::new(alloc);
    add_codes(&mut codes, table)?;
    Ok(codes)
}

#[test]
fn cubes_of_three_variables_are_those_of_tables(rt: HostRuntime) -> Result<(), Fail> {
    for table in 0..256 {
        let codes = codes_of(rt.alloc(), table)?;
        let mut shown = shown_table(rt.alloc(), table)?;
        compare_cubes(&rt, rt.alloc(), &mut shown, &codes, table)?;
    }
    Ok(())
}

/// The number of an assignment, its first bit in front.
fn number_of(bits: &[bool]) -> u32 {
    bits.iter().fold(0u32, |k, bit| {
        k.wrapping_mul(2).wrapping_add(u32::from(*bit))
    })
}

/// The number of the least assignment of a diagram, where there is one.
fn least_of(alloc: Global, shown: &mut Shown<PlainNodes>) -> Result<Option<u32>, Fail> {
    Ok(
        shown
            .least(alloc)?
            .map(|bits: Items<bool>| number_of(bits.as_slice())),
    )
}

/// The number of the first assignment with the value 1 in a table, where there is one.
fn first_of_table(table: u32) -> Option<u32> {
    for k in 0u32..8 {
        if (table >> k) % 2 == 1 {
            return Some(k);
        }
    }
    None
}

/// Whether a diagram of three variables has the values of a table.
fn has_values(shown: &mut Shown<PlainNodes>, table: u32) -> Result<bool, Fail> {
    for k in 0u32..8 {
        let bits = [k / 4 % 2 == 1, k / 2 % 2 == 1, k % 2 == 1];
        if shown.eval(&bits)? != ((table >> k) % 2 == 1) {
            return Ok(false);
        }
    }
    Ok(true)
}

/// Compares the values and the least assignment of a diagram of three variables with those of a
/// table.
fn compare_values(
    rt: &impl Abort,
    alloc: Global,
    shown: &mut Shown<PlainNodes>,
    table: u32,
) -> Result<(), Fail> {
    assert!(rt; has_values(shown, table)?, "values of table {table}");
    let first = first_of_table(table);
    assert_eq!(rt; least_of(alloc, shown)?, first, "least of table {table}");
    Ok(())
}

#[test]
fn values_and_least_assignments_of_three_variables_are_those_of_tables(
    rt: HostRuntime,
) -> Result<(), Fail> {
    for table in 0u32..256 {
        let mut shown = shown_table(rt.alloc(), table)?;
        compare_values(&rt, rt.alloc(), &mut shown, table)?;
    }
    Ok(())
}

/// Whether a cube is the one of this number of the parity of a thousand variables: a literal for
/// each, in order, and a bit 1 of the last four alone.
fn is_parity_cube(cube: &[(VarId, bool)], k: usize) -> bool {
    let bits = [k / 4 % 2 == 1, k / 2 % 2 == 1, k % 2 == 1];
    let odd = bits[0] ^ bits[1] ^ bits[2];
    let last = [bits[0], bits[1], bits[2], !odd];
    cube.len() == 1000
        && cube.iter().enumerate().all(|(place, literal)| {
            literal.0.0 as usize == place
                && literal.1 == last.get(place.wrapping_sub(996)).copied().unwrap_or(false)
        })
}

/// Whether a list has the first eight cubes of the parity of a thousand variables, and says that
/// there are more.
fn has_parity_cubes(list: &CubeList) -> bool {
    list.more
        && list.cubes.len() == 8
        && list
            .cubes
            .as_slice()
            .iter()
            .enumerate()
            .all(|(k, cube)| is_parity_cube(cube.as_slice(), k))
}

/// Whether the last of a thousand variables alone is 1.
fn is_last_of_thousand(bits: &[bool]) -> bool {
    bits.len() == 1000 && bits.iter().position(|bit| *bit) == Some(999)
}

/// Compares the cubes and the least assignment of the parity; no node is made for them.
fn compare_parity(
    rt: &impl Abort,
    alloc: Global,
    shown: &mut Shown<PlainNodes>,
) -> Result<(), Fail> {
    let made = shown.used();
    let list = shown.cubes(alloc, 8)?;
    assert!(rt; has_parity_cubes(&list));
    let least = shown.least(alloc)?;
    assert!(rt; least.is_some_and(|bits: Items<bool>| is_last_of_thousand(bits.as_slice())));
    assert_eq!(rt; shown.used(), made);
    Ok(())
}

#[test]
fn eight_cubes_of_a_parity_of_a_thousand_variables(rt: HostRuntime) -> Result<(), Fail> {
    let mut shown = shown_parity(rt.alloc())?;
    compare_parity(&rt, rt.alloc(), &mut shown)
}
