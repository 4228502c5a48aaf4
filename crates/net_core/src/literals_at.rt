//! Rows by the positions at which they ask for a bit; begin with `literals_of_rows`.

ghost use Rattle.std.specs.Prelude.{◌≡◌, ◌≤◌, ◌++◌, IfOk, IfSome, OnOk, drop, length, map, take};
ghost use Rattle.net_core.specs.Cases.{is_any};
ghost use Rattle.net_core.specs.private.Literals.{admits_at, literals_from, literals_in, behind_at, first_position_from, half_at};

use crate::cover::{Lit, Row};
use std::alloc::{AllocError, Global};

/// What a row asks at an input position: a literal other than `-`.
#[derive(Clone, Copy)]
pub struct LiteralAt {
    pub position: usize,
    pub lit: Lit,
}

/// Whether the literal is `-`.
fn is_any(lit: Lit) -> bool
    ensures { result ≡ is_any lit }
{
    match lit {
        Lit::Any => true,
        Lit::Zero | Lit::One => false,
    }
}

/// Adds what the row asks, by position.
fn add_literals(row: &[Lit], literals: &mut Vec<LiteralAt>) -> Result<(), AllocError>
    ensures { OnOk result (literals.new.items ≡ literals.old.items ++ literals_from 0 row.now) }
{
    for (position, lit) in row.iter().enumerate() {
        if !is_any(*lit) {
            literals.push(LiteralAt {
                position,
                lit: *lit,
            })?;
        }
    }
    Ok(())
}

/// What the rows ask, row by row in one list.
pub fn literals_of_rows(alloc: Global, rows: &[Row]) -> Result<Vec<LiteralAt>, AllocError>
    ensures { IfOk result (λ literals. literals.items ≡ literals_in rows.now) }
{
    let mut literals = Vec::new(alloc);
    for row in rows {
        add_literals(row.as_slice(), &mut literals)?;
    }
    Ok(literals)
}

/// How many bits the row asks for.
fn literal_count(row: &[Lit]) -> usize
    ensures { result ≡ length (literals_from 0 row.now) }
{
    let mut count = 0;
    for lit in row {
        if !is_any(*lit) {
            count += 1;
        }
    }
    count
}

/// The part of the list for each of these rows.
pub fn slices_of<'a>(
    alloc: Global,
    literals: &'a [LiteralAt],
    rows: &[Row],
) -> Result<Vec<&'a [LiteralAt]>, AllocError>
    requires { literals.now ≡ literals_in rows.now }
    ensures { IfOk result (λ slices. map (λ row. row.now) slices.items
        ≡ map (literals_from 0) rows.now) }
{
    let mut slices = Vec::with_capacity(alloc, rows.len())?;
    let mut rest = literals;
    for row in rows {
        let (own, others) = rest.split_at(literal_count(row.as_slice()));
        slices.push(own)?;
        rest = others;
    }
    Ok(slices)
}

/// The least position at which a row asks for a bit, or `inputs` where none is less. `None` where
/// some row asks for nothing.
pub fn first_position(rows: &[&[LiteralAt]], inputs: usize) -> Option<usize>
    ensures least { result ≡ first_position_from inputs (map (λ row. row.now) rows.now) }
    ensures within { IfSome result (λ position. position ≤ inputs) }
{
    let mut least = inputs;
    for row in rows {
        let first = row.first()?;
        least = least.min(first.position);
    }
    Some(least)
}

/// Whether the row admits the bit at this position, the first at which a row asks.
fn admits_at(row: &[LiteralAt], position: usize, bit: bool) -> bool
    ensures { result ≡ admits_at position bit row.now }
{
    match row.first() {
        Some(literal) => literal.position != position || literal.lit.admits(bit),
        None => true,
    }
}

/// What the row asks behind this position.
fn behind_at<'a>(row: &'a [LiteralAt], position: usize) -> &'a [LiteralAt]
    ensures { result.now ≡ behind_at position row.now }
{
    match row.split_first() {
        Some((literal, rest)) => if literal.position == position {
            rest
        } else {
            row
        },
        None => row,
    }
}

/// The rows of a stack from a place on.
pub fn rows_from<'a, 'b>(stack: &'b Vec<&'a [LiteralAt]>, begin: usize) -> &'b [&'a [LiteralAt]]
    requires { begin ≤ length stack.now.items }
    ensures { result.now ≡ drop begin stack.now.items }
{
    &stack.as_slice()[begin..]
}

/// Adds to a stack, of its rows from a place on, those that admit the bit at this position, from
/// behind it on.
pub fn add_half(
    stack: &mut Vec<&[LiteralAt]>,
    begin: usize,
    position: usize,
    bit: bool,
) -> Result<(), AllocError>
    requires { begin ≤ length stack.old.items }
    ensures kept { OnOk result (take (length stack.old.items) stack.new.items ≡ stack.old.items) }
    ensures half { OnOk result (map (λ row. row.now) (drop (length stack.old.items) stack.new.items)
        ≡ half_at position bit (map (λ row. row.now) (drop begin stack.old.items))) }
{
    for place in begin..stack.len() {
        let row = stack[place];
        if admits_at(row, position, bit) {
            stack.push(behind_at(row, position))?;
        }
    }
    Ok(())
}
