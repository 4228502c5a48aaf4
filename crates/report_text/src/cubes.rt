//! The lines of the strong, the weak and the contradictory assignments; begin with `put_guards`.

ghost use Rattle.std.specs.Prelude.{◌≡◌, ◌++◌, [], if◌then◌else◌, IfOk, codes, flat_map, map};
ghost use Rattle.report_text.specs.Text.{cube_text, cubes_line, guards_text, list_line, literal_text};

use std::alloc::AllocError;
use ste_base::{Name, VarId};
use ste_model::{Cube, CubeList, Guards};

/// Puts a literal behind a text: the name of its variable, behind `!` where its bit is 0.
fn put_literal(text: &mut Vec<u8>, vars: &[Name], literal: (VarId, bool)) -> Result<(), AllocError>
    ensures { IfOk result (λ _. text.new.items ≡ text.old.items ++ literal_text vars.now literal) }
{
    let (var, bit) = literal;
    if !bit {
        text.push(b'!')?;
    }
    if let Some(name) = vars.get(var.0 as usize) {
        text.extend_from_slice(name.bytes())?;
    }
    Ok(())
}

/// Puts a literal behind a text that has another at its end.
fn put_next_literal(
    text: &mut Vec<u8>,
    vars: &[Name],
    literal: (VarId, bool),
) -> Result<(), AllocError>
    ensures { IfOk result (λ _. text.new.items
        ≡ text.old.items ++ (codes " & " ++ literal_text vars.now literal)) }
{
    text.extend_from_slice(b" & ")?;
    put_literal(text, vars, literal)
}

/// Puts literals behind a text that has another at its end.
fn put_next_literals(
    text: &mut Vec<u8>,
    vars: &[Name],
    literals: &[(VarId, bool)],
) -> Result<(), AllocError>
    ensures { IfOk result (λ _. text.new.items ≡ text.old.items
        ++ flat_map (λ other. codes " & " ++ other) (map (literal_text vars.now) literals.now)) }
{
    for literal in literals {
        put_next_literal(text, vars, *literal)?;
    }
    Ok(())
}

/// Puts a cube behind a text: its literals, the blank cube as `1`.
fn put_cube(text: &mut Vec<u8>, vars: &[Name], cube: &[(VarId, bool)]) -> Result<(), AllocError>
    ensures { IfOk result (λ _. text.new.items ≡ text.old.items ++ cube_text vars.now cube.now) }
{
    let Some((first, others)) = cube.split_first() else {
        text.push(b'1')?;
        return Ok(());
    };
    put_literal(text, vars, *first)?;
    put_next_literals(text, vars, others)
}

/// Puts a cube behind a text that has another at its end.
fn put_next_cube(
    text: &mut Vec<u8>,
    vars: &[Name],
    cube: &[(VarId, bool)],
) -> Result<(), AllocError>
    ensures { IfOk result (λ _. text.new.items
        ≡ text.old.items ++ (codes " | " ++ cube_text vars.now cube.now)) }
{
    text.extend_from_slice(b" | ")?;
    put_cube(text, vars, cube)
}

/// Puts cubes behind a text that has another at its end.
fn put_next_cubes(text: &mut Vec<u8>, vars: &[Name], cubes: &[Cube]) -> Result<(), AllocError>
    ensures { IfOk result (λ _. text.new.items ≡ text.old.items
        ++ flat_map (λ other. codes " | " ++ other) (map (cube_text vars.now) cubes.now)) }
{
    for cube in cubes {
        put_next_cube(text, vars, cube.as_slice())?;
    }
    Ok(())
}

/// Puts the end of a line of cubes behind a text, with `...` where there are more of them.
fn put_more(text: &mut Vec<u8>, more: bool) -> Result<(), AllocError>
    ensures { IfOk result (λ _. text.new.items
        ≡ text.old.items ++ ((if more then codes " | ..." else []) ++ codes "\n")) }
{
    if more {
        text.extend_from_slice(b" | ...")?;
    }
    text.push(b'\n')?;
    Ok(())
}

/// Puts the line of a list of cubes behind a text; an empty list has none.
fn put_list(
    text: &mut Vec<u8>,
    title: &[u8],
    vars: &[Name],
    list: &CubeList,
) -> Result<(), AllocError>
    ensures { IfOk result (λ _. text.new.items
        ≡ text.old.items ++ list_line title.now vars.now list.now) }
{
    let Some((first, others)) = list.cubes.as_slice().split_first() else {
        return Ok(());
    };
    text.extend_from_slice(b"  ")?;
    text.extend_from_slice(title)?;
    text.extend_from_slice(b": ")?;
    put_cube(text, vars, first.as_slice())?;
    put_next_cubes(text, vars, others)?;
    put_more(text, list.more)
}

/// Puts the lines of the assignments behind a text.
pub fn put_guards(text: &mut Vec<u8>, vars: &[Name], guards: &Guards) -> Result<(), AllocError>
    ensures { IfOk result (λ _. text.new.items
        ≡ text.old.items ++ guards_text vars.now guards.now) }
{
    put_list(text, b"strong", vars, &guards.strong)?;
    put_list(text, b"weak", vars, &guards.weak)?;
    put_list(text, b"contradictory", vars, &guards.contradictory)
}
