//! The task of a pipeline; begin with `task_text`.

ghost use Rattle.std.specs.Prelude.{◌≡◌, ◌≤◌, ◌+◌, ◌++◌, ◌==◌, ◌%◌, [], if◌then◌else◌, IfOk, codes};
ghost use Rattle.std.specs.Fmt.{decimal};
ghost use Rattle.net_gen.specs.Pipeline.{ant_line, con_line, for_below, pipeline_tasks};

use crate::pieces::{put_net, put_number};
use std::alloc::{AllocError, Global};

/// Puts the line of a bit that goes in behind a text.
fn put_ant(alloc: Global, text: &mut Vec<u8>, bit: u32) -> Result<(), AllocError>
    ensures { IfOk result (λ _. text.new.items ≡ text.old.items ++ ant_line bit) }
{
    text.extend_from_slice(b".ant ")?;
    put_net(alloc, text, 0, bit)?;
    text.extend_from_slice(b" = b")?;
    put_number(alloc, text, bit)?;
    text.extend_from_slice(b" from 0 to 1\n")?;
    Ok(())
}

/// Puts the lines of the eight bits that go in behind a text.
fn put_ants(alloc: Global, text: &mut Vec<u8>) -> Result<(), AllocError>
    ensures { IfOk result (λ _. text.new.items ≡ text.old.items ++ for_below 8 ant_line) }
{
    for bit in 0..8 {
        put_ant(alloc, text, bit)?;
    }
    Ok(())
}

/// Puts the value of a bit behind a text, behind `!` where so many stages invert it.
fn put_value(alloc: Global, text: &mut Vec<u8>, n: u32, bit: u32) -> Result<(), AllocError>
    ensures { IfOk result (λ _. text.new.items ≡ text.old.items
        ++ ((if n % 2 == 1 then codes "!" else []) ++ (codes "b" ++ decimal bit))) }
{
    if n % 2 == 1 {
        text.push(b'!')?;
    }
    text.push(b'b')?;
    put_number(alloc, text, bit)
}

/// Puts the end of a line that speaks of one time alone behind a text.
fn put_time(alloc: Global, text: &mut Vec<u8>, time: u32) -> Result<(), AllocError>
    requires { time ≤ 1000 }
    ensures { IfOk result (λ _. text.new.items ≡ text.old.items
        ++ (codes " from " ++ (decimal time
        ++ (codes " to " ++ (decimal (time + 1) ++ codes "\n"))))) }
{
    text.extend_from_slice(b" from ")?;
    put_number(alloc, text, time)?;
    text.extend_from_slice(b" to ")?;
    put_number(alloc, text, time + 1)?;
    text.push(b'\n')?;
    Ok(())
}

/// Puts the line of a bit that comes out of so many stages behind a text.
fn put_con(alloc: Global, text: &mut Vec<u8>, n: u32, bit: u32) -> Result<(), AllocError>
    requires { n ≤ 1000 }
    ensures { IfOk result (λ _. text.new.items ≡ text.old.items ++ con_line n bit) }
{
    text.extend_from_slice(b".con ")?;
    put_net(alloc, text, n, bit)?;
    text.extend_from_slice(b" = ")?;
    put_value(alloc, text, n, bit)?;
    put_time(alloc, text, n)
}

/// Puts the lines of the eight bits that come out of so many stages behind a text.
fn put_cons(alloc: Global, text: &mut Vec<u8>, n: u32) -> Result<(), AllocError>
    requires { n ≤ 1000 }
    ensures { IfOk result (λ _. text.new.items ≡ text.old.items ++ for_below 8 (con_line n)) }
{
    for bit in 0..8 {
        put_con(alloc, text, n, bit)?;
    }
    Ok(())
}

/// The task file of a pipeline of so many stages.
pub fn task_text(alloc: Global, n: u32) -> Result<Vec<u8>, AllocError>
    requires { n ≤ 1000 }
    ensures { IfOk result (λ text. text.items ≡ pipeline_tasks n) }
{
    let mut text = Vec::new(alloc);
    text.extend_from_slice(b".vars b0 b1 b2 b3 b4 b5 b6 b7\n.ste pipe\n")?;
    put_ants(alloc, &mut text)?;
    put_cons(alloc, &mut text, n)?;
    text.extend_from_slice(b".end\n")?;
    Ok(text)
}
