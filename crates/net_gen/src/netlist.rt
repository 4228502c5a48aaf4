//! The netlist of a pipeline; begin with `net_text`.

ghost use Rattle.std.specs.Prelude.{◌≡◌, ◌<◌, ◌≤◌, ◌+◌, ◌++◌, IfOk, codes};
ghost use Rattle.net_gen.specs.Pipeline.{bit_lines, for_below, inverse_of, net_of, nets_line, pipeline_net, stage_lines};

use crate::pieces::{put_inverse, put_net};
use std::alloc::{AllocError, Global};

/// Puts a space and the name of the net of a bit after a stage behind a text.
fn put_next_net(alloc: Global, text: &mut Vec<u8>, stage: u32, bit: u32) -> Result<(), AllocError>
    ensures { IfOk result (λ _. text.new.items
        ≡ text.old.items ++ (codes " " ++ net_of stage bit)) }
{
    text.push(b' ')?;
    put_net(alloc, text, stage, bit)
}

/// Puts the names of the eight nets after a stage behind a text, each behind a space.
fn put_nets(alloc: Global, text: &mut Vec<u8>, stage: u32) -> Result<(), AllocError>
    ensures { IfOk result (λ _. text.new.items
        ≡ text.old.items ++ for_below 8 (λ bit. codes " " ++ net_of stage bit)) }
{
    for bit in 0..8 {
        put_next_net(alloc, text, stage, bit)?;
    }
    Ok(())
}

/// Puts a line of a word and the eight nets after a stage behind a text.
fn put_nets_line(
    alloc: Global,
    text: &mut Vec<u8>,
    word: &[u8],
    stage: u32,
) -> Result<(), AllocError>
    ensures { IfOk result (λ _. text.new.items ≡ text.old.items ++ nets_line word.now stage) }
{
    text.extend_from_slice(word)?;
    put_nets(alloc, text, stage)?;
    text.push(b'\n')?;
    Ok(())
}

/// Puts the gate behind a text that inverts a bit after a stage, for the latch of the next stage.
fn put_gate(alloc: Global, text: &mut Vec<u8>, stage: u32, bit: u32) -> Result<(), AllocError>
    requires { stage < 1000 }
    ensures { IfOk result (λ _. text.new.items ≡ text.old.items
        ++ (codes ".names " ++ (net_of stage bit
        ++ (codes " " ++ (inverse_of (stage + 1) bit ++ codes "\n0 1\n"))))) }
{
    text.extend_from_slice(b".names ")?;
    put_net(alloc, text, stage, bit)?;
    text.push(b' ')?;
    put_inverse(alloc, text, stage + 1, bit)?;
    text.extend_from_slice(b"\n0 1\n")?;
    Ok(())
}

/// Puts the latch of a bit in a stage behind a text. Its first value may be 0 or 1.
fn put_latch(alloc: Global, text: &mut Vec<u8>, stage: u32, bit: u32) -> Result<(), AllocError>
    ensures { IfOk result (λ _. text.new.items ≡ text.old.items
        ++ (codes ".latch " ++ (inverse_of stage bit
        ++ (codes " " ++ (net_of stage bit ++ codes " 3\n"))))) }
{
    text.extend_from_slice(b".latch ")?;
    put_inverse(alloc, text, stage, bit)?;
    text.push(b' ')?;
    put_net(alloc, text, stage, bit)?;
    text.extend_from_slice(b" 3\n")?;
    Ok(())
}

/// Puts the gate and the latch of a bit behind a text, those of the stage after this one.
fn put_bit(alloc: Global, text: &mut Vec<u8>, stage: u32, bit: u32) -> Result<(), AllocError>
    requires { stage < 1000 }
    ensures { IfOk result (λ _. text.new.items ≡ text.old.items ++ bit_lines stage bit) }
{
    put_gate(alloc, text, stage, bit)?;
    put_latch(alloc, text, stage + 1, bit)
}

/// Puts the gates and latches of all eight bits behind a text, those of the stage after this one.
fn put_stage(alloc: Global, text: &mut Vec<u8>, stage: u32) -> Result<(), AllocError>
    requires { stage < 1000 }
    ensures { IfOk result (λ _. text.new.items ≡ text.old.items ++ stage_lines stage) }
{
    for bit in 0..8 {
        put_bit(alloc, text, stage, bit)?;
    }
    Ok(())
}

/// Puts the gates and latches of so many stages behind a text.
fn put_stages(alloc: Global, text: &mut Vec<u8>, n: u32) -> Result<(), AllocError>
    requires { n ≤ 1000 }
    ensures { IfOk result (λ _. text.new.items ≡ text.old.items ++ for_below n stage_lines) }
{
    for stage in 0..n {
        put_stage(alloc, text, stage)?;
    }
    Ok(())
}

/// The netlist of a pipeline of so many stages.
pub fn net_text(alloc: Global, n: u32) -> Result<Vec<u8>, AllocError>
    requires { n ≤ 1000 }
    ensures { IfOk result (λ text. text.items ≡ pipeline_net n) }
{
    let mut text = Vec::new(alloc);
    text.extend_from_slice(b".model pipe\n")?;
    put_nets_line(alloc, &mut text, b".inputs", 0)?;
    put_nets_line(alloc, &mut text, b".outputs", n)?;
    put_stages(alloc, &mut text, n)?;
    text.extend_from_slice(b".end\n")?;
    Ok(text)
}
