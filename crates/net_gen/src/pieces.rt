//! Numbers and names of nets, as pieces of a text; begin with `put_net`.

ghost use Rattle.std.specs.Prelude.{◌≡◌, ◌++◌, IfOk};
ghost use Rattle.std.specs.Fmt.{decimal};
ghost use Rattle.net_gen.specs.Pipeline.{inverse_of, net_of};

use std::alloc::{AllocError, Global};

/// Puts a number behind a text, in decimal digits.
pub fn put_number(alloc: Global, text: &mut Vec<u8>, number: u32) -> Result<(), AllocError>
    ensures { IfOk result (λ _. text.new.items ≡ text.old.items ++ decimal number) }
{
    let digits = format!(in alloc; "{number}")?;
    text.extend_from_slice(digits.as_bytes())?;
    Ok(())
}

/// Puts the name of a net behind a text: that of a bit after a stage. After stage 0 are the inputs.
pub fn put_net(alloc: Global, text: &mut Vec<u8>, stage: u32, bit: u32) -> Result<(), AllocError>
    ensures { IfOk result (λ _. text.new.items ≡ text.old.items ++ net_of stage bit) }
{
    text.push(b's')?;
    put_number(alloc, text, stage)?;
    text.push(b'_')?;
    put_number(alloc, text, bit)
}

/// Puts the name of a net behind a text: that of the inverse of a bit, before the latch of a stage.
pub fn put_inverse(
    alloc: Global,
    text: &mut Vec<u8>,
    stage: u32,
    bit: u32,
) -> Result<(), AllocError>
    ensures { IfOk result (λ _. text.new.items ≡ text.old.items ++ inverse_of stage bit) }
{
    text.push(b'x')?;
    put_number(alloc, text, stage)?;
    text.push(b'_')?;
    put_number(alloc, text, bit)
}
