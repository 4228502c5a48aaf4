//! The run with given choices; begin with `run_with`.

ghost use Rattle.std.specs.Prelude.{◌≡◌, ◌≤◌, ◌<◌, ◌*◌, ℕ, IfOk, false, drop, length, map, slice_index_or};
ghost use Rattle.ste_model.specs.Asked.{depth as depth_of};
ghost use Rattle.exact_model.specs.Choices.{choices};
ghost use Rattle.exact_engine.specs.private.Running.{AreInputRows, AreNetChoices, IsRunWith, start_bit};

use crate::counting::{first_count, is_first_choice, open_count};
use crate::sources::behind;
use counter_run::two_valued;
use net_core::{Init, Latch, Net};
use std::alloc::{AllocError, Global};
use ste_base::{Items, NodeId, Time};
use ste_model::{Assertion, Run, depth};

/// The bit at a place, and 0 where there is none.
fn bit_at(bits: &[bool], place: usize) -> bool
    ensures { result ≡ slice_index_or bits.now place false }
{
    bits.get(place).copied().unwrap_or(false)
}

/// What stands behind so many bits.
pub fn beyond(bits: &[bool], count: usize) -> &[bool]
    ensures { result.now ≡ drop count bits.now }
{
    if count >= bits.len() {
        return &[];
    }
    &bits[count..]
}

/// Every so many a bit, from the first on.
fn input_row(
    alloc: Global,
    bits: &[bool],
    each: usize,
    times: Time,
) -> Result<Items<bool>, AllocError>
    ensures long { IfOk result (λ row. length row ≡ times) }
    ensures bits { IfOk result (λ row. (t : ℕ) → t < times
        → slice_index_or row t false ≡ slice_index_or bits.now (t * each) false) }
{
    let mut row = Items::new(alloc);
    let mut rest = bits;
    for _ in 0..times {
        row.push(bit_at(rest, 0))?;
        rest = beyond(rest, each);
    }
    Ok(row)
}

/// The bits of the inputs and free nets, a row for each, from what is chosen time by time.
fn input_rows(
    alloc: Global,
    bits: &[bool],
    each: u32,
    times: Time,
) -> Result<Vec<Items<bool>>, AllocError>
    requires { times * each ≤ length bits.now }
    ensures { IfOk result (λ rows. AreInputRows bits.now each times rows.items) }
{
    let mut rows = Vec::new(alloc);
    for k in 0..each {
        let row = input_row(alloc, beyond(bits, k as usize), each as usize, times)?;
        rows.push(row)?;
    }
    Ok(rows)
}

/// For each net the first choice that is not one of a net before it.
fn net_choices(
    alloc: Global,
    net: &Net,
    reset: bool,
    bits: &[bool],
) -> Result<Vec<bool>, AllocError>
    ensures { IfOk result (λ firsts. AreNetChoices net.now.raw reset bits.now firsts.items) }
{
    let nets = net.nets();
    let mut firsts = Vec::new(alloc);
    let mut choice = 0;
    for id in 0..nets {
        firsts.push(bit_at(bits, choice as usize))?;
        choice = behind(choice, is_first_choice(net, reset, NodeId(id)), nets);
    }
    Ok(firsts)
}

/// The first bit of a latch: the chosen one where it may start with either bit.
fn start_of(firsts: &[bool], reset: bool, latch: Latch) -> bool
    ensures { result ≡ start_bit reset latch.init
        (slice_index_or firsts.now latch.output.0 false) }
{
    let chosen = bit_at(firsts, latch.output.0 as usize);
    if !reset {
        return chosen;
    }
    match latch.init {
        Init::Zero => false,
        Init::One => true,
        Init::Free => chosen,
    }
}

/// The first bits of the latches.
fn latch_starts(
    alloc: Global,
    net: &Net,
    reset: bool,
    firsts: &[bool],
) -> Result<Vec<bool>, AllocError>
    ensures { IfOk result (λ starts. starts.items ≡ map
        (λ latch. start_bit reset latch.init (slice_index_or firsts.now latch.output.0 false))
        net.now.raw.latches) }
{
    net.latches()
        .iter()
        .map(|latch| start_of(firsts, reset, *latch))
        .collect(alloc)
}

/// The run of an assertion's depth with these choices, in their order; what is more of the list is
/// not looked at. The assertion asks something at some time.
pub fn run_with(
    alloc: Global,
    net: &Net,
    task: &Assertion,
    bits: &[bool],
) -> Result<Run, AllocError>
    requires deep { 0 < depth_of task.now }
    requires long { length (choices net.now.raw task.now) ≤ length bits.now }
    ensures { IfOk result (λ run. IsRunWith net.now.raw task.now bits.now run) }
{
    let times = depth(task);
    let firsts = net_choices(alloc, net, task.reset, bits)?;
    let starts = latch_starts(alloc, net, task.reset, firsts.as_slice())?;
    let later = beyond(bits, first_count(net, task.reset) as usize);
    let rows = input_rows(alloc, later, open_count(net), times)?;
    two_valued(alloc, net, times, rows.as_slice(), starts.as_slice())
}
