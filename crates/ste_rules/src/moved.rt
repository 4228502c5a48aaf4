//! Steps at later times, and with fewer consequents; begin with `later_step` and `weaker_step`.

ghost use Rattle.std.specs.Prelude.{◌≡◌, ◌+◌, ◌<◌, ℕ, map, IfOk, IfSome, IfNone, true, false, length, nat_lt, nat_le, slice_get, Some, ◌&&◌};
ghost use Rattle.std.specs.List.{list_all};
ghost use Rattle.ste_base.specs.Number.{number_of};
ghost use Rattle.assert_syntax.specs.Words.{is_number};
ghost use Rattle.ste_model.specs.Trees.{quint_tree};
ghost use Rattle.rule_model.specs.Rules.{later_by};
ghost use Rattle.ste_rules.specs.Sizes.{claim_fits, quint_fits};
ghost use Rattle.ste_rules.specs.Steps.{are_consequents, later_claim, picked, weaker_claim};
ghost use Rattle.ste_rules.specs.private.Held.{step_claim};
ghost use Rattle.ste_rules.specs.private.Turns.{IsAmount};

use crate::sizes::MAX_TIME;
use crate::step::{Step, copies_of, copy_quint};
use bool_expr::copy_expr;
use std::alloc::{AllocError, Global};
use ste_base::{Items, Name, read_number};
use ste_model::Quint;

/// How much a word of digits says, where that is no more than the greatest time.
pub fn amount_of(word: &[u8]) -> Option<u32>
    requires { is_number word.now ≡ true }
    ensures { IsAmount (number_of word.now) result }
{
    match read_number(word, u64::from(MAX_TIME)) {
        Ok(number) => Some(number as u32),
        Err(_) => None,
    }
}

/// A time that is so much later, where that is not too late.
fn later_time(time: u32, amount: Option<u32>) -> Option<u32>
    ensures some { (number : ℕ) → IsAmount number amount →
        IfSome result (λ later. (later ≡ time + number) × (nat_le later 100000 ≡ true)) }
    ensures none { (number : ℕ) → IsAmount number amount →
        IfNone result (nat_le (time + number) 100000 ≡ false) }
{
    let later = time.checked_add(amount?)?;
    if later <= MAX_TIME { Some(later) } else { None }
}

/// The two times of a quintuple, so much later, where these are not too late.
fn later_times(quint: &Quint, amount: Option<u32>) -> Option<(u32, u32)>
    ensures some { (number : ℕ) → IsAmount number amount →
        IfSome result (λ both. (both.0 ≡ quint.now.from + number)
        × (both.1 ≡ quint.now.to + number)) }
    ensures none { (number : ℕ) → IsAmount number amount →
        IfNone result (quint_fits (later_by number (quint_tree quint.now)) ≡ false) }
{
    let from = later_time(quint.from, amount)?;
    let to = later_time(quint.to, amount)?;
    Some((from, to))
}

/// A quintuple that is so much later, where its times are not too late.
fn later_quint(
    alloc: Global,
    quint: &Quint,
    amount: Option<u32>,
) -> Result<Option<Quint>, AllocError>
    ensures some { (number : ℕ) → IsAmount number amount → IfOk result (λ found. IfSome found
        (λ made. quint_tree made ≡ later_by number (quint_tree quint.now))) }
    ensures none { (number : ℕ) → IsAmount number amount → IfOk result (λ found. IfNone found
        (quint_fits (later_by number (quint_tree quint.now)) ≡ false)) }
{
    let Some((from, to)) = later_times(quint, amount) else {
        return Ok(None);
    };
    Ok(Some(Quint {
        guard: copy_expr(alloc, &quint.guard)?,
        node: quint.node,
        value: copy_expr(alloc, &quint.value)?,
        from,
        to,
    }))
}

/// Quintuples that are so much later, where no time is too late.
fn later_quints(
    alloc: Global,
    quints: &[Quint],
    amount: Option<u32>,
) -> Result<Option<Items<Quint>>, AllocError>
    ensures some { (number : ℕ) → IsAmount number amount → IfOk result (λ found. IfSome found
        (λ made. map quint_tree made ≡ map (later_by number) (map quint_tree quints.now))) }
    ensures none { (number : ℕ) → IsAmount number amount → IfOk result (λ found. IfNone found
        (list_all quint_fits (map (later_by number) (map quint_tree quints.now)) ≡ false)) }
{
    let mut made = Items::new(alloc);
    for quint in quints {
        let next = later_quint(alloc, quint, amount)?;
        let Some(later) = next else {
            return Ok(None);
        };
        made.push(later)?;
    }
    Ok(Some(made))
}

/// A step that is so much later, where no time is too late.
pub fn later_step(
    alloc: Global,
    step: &Step,
    amount: Option<u32>,
) -> Result<Option<Step>, AllocError>
    ensures some { (number : ℕ) → IsAmount number amount → IfOk result (λ found. IfSome found
        (λ made. step_claim made ≡ later_claim number (step_claim step.now))) }
    ensures none { (number : ℕ) → IsAmount number amount → IfOk result (λ found. IfNone found
        (claim_fits (later_claim number (step_claim step.now)) ≡ false)) }
{
    let first = later_quints(alloc, step.ant.as_slice(), amount)?;
    let Some(ant) = first else {
        return Ok(None);
    };
    let second = later_quints(alloc, step.con.as_slice(), amount)?;
    let Some(con) = second else {
        return Ok(None);
    };
    Ok(Some(Step {
        reset: step.reset,
        ant,
        con,
    }))
}

/// The quintuple of the number that a word says.
fn quint_at<'a>(quints: &'a [Quint], word: &Name) -> Option<&'a Quint>
    requires { is_number word.now ≡ true }
    ensures some { IfSome result (λ quint.
        slice_get (map quint_tree quints.now) (number_of word.now)
        ≡ Some (quint_tree quint.now)) }
    ensures within { IfSome result (λ _.
        nat_lt (number_of word.now) (length (map quint_tree quints.now)) ≡ true) }
    ensures none { IfNone result (nat_lt (number_of word.now)
        (length (map quint_tree quints.now)) ≡ false) }
{
    let place = read_number(word.bytes(), u64::MAX).ok()?;
    quints.get(place as usize)
}

/// The quintuples of the numbers that words say, where there are such.
fn quints_at(
    alloc: Global,
    quints: &[Quint],
    words: &[Name],
) -> Result<Option<Items<Quint>>, AllocError>
    requires { list_all is_number words.now ≡ true }
    ensures some { IfOk result (λ found. IfSome found (λ made. map quint_tree made
        ≡ picked (map quint_tree quints.now) (map number_of words.now))) }
    ensures within { IfOk result (λ found. IfSome found (λ _.
        list_all (λ n. nat_lt n (length (map quint_tree quints.now)))
        (map number_of words.now) ≡ true)) }
    ensures none { IfOk result (λ found. IfNone found (
        list_all (λ n. nat_lt n (length (map quint_tree quints.now)))
        (map number_of words.now) ≡ false)) }
{
    let mut made = Items::new(alloc);
    for word in words {
        let Some(quint) = quint_at(quints, word) else {
            return Ok(None);
        };
        made.push(copy_quint(alloc, quint)?)?;
    }
    Ok(Some(made))
}

/// A step with the consequents of the numbers that words say, where there are such.
pub fn weaker_step(alloc: Global, step: &Step, words: &[Name]) -> Result<Option<Step>, AllocError>
    requires { list_all is_number words.now ≡ true }
    ensures some { IfOk result (λ found. IfSome found (λ made. step_claim made
        ≡ weaker_claim (map number_of words.now) (step_claim step.now))) }
    ensures within { IfOk result (λ found. IfSome found (λ _.
        are_consequents (step_claim step.now) (map number_of words.now) ≡ true)) }
    ensures none { IfOk result (λ found. IfNone found (
        are_consequents (step_claim step.now) (map number_of words.now) ≡ false)) }
{
    let Some(con) = quints_at(alloc, step.con.as_slice(), words)? else {
        return Ok(None);
    };
    Ok(Some(Step {
        reset: step.reset,
        ant: copies_of(alloc, step.ant.as_slice())?,
        con,
    }))
}
