//! What a line behind the header says; begin with `said_at`.

ghost use Rattle.std.specs.Prelude.{◌≡◌, ◌≤◌, ◌<◌, ◌^◌, IfOk};
ghost use Rattle.blif_lines.specs.Lines.{words_of};
ghost use Rattle.aig_model.specs.Lines.{and_of, aig_init_of, input_of, aig_latch_of, aig_latch_with, literals_of, output_of, said_at, symbol_of, symbol_with, tail_of};
ghost use Rattle.aig_model.specs.Words.{greatest_number};

use crate::scan::{cut, space, trimmed_text, word};
use crate::words::{aig_number_below, is_definable, literal, variable_of};
use aig_model::{Head, Kind, Literals, Said, Symbol};
use net_core::Init;
use std::alloc::{AllocError, Global};
use ste_base::Name;

/// The literals of a line, where there are one to three.
fn literals(most: u32, line: &[u8]) -> Literals
    requires { most ≤ greatest_number }
    ensures { result ≡ literals_of most (words_of line.now) }
{
    let Some((first, behind_first)) = word(line) else {
        return Literals::Other;
    };
    let Some(one) = literal(most, first) else {
        return Literals::Other;
    };
    let Some((second, behind_second)) = word(behind_first) else {
        return Literals::One(one);
    };
    let Some(two) = literal(most, second) else {
        return Literals::Other;
    };
    let Some((third, behind_third)) = word(behind_second) else {
        return Literals::Two(one, two);
    };
    let Some(three) = literal(most, third) else {
        return Literals::Other;
    };
    match word(behind_third) {
        None => Literals::Three(one, two, three),
        Some(_) => Literals::Other,
    }
}

/// What an input line says.
fn input_of(literals: Literals) -> Said
    ensures { result ≡ input_of literals }
{
    match literals {
        Literals::One(first) => {
            if is_definable(first) {
                Said::Input(variable_of(first))
            } else {
                Said::Wrong
            }
        }
        _ => Said::Wrong,
    }
}

/// The initial value that the third literal of a latch says.
fn aig_init_of(first: u32, third: u32) -> Option<Init>
    ensures { result ≡ aig_init_of first third }
{
    if third == 0 {
        Some(Init::Zero)
    } else if third == 1 {
        Some(Init::One)
    } else if third == first {
        Some(Init::Free)
    } else {
        None
    }
}

/// A latch, where there is its initial value.
fn aig_latch_with(first: u32, next: u32, init: Option<Init>) -> Said
    ensures { result ≡ aig_latch_with first next init }
{
    match init {
        None => Said::Wrong,
        Some(init) => {
            if is_definable(first) {
                Said::Latch(variable_of(first), next, init)
            } else {
                Said::Wrong
            }
        }
    }
}

/// What a latch line says.
fn aig_latch_of(literals: Literals) -> Said
    ensures { result ≡ aig_latch_of literals }
{
    match literals {
        Literals::Two(first, next) => aig_latch_with(first, next, Some(Init::Zero)),
        Literals::Three(first, next, third) => aig_latch_with(
            first,
            next,
            aig_init_of(first, third),
        ),
        _ => Said::Wrong,
    }
}

/// What an output line says.
fn output_of(literals: Literals) -> Said
    ensures { result ≡ output_of literals }
{
    match literals {
        Literals::One(literal) => Said::Output(literal),
        _ => Said::Wrong,
    }
}

/// What an AND line says.
fn and_of(literals: Literals) -> Said
    ensures { result ≡ and_of literals }
{
    match literals {
        Literals::Three(first, left, right) => {
            if is_definable(first) {
                Said::And(variable_of(first), left, right)
            } else {
                Said::Wrong
            }
        }
        _ => Said::Wrong,
    }
}

/// A symbol, where there are its number and a name.
fn symbol_with(
    alloc: Global,
    kind: Kind,
    number: Option<u32>,
    name: &[u8],
) -> Result<Said, AllocError>
    ensures { IfOk result (λ said. said ≡ symbol_with kind number name.now) }
{
    let Some(number) = number else {
        return Ok(Said::Wrong);
    };
    if name.is_empty() {
        return Ok(Said::Wrong);
    }
    let name = Name::from_bytes(alloc, name)?;
    Ok(Said::Symbol(kind, Symbol { number, name }))
}

/// A symbol of this kind, of which there are `count`: its number, one space, and the name.
fn symbol_of(alloc: Global, kind: Kind, count: u32, text: &[u8]) -> Result<Said, AllocError>
    ensures { IfOk result (λ said. said ≡ symbol_of kind count text.now) }
{
    let (digits, name) = cut(text, space(text));
    symbol_with(alloc, kind, aig_number_below(count, digits), name)
}

/// What a line behind those of literals says, without the blanks at its end.
fn tail_of(alloc: Global, head: &Head, line: &[u8]) -> Result<Said, AllocError>
    ensures { IfOk result (λ said. said ≡ tail_of head.now line.now) }
{
    let Some((byte, text)) = line.split_first() else {
        return Ok(Said::Wrong);
    };
    if *byte == b'i' {
        symbol_of(alloc, Kind::Input, head.inputs, text)
    } else if *byte == b'l' {
        symbol_of(alloc, Kind::Latch, head.latches, text)
    } else if *byte == b'o' {
        symbol_of(alloc, Kind::Output, head.outputs, text)
    } else if *byte == b'c' && text.is_empty() {
        Ok(Said::End)
    } else {
        Ok(Said::Wrong)
    }
}

/// What the n-th line behind the header says, from 0.
pub fn said_at(alloc: Global, head: &Head, n: u32, line: &[u8]) -> Result<Said, AllocError>
    requires most { head.now.most ≤ greatest_number }
    ensures { IfOk result (λ said. said ≡ said_at head.now n line.now) }
{
    let place = u64::from(n);
    let latches = u64::from(head.inputs);
    let outputs = latches + u64::from(head.latches);
    let ands = outputs + u64::from(head.outputs);
    if place < latches {
        Ok(input_of(literals(head.most, line)))
    } else if place < outputs {
        Ok(aig_latch_of(literals(head.most, line)))
    } else if place < ands {
        Ok(output_of(literals(head.most, line)))
    } else if place < ands + u64::from(head.ands) {
        Ok(and_of(literals(head.most, line)))
    } else {
        tail_of(alloc, head, trimmed_text(line))
    }
}
