//! From a text to what it says as numbers; begin with `read_text`.

ghost use Rattle.std.specs.Prelude.{◌≡◌, ◌++◌, ◌+◌, ◌≤◌, ◌<◌, ◌^◌, length, IfOk, true, option_to_list};
ghost use Rattle.blif_lines.specs.Lines.{is_line_feed, pieces};
ghost use Rattle.aig_model.specs.Faults.{defines, is_formed, is_new, aig_may_stand};
ghost use Rattle.aig_model.specs.Words.{greatest_number};
ghost use Rattle.aig_reader.specs.private.Drafts.{AreLines, IsFinished, IsText, is_end, no_aig, said_added};

use crate::header::read_header;
use crate::line::said_at;
use crate::scan::{cut, line_feed};
use aig_model::{Aig, AigAnd, AigFault, AigLatch, AigOutput, Head, Header, Kind, Said};
use indexmap::IndexSet;
use std::alloc::{AllocError, Global};
use ste_base::Items;

/// Nothing is said so far.
fn no_aig(alloc: Global) -> Aig
    ensures { result ≡ no_aig }
{
    Aig {
        inputs: Items::new(alloc),
        latches: Items::new(alloc),
        outputs: Items::new(alloc),
        ands: Items::new(alloc),
        input_symbols: Items::new(alloc),
        latch_symbols: Items::new(alloc),
        output_symbols: Items::new(alloc),
    }
}

/// What is said so far, with a line of this number more.
fn said_added(aig: Aig, line: u32, said: Said) -> Result<Aig, AllocError>
    ensures { IfOk result (λ grown. grown ≡ said_added aig line said) }
{
    let mut aig = aig;
    match said {
        Said::Input(var) => aig.inputs.push(var)?,
        Said::Latch(var, next, init) => aig.latches.push(AigLatch {
            line,
            var,
            next,
            init,
        })?,
        Said::Output(literal) => aig.outputs.push(AigOutput { line, literal })?,
        Said::And(var, left, right) => aig.ands.push(AigAnd {
            line,
            var,
            left,
            right,
        })?,
        Said::Symbol(Kind::Input, symbol) => aig.input_symbols.push(symbol)?,
        Said::Symbol(Kind::Latch, symbol) => aig.latch_symbols.push(symbol)?,
        Said::Symbol(Kind::Output, symbol) => aig.output_symbols.push(symbol)?,
        Said::End | Said::Wrong => {}
    }
    Ok(aig)
}

/// Whether what is read ends before this line.
fn is_end(said: &Said) -> bool
    ensures { result ≡ is_end said.now }
{
    match said {
        Said::End => true,
        _ => false,
    }
}

/// Whether a line has the form that its place asks for.
fn is_formed(said: &Said) -> bool
    ensures { result ≡ is_formed said.now }
{
    match said {
        Said::Wrong => false,
        _ => true,
    }
}

/// The variable that a line defines.
fn defines(said: &Said) -> Option<u32>
    ensures { result ≡ defines said.now }
{
    match said {
        Said::Input(var) | Said::Latch(var, _, _) | Said::And(var, _, _) => Some(*var),
        _ => None,
    }
}

/// Adds the variable that a line defines, where there is one, and answers whether it is new.
fn define(defined: &mut IndexSet<u32>, var: Option<u32>) -> Result<bool, AllocError>
    ensures fresh { IfOk result (λ fresh. fresh ≡ is_new defined.old.keys var) }
    ensures keys { IfOk result (λ fresh. fresh ≡ true →
        defined.new.keys ≡ defined.old.keys ++ option_to_list var) }
{
    match var {
        None => Ok(true),
        Some(var) => Ok(defined.insert(var)?),
    }
}

/// Whether a line may stand behind lines that define these variables; its own variable is added
/// then.
fn stands(defined: &mut IndexSet<u32>, said: &Said) -> Result<bool, AllocError>
    ensures good { IfOk result (λ good. good ≡ aig_may_stand defined.old.keys said.now) }
    ensures keys { IfOk result (λ good. good ≡ true →
        defined.new.keys ≡ defined.old.keys ++ option_to_list (defines said.now)) }
{
    if !is_formed(said) {
        return Ok(false);
    }
    define(defined, defines(said))
}

/// What is said, where the lines that a header asks for are there.
fn aig_if_complete(head: &Head, count: u32, aig: Aig) -> Result<Aig, AigFault>
    requires { count + 2 < 2 ^ 32 }
    ensures { IsFinished head.now count aig result }
{
    let asked = u64::from(head.inputs)
        + u64::from(head.latches)
        + u64::from(head.outputs)
        + u64::from(head.ands);
    if u64::from(count) < asked {
        Err(AigFault::BadLine { line: count + 2 })
    } else {
        Ok(aig)
    }
}

/// Reads the lines behind the header.
fn read_lines(alloc: Global, head: &Head, text: &[u8]) -> Result<Aig, AigFault>
    requires most { head.now.most ≤ greatest_number }
    requires fits { length text.now ≤ 67108864 }
    ensures { AreLines head.now (pieces is_line_feed text.now) result }
{
    let mut aig = no_aig(alloc);
    let mut defined = IndexSet::new(alloc);
    let mut rest = text;
    let mut count: u32 = 0;
    while !rest.is_empty() {
        let (line, after) = cut(rest, line_feed(rest));
        let said = said_at(alloc, head, count, line)?;
        if is_end(&said) {
            return aig_if_complete(head, count, aig);
        }
        let good = stands(&mut defined, &said)?;
        if !good {
            return Err(AigFault::BadLine { line: count + 2 });
        }
        aig = said_added(aig, count + 2, said)?;
        rest = after;
        count += 1;
    }
    aig_if_complete(head, count, aig)
}

/// Reads a text.
pub fn read_text(alloc: Global, bytes: &[u8]) -> Result<Aig, AigFault>
    requires { length bytes.now ≤ 67108864 }
    ensures { IsText bytes.now result }
{
    let (line, rest) = cut(bytes, line_feed(bytes));
    match read_header(alloc, line)? {
        Header::Bad => Err(AigFault::BadLine { line: 1 }),
        Header::LeftOut(word) => Err(AigFault::LeftOut { line: 1, word }),
        Header::Good(head) => read_lines(alloc, &head, rest),
    }
}
