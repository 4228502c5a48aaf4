//! What `info` writes: the counts of a net.
ghost use Rattle.std.specs.Prelude.{◌≡◌, ◌≤◌, ◌++◌, ℕ, List, true, IfOk, MatchResult, length};
ghost use Rattle.blif_syntax.specs.declared.models.Model.{Model};
ghost use Rattle.net_core.specs.declared.source.Source.{Source};
ghost use Rattle.ste_program.specs.Info.{IsInfo, count_line, free_below, info_text, is_free_source};
ghost use Rattle.ste_program.specs.Netlist.{IsNetlist};
ghost use Rattle.ste_program.specs.Order.{IsFirstRefusal, info_stages};
ghost use Rattle.ste_program.specs.Report.{greatest};
ghost use Rattle.ste_program.specs.private.Made.{IsNetOf};
ghost use Rattle.ste_program.specs.private.Texts.{OrMemory};

use crate::netlist::{FlatNet, netlist_of};
use crate::refusal::Refusal;
use crate::report::Written;
use net_core::{Net, Source};
use std::alloc::{AllocError, Global};
use ste_base::NodeId;

/// Whether this is the source of a free net.
fn is_free_source(source: Source) -> bool
    ensures { result ≡ is_free_source source }
{
    matches!(source, Source::Free)
}

/// How many nets are free.
fn free_nets(net: &Net) -> u32
    ensures { result ≡ free_below net.now.raw net.now.raw.nets }
{
    let mut count = 0;
    let mut id = 0;
    while id < net.nets() {
        if is_free_source(net.source(NodeId(id))) {
            count += 1;
        }
        id += 1;
    }
    count
}

/// Puts a line with a word and a number behind a text.
pub fn put_count(
    alloc: Global,
    text: &mut Vec<u8>,
    word: &[u8],
    count: usize,
) -> Result<(), AllocError>
    ensures { IfOk result (λ _. text.new.items ≡ text.old.items ++ count_line word.now count) }
{
    let number = format!(in alloc; "{count}")?;
    text.extend_from_slice(word)?;
    text.extend_from_slice(b" ")?;
    text.extend_from_slice(number.as_bytes())?;
    text.extend_from_slice(b"\n")?;
    Ok(())
}

/// The counts of a net, behind the name of the top model.
fn info_text(alloc: Global, name: &[u8], net: &Net) -> Result<Vec<u8>, AllocError>
    ensures { IfOk result (λ text. text.items ≡ info_text name.now net.now.raw) }
{
    let mut text = b"model ".to_vec(alloc)?;
    text.extend_from_slice(name)?;
    text.extend_from_slice(b"\n")?;
    put_count(alloc, &mut text, b"nets", net.nets() as usize)?;
    put_count(alloc, &mut text, b"inputs", net.inputs().len())?;
    put_count(alloc, &mut text, b"free", free_nets(net) as usize)?;
    put_count(alloc, &mut text, b"gates", net.gates().len())?;
    put_count(alloc, &mut text, b"latches", net.latches().len())?;
    Ok(text)
}

/// What `info` writes on a flat net with the names of its nets.
fn counts_of(alloc: Global, flat: &FlatNet) -> Result<Written, Refusal>
    ensures { (text : List ℕ) (models : List Model) → IsNetlist text models →
        IsNetOf models flat.now.net.raw flat.now.names → MatchResult result
        (λ report. (report.passes ≡ true) × IsInfo text report.bytes)
        (λ found. OrMemory (IsFirstRefusal (info_stages text)) found) }
{
    let bytes = info_text(alloc, flat.names.top().bytes(), &flat.net)?;
    Ok(Written {
        bytes: bytes.into(),
        passes: true,
    })
}

/// What `info` writes on the text of a netlist.
pub fn info(alloc: Global, text: Vec<u8>) -> Result<Written, Refusal>
    requires { length text.items ≤ greatest }
    ensures { MatchResult result
        (λ report. (report.passes ≡ true) × IsInfo text.items report.bytes)
        (λ found. OrMemory (IsFirstRefusal (info_stages text.items)) found) }
{
    let flat = netlist_of(alloc, text)?;
    counts_of(alloc, &flat)
}
