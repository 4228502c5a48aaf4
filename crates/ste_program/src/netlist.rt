//! From the text of a netlist to its flat net: begin with `netlist_of`.
ghost use Rattle.std.specs.Prelude.{◌≡◌, ◌≤◌, List, MatchResult, length};
ghost use Rattle.blif_syntax.specs.declared.models.Model.{Model};
ghost use Rattle.blif_syntax.specs.Covered.{AreCovered};
ghost use Rattle.ste_program.specs.Netlist.{IsAigNetlist, IsBlifNetlist, IsNetlist, is_aag};
ghost use Rattle.ste_program.specs.Order.{IsFirstRefusal, info_stages, is_faulty, is_faulty_aig, is_faulty_blif};
ghost use Rattle.ste_program.specs.Report.{greatest};
ghost use Rattle.ste_program.specs.private.Made.{HasNoNet, IsNetOf};
ghost use Rattle.ste_program.specs.private.Texts.{OrMemory};

use crate::refusal::Refusal;
use aig_reader::read_aig;
use blif_lines::logical_lines;
use blif_syntax::{Models, read_models};
use flat_net::flatten;
use net_core::{Net, OrderFault, order};
use net_names::NetNames;
use std::alloc::Global;

/// Whether the text of a netlist is ASCII AIGER.
fn is_aag(text: &[u8]) -> bool
    ensures { result ≡ is_aag text.now }
{
    text.starts_with(b"aag ")
}

/// The model that an AIGER text spells.
fn aig_models_of(alloc: Global, text: &[u8]) -> Result<Models, Refusal>
    requires { length text.now ≤ greatest }
    ensures { MatchResult result
        (λ models. IsAigNetlist text.now models.models × AreCovered models.models)
        (λ found. OrMemory (is_faulty_aig text.now) found) }
{
    Ok(read_aig(alloc, text)?)
}

/// The models that a text spells as BLIF. The text is dropped once its lines are there.
fn blif_models_of(alloc: Global, text: Vec<u8>) -> Result<Models, Refusal>
    requires { length text.items ≤ greatest }
    ensures { MatchResult result
        (λ models. IsBlifNetlist text.items models.models × AreCovered models.models)
        (λ found. OrMemory (is_faulty_blif text.items) found) }
{
    let lines = logical_lines(alloc, &text)?;
    drop(text);
    Ok(read_models(alloc, lines.as_slice())?)
}

/// The models that the text of a netlist spells.
pub fn models_of(alloc: Global, text: Vec<u8>) -> Result<Models, Refusal>
    requires { length text.items ≤ greatest }
    ensures { MatchResult result
        (λ models. IsNetlist text.items models.models × AreCovered models.models)
        (λ found. OrMemory (is_faulty text.items) found) }
{
    if is_aag(&text) {
        aig_models_of(alloc, &text)
    } else {
        blif_models_of(alloc, text)
    }
}

/// A flat net in a settled order, and the names of its nets.
#[derive(Drop)]
pub struct FlatNet {
    pub net: Net,
    pub names: NetNames,
}

/// The flat net of a netlist. The models are dropped once it is there.
pub fn net_of(alloc: Global, models: Models) -> Result<FlatNet, Refusal>
    requires { AreCovered models.models }
    ensures { MatchResult result
        (λ flat. IsNetOf models.models flat.net.raw flat.names)
        (λ found. OrMemory (HasNoNet models.models) found) }
{
    let (raw, names) = flatten(alloc, &models)?;
    drop(models);
    match order(alloc, raw) {
        Ok(net) => Ok(FlatNet { net, names }),
        Err(OrderFault::Loop { net }) => Err(Refusal::Loop(names.name(net).clone()?)),
        Err(OrderFault::OutOfMemory) => Err(Refusal::OutOfMemory),
    }
}

/// The flat net of the netlist that a text spells.
pub fn netlist_of(alloc: Global, text: Vec<u8>) -> Result<FlatNet, Refusal>
    requires { length text.items ≤ greatest }
    ensures { MatchResult result
        (λ flat. (models : List Model) × IsNetlist text.items models
        × IsNetOf models flat.net.raw flat.names)
        (λ found. OrMemory (IsFirstRefusal (info_stages text.items)) found) }
{
    let models = models_of(alloc, text)?;
    net_of(alloc, models)
}
