//! The net of a netlist's text: `net_of`.

use blif_lines::logical_lines;
use blif_syntax::read_models;
use flat_net::flatten;
use net_core::{Net, order};
use std::alloc::Global;
use std::test::Fail;

/// The net of a short text.
#[tactic(auto, using(blif_syntax::proofs::Fit::words_fit))]
pub(crate) fn net_of(alloc: Global, text: &str) -> Result<Net, Fail> {
    let text = text.as_bytes();
    if text.len() > 1000 {
        return Err("a long text".into());
    }
    let lines = logical_lines(alloc, text)?;
    let Ok(models) = read_models(alloc, lines.as_slice()) else {
        return Err("no models".into());
    };
    let (raw, _) = match flatten(alloc, &models) {
        Ok(made) => made,
        Err(_) => return Err("no flat net".into()),
    };
    match order(alloc, raw) {
        Ok(net) => Ok(net),
        Err(_) => Err("no order".into()),
    }
}
