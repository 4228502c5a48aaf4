//! The names of the nets of a netlist; begin with `names_of`.

ghost use Rattle.std.specs.Prelude.{◌≡◌, ◌≤◌, length};

use blif_lines::logical_lines;
use blif_syntax::read_models;
use flat_net::flatten;
use net_names::NetNames;
use std::alloc::Global;
use std::test::Fail;

/// The names of nets, and how many there are.
#[derive(Drop)]
pub struct Names {
    pub own: NetNames,
    pub nets: u32,
    ghost named: { length own.own ≡ nets },
}

/// The names of the nets of a text.
#[tactic(auto, using(blif_syntax::proofs::Fit::words_fit))]
pub fn names_of(alloc: Global, text: &[u8]) -> Result<Names, Fail>
    requires { length text.now ≤ 20000 }
{
    let lines = logical_lines(alloc, text)?;
    let Ok(models) = read_models(alloc, lines.as_slice()) else {
        return Err("no models".into());
    };
    match flatten(alloc, &models) {
        Ok((raw, own)) => Ok(Names {
            own,
            nets: raw.nets,
        }),
        Err(_) => Err("no flat net".into()),
    }
}
