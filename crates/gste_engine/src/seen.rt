//! The sets of the nets that consequents name; begin with `seen_by`.

ghost use Rattle.std.specs.Prelude.{◌≡◌, IfOk, length, map};
ghost use Rattle.sym_step.specs.Frame.{nets_of};
ghost use Rattle.gste_engine.specs.private.Seen.{rails_of};

use dual_rail::{Rails, free};
use net_core::Net;
use std::alloc::{AllocError, Global};
use ste_base::Items;
use ste_model::Bind;
use sym_step::Frame;

/// The set of the net that a binding names, at the time of a frame, or both bits where there is no
/// such net.
fn rails_of(net: &Net, frame: &Frame, bind: &Bind) -> Rails
    requires { length (nets_of frame.now) ≡ net.now.raw.nets }
    ensures { result ≡ rails_of (nets_of frame.now) bind.now }
{
    if bind.node.0 >= net.nets() {
        return free();
    }
    frame.rails(bind.node)
}

/// The sets of the nets that these bindings name, at the time of a frame, in order.
pub fn seen_by(
    alloc: Global,
    net: &Net,
    frame: &Frame,
    binds: &[Bind],
) -> Result<Items<Rails>, AllocError>
    requires { length (nets_of frame.now) ≡ net.now.raw.nets }
    ensures { IfOk result (λ seen. seen ≡ map (rails_of (nets_of frame.now)) binds.now) }
{
    let mut seen = Vec::with_capacity(alloc, binds.len())?;
    for bind in binds {
        seen.push(rails_of(net, frame, bind))?;
    }
    Ok(Items::from(seen))
}
