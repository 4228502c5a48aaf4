//! The inputs and free nets of a net; begin with `undriven_nets`.

ghost use Rattle.std.specs.Prelude.{◌≡◌, ◌<◌, map, IfOk};
ghost use Rattle.clock_step.specs.Order.{is_undriven};
ghost use Rattle.counter_run.specs.Undriven.{undriven_nets};

use net_core::{Net, Source};
use std::alloc::{AllocError, Global};
use ste_base::NodeId;

/// Whether a net is an input or free.
fn is_undriven(net: &Net, node: NodeId) -> bool
    requires { node.0 < net.now.raw.nets }
    ensures { result ≡ is_undriven net.now.raw node.0 }
{
    match net.source(node) {
        Source::Input => true,
        Source::Free => true,
        Source::Gate(_) => false,
        Source::Latch(_) => false,
    }
}

/// The inputs and free nets, in the order of their numbers.
pub fn undriven_nets(alloc: Global, net: &Net) -> Result<Vec<NodeId>, AllocError>
    ensures { IfOk result (λ nodes. nodes.items ≡ undriven_nets net.now.raw) }
{
    let mut nodes = Vec::new(alloc);
    for id in 0..net.nets() {
        if is_undriven(net, NodeId(id)) {
            nodes.push(NodeId(id))?;
        }
    }
    Ok(nodes)
}
