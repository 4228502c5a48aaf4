//! How many bits of a run an assertion leaves open; begin with `choices`.

ghost use Rattle.std.specs.Prelude.{◌≡◌, ◌+◌, ◌^◌, ◌<◌, ◌≤◌, Some, length};
ghost use Rattle.net_core.specs.Source.{source_of};
ghost use Rattle.exact_model.specs.Choices.{choices, is_first_choice, is_open, starts_free};
ghost use Rattle.exact_engine.specs.private.Counts.{first_count, open_count};

use net_core::{Init, Latch, Net, Source};
use ste_base::NodeId;
use ste_model::{Assertion, depth};

/// Whether a net is an input or free.
pub fn is_open(net: &Net, node: NodeId) -> bool
    requires { node.0 < net.now.raw.nets }
    ensures { result ≡ is_open (source_of net.now.raw node.0) }
{
    match net.source(node) {
        Source::Input => true,
        Source::Free => true,
        Source::Gate(_) => false,
        Source::Latch(_) => false,
    }
}

/// Whether a latch may start with either bit.
pub fn starts_free(reset: bool, latch: Latch) -> bool
    ensures { result ≡ starts_free reset (Some latch) }
{
    if !reset {
        return true;
    }
    match latch.init {
        Init::Free => true,
        Init::Zero => false,
        Init::One => false,
    }
}

/// Whether a net is the output of a latch that may start with either bit.
pub fn is_first_choice(net: &Net, reset: bool, node: NodeId) -> bool
    requires { node.0 < net.now.raw.nets }
    ensures { result ≡ is_first_choice net.now.raw reset (source_of net.now.raw node.0) }
{
    let Source::Latch(number) = net.source(node) else {
        return false;
    };
    match net.latches().get(number as usize) {
        Some(latch) => starts_free(reset, *latch),
        None => false,
    }
}

/// The number of latches that may start with either bit.
pub fn first_count(net: &Net, reset: bool) -> u32
    ensures { result ≡ first_count net.now.raw reset }
{
    let mut count = 0;
    for id in 0..net.nets() {
        if is_first_choice(net, reset, NodeId(id)) {
            count += 1;
        }
    }
    count
}

/// The number of inputs and free nets.
pub fn open_count(net: &Net) -> u32
    ensures { result ≡ open_count net.now.raw }
{
    let mut count = 0;
    for id in 0..net.nets() {
        if is_open(net, NodeId(id)) {
            count += 1;
        }
    }
    count
}

/// How many choices an assertion leaves open on a net: the bits of a run that are free. These are
/// the first values of the latches that may start with either bit, and at each time below the depth
/// the bits of the inputs and free nets. It takes no memory, and its time is linear in the number
/// of nets and quintuples.
pub fn choices(net: &Net, task: &Assertion) -> u64
    ensures exact { result ≡ length (choices net.now.raw task.now) }

    // The variables of a file can be counted with them.
    ensures few { result + 2 ^ 32 ≤ 2 ^ 64 }
{
    let first = first_count(net, task.reset) as u64;
    let each = open_count(net) as u64;
    first + depth(task) as u64 * each
}
