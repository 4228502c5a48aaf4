//! Flat nets in a settled (topological) order; begin with `order`.

ghost use Rattle.std.specs.Prelude.{◌≡◌, ◌<◌, Err, Some, length, not, position, IfOk, OnOk, slice_get};
ghost use Rattle.net_core.specs.Run.{IsSettled};
ghost use Rattle.net_core.specs.Source.{AreSources, source_of};
ghost use Rattle.net_core.specs.Flat.{IsInRange, HasOneDriver, IsSettledOrder};
ghost use Rattle.net_core.specs.Loop.{IsLeastUnsettled};
ghost use Rattle.net_core.specs.declared.fault.OrderFault.TheVariants.{Loop};
ghost use Rattle.ste_base.specs.declared.id.NodeId.{NodeId};

use crate::cover::Cover;
use crate::fault::OrderFault;
use crate::raw::{Gate, Latch, RawNet};
use crate::search::run_search;
use crate::source::Source;
use crate::sources::sources_of;
use std::alloc::Global;
use ste_base::{Items, NodeId};

/// A flat net in which every number is in range, each net has one driver at most, and the gates
/// have a settled order.
/// It keeps that order, and a table of what drives each net.
#[derive(Drop)]
pub struct Net {
    raw: RawNet,
    settled: Items<u32>,
    sources: Items<Source>,
    ghost in_range: { IsInRange raw },
    ghost one_driver: { HasOneDriver raw },
    ghost in_order: { IsSettledOrder raw settled },
    ghost sourced: { AreSources raw sources },
}

impl Net {
    /// The number of nets. Like all that follow it takes no memory.
    pub fn nets(&self) -> u32
        ensures { result ≡ self.now.raw.nets }
    {
        self.raw.nets
    }

    /// The inputs, in order.
    pub fn inputs(&self) -> &[NodeId]
        ensures { result.now ≡ self.now.raw.inputs }
    {
        self.raw.inputs.as_slice()
    }

    /// The outputs, in order.
    pub fn outputs(&self) -> &[NodeId]
        ensures { result.now ≡ self.now.raw.outputs }
    {
        self.raw.outputs.as_slice()
    }

    /// The gates, by number.
    pub fn gates(&self) -> &[Gate]
        ensures { result.now ≡ self.now.raw.gates }
    {
        self.raw.gates.as_slice()
    }

    /// The latches, by number.
    pub fn latches(&self) -> &[Latch]
        ensures { result.now ≡ self.now.raw.latches }
    {
        self.raw.latches.as_slice()
    }

    /// The covers, by number.
    pub fn covers(&self) -> &[Cover]
        ensures { result.now ≡ self.now.raw.covers }
    {
        self.raw.covers.as_slice()
    }

    /// The cover of this number.
    pub fn cover(&self, number: u32) -> &Cover
        requires { number < length self.now.raw.covers }
        ensures { slice_get self.now.raw.covers number ≡ Some result.now }
    {
        &self.raw.covers.as_slice()[number as usize]
    }

    /// What drives a net.
    pub fn source(&self, id: NodeId) -> Source
        requires { id.0 < self.now.raw.nets }
        ensures { result ≡ source_of self.now.raw id.0 }
    {
        self.sources.as_slice()[id.0 as usize]
    }

    /// The gates' numbers in an order in which each gate follows those that drive its inputs.
    pub fn settled(&self) -> &[u32]
        ensures same { result.now ≡ self.now.settled }
        ensures order { IsSettledOrder self.now.raw result.now }
    {
        self.settled.as_slice()
    }
}

/// Law: in a `Net` there is no loop of gates.
pub fn settles(net: &Net)
    ensures { IsSettled net.now.raw }
{
    let _ = net;
}

/// The first net that is not marked.
fn first_unsettled(marks: &[bool]) -> Option<usize>
    ensures { result ≡ position not marks.now }
{
    marks.iter().position(|mark| !*mark)
}

/// The net in a settled order, or the least net that does not settle. The time is linear in the
/// net's size.
pub fn order(alloc: Global, raw: RawNet) -> Result<Net, OrderFault>
    requires in_range { IsInRange raw }
    requires one_driver { HasOneDriver raw }
    ensures same { IfOk result (λ net. net.raw ≡ raw) }
    ensures settles { OnOk result (IsSettled raw) }
    ensures looped { (net : NodeId) → result ≡ Err (Loop net) → IsLeastUnsettled raw net.0 }
{
    let sources = sources_of(alloc, &raw)?;
    let search = run_search(alloc, &raw)?;
    match first_unsettled(search.marks.as_slice()) {
        Some(net) => Err(OrderFault::Loop {
            net: NodeId(net as u32),
        }),
        None => Ok(Net {
            raw,
            settled: search.order,
            sources,
        }),
    }
}
