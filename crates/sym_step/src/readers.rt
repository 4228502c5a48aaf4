//! Which gates and latches look at a net, and marks for those that are due; begin with `Readers`.

ghost use Rattle.std.specs.Prelude.{◌≡◌, ◌≢◌, ◌<◌, ◌+◌, ◌-◌, ◌^◌, ℕ, All, fold, min, IfOk, IfSome, None, OnOk, Some, [], false, length, slice_index_or};
ghost use Rattle.sym_step.specs.private.Readers.{AreAdded, AreGates, AreLatches, AreMarked, AreReaders, IsBetween, IsLink, Lists, ReadsAs, driver_number, head_of, slot_of};

use crate::marks::Marks;
use gate_sets::Compiled;
use net_core::{Gate, Latch, Source};
use std::alloc::{AllocError, Global};
use ste_base::NodeId;

/// A number in the list of a net, and the link to the next slot of this list. A link is 0 at the
/// end of a list, or else one more than the place of a slot.
#[derive(Clone, Copy, Drop)]
pub struct Slot {
    number: u32,
    next: u32,
}

/// For each net a list of numbers of gates and latches, as of those that read it: a latch's number
/// is that among the latches, counted on from the number of gates. All lists are chains through one
/// vector of slots, and `heads` has the link to the first slot of each net's list. Where there are
/// no heads, no net has a number in its list.
#[derive(Drop)]
pub struct Readers {
    heads: Vec<u32>,
    slots: Vec<Slot>,
}

/// The number of inputs and outputs of all gates, or the greatest number where they are more.
fn ends(gates: &[Gate]) -> usize
    ensures { result ≡ fold (λ sum gate. min (sum + length gate.inputs) (2 ^ 64 - 1))
        (length gates.now) gates.now }
{
    gates.iter().fold(
        gates.len(),
        |sum, gate| sum.saturating_add(gate.inputs.len()),
    )
}

impl Readers {
    /// No lists.
    pub fn none(alloc: Global) -> Readers
        ensures heads { result.heads.items ≡ [] }
        ensures slots { result.slots.items ≡ [] }
    {
        Readers {
            heads: Vec::new(alloc),
            slots: Vec::new(alloc),
        }
    }

    /// Adds a number to the list of a net. More slots than there are links are refused as too much
    /// memory.
    fn add(&mut self, id: u32, number: u32) -> Result<(), AllocError>
        requires { id < length self.old.heads.items }
        ensures added { OnOk result (AreAdded self.old self.new) }
        ensures here { OnOk result (Lists self.new id number) }
    {
        let Ok(link) = u32::try_from(self.slots.len() + 1) else {
            return Err(AllocError);
        };
        let at = id as usize;
        let next = self.heads[at];
        self.slots.push(Slot { number, next })?;
        self.heads[at] = link;
        Ok(())
    }

    /// Adds a number to the lists of these nets.
    fn add_each(&mut self, ids: &[NodeId], number: u32) -> Result<(), AllocError>
        requires { All (λ node. node.0 < length self.old.heads.items) ids.now }
        ensures added { OnOk result (AreAdded self.old self.new) }
        ensures here { OnOk result (All (λ node. Lists self.new node.0 number) ids.now) }
    {
        for node in ids {
            self.add(node.0, number)?;
        }
        Ok(())
    }

    /// Adds the number of a gate to the lists of its inputs and of its output.
    fn add_gate(&mut self, gate: &Gate, number: u32) -> Result<(), AllocError>
        requires inputs { All (λ node. node.0 < length self.old.heads.items) gate.now.inputs }
        requires output { gate.now.output.0 < length self.old.heads.items }
        ensures added { OnOk result (AreAdded self.old self.new) }
        ensures here { OnOk result (ReadsAs self.new number gate.now) }
    {
        self.add_each(gate.inputs.as_slice(), number)?;
        self.add(gate.output.0, number)?;
        Ok(())
    }

    /// Adds the number of a latch to the lists of its input and of its output.
    fn add_latch(&mut self, latch: &Latch, number: u32) -> Result<(), AllocError>
        requires input { latch.now.input.0 < length self.old.heads.items }
        requires output { latch.now.output.0 < length self.old.heads.items }
        ensures added { OnOk result (AreAdded self.old self.new) }
        ensures here { OnOk result (IsBetween self.new number latch.now) }
    {
        self.add(latch.input.0, number)?;
        self.add(latch.output.0, number)?;
        Ok(())
    }

    /// Adds the numbers of all gates to their lists.
    fn add_gates(&mut self, net: &Compiled) -> Result<(), AllocError>
        requires nets { length self.old.heads.items ≡ net.now.raw.nets }
        requires few { length net.now.raw.gates < 2 ^ 32 }
        ensures added { OnOk result (AreAdded self.old self.new) }
        ensures here { OnOk result (AreGates net.now.raw self.new) }
    {
        let gates = net.gates();
        for number in 0..gates.len() {
            self.add_gate(&gates[number], number as u32)?;
        }
        Ok(())
    }

    /// Adds the numbers of all latches, which come behind those of the gates, to their lists.
    fn add_latches(&mut self, net: &Compiled) -> Result<(), AllocError>
        requires nets { length self.old.heads.items ≡ net.now.raw.nets }
        requires few { length net.now.raw.gates + length net.now.raw.latches < 2 ^ 32 }
        ensures added { OnOk result (AreAdded self.old self.new) }
        ensures here { OnOk result (AreLatches net.now.raw self.new) }
    {
        let gates = net.gates().len();
        let latches = net.latches();
        for number in 0..latches.len() {
            self.add_latch(&latches[number], (gates + number) as u32)?;
        }
        Ok(())
    }

    /// For each net the gates and latches that read it, and the one that drives it.
    pub fn of_net(alloc: Global, net: &Compiled) -> Result<Readers, AllocError>
        ensures { IfOk result (λ readers. AreReaders net.now.raw readers) }
    {
        let heads = vec![in alloc; 0; net.nets() as usize]?;
        let latches = net.latches().len();
        let count = ends(net.gates())
            .saturating_add(latches)
            .saturating_add(latches);
        let slots = Vec::with_capacity(alloc, count)?;
        let mut readers = Readers { heads, slots };
        readers.add_gates(net)?;
        readers.add_latches(net)?;
        Ok(readers)
    }

    /// The link to the first slot of the list of a net.
    fn head(&self, id: u32) -> u32
        ensures { result ≡ head_of self.now id }
    {
        match self.heads.get(id as usize) {
            Some(head) => *head,
            None => 0,
        }
    }

    /// The slot that a link names.
    fn slot(&self, link: u32) -> Option<Slot>
        ensures some { IfSome result (λ slot. IsLink self.now.slots.items link
            × (slot ≡ slot_of self.now.slots.items link)) }
        ensures none { result ≡ None → ¬ IsLink self.now.slots.items link }
    {
        if link == 0 {
            return None;
        }
        self.slots.get(link as usize - 1).copied()
    }

    /// Marks the gates and latches in the list of a net.
    pub fn mark(&self, id: u32, due: &mut Marks)
        ensures long { length due.new.flags.items ≡ length due.old.flags.items }
        ensures order { due.new.order ≡ due.old.order }
        ensures marked { AreMarked (λ k. ¬ Lists self.now id k)
            due.old.flags.items due.new.flags.items }
    {
        let mut link = self.head(id);
        for _ in 0..self.slots.len() {
            let Some(slot) = self.slot(link) else {
                return;
            };
            due.mark(slot.number as usize);
            link = slot.next;
        }
    }
}

/// The number of the gate or the latch that drives a net.
fn driver(net: &Compiled, id: NodeId) -> Option<usize>
    requires { id.0 < net.now.raw.nets }
    ensures { result ≡ driver_number net.now.raw id.0 }
{
    match net.source(id) {
        Source::Gate(number) => Some(number as usize),
        Source::Latch(number) => Some(net.gates().len() + number as usize),
        Source::Input => None,
        Source::Free => None,
    }
}

/// Marks the gate or the latch that drives a net, where one does.
fn mark_driver(net: &Compiled, id: NodeId, due: &mut Marks)
    requires { id.0 < net.now.raw.nets }
    ensures long { length due.new.flags.items ≡ length due.old.flags.items }
    ensures order { due.new.order ≡ due.old.order }
    ensures marked { AreMarked (λ k. driver_number net.now.raw id.0 ≢ Some k)
        due.old.flags.items due.new.flags.items }
{
    let Some(number) = driver(net, id) else {
        return;
    };
    due.mark(number);
}

/// Marks the gates and latches that drive these nets.
pub fn mark_drivers(net: &Compiled, ids: &[NodeId], due: &mut Marks)
    requires { All (λ node. node.0 < net.now.raw.nets) ids.now }
    ensures long { length due.new.flags.items ≡ length due.old.flags.items }
    ensures order { due.new.order ≡ due.old.order }
    ensures marked { AreMarked
        (λ k. All (λ node. driver_number net.now.raw node.0 ≢ Some k) ids.now)
        due.old.flags.items due.new.flags.items }
{
    for node in ids {
        mark_driver(net, *node, due);
    }
}
