//! Which gates read each net; begin with `Readers`.

ghost use Rattle.std.specs.Prelude.{◌≡◌, ◌<◌, ◌+◌, ◌++◌, ◌∷◌, [], IfOk, OnOk, length, slice_index, slice_set};
ghost use Rattle.clock_step.specs.private.Readers.{AreChains, AreMarked, AreReaders};

use net_core::Net;
use std::alloc::{AllocError, Global};
use ste_base::NodeId;

/// For each net the gates that read it, by their places in the settled order. There is a slot for
/// each input of each gate, with the gate's place, and the slots for one net are a chain. A link is
/// one more than the number of a slot, or 0 at the end of a chain.
#[derive(Drop)]
pub struct Readers {
    /// By net: the link to the first slot of its chain.
    heads: Vec<usize>,
    /// By slot: the place of the gate.
    places: Vec<usize>,
    /// By slot: the link to the next slot of the chain.
    nexts: Vec<usize>,
}

impl Readers {
    /// Adds a slot in front of the chain of a net.
    fn add(&mut self, node: NodeId, place: usize) -> Result<(), AllocError>
        requires { node.0 < length self.old.heads.items }
        ensures heads { OnOk result (self.new.heads.items
            ≡ slice_set self.old.heads.items node.0 (length self.old.places.items + 1)) }
        ensures places { OnOk result (self.new.places.items
            ≡ self.old.places.items ++ place ∷ []) }
        ensures nexts { OnOk result (self.new.nexts.items
            ≡ self.old.nexts.items ++ slice_index self.old.heads.items node.0 ∷ []) }
    {
        let at = node.0 as usize;
        let head = self.heads[at];
        self.nexts.push(head)?;
        self.places.push(place)?;
        self.heads[at] = self.places.len();
        Ok(())
    }

    /// Adds a slot for each input of the gate at a place.
    fn add_gate(&mut self, net: &Net, place: usize) -> Result<(), AllocError>
        requires place { place < length net.now.settled }
        requires chains { AreChains net.now.raw net.now.settled place 0 self.old }
        ensures { OnOk result (AreChains net.now.raw net.now.settled (place + 1) 0 self.new) }
    {
        let number = net.settled()[place] as usize;
        let gate = &net.gates()[number];
        for input in gate.inputs.as_slice() {
            self.add(*input, place)?;
        }
        Ok(())
    }

    /// The gates that read each net.
    pub fn of_net(alloc: Global, net: &Net) -> Result<Readers, AllocError>
        ensures { IfOk result (λ readers. AreReaders net.now.raw net.now.settled readers) }
    {
        let mut readers = Readers {
            heads: vec![in alloc; 0; net.nets() as usize]?,
            places: Vec::new(alloc),
            nexts: Vec::new(alloc),
        };
        for place in 0..net.settled().len() {
            readers.add_gate(net, place)?;
        }
        Ok(readers)
    }

    /// Marks the gates that read a net. `net` is what contracts alone speak of.
    pub fn mark(&self, net: &Net, node: NodeId, due: &mut [bool])
        requires node { node.0 < net.now.raw.nets }
        requires readers { AreReaders net.now.raw net.now.settled self.now }
        requires due { length due.old ≡ length net.now.settled }
        ensures { AreMarked net.now.raw net.now.settled node.0 due.old due.new }
    {
        let _ = net;
        let mut link = self.heads[node.0 as usize];
        while link > 0 {
            let slot = link - 1;
            due[self.places[slot]] = true;
            link = self.nexts[slot];
        }
    }
}
