//! What is kept of one time for the next, and which gates and latches are due; begin with `Frame`.
//! `make_due` begins a time. The lists by which a change finds those that read it are in
//! `readers.rt`, the marks of what is due in `marks.rt`.

ghost use Rattle.std.specs.Prelude.{◌≡◌, ◌<◌, ◌≤◌, ℕ, IfOk, IfSome, IsTrue, OnOk, All, [], false, length, map, replicate};
ghost use Rattle.dd_nodes.specs.Diagram.{IsDiagram};
ghost use Rattle.dd_nodes.specs.Stores.{Store};
ghost use Rattle.net_core.specs.declared.raw.RawNet.{RawNet};
ghost use Rattle.dual_rail.specs.Rail.{AreRefs};
ghost use Rattle.sym_step.specs.Step.{rails_at};
ghost use Rattle.sym_step.specs.private.Boards.{AreFull};
ghost use Rattle.sym_step.specs.private.Demands.{nodes_of};
ghost use Rattle.sym_step.specs.Frame.{IsFrame, input_rails, nets_of, next_of};
ghost use Rattle.sym_step.specs.private.Frames.{AreCarried, AreReady, AreSpared};
ghost use Rattle.sym_step.specs.private.Readers.{AreReaders};

use crate::board::Board;
use crate::cut::Cut;
use crate::demands::Demands;
use crate::marks::Marks;
use crate::readers::{Readers, mark_drivers};
use crate::vectors::Vectors;
use dd_nodes::Ref;
use dual_rail::Rails;
use gate_sets::{Compiled, NetRails};
use net_core::{Gate, Latch, Net};
use std::alloc::{AllocError, Global};
use ste_base::{Items, NodeId};

/// What is kept of one time for the next: the set of each net, the list of the nets that were cut
/// or weakened, and marks for gates and latches that are due; beside them room for the products of
/// a row, and before a first time the sets of the latches there. In a blank frame all nets have
/// both bits, and all gates and latches are due. Once times go on from one another it is listed
/// which gates and latches read a net or drive it, and one is due only where an input or its output
/// has another set than before, or its output is cut or weakened now or was before; any other keeps
/// its output's set. A frame that begins anew has its lists put aside (`spare`). `vectors` are used
/// again at each time.
#[derive(Drop)]
pub struct Frame {
    pub(crate) board: Board,
    pub(crate) asked: Vec<NodeId>,
    pub(crate) products: Vec<Ref>,
    pub(crate) first: Option<Items<Rails>>,
    pub(crate) spare: Option<Readers>,
    pub(crate) begun: bool,
    pub(crate) listed: bool,
    pub(crate) vectors: Vectors,
}

/// As many nets, each with both bits.
fn all_free(nets: Vec<NetRails>) -> Vec<NetRails>
    ensures { result.items ≡ replicate (length nets.items)
        (record { can0 = Ref.TRUE; can1 = Ref.TRUE; some = Ref.TRUE; known = false }) }
{
    let mut nets = nets;
    nets.fill(NetRails::free());
    nets
}

/// No net, in the memory of these.
fn none_asked(asked: Vec<NodeId>) -> Vec<NodeId>
    ensures { result.items ≡ [] }
{
    let mut none = asked;
    none.clear();
    none
}

/// The lists that a frame lays by when it begins anew: those that it has, where they are made.
fn laid_by(listed: bool, readers: Readers, spare: Option<Readers>) -> Option<Readers>
    ensures { (net : RawNet) → (IsTrue listed → AreReaders net readers)
        → IfSome spare (AreReaders net) → IfSome result (AreReaders net) }
{
    if listed {
        return Some(readers);
    }
    spare
}

impl Frame {
    /// A frame of no time, of which nothing is kept.
    pub fn blank(alloc: Global, net: &Net) -> Result<Frame, AllocError>
        ensures { IfOk result (λ frame. (s : Store)
            → IsDiagram s.held s.vars → IsFrame s net.now.raw frame) }
    {
        let nets = vec![in alloc; NetRails::free(); net.nets() as usize]?;
        let due = Marks::all(
            alloc,
            net.settled(),
            net.gates().len() + net.latches().len(),
        )?;
        let products = room(alloc, net.gates())?;
        let board = Board {
            nets,
            due,
            readers: Readers::none(alloc),
            full: false,
        };
        Ok(Frame {
            board,
            asked: Vec::new(alloc),
            products,
            first: None,
            spare: None,
            begun: false,
            listed: false,
            vectors: Vectors::none(alloc),
        })
    }

    /// A frame before a first time, at which the latches have these sets.
    pub fn starting(alloc: Global, net: &Net, first: Items<Rails>) -> Result<Frame, AllocError>
        requires { length first ≡ length net.now.raw.latches }
        ensures frame { IfOk result (λ frame. (s : Store)
            → IsDiagram s.held s.vars → All (AreRefs s) first → IsFrame s net.now.raw frame) }
        ensures next { IfOk result (λ frame. next_of net.now.raw frame ≡ first) }
    {
        let mut frame = Frame::blank(alloc, net)?;
        frame.first = Some(first);
        Ok(frame)
    }

    /// This frame before a first time, at which the latches have these sets. What the frame keeps
    /// is not evaluated again.
    pub fn before_first_time(mut self, first: Items<Rails>) -> Frame
        ensures frame { (s : Store) (net : RawNet) → IsFrame s net self
            → length first ≡ length net.latches → All (AreRefs s) first → IsFrame s net result }
        ensures next { (net : RawNet) → next_of net result ≡ first }
    {
        self.first = Some(first);
        self
    }

    /// This frame as one of no time, with its memory and its lists.
    pub fn into_blank(self, alloc: Global) -> Frame
        ensures { (s : Store) (net : RawNet) → IsDiagram s.held s.vars → IsFrame s net self
            → IsFrame s net result }
    {
        let Frame {
            board,
            asked,
            products,
            first: _,
            spare,
            begun: _,
            listed,
            vectors,
        } = self;
        let Board {
            nets,
            due,
            readers,
            full: _,
        } = board;
        let board = Board {
            nets: all_free(nets),
            due: due.all_marked(),
            readers: Readers::none(alloc),
            full: false,
        };
        Frame {
            board,
            asked: none_asked(asked),
            products,
            first: None,
            spare: laid_by(listed, readers, spare),
            begun: false,
            listed: false,
            vectors,
        }
    }

    /// The set of a net at the time of the frame.
    pub fn rails(&self, node: NodeId) -> Rails
        requires { node.0 < length (nets_of self.now) }
        ensures { result ≡ rails_at (nets_of self.now) node.0 }
    {
        self.board.nets[node.0 as usize].rails()
    }
}

/// The greatest number of inputs of a gate.
fn widest(gates: &[Gate]) -> usize
    ensures { All (λ gate. length gate.inputs ≤ result) gates.now }
{
    let mut most = 0;
    for gate in gates {
        most = most.max(gate.inputs.len());
    }
    most
}

/// Room for the products of the first literals of a row.
fn room(alloc: Global, gates: &[Gate]) -> Result<Vec<Ref>, AllocError>
    ensures { IfOk result (λ products.
        All (λ gate. length gate.inputs < length products.items) gates.now) }
{
    let mut products = vec![in alloc; Ref::FALSE; widest(gates)]?;
    products.push(Ref::FALSE)?;
    Ok(products)
}

/// The weakened nets, and behind them those of which there is a cut, in this memory.
pub fn asked_nets(
    used: Vec<NodeId>,
    weak: &[NodeId],
    cuts: &[Cut],
) -> Result<Vec<NodeId>, AllocError>
    ensures { IfOk result (λ ids. ids.items ≡ nodes_of weak.now cuts.now) }
{
    let mut ids = none_asked(used);
    for node in weak {
        ids.push(*node)?;
    }
    for c in cuts {
        ids.push(c.node)?;
    }
    Ok(ids)
}

/// The sets of the latches' inputs at the time of a frame.
pub fn own_sets(alloc: Global, frame: &Frame, latches: &[Latch]) -> Result<Items<Rails>, AllocError>
    requires { All (λ latch. latch.input.0 < length (nets_of frame.now)) latches.now }
    ensures { IfOk result (λ sets. sets ≡ map (input_rails (nets_of frame.now)) latches.now) }
{
    let mut found = Vec::with_capacity(alloc, latches.len())?;
    for latch in latches {
        found.push(frame.rails(latch.input))?;
    }
    Ok(Items::from(found))
}

/// The lists of a net: these, where there are some.
fn lists_of(alloc: Global, net: &Compiled, spare: Option<Readers>) -> Result<Readers, AllocError>
    ensures { IfOk result (λ readers. IfSome spare (AreReaders net.now.raw)
        → AreReaders net.now.raw readers) }
{
    match spare {
        Some(readers) => Ok(readers),
        None => Readers::of_net(alloc, net),
    }
}

/// Lists which gates and latches read a net or drive it, where times go on from one another. In a
/// blank frame all of them are due, and none is looked for.
fn with_lists(alloc: Global, net: &Compiled, frame: &mut Frame) -> Result<(), AllocError>
    ensures frame { OnOk result ((s : Store) → IsFrame s net.now.raw frame.old
        → IsFrame s net.now.raw frame.new × AreReady net.now.raw frame.new) }
    ensures asked { OnOk result (frame.new.asked ≡ frame.old.asked) }
    ensures first { OnOk result (frame.new.first ≡ frame.old.first) }
    ensures nets { OnOk result (frame.new.board.nets ≡ frame.old.board.nets) }
{
    if frame.listed {
        return Ok(());
    }
    if !frame.begun {
        return Ok(());
    }
    frame.board.readers = lists_of(alloc, net, frame.spare.take())?;
    frame.listed = true;
    Ok(())
}

/// Makes the gates and latches due that drive nets which are cut or weakened now, or were at the
/// time before.
pub fn make_due(
    alloc: Global,
    net: &Compiled,
    demands: &Demands,
    frame: &mut Frame,
) -> Result<(), AllocError>
    requires over { demands.now.nets ≡ net.now.raw.nets }
    requires before { All (λ node. node.0 < net.now.raw.nets) frame.old.asked.items }
    ensures frame { OnOk result ((s : Store) → IsFrame s net.now.raw frame.old
        → IsFrame s net.now.raw frame.new
        × AreSpared s net.now.raw (nodes_of demands.now.weak demands.now.cuts) frame.new.board
        × AreCarried net.now.raw (nodes_of demands.now.weak demands.now.cuts) frame.new.board) }
    ensures first { OnOk result (frame.new.first ≡ frame.old.first) }
    ensures nets { OnOk result (frame.new.board.nets ≡ frame.old.board.nets) }
{
    with_lists(alloc, net, frame)?;
    let before = frame.asked.as_slice();
    mark_drivers(net, before, &mut frame.board.due);
    mark_drivers(net, demands.nodes(), &mut frame.board.due);
    Ok(())
}

/// Whether each set has a bit everywhere, by its references.
fn are_full(nets: &[NetRails]) -> bool
    ensures { IsTrue result → AreFull nets.now }
{
    nets.iter().all(|r| r.some == Ref::TRUE)
}

/// Whether all nets have a bit everywhere; they are looked at only where it is not known.
pub fn knows_full(full: bool, nets: &[NetRails]) -> bool
    requires { IsTrue full → AreFull nets.now }
    ensures { IsTrue result → AreFull nets.now }
{
    full || are_full(nets)
}
