//! The sets of all nets, with marks for the gates and latches that read another set than before.
//! Begin with `put` of `Board`, by which alone a net gets a set.

ghost use Rattle.std.specs.Prelude.{◌≡◌, ◌<◌, IsTrue, length, set};
ghost use Rattle.sym_step.specs.private.Boards.{Follows};

use crate::marks::Marks;
use crate::readers::Readers;
use dd_nodes::Ref;
use gate_sets::NetRails;

/// The sets of all nets; a mark for each gate, and behind these one for each latch, of which an
/// input or the output has got another set; for each net which gates and latches these are; and
/// whether all nets have a bit everywhere, which is so where `full` says it.
#[derive(Drop)]
pub struct Board {
    pub nets: Vec<NetRails>,
    pub due: Marks,
    pub readers: Readers,
    pub full: bool,
}

/// Whether both are the same references.
pub fn are_same(a: NetRails, b: NetRails) -> bool
    ensures { IsTrue result → a ≡ b }
{
    a.can0 == b.can0 && a.can1 == b.can1 && a.some == b.some && a.known == b.known
}

/// Whether all nets have a bit everywhere, where they had before as far as was known, and one more
/// has this set.
fn stays_full(full: bool, r: NetRails) -> bool
    ensures { IsTrue result → IsTrue full × (r.some ≡ Ref.TRUE) }
{
    full && r.some == Ref::TRUE
}

impl Board {
    /// Gives a net its set. Where it is another than before, the gates and latches that read the
    /// net, or drive it, are due.
    pub fn put(&mut self, id: u32, r: NetRails)
        requires { id < length self.old.nets.items }
        ensures nets { self.new.nets.items ≡ set self.old.nets.items id r }
        ensures follows { Follows self.old self.new }
    {
        let at = id as usize;
        let same = are_same(r, self.nets[at]);
        self.nets[at] = r;
        self.full = stays_full(self.full, r);
        if same {
            return;
        }
        self.readers.mark(id, &mut self.due);
    }
}
