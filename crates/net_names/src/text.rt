//! Texts that are looked up among names; begin with `place_of`.

ghost use Rattle.std.specs.Prelude.{◌≡◌, bytes_eq, position};
ghost use Rattle.std.specs.Cmp.Lexicographic.{nat_list_eq_equiv};
ghost use Rattle.hierarchy.specs.Names.{is_slash};
ghost use Rattle.net_names.specs.private.Text.{same_hash};

use indexmap::{Equivalent, IndexSet};
use ste_base::Name;

/// The bytes of a name that is looked up.
#[derive(Clone, Copy, PartialEq, Eq, Hash)]
struct Text<'a> {
    bytes: &'a [u8],
}

impl<'a> Equivalent<Name> for Text<'a> {
    ghost equivalent = { λ text name. bytes_eq text.bytes.now name };

    ghost respects_hash = { λ text name. same_hash text.bytes.now name };

    ghost respects_eq = { λ text one other. nat_list_eq_equiv.congr text.bytes.now one other };

    fn equivalent(&self, name: &Name) -> bool {
        self.bytes == name.bytes()
    }
}

/// The place of a text among names, where it is one of them. It takes no memory.
pub(crate) fn place_of(names: &IndexSet<Name>, text: &[u8]) -> Option<usize>
    ensures { result ≡ position (bytes_eq text.now) names.now.keys }
{
    names.get_index_of(Text { bytes: text })
}

/// The place of the first slash in a text.
pub(crate) fn place_of_slash(text: &[u8]) -> Option<usize>
    ensures { result ≡ position is_slash text.now }
{
    text.iter().position(|byte| *byte == b'/')
}
