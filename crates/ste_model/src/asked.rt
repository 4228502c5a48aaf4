//! What assertions ask; begin with `depth`.

ghost use Rattle.std.specs.Prelude.{◌≡◌};
ghost use Rattle.ste_model.specs.Asked.{depth as depth_of, latest};

use crate::task::{Assertion, Quint};
use ste_base::Time;

/// The greatest `to` of these quintuples, or 0.
fn latest(quints: &[Quint]) -> Time
    ensures { result ≡ latest quints.now }
{
    quints
        .iter()
        .map(|quint| quint.to)
        .fold(0, |greatest, to| greatest.max(to))
}

/// The depth of an assertion: the greatest `to` of all its quintuples, or 0. It takes no memory.
pub fn depth(task: &Assertion) -> Time
    ensures { result ≡ depth_of task.now }
{
    latest(task.ant.as_slice()).max(latest(task.con.as_slice()))
}
