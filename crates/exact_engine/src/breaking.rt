//! Where a run breaks the consequent of an assertion; begin with `first_broken`.

ghost use Rattle.std.specs.Prelude.{◌≡◌, ◌++◌, ◌∷◌, [], List, IfSome, None, slice_index_or};
ghost use Rattle.ste_model.specs.declared.task.Quint.{Quint as AnyQuint};
ghost use Rattle.ste_model.specs.Asked.{cuts_at};
ghost use Rattle.ste_model.specs.Holds.{RunMeets};
ghost use Rattle.ste_model.specs.Runs.{run_of};
ghost use Rattle.exact_model.specs.ExactReport.{IsBrokenFirst};
ghost use Rattle.exact_engine.specs.private.Breaching.{IsFirstBreach, IsFirstOf, IsFirstOpposite, limit_of};

use bool_expr::value;
use ste_base::{NodeId, Time};
use ste_model::{Assertion, Quint, Run, depth};

/// The bits of a net of a run; there are none of a net without a row.
fn row_of(run: &Run, net: NodeId) -> &[bool]
    ensures { result.now ≡ slice_index_or run.now.rows net.0 [] }
{
    match run.rows.as_slice().get(net.0 as usize) {
        Some(row) => row.as_slice(),
        None => &[],
    }
}

/// The first time from one up to, but not at, another at which a net has the opposite of a bit.
fn first_opposite(row: &[bool], from: Time, to: Time, bit: bool) -> Option<Time>
    ensures { IsFirstOpposite row.now from to bit result }
{
    for t in from..to {
        if row.get(t as usize).copied().unwrap_or(false) != bit {
            return Some(t);
        }
    }
    None
}

/// The first time before a limit at which a run breaks a quintuple.
fn first_breach(run: &Run, bits: &[bool], quint: &Quint, limit: Time) -> Option<Time>
    ensures { IsFirstBreach (run_of run.now) bits.now quint.now limit result }
{
    if !value(&quint.guard, bits) {
        return None;
    }
    let bit = value(&quint.value, bits);
    first_opposite(
        row_of(run, quint.node),
        quint.from,
        quint.to.min(limit),
        bit,
    )
}

/// The time before which a place would be an earlier one.
fn limit_of(place: Option<(NodeId, Time)>, depth: Time) -> Time
    ensures { result ≡ limit_of place depth }
{
    match place {
        Some((_, time)) => time,
        None => depth,
    }
}

/// The first place at which a run breaks quintuples, with one more of them.
fn with_one_more(
    run: &Run,
    bits: &[bool],
    quint: &Quint,
    place: Option<(NodeId, Time)>,
    depth: Time,
) -> Option<(NodeId, Time)>
    ensures { (before : List AnyQuint)
        → IsFirstOf (run_of run.now) bits.now depth before place
        → IsFirstOf (run_of run.now) bits.now depth (before ++ quint.now ∷ []) result }
{
    let Some(time) = first_breach(run, bits, quint, limit_of(place, depth)) else {
        return place;
    };
    Some((quint.node, time))
}

/// The first place before the depth at which a run breaks quintuples.
fn first_of(run: &Run, bits: &[bool], quints: &[Quint], depth: Time) -> Option<(NodeId, Time)>
    ensures { IsFirstOf (run_of run.now) bits.now depth quints.now result }
{
    let mut place = None;
    for quint in quints {
        place = with_one_more(run, bits, quint, place, depth);
    }
    place
}

/// The place at which a run breaks the consequent of an assertion: the least time at which it does,
/// and the net of the first quintuple in text order that is broken then; None where the run meets
/// it. It takes no memory, and looks at each time of a quintuple once at most.
pub fn first_broken(run: &Run, bits: &[bool], task: &Assertion) -> Option<(NodeId, Time)>
    ensures some { IfSome result (IsBrokenFirst task.now bits.now (run_of run.now)) }
    ensures none { result ≡ None → RunMeets (cuts_at task.now.con bits.now) (run_of run.now) }
{
    first_of(run, bits, task.con.as_slice(), depth(task))
}
