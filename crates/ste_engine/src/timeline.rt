//! What is asked, time after time, without a look at what is not; begin with `Timeline`.

ghost use Rattle.std.specs.Prelude.{◌≡◌, ◌≤◌, ◌<◌, ◌+◌, ℕ, List, [], All, IfOk, IsTrue, OnOk, filter, length, nat_lt, replicate, slice_index_or, true};
ghost use Rattle.std.specs.List.{list_all};
ghost use Rattle.ste_engine.specs.private.TimedCuts.{ArePlaced, cuts_of};
ghost use Rattle.ste_engine.specs.private.Times.{AreStarts, HasTurned, IsTimeline};

use crate::merge::merge;
use crate::timed_cuts::TimedCut;
use std::alloc::{AllocError, Global};
use ste_base::{Items, Time};
use sym_step::Cut;

/// What is asked, by time: for each time what begins then, in text order; and what has begun and
/// not ended so far, in text order too, with its cuts.
#[derive(Drop)]
pub struct Timeline {
    starts: Vec<Items<TimedCut>>,
    running: Vec<TimedCut>,
    cuts: Vec<Cut>,
}

/// Nothing, for each time below the depth.
fn no_starts(alloc: Global, depth: Time) -> Result<Vec<Items<TimedCut>>, AllocError>
    ensures { IfOk result (λ starts. starts.items ≡ replicate depth []) }
{
    let mut starts = Vec::with_capacity(alloc, depth as usize)?;
    for _ in 0..depth {
        starts.push(Items::new(alloc))?;
    }
    Ok(starts)
}

/// For each time below the depth what begins then, in text order.
fn starts_of(
    alloc: Global,
    timed_cuts: &[TimedCut],
    depth: Time,
) -> Result<Vec<Items<TimedCut>>, AllocError>
    requires { All (λ timed_cut. timed_cut.to ≤ depth) timed_cuts.now }
    ensures { IfOk result (λ starts. AreStarts timed_cuts.now depth starts.items) }
{
    let mut starts = no_starts(alloc, depth)?;
    for timed_cut in timed_cuts {
        if timed_cut.from < timed_cut.to {
            starts[timed_cut.from as usize].push(*timed_cut)?;
        }
    }
    Ok(starts)
}

/// What has not ended at time t.
fn lasting_beyond(
    alloc: Global,
    timed_cuts: &[TimedCut],
    t: Time,
) -> Result<Vec<TimedCut>, AllocError>
    ensures { IfOk result (λ some. some.items ≡ filter
        (λ timed_cut. nat_lt t timed_cut.to) timed_cuts.now) }
{
    let mut some = Vec::new(alloc);
    for timed_cut in timed_cuts {
        if t < timed_cut.to {
            some.push(*timed_cut)?;
        }
    }
    Ok(some)
}

/// Their cuts, in this order.
fn cuts_of(alloc: Global, timed_cuts: &[TimedCut]) -> Result<Vec<Cut>, AllocError>
    ensures { IfOk result (λ cuts. cuts.items ≡ cuts_of timed_cuts.now) }
{
    let mut cuts = Vec::with_capacity(alloc, timed_cuts.len())?;
    for timed_cut in timed_cuts {
        cuts.push(timed_cut.cut)?;
    }
    Ok(cuts)
}

/// Whether none of these has ended at time t.
fn all_last(timed_cuts: &[TimedCut], t: Time) -> bool
    ensures { result ≡ list_all (λ timed_cut. nat_lt t timed_cut.to) timed_cuts.now }
{
    timed_cuts.iter().all(|timed_cut| t < timed_cut.to)
}

impl Timeline {
    /// What is asked, before time 0.
    pub fn of(alloc: Global, timed_cuts: &[TimedCut], depth: Time) -> Result<Timeline, AllocError>
        requires { All (λ timed_cut. timed_cut.to ≤ depth) timed_cuts.now }
        ensures { IfOk result (λ line. IsTimeline timed_cuts.now depth 0 line) }
    {
        let starts = starts_of(alloc, timed_cuts, depth)?;
        Ok(Timeline {
            starts,
            running: Vec::new(alloc),
            cuts: Vec::new(alloc),
        })
    }

    /// Whether time t changes nothing: nothing begins then, and nothing that runs has ended.
    fn stays(&self, t: Time) -> bool
        requires { t < length self.now.starts.items }
        ensures none { IsTrue result → slice_index_or self.now.starts.items t [] ≡ [] }
        ensures all { IsTrue result
            → list_all (λ timed_cut. nat_lt t timed_cut.to) self.now.running.items ≡ true }
    {
        self.starts[t as usize].len() == 0 && all_last(&self.running, t)
    }

    /// Goes on to time t, whose turn it is. It takes no memory where time t changes nothing.
    pub fn advance(&mut self, alloc: Global, t: Time) -> Result<(), AllocError>
        requires { t < length self.old.starts.items }
        ensures { OnOk result ((timed_cuts : List TimedCut) (depth : ℕ)
            → IsTimeline timed_cuts depth t self.old → t < depth → ArePlaced 0 timed_cuts
            → HasTurned timed_cuts depth t self.new self.new.cuts.items) }
    {
        if self.stays(t) {
            return Ok(());
        }
        let lasting = lasting_beyond(alloc, &self.running, t)?;
        self.running = merge(alloc, &lasting, self.starts[t as usize].as_slice())?;
        self.cuts = cuts_of(alloc, &self.running)?;
        Ok(())
    }

    /// The cuts of the time that it has come to, in text order. It takes no memory.
    pub fn cuts(&self) -> &[Cut]
        ensures { result.now ≡ self.now.cuts.items }
    {
        &self.cuts
    }
}
