//! The work on tasks, over any store that can be shared out; begin with `pooled_tasks`.

ghost use Rattle.std.specs.Prelude.{◌≡◌, ℕ, ◌+◌, ◌*◌, ◌^◌, ◌<◌, ◌≤◌, List, [], length, map, All, IfOk, IfSome, IsTrue, get_or};
ghost use Rattle.std.specs.List.{AllZip};
ghost use Rattle.std.specs.List.Sorted.{IsNonDecreasingBy, IsPermutation};
ghost use Rattle.dd_nodes.specs.Diagram.{IsDiagram};
ghost use Rattle.dd_nodes.specs.Stores.{Keeps, Store, gives_up};
ghost use Rattle.net_core.specs.declared.raw.RawNet.{RawNet};
ghost use Rattle.net_core.specs.Flat.{IsInRange};
ghost use Rattle.ste_model.specs.declared.task.Task.{Task as ATask};
ghost use Rattle.sym_step.specs.Frame.{IsFrame};
ghost use Rattle.work_pool.specs.declared.mode.Mode.{Mode as AMode};
ghost use Rattle.work_pool.specs.Pool.{IsPooled};
ghost use Rattle.work_pool.specs.private.Jobs.{AreDone, AreJobs, HandsOn, IsDone, IsReady, tasks_at};
ghost use Rattle.work_pool.specs.private.Ready.{IsTaskReady};

use crate::batch::{Batch, check};
use crate::gate::Gate;
use crate::turns::turns_of;
use dd_nodes::{Nodes, Split};
use net_core::Net;
use std::alloc::{AllocError, Global};
use std::thread;
use std::thread::Threads;
use ste_model::{Report, Task};
use sym_step::Frame;

/// The work on the task whose number stands at this place: a store of its own, and what came out.
#[derive(Drop)]
pub(crate) struct Job<N> {
    pub(crate) place: u32,
    pub(crate) nodes: N,
    pub(crate) outcome: Result<Report, AllocError>,
}

/// Checks a task over the store of its job.
fn work<N: Nodes>(
    alloc: Global,
    batch: &Batch<'_>,
    task: &Task,
    job: &mut Job<N>,
    last: &mut Option<Frame>,
)
    requires made { (N.store job.old.nodes).made ≡ [] }
    requires ready { IsTaskReady batch.now.mode batch.now.net.now.raw batch.now.vars
        (N.store job.old.nodes).vars task.now }
    requires last { IfSome last.old (IsFrame (N.store job.old.nodes) batch.now.net.now.raw) }
    ensures place { job.new.place ≡ job.old.place }
    ensures done { IsDone batch.now.mode batch.now.net.now.raw batch.now.vars
        (N.store job.old.nodes).limit batch.now.cubes task.now
        (N.store job.old.nodes) (N.store job.new.nodes) job.new.outcome }
    ensures last { IfSome last.new (IsFrame (N.store job.new.nodes) batch.now.net.now.raw) }
{
    job.outcome = check(alloc, &mut job.nodes, batch, task, last);
}

/// The store of the job behind the i-th takes over what that one's store remembers; the result is
/// whether it holds all that that one held.
fn share_memo<N: Nodes>(jobs: &mut [Job<N>], i: usize) -> bool
    requires within { i + 1 < length jobs.old }
    requires table { (job : Job N) → (N.store (get_or jobs.old i job).nodes).table
        ≡ (N.store (get_or jobs.old (i + 1) job).nodes).table }
    ensures hands { HandsOn (λ job. N.store job.nodes) (λ job. job.place) (λ job. job.outcome)
        i jobs.old jobs.new }
    ensures all { IsTrue result → (job : Job N) → Keeps
        (N.store (get_or jobs.old i job).nodes) (N.store (get_or jobs.new (i + 1) job).nodes) }
{
    let (front, back) = jobs.split_at_mut(i + 1);
    back[0].nodes.learn(&mut front[i].nodes)
}

/// As `share_memo`, where there is a job behind the i-th; and the last frame goes over to that job,
/// where its store holds what the frame refers to.
fn carry_to_next<N: Nodes>(jobs: &mut [Job<N>], i: usize, last: &mut Option<Frame>)
    requires within { i < length jobs.old }
    requires table { (job : Job N) → i + 1 < length jobs.old
        → (N.store (get_or jobs.old i job).nodes).table
        ≡ (N.store (get_or jobs.old (i + 1) job).nodes).table }
    ensures hands { HandsOn (λ job. N.store job.nodes) (λ job. job.place) (λ job. job.outcome)
        i jobs.old jobs.new }
    ensures last { (net : RawNet) (job : Job N) → IsInRange net → i + 1 < length jobs.old
        → IfSome last.old (IsFrame (N.store (get_or jobs.old i job).nodes) net)
        → IfSome last.new (IsFrame (N.store (get_or jobs.new (i + 1) job).nodes) net) }
{
    if i + 1 >= jobs.len() {
        return;
    }
    if !share_memo(jobs, i) {
        *last = None;
    }
}

/// The most nets of a net whose last frame goes on to another task as it is. That of a larger one
/// leaves the processor's cache meanwhile, and to mark what is due by its lists takes longer than
/// to evaluate all.
const MOST_NETS: u32 = 32768;

/// The frame that goes on to another task: the last one, or where the net is large that one as one
/// of no time.
pub(crate) fn frame_to_carry(alloc: Global, net: &Net, last: Option<Frame>) -> Option<Frame>
    ensures { (s : Store) (raw : RawNet) → IsDiagram s.held s.vars → IfSome last (IsFrame s raw)
        → IfSome result (IsFrame s raw) }
{
    let Some(frame) = last else {
        return None;
    };
    if net.nets() > MOST_NETS {
        return Some(frame.into_blank(alloc));
    }
    Some(frame)
}

/// Does a job.
fn work_at<N: Nodes, G: Gate>(
    alloc: Global,
    batch: &Batch<'_>,
    numbers: &[u32],
    job: &mut Job<N>,
    gate: &G,
    last: &mut Option<Frame>,
)
    requires numbers { All (λ number. number < length batch.now.tasks.now) numbers.now }
    requires within { job.old.place < length numbers.now }
    requires made { (N.store job.old.nodes).made ≡ [] }
    requires vars { (N.store job.old.nodes).vars ≡ batch.now.width }
    requires last { IfSome last.old (IsFrame (N.store job.old.nodes) batch.now.net.now.raw) }
    ensures place { job.new.place ≡ job.old.place }
    ensures done { (task : ATask) → IsDone batch.now.mode batch.now.net.now.raw batch.now.vars
        (N.store job.old.nodes).limit batch.now.cubes
        (get_or batch.now.tasks.now (get_or numbers.now job.old.place 0) task)
        (N.store job.old.nodes) (N.store job.new.nodes) job.new.outcome }
    ensures table { (N.store job.new.nodes).table ≡ (N.store job.old.nodes).table }
    ensures last { IfSome last.new (IsFrame (N.store job.new.nodes) batch.now.net.now.raw) }
{
    let number = numbers[job.place as usize];
    gate.at_task(number);
    work(alloc, batch, &batch.tasks[number as usize], job, last);
    *last = frame_to_carry(alloc, batch.net, last.take());
}

/// Each of these jobs is done once, one after another. What the store of one remembers goes over to
/// that of the next, and so does the last frame.
fn work_portion<N: Nodes, G: Gate>(
    alloc: Global,
    batch: &Batch<'_>,
    numbers: &[u32],
    jobs: &mut [Job<N>],
    gate: &G,
)
    requires numbers { All (λ number. number < length batch.now.tasks.now) numbers.now }
    requires jobs { AreJobs (λ job. N.store job.nodes) (λ job. job.place)
        (length numbers.now) batch.now.width jobs.old }
    ensures { AreDone (λ job. N.store job.nodes) (λ job. job.place) (λ job. job.outcome)
        batch.now.mode batch.now.net.now.raw batch.now.vars batch.now.cubes
        batch.now.tasks.now numbers.now jobs.old jobs.new }
{
    let mut last = None;
    for i in 0..jobs.len() {
        work_at(alloc, batch, numbers, &mut jobs[i], gate, &mut last);
        carry_to_next(jobs, i, &mut last);
    }
}

/// Each job is done once, by so many workers, each of which has a portion of neighbouring jobs.
fn work_all<N: Nodes + Send, R: Threads + Sync, G: Gate + Sync>(
    rt: &R,
    alloc: Global,
    workers: u32,
    batch: &Batch<'_>,
    numbers: &[u32],
    jobs: &mut [Job<N>],
    gate: &G,
)
    requires workers { 0 < workers }
    requires numbers { All (λ number. number < length batch.now.tasks.now) numbers.now }
    requires jobs { AreJobs (λ job. N.store job.nodes) (λ job. job.place)
        (length numbers.now) batch.now.width jobs.old }
    ensures { AreDone (λ job. N.store job.nodes) (λ job. job.place) (λ job. job.outcome)
        batch.now.mode batch.now.net.now.raw batch.now.vars batch.now.cubes
        batch.now.tasks.now numbers.now jobs.old jobs.new }
{
    if jobs.is_empty() {
        return;
    }
    let size = jobs.len().div_ceil(workers as usize);
    thread::for_each_chunk_mut(
        rt,
        jobs,
        size,
        &|_: usize, portion: &mut [Job<N>]|
            requires numbers { All (λ number. number < length batch.now.tasks.now) numbers.now }
            requires jobs { AreJobs (λ job. N.store job.nodes) (λ job. job.place)
                (length numbers.now) batch.now.width portion.old }
            ensures { AreDone (λ job. N.store job.nodes) (λ job. job.place) (λ job. job.outcome)
                batch.entry.now.mode batch.entry.now.net.now.raw batch.entry.now.vars
                batch.entry.now.cubes batch.entry.now.tasks.now numbers.entry.now
                portion.old portion.new }
        {
            work_portion(alloc, batch, numbers, portion, gate);
        },
    );
}

/// A job with a store of `steps` steps for each of `count` tasks, in order.
fn deal<N: Split>(
    alloc: Global,
    nodes: &mut N,
    count: usize,
    steps: u32,
) -> Result<Vec<Job<N>>, AllocError>
    requires few { count < 2 ^ 32 }
    requires limit { count * steps + length (N.store nodes.old).made ≤ (N.store nodes.old).limit }
    ensures left { IfOk result
        (λ _. N.store nodes.new ≡ gives_up (count * steps) (N.store nodes.old)) }
    ensures long { IfOk result (λ jobs. length jobs.items ≡ count) }
    ensures places { IfOk result (λ jobs. (i : ℕ) (job : Job N) → i < count
        → (get_or jobs.items i job).place ≡ i) }
    ensures ready { IfOk result (λ jobs. All
        (λ job. IsReady steps (N.store nodes.old) (N.store job.nodes)) jobs.items) }
{
    let mut jobs = Vec::new(alloc);
    for i in 0..count {
        let session = nodes.fork(steps);
        jobs.push(Job {
            place: i as u32,
            nodes: session,
            outcome: Err(AllocError),
        })?;
    }
    Ok(jobs)
}

/// Puts the jobs in the order of their turns.
fn put_in_turn<N: Nodes>(jobs: &mut Vec<Job<N>>, turns: &[usize])
    ensures { IsPermutation jobs.old.items jobs.new.items }
{
    jobs.sort_unstable_by_key(|job| match turns.get(job.place as usize) {
        Some(turn) => *turn,
        None => 0,
    });
}

/// Puts the jobs in the order of their places.
fn put_in_order<N: Nodes>(jobs: &mut Vec<Job<N>>)
    ensures moved { IsPermutation jobs.old.items jobs.new.items }
    ensures ordered { IsNonDecreasingBy (λ job. job.place) jobs.new.items }
{
    jobs.sort_unstable_by_key(|job| job.place);
}

/// The reports in the order of the jobs, and all stores in one.
fn gather<N: Split>(
    alloc: Global,
    mut nodes: N,
    jobs: Vec<Job<N>>,
) -> Result<(Vec<Report>, N), AllocError>
    requires table { All (λ job. (N.store job.nodes).table ≡ (N.store nodes).table) jobs.items }
    requires made { (N.store nodes).made ≡ [] }
    requires limit { (N.store nodes).limit ≡ 0 }
    ensures pooled { (mode : AMode) (net : RawNet) (vars steps cubes : ℕ) (tasks : List ATask)
        → AllZip (λ task job. IsDone mode net vars steps cubes task (N.store nodes)
        (N.store job.nodes) job.outcome) tasks jobs.items
        → IfOk result (λ r. IsPooled mode net vars steps cubes tasks r.0.items (N.store r.1)) }
    ensures vars { IfOk result (λ r. (N.store r.1).vars ≡ (N.store nodes).vars) }
    ensures table { IfOk result (λ r. (N.store r.1).table ≡ (N.store nodes).table) }
{
    let mut reports = Vec::new(alloc);
    for job in jobs {
        let Job {
            place: _,
            nodes: other,
            outcome,
        } = job;
        nodes.merge(other);
        reports.push(outcome?)?;
    }
    Ok((reports, nodes))
}

/// Each task of these numbers is checked over a store of `steps` steps that is cut from this one,
/// and all are merged again.
pub(crate) fn pooled_tasks<N: Split + Send, R: Threads + Sync, G: Gate + Sync>(
    rt: &R,
    alloc: Global,
    workers: u32,
    batch: &Batch<'_>,
    numbers: &[u32],
    steps: u32,
    mut nodes: N,
    gate: &G,
) -> Result<(Vec<Report>, N), AllocError>
    requires workers { 0 < workers }
    requires few { length numbers.now < 2 ^ 32 }
    requires numbers { All (λ number. number < length batch.now.tasks.now) numbers.now }
    requires made { (N.store nodes).made ≡ [] }
    requires limit { (N.store nodes).limit ≡ length numbers.now * steps }
    requires width { (N.store nodes).vars ≡ batch.now.width }
    ensures pooled { (task : ATask) → IfOk result (λ r. IsPooled batch.now.mode
        batch.now.net.now.raw batch.now.vars steps batch.now.cubes
        (tasks_at batch.now.tasks.now numbers.now task) r.0.items (N.store r.1)) }
    ensures vars { IfOk result (λ r. (N.store r.1).vars ≡ (N.store nodes).vars) }
    ensures table { IfOk result (λ r. (N.store r.1).table ≡ (N.store nodes).table) }
{
    let mut jobs = deal(alloc, &mut nodes, numbers.len(), steps)?;
    let turns = turns_of(alloc, batch.tasks, numbers, workers)?;
    put_in_turn(&mut jobs, turns.as_slice());
    work_all(
        rt,
        alloc,
        workers,
        batch,
        numbers,
        jobs.as_mut_slice(),
        gate,
    );
    put_in_order(&mut jobs);
    gather(alloc, nodes, jobs)
}
