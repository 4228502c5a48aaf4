//! In which order the jobs are shared out; begin with `turns_of`.

ghost use Rattle.std.specs.Prelude.{◌<◌, ◌≤◌, All, length};

use std::alloc::{AllocError, Global};
use ste_model::{Task, depth};

/// How long a task takes, by a rough measure: its time steps, or what as many rounds as it has
/// vertices evaluate.
fn size_of_task(task: &Task) -> u64 {
    match task {
        Task::Ste(assertion) => depth(assertion) as u64,
        Task::Gste(graph) => {
            (graph.vertices.len() as u64).saturating_mul(graph.edges.len() as u64)
        }
    }
}

/// The places of the tasks of these numbers with their sizes, longest first.
fn ranked_tasks(
    alloc: Global,
    tasks: &[Task],
    numbers: &[u32],
) -> Result<Vec<(u64, usize)>, AllocError>
    requires { All (λ number. number < length tasks.now) numbers.now }
{
    let mut ranked = Vec::new(alloc);
    for i in 0..numbers.len() {
        ranked.push((size_of_task(&tasks[numbers[i] as usize]), i))?;
    }
    ranked.sort_unstable_by_key(|entry| (u64::MAX - entry.0, entry.1));
    Ok(ranked)
}

/// 2^32 over the golden ratio.
const GOLDEN: u64 = 0x9E37_79B9;

/// Which of so many portions is first to get its nth task. Over numbers at equal distances each
/// portion is first about as often as any other.
fn first_portion(nth: usize, portions: usize) -> usize
    ensures { result ≤ portions }
{
    let fraction = (nth as u64).wrapping_mul(GOLDEN) % (1 << 32);
    let place = fraction.wrapping_mul(portions as u64) >> 32;
    (place as usize).min(portions)
}

/// The nth places of the portions, of so many places each, below `count`.
fn nth_places(
    alloc: Global,
    count: usize,
    portion: usize,
    nth: usize,
) -> Result<Vec<usize>, AllocError>
    requires { 0 < portion }
{
    let mut places: Vec<usize> = (nth..count).step_by(portion).collect(alloc)?;
    let first = first_portion(nth, places.len());
    places.rotate_left(first);
    Ok(places)
}

/// The places below `count`: the first of each portion of so many, then the second of each, and so
/// on.
fn places_in_turn(alloc: Global, count: usize, portion: usize) -> Result<Vec<usize>, AllocError>
    requires { 0 < portion }
{
    let mut places = Vec::new(alloc);
    for nth in 0..portion {
        for place in nth_places(alloc, count, portion, nth)? {
            places.push(place)?;
        }
    }
    Ok(places)
}

/// The turn of each task of these numbers. In the order of turns, each worker's portion begins with
/// one of the longest tasks, and goes on with shorter ones. Tasks of one size that stand at equal
/// distances in the file come to all workers, since it is now one worker and now another that gets
/// its nth task first: it is often they that fail, and take longer.
pub(crate) fn turns_of(
    alloc: Global,
    tasks: &[Task],
    numbers: &[u32],
    workers: u32,
) -> Result<Vec<usize>, AllocError>
    requires numbers { All (λ number. number < length tasks.now) numbers.now }
    requires workers { 0 < workers }
{
    let count = numbers.len();
    let portion = count.div_ceil(workers as usize).max(1);
    let ranked = ranked_tasks(alloc, tasks, numbers)?;
    let places = places_in_turn(alloc, count, portion)?;
    let mut turns = Vec::from_elem(alloc, 0, count)?;
    for (entry, place) in ranked.iter().zip(places.iter()) {
        if let Some(turn) = turns.get_mut(entry.1) {
            *turn = *place;
        }
    }
    Ok(turns)
}
