//! The least route against all lists of hop numbers, a chain and parallel hops; begin with
//! `all_small_graphs`.

ghost use Rattle.std.specs.Prelude.{◌≡◌, ◌<◌, ◌≤◌, length, All, IfOk};

use graph_path::{Hop, path_of};
use std::alloc::{AllocError, Global};
use std::test::Fail;

/// A list of hop numbers below 4: its length, and the numbers as digits to the base 4, the first
/// one in front. Of lists of one length the least has the least code.
#[derive(Clone, Copy, PartialEq, Eq)]
struct Numbers {
    length: usize,
    code: u32,
}

/// The hop of this number among 36: its ends are two of three vertices.
fn hop_of(number: u32) -> Hop
    ensures { result.to < 3 }
{
    Hop {
        from: number % 3,
        to: number / 3 % 3,
        feasible: number / 9 % 2 == 1,
        fails: number / 18 % 2 == 1,
    }
}

/// The graph of this number among those of three vertices and so many hops.
fn graph_of(alloc: Global, count: u32, number: u32) -> Result<Vec<Hop>, AllocError>
    requires { count ≤ 4 }
    ensures ends { IfOk result (λ hops. All (λ hop. hop.to < 3) hops.items) }
    ensures few { IfOk result (λ hops. length hops.items ≤ 4) }
{
    let mut hops = Vec::new(alloc);
    let mut rest = number;
    for _ in 0..count {
        hops.push(hop_of(rest % 36))?;
        rest /= 36;
    }
    Ok(hops)
}

/// Whether these are the numbers of a route from vertex 0 to a failure, looked at from its end.
fn is_route(hops: &[Hop], numbers: Numbers) -> bool {
    let mut rest = numbers.code;
    let Some(last) = hops.get((rest % 4) as usize) else {
        return false;
    };
    if !last.feasible || !last.fails {
        return false;
    }
    let mut vertex = last.from;
    for _ in 1..numbers.length {
        rest /= 4;
        let Some(hop) = hops.get((rest % 4) as usize) else {
            return false;
        };
        if !hop.feasible || hop.to != vertex {
            return false;
        }
        vertex = hop.from;
    }
    vertex == 0
}

/// The first route among the lists of this length, of which there are so many.
fn first_of(hops: &[Hop], length: usize, count: u32) -> Option<Numbers> {
    for code in 0..count {
        let numbers = Numbers { length, code };
        if is_route(hops, numbers) {
            return Some(numbers);
        }
    }
    None
}

/// The least route of a graph of three vertices, among all lists: a route with the fewest hops
/// comes to no vertex twice.
fn least_of(hops: &[Hop]) -> Option<Numbers> {
    match first_of(hops, 1, 4) {
        Some(numbers) => Some(numbers),
        None => match first_of(hops, 2, 16) {
            Some(numbers) => Some(numbers),
            None => first_of(hops, 3, 64),
        },
    }
}

/// The same of a path that was found.
fn numbers_of(path: &[u32]) -> Numbers {
    let mut code = 0u32;
    for number in path {
        code = code.wrapping_mul(4).wrapping_add(*number);
    }
    Numbers {
        length: path.len(),
        code,
    }
}

/// Whether the path that is found in the graph of this number is the least one.
fn is_least(alloc: Global, count: u32, number: u32) -> Result<bool, AllocError>
    requires { count ≤ 4 }
{
    let hops = graph_of(alloc, count, number)?;
    let found = path_of(alloc, 3, hops.as_slice())?;
    Ok(found.map(|path| numbers_of(path.as_slice())) == least_of(hops.as_slice()))
}

#[test]
fn all_small_graphs(rt: HostRuntime) -> Result<(), Fail> {
    for (count, graphs) in [(0, 1), (1, 36), (2, 1296), (3, 46656), (4, 1679616)] {
        for number in 0..graphs {
            let least = is_least(rt.alloc(), count, number)?;
            assert!(rt; least, "graph {number} of {count} hops");
        }
    }
    Ok(())
}

/// Ten hops from each of 999 vertices to the next one, of which the last ten fail.
fn chain(alloc: Global) -> Result<Vec<Hop>, AllocError>
    ensures ends { IfOk result (λ hops. All (λ hop. hop.to < 1000) hops.items) }
    ensures few { IfOk result (λ hops. length hops.items ≤ 9990) }
{
    let mut hops = Vec::new(alloc);
    for number in 0..9990 {
        let step = number / 10;
        hops.push(Hop {
            from: step,
            to: step + 1,
            feasible: true,
            fails: step == 998,
        })?;
    }
    Ok(hops)
}

/// Hops from vertex 0 to vertex 1, of which those from this number on fail.
fn parallel(alloc: Global, first: u32) -> Result<Vec<Hop>, AllocError>
    ensures ends { IfOk result (λ hops. All (λ hop. hop.to < 2) hops.items) }
    ensures few { IfOk result (λ hops. length hops.items ≤ 10000) }
{
    let mut hops = Vec::new(alloc);
    for number in 0..10000 {
        hops.push(Hop {
            from: 0,
            to: 1,
            feasible: true,
            fails: number >= first,
        })?;
    }
    Ok(hops)
}

/// Whether a path takes the first hop from each vertex of the chain.
fn takes_first_hops(path: &[u32]) -> bool {
    path.len() == 999
        && path
            .iter()
            .enumerate()
            .all(|(k, number)| *number as usize == k.wrapping_mul(10))
}

/// Whether the path that is found in the chain does.
fn is_chain_taken(alloc: Global) -> Result<bool, AllocError> {
    let hops = chain(alloc)?;
    match path_of(alloc, 1000, hops.as_slice())? {
        None => Ok(false),
        Some(path) => Ok(takes_first_hops(path.as_slice())),
    }
}

#[test]
fn chain_of_a_thousand_vertices(rt: HostRuntime) -> Result<(), Fail> {
    let taken = is_chain_taken(rt.alloc())?;
    assert!(rt; taken);
    Ok(())
}

/// The length and the last number of the path in the graph of parallel hops.
fn last_of_parallel(alloc: Global, first: u32) -> Result<Option<(usize, Option<u32>)>, AllocError> {
    let hops = parallel(alloc, first)?;
    let found = path_of(alloc, 2, hops.as_slice())?;
    Ok(found.map(|path| (path.len(), path.as_slice().last().copied())))
}

#[test]
fn ten_thousand_parallel_hops(rt: HostRuntime) -> Result<(), Fail> {
    for (first, want) in [
        (0, Some((1, Some(0)))),
        (1, Some((1, Some(1)))),
        (9999, Some((1, Some(9999)))),
        (10000, None),
    ] {
        let last = last_of_parallel(rt.alloc(), first)?;
        assert_eq!(rt; last, want, "from {first} on");
    }
    Ok(())
}
