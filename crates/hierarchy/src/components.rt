//! The strongly connected components of the uses of models, by a search that keeps to one path and
//! joins what lies on a circle (Gabow, 2000); begin with `components`. What it finds is checked
//! before it is used, so no clause says that it is right.

ghost use Rattle.std.specs.Prelude.{◌≡◌, IfOk, length};

use std::alloc::{AllocError, Global};
use ste_base::Items;

/// How far the search has got with a model.
#[derive(Clone, Copy, PartialEq, Eq)]
enum State {
    /// It was not met yet.
    New,
    /// It stands on the path, at this place.
    OnPath(usize),
    /// Its component is complete.
    Done,
}

/// A use that is still to be followed: the place on the path of the model that uses, and the model
/// that is used.
#[derive(Clone, Copy, PartialEq, Eq)]
struct Pending {
    place: usize,
    used: usize,
}

/// A search. The components on the path are cut off by the places where they start; each uses one
/// of the next.
#[derive(Drop)]
struct Search {
    states: Vec<State>,
    ranks: Vec<usize>,
    path: Vec<usize>,
    starts: Vec<usize>,
    pending: Vec<Pending>,
    complete: usize,
}

impl Search {
    /// Puts a new model at the end of the path, as a component of its own.
    fn enter(&mut self, graph: &[Items<usize>], model: usize) -> Result<(), AllocError>
        ensures { length self.new.ranks.items ≡ length self.old.ranks.items }
    {
        let place = self.path.len();
        if let Some(state) = self.states.get_mut(model) {
            *state = State::OnPath(place);
        }
        self.path.push(model)?;
        self.starts.push(place)?;
        if let Some(uses) = graph.get(model) {
            for used in uses.as_slice() {
                self.pending.push(Pending { place, used: *used })?;
            }
        }
        Ok(())
    }

    /// Joins the components of the path that start behind a place: they lie on a circle.
    fn join(&mut self, place: usize)
        ensures { length self.new.ranks.items ≡ length self.old.ranks.items }
    {
        for _ in 0..self.starts.len() {
            match self.starts.last() {
                Some(start) if *start > place => {
                    self.starts.pop();
                }
                _ => return,
            }
        }
    }

    /// Follows a use to a model.
    fn follow(&mut self, graph: &[Items<usize>], used: usize) -> Result<(), AllocError>
        ensures { length self.new.ranks.items ≡ length self.old.ranks.items }
    {
        match self.states.get(used) {
            Some(State::New) => self.enter(graph, used),
            Some(State::OnPath(place)) => {
                let place = *place;
                self.join(place);
                Ok(())
            }
            _ => Ok(()),
        }
    }

    /// Takes the last component off the path, which starts at a place: it is complete.
    fn leave(&mut self, start: usize)
        ensures { length self.new.ranks.items ≡ length self.old.ranks.items }
    {
        for _ in start..self.path.len() {
            if let Some(model) = self.path.pop() {
                if let Some(state) = self.states.get_mut(model) {
                    *state = State::Done;
                }
                if let Some(rank) = self.ranks.get_mut(model) {
                    *rank = self.complete;
                }
            }
        }
        self.complete = self.complete.saturating_add(1);
    }

    /// A use that is still to be followed of a model of the last component, which starts at a
    /// place.
    fn next_use(&mut self, start: usize) -> Option<usize>
        ensures { length self.new.ranks.items ≡ length self.old.ranks.items }
    {
        match self.pending.last() {
            Some(next) if next.place >= start => self.pending.pop().map(|next| next.used),
            _ => None,
        }
    }

    /// Searches from a model until the path is empty.
    fn search(&mut self, graph: &[Items<usize>], root: usize) -> Result<(), AllocError>
        ensures { length self.new.ranks.items ≡ length self.old.ranks.items }
    {
        self.enter(graph, root)?;
        for _ in 0..u64::MAX {
            let Some(start) = self.starts.last().copied() else {
                return Ok(())
            };
            match self.next_use(start) {
                Some(used) => self.follow(graph, used)?,
                None => {
                    self.starts.pop();
                    self.leave(start);
                }
            }
        }
        Ok(())
    }
}

/// By model: the number of its component, in the order in which they are complete, so that a
/// component uses earlier ones alone.
/// `graph` has for each model the numbers of those that it uses.
pub fn components(alloc: Global, graph: &[Items<usize>]) -> Result<Vec<usize>, AllocError>
    ensures { IfOk result (λ ranks. length ranks.items ≡ length graph.now) }
{
    let mut search = Search {
        states: vec![in alloc; State::New; graph.len()]?,
        ranks: vec![in alloc; 0; graph.len()]?,
        path: Vec::new(alloc),
        starts: Vec::new(alloc),
        pending: Vec::new(alloc),
        complete: 0,
    };
    for root in 0..graph.len() {
        if search.states.get(root) == Some(&State::New) {
            search.search(graph, root)?;
        }
    }
    Ok(search.ranks)
}
