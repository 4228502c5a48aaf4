//! The places of numbers in a list, by a hashed map; begin with `Places`.

ghost use Rattle.std.specs.Prelude.{◌≡◌, ◌++◌, ◌∷◌, [], ℕ, IfOk, OnOk, length, nat_eq};
ghost use Rattle.std.specs.HashMap.{get};
ghost use Rattle.std.specs.List.{position};
ghost use Rattle.aig_reader.specs.private.Placed.{with_place};

use std::alloc::{AllocError, Global};
use std::collections::HashMap;
use std::marker::Model;

/// A list of numbers, with the first place of each. Contracts see the list.
#[derive(Drop)]
pub struct Places {
    numbers: Vec<u32>,
    places: HashMap<u32, usize>,
}

impl Model for Places {
    ghost use Rattle.std.specs.Prelude.{List, ℕ, ◌≡◌, nat_eq};
    ghost use Rattle.std.specs.HashMap.{get};
    ghost use Rattle.std.specs.List.{position};

    ghost Value = { List ℕ };

    ghost view = { λ p. p.numbers.items };

    ghost invariant = { λ p. (n : ℕ) →
        get nat_eq p.places n ≡ position (nat_eq n) p.numbers.items };
}

/// Adds the place of a number, where it has none.
#[tactic(auto, using(crate::proofs::Placing::put, crate::proofs::Placing::kept))]
fn add_place(places: &mut HashMap<u32, usize>, number: u32, place: usize) -> Result<(), AllocError>
    ensures { OnOk result ((n : ℕ) → get nat_eq places.new n
        ≡ with_place (get nat_eq places.old n) (nat_eq number n) place) }
{
    if places.get(&number).is_none() {
        places.insert(number, place)?;
    }
    Ok(())
}

impl Places {
    /// No numbers. It takes no memory.
    pub fn new(alloc: Global) -> Places
        ensures { result ≡ [] }
    {
        Places {
            numbers: Vec::new(alloc),
            places: HashMap::new(alloc),
        }
    }

    /// The list, with a number more.
    pub fn with(self, number: u32) -> Result<Places, AllocError>
        ensures { IfOk result (λ grown. grown ≡ self ++ number ∷ []) }
    {
        let Places {
            mut numbers,
            mut places,
        } = self;
        let place = numbers.len();
        add_place(&mut places, number, place)?;
        numbers.push(number)?;
        Ok(Places { numbers, places })
    }

    /// The list, with these numbers more.
    pub fn with_all(self, numbers: &[u32]) -> Result<Places, AllocError>
        ensures { IfOk result (λ grown. grown ≡ self ++ numbers.now) }
    {
        let mut places = self;
        for number in numbers {
            places = places.with(*number)?;
        }
        Ok(places)
    }

    /// How many numbers there are. It takes no memory.
    pub fn len(&self) -> usize
        ensures { result ≡ length self.now }
    {
        self.numbers.len()
    }

    /// The first place of a number. It takes no memory.
    pub fn place(&self, number: u32) -> Option<usize>
        ensures { result ≡ position (nat_eq number) self.now }
    {
        self.places.get(&number).copied()
    }
}
