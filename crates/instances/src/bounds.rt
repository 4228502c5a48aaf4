//! What the signals of an instance are bound to; begin with `bounds_of`.

ghost use Rattle.std.specs.Prelude.{◌≡◌, ℕ, List, Option, None, Some, IfOk, bytes_eq, length, map, if◌then◌else◌};
ghost use Rattle.instances.specs.Numbers.{bound_number, number_of};

use indexmap::IndexSet;
use std::alloc::{AllocError, Global};
use ste_base::Name;

/// The number that a word has among the numbers of these names; 0 where it is none of them.
#[tactic(auto, using(crate::proofs::Bound::place_or_len))]
pub fn number_of(names: &IndexSet<Name>, numbers: &[u32], word: &Name) -> u32
    ensures { result ≡ number_of names.now.keys numbers.now word.now }
{
    let place = names.get_index_of(word).unwrap_or(names.len());
    numbers.get(place).copied().unwrap_or(0)
}

/// Binds a signal to a number, where there is one of that name. `bounds` has an entry for each of
/// the names.
fn bind(bounds: &mut Vec<Option<u32>>, names: &IndexSet<Name>, formal: &Name, number: u32)
    ensures { (f : List ℕ → Option ℕ) → bounds.old.items ≡ map f names.now.keys →
        bounds.new.items
        ≡ map (λ name. if bytes_eq formal.now name then Some number else f name) names.now.keys }
{
    let place = names.get_index_of(formal).unwrap_or(names.len());
    if let Some(bound) = bounds.get_mut(place) {
        *bound = Some(number);
    }
}

/// An entry for each of the names: nothing is bound.
pub(crate) fn empty_bounds(
    alloc: Global,
    names: &IndexSet<Name>,
) -> Result<Vec<Option<u32>>, AllocError>
    ensures { IfOk result (λ bounds. bounds.items ≡ map (λ name. None) names.now.keys) }
{
    names
        .iter()
        .map(|_name| None)
        .collect::<Vec<Option<u32>>>(alloc)
}

/// By signal: the number of the actual that is bound to it, where one is; the first binding of a
/// signal counts. `above` has the signals of the instance above, and `numbers` those of their nets.
pub(crate) fn bounds_of(
    alloc: Global,
    names: &IndexSet<Name>,
    bindings: &[(Name, Name)],
    above: &IndexSet<Name>,
    numbers: &[u32],
) -> Result<Vec<Option<u32>>, AllocError>
    ensures { IfOk result (λ bounds. bounds.items
        ≡ map (bound_number (number_of above.now.keys numbers.now) bindings.now) names.now.keys) }
{
    let mut bounds = empty_bounds(alloc, names)?;
    let mut left = bindings.len();
    while left > 0 {
        left -= 1;
        let binding = &bindings[left];
        let number = number_of(above, numbers, &binding.1);
        bind(&mut bounds, names, &binding.0, number);
    }
    Ok(bounds)
}
