//! All lists of so many bits; begin with `lists_of`.

ghost use Rattle.std.specs.Prelude.{◌≡◌, ◌++◌, ◌∷◌, map, IfOk, OnOk};
ghost use Rattle.plain_check.specs.private.Choices.{lists_of};

use std::alloc::{AllocError, Global};
use ste_base::Items;

/// Adds the lists, each with one more bit in front.
fn add_with_front(
    alloc: Global,
    bit: bool,
    lists: &[Items<bool>],
    longer: &mut Vec<Items<bool>>,
) -> Result<(), AllocError>
    ensures { OnOk result (longer.new.items ≡ longer.old.items
        ++ map (λ bits. bit ∷ bits) lists.now) }
{
    for bits in lists {
        let mut list = Vec::new(alloc);
        list.push(bit)?;
        list.extend_from_slice(bits.as_slice())?;
        longer.push(Items::from(list))?;
    }
    Ok(())
}

/// All lists of so many bits.
pub fn lists_of(alloc: Global, count: u32) -> Result<Vec<Items<bool>>, AllocError>
    ensures { IfOk result (λ lists. lists.items ≡ lists_of count) }
{
    let mut lists = Vec::new(alloc);
    lists.push(Items::new(alloc))?;
    for _ in 0..count {
        let mut longer = Vec::new(alloc);
        add_with_front(alloc, false, &lists, &mut longer)?;
        add_with_front(alloc, true, &lists, &mut longer)?;
        lists = longer;
    }
    Ok(lists)
}
