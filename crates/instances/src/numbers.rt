//! The numbers of the nets of each instance's signals; begin with `instance_numbers`.

ghost use Rattle.std.specs.Prelude.{◌≡◌, ◌+◌, ◌≤◌, IfOk, OnOk, count_by, is_none, length, map};
ghost use Rattle.hierarchy.specs.Instances.{instances};
ghost use Rattle.hierarchy.specs.Lines.{signals, use_lines};
ghost use Rattle.hierarchy.specs.Names.{own_name};
ghost use Rattle.hierarchy.specs.Nets.{nets};
ghost use Rattle.instances.specs.Numbers.{AreRows, numbers_from, numbers_in};

use crate::above::{row_bounds, use_lines};
use crate::own_names::add_own_names;
use crate::table::Row;
use blif_syntax::Model;
use hierarchy::uses::UseLine;
use indexmap::IndexSet;
use std::alloc::{AllocError, Global};
use ste_base::{Items, Name};

/// The numbers of an instance's signals: bound ones have those of their actuals, and the others
/// count on.
fn numbers_of(
    alloc: Global,
    bounds: &[Option<u32>],
    next: &mut u32,
) -> Result<Items<u32>, AllocError>
    requires { next.old + count_by is_none bounds.now ≤ 4294967295 }
    ensures value { IfOk result (λ numbers. numbers ≡ numbers_from next.old bounds.now) }
    ensures next { OnOk result (next.new ≡ next.old + count_by is_none bounds.now) }
{
    let mut numbers = Items::new(alloc);
    for bound in bounds {
        match bound {
            Some(number) => numbers.push(*number)?,
            None => {
                numbers.push(*next)?;
                *next += 1;
            }
        }
    }
    Ok(numbers)
}

/// The uses of models in each model.
fn all_uses<'a>(alloc: Global, models: &'a [Model]) -> Result<Vec<Items<UseLine<'a>>>, AllocError>
    ensures { IfOk result (λ uses. uses.items ≡ map use_lines models.now) }
{
    let mut uses = Vec::new(alloc);
    for model in models {
        uses.push(use_lines(alloc, model)?)?;
    }
    Ok(uses)
}

/// The numbers of nets: for each instance, in preorder, those of the nets of its signals, by first
/// mention; and the nets' own names, by number.
#[derive(Drop)]
pub struct Numbered {
    pub numbers: Vec<Items<u32>>,
    pub names: Items<Name>,
}

/// The numbers of the nets of each instance's signals. `names` has the signals of each model, and
/// `rows` the instances. Each binding of an instance takes two look-ups by name.
pub fn instance_numbers(
    alloc: Global,
    models: &[Model],
    names: &[IndexSet<Name>],
    rows: &[Row],
) -> Result<Numbered, AllocError>
    requires names { map (λ set. set.keys) names.now ≡ map signals models.now }
    requires rows { AreRows models.now rows.now }
    requires few { length (nets models.now) ≤ 4294967295 }
    ensures numbers { IfOk result (λ made. made.numbers.items
        ≡ map (λ path. numbers_in models.now path) (instances models.now)) }
    ensures names { IfOk result (λ made. made.names ≡ map own_name (nets models.now)) }
{
    let uses = all_uses(alloc, models)?;
    let mut numbers = Vec::new(alloc);
    let mut own = Items::new(alloc);
    let mut next = 0;
    for (place, row) in rows.iter().enumerate() {
        let bounds = row_bounds(alloc, uses.as_slice(), names, rows, numbers.as_slice(), row)?;
        add_own_names(
            alloc,
            &mut own,
            rows,
            place,
            names,
            row.model,
            bounds.as_slice(),
        )?;
        numbers.push(numbers_of(alloc, bounds.as_slice(), &mut next)?)?;
    }
    Ok(Numbered {
        numbers,
        names: own,
    })
}
