//! The own names of nets; begin with `add_own_names`.

ghost use Rattle.std.specs.Prelude.{◌≡◌, ◌<◌, ◌++◌, ◌∷◌, [], ℕ, List, Some, IfOk, OnOk, codes, length, map, option_copied, option_to_list, slice_get, slice_index_or};
ghost use Rattle.std.specs.Fmt.{decimal};
ghost use Rattle.hierarchy.specs.Names.{path_text};
ghost use Rattle.instances.specs.Table.{AreLinked, LinksFit};
ghost use Rattle.instances.specs.Numbers.{own_names_in};

use crate::table::Row;
use indexmap::IndexSet;
use std::alloc::{AllocError, Global};
use ste_base::{Items, Name};

/// Adds the number of an instance in the one above it, with a slash.
fn add_number(alloc: Global, text: &mut Vec<u8>, number: usize) -> Result<(), AllocError>
    ensures { OnOk result (text.new.items ≡ text.old.items ++ (decimal number ++ codes "/")) }
{
    let digits = format!(in alloc; "{number}")?;
    text.extend_from_slice(digits.as_bytes())?;
    text.extend_from_slice(b"/")?;
    Ok(())
}

/// Adds the path of the instance in a row: the numbers of its path, the outermost first, each
/// followed by a slash. The recursion is as deep as the path is long.
fn add_path(alloc: Global, rows: &[Row], place: usize, text: &mut Vec<u8>) -> Result<(), AllocError>
    requires place { place < length rows.now }
    requires linked { AreLinked rows.now }
    ensures { OnOk result ((paths : List (List ℕ)) → LinksFit rows.now paths →
        (path : List ℕ) → slice_get paths place ≡ Some path →
        text.new.items ≡ text.old.items ++ path_text path) }
{
    let row = &rows[place];
    match row.above {
        None => Ok(()),
        Some(above) => {
            add_path(alloc, rows, above, text)?;
            add_number(alloc, text, row.number)?;
            Ok(())
        }
    }
}

/// A name that is a text and a name behind it.
fn path_name(alloc: Global, path: &[u8], signal: &Name) -> Result<Name, AllocError>
    ensures { IfOk result (λ name. name ≡ path.now ++ signal.now) }
{
    if path.is_empty() {
        return signal.clone();
    }
    let mut text = path.to_vec(alloc)?;
    text.extend_from_slice(signal.bytes())?;
    Name::from_bytes(alloc, &text)
}

/// Adds the own name of a net: the path and the signal, where the signal is not bound.
fn add_free(
    alloc: Global,
    names: &mut Items<Name>,
    path: &[u8],
    signal: Option<&Name>,
    bound: &Option<u32>,
) -> Result<(), AllocError>
    ensures { OnOk result (names.new ≡ names.old
        ++ own_names_in path.now (option_to_list (option_copied signal.entry)) (bound.now ∷ [])) }
{
    if let Some(signal) = signal {
        if bound.is_none() {
            names.push(path_name(alloc, path, signal)?)?;
        }
    }
    Ok(())
}

/// Adds the own names of an instance's nets: the path, and the signal that is not bound. `bounds`
/// has an entry for each signal.
fn add_own(
    alloc: Global,
    names: &mut Items<Name>,
    path: &[u8],
    signals: &IndexSet<Name>,
    bounds: &[Option<u32>],
) -> Result<(), AllocError>
    requires { length bounds.now ≡ length signals.now.keys }
    ensures { OnOk result
        (names.new ≡ names.old ++ own_names_in path.now signals.now.keys bounds.now) }
{
    for (place, bound) in bounds.iter().enumerate() {
        add_free(alloc, names, path, signals.get_index(place), bound)?;
    }
    Ok(())
}

/// Adds the own names of the nets of the instance in a row, which is one of the model of that
/// number. `signals` has those of each model, and `bounds` has an entry for each signal of this
/// one.
pub(crate) fn add_own_names(
    alloc: Global,
    names: &mut Items<Name>,
    rows: &[Row],
    place: usize,
    signals: &[IndexSet<Name>],
    model: usize,
    bounds: &[Option<u32>],
) -> Result<(), AllocError>
    requires place { place < length rows.now }
    requires linked { AreLinked rows.now }
    requires model { model < length signals.now }
    requires long { length bounds.now
        ≡ length (slice_index_or (map (λ set. set.keys) signals.now) model []) }
    ensures { OnOk result ((paths : List (List ℕ)) → LinksFit rows.now paths →
        (path : List ℕ) → slice_get paths place ≡ Some path →
        names.new ≡ names.old ++ own_names_in (path_text path)
        (slice_index_or (map (λ set. set.keys) signals.now) model []) bounds.now) }
{
    let mut path = Vec::new(alloc);
    add_path(alloc, rows, place, &mut path)?;
    add_own(alloc, names, &path, &signals[model], bounds)?;
    Ok(())
}
