//! The names of signals; begin with `Naming`.

ghost use Rattle.std.specs.Prelude.{◌≡◌, ◌<◌, ◌^◌, ◌++◌, ◌∷◌, [], IfOk, OnOk, bytes_eq, drop, false, length, map, nat_eq, not, option_and_then, option_copied, option_map, option_to_list, slice_get, true, unwrap_or};
ghost use Rattle.std.specs.List.{list_any, position};
ghost use Rattle.aig_model.specs.Names.{first_symbol, is_own, labels_from, literal_name, names, label_names, output_names, own_opposite, own_output, own_outputs, own_variable, usable_symbol, variable_name};
ghost use Rattle.aig_model.specs.Sound.{sources};
ghost use Rattle.aig_reader.specs.private.Labelled.{IsFew, taken_behind};

use crate::places::Places;
use crate::words::{is_odd, variable_of};
use aig_model::{Aig, AigLatch, AigOutput, Symbol};
use indexmap::IndexSet;
use std::alloc::{AllocError, Global};
use std::marker::Model;
use ste_base::{Items, Name};

/// The own name of a variable.
fn own_variable(alloc: Global, var: u32) -> Result<Name, AllocError>
    ensures { IfOk result (λ name. name ≡ own_variable var) }
{
    let text = format!(in alloc; "$v{var}")?;
    Name::from_bytes(alloc, text.as_bytes())
}

/// The own name of the opposite of a variable.
pub fn own_opposite(alloc: Global, var: u32) -> Result<Name, AllocError>
    ensures { IfOk result (λ name. name ≡ own_opposite var) }
{
    let text = format!(in alloc; "$n{var}")?;
    Name::from_bytes(alloc, text.as_bytes())
}

/// The own name of an output.
fn own_output(alloc: Global, number: u32) -> Result<Name, AllocError>
    ensures { IfOk result (λ name. name ≡ own_output number) }
{
    let text = format!(in alloc; "$o{number}")?;
    Name::from_bytes(alloc, text.as_bytes())
}

/// Whether the name begins with `$`.
fn is_own(name: &[u8]) -> bool
    ensures { result ≡ is_own name.now }
{
    !name.is_empty() && name[0] == b'$'
}

/// Adds a name; false where it is there already.
fn add_name(taken: &mut IndexSet<Name>, name: &Name) -> Result<bool, AllocError>
    ensures fresh { IfOk result (λ fresh. fresh
        ≡ not (list_any (bytes_eq name.now) taken.old.keys)) }
    ensures keys { IfOk result (λ fresh. fresh ≡ true →
        taken.new.keys ≡ taken.old.keys ++ name.now ∷ []) }
    ensures same { IfOk result (λ fresh. fresh ≡ false → taken.new.keys ≡ taken.old.keys) }
{
    if taken.contains(name) {
        return Ok(false);
    }
    taken.insert(name.clone()?)?;
    Ok(true)
}

/// A symbol, where it serves as a name; it is taken then.
fn serve(taken: &mut IndexSet<Name>, symbol: Option<&Name>) -> Result<Option<Name>, AllocError>
    ensures served { IfOk result (λ name. name ≡ usable_symbol taken.old.keys
        (option_copied symbol.entry)) }
    ensures keys { IfOk result (λ name. taken.new.keys ≡ taken.old.keys ++ option_to_list name) }
{
    let Some(name) = symbol else {
        return Ok(None);
    };
    if is_own(name.bytes()) {
        return Ok(None);
    }
    if !add_name(taken, name)? {
        return Ok(None);
    }
    Ok(Some(name.clone()?))
}

/// The next name: a symbol that serves, and else the own name.
fn next_name(
    taken: &mut IndexSet<Name>,
    symbol: Option<&Name>,
    own: &Name,
) -> Result<Name, AllocError>
    ensures name { IfOk result (λ name. name
        ≡ unwrap_or (usable_symbol taken.old.keys (option_copied symbol.entry)) own.now) }
    ensures keys { IfOk result (λ _. taken.new.keys
        ≡ taken.old.keys ++ option_to_list (usable_symbol taken.old.keys
        (option_copied symbol.entry))) }
{
    match serve(taken, symbol)? {
        Some(name) => Ok(name),
        None => own.clone(),
    }
}

/// The places of these numbers of symbols.
fn numbers_of(alloc: Global, symbols: &[Symbol]) -> Result<Places, AllocError>
    ensures { IfOk result (λ places. places ≡ map (λ symbol. symbol.number) symbols.now) }
{
    let numbers: Vec<u32> = symbols.iter().map(|symbol| symbol.number).collect(alloc)?;
    Places::new(alloc).with_all(numbers.as_slice())
}

/// The name of the symbol at this place.
fn name_at(symbols: &[Symbol], at: usize) -> Option<&Name>
    ensures { option_copied result
        ≡ option_map (λ symbol. symbol.name) (slice_get symbols.now at) }
{
    match symbols.get(at) {
        None => None,
        Some(symbol) => Some(&symbol.name),
    }
}

/// The name of the first symbol with this number, by the places of their numbers.
fn first_symbol<'a>(places: &Places, symbols: &'a [Symbol], number: u32) -> Option<&'a Name>
    requires { places.now ≡ map (λ symbol. symbol.number) symbols.now }
    ensures { option_copied result ≡ first_symbol number symbols.now }
{
    match places.place(number) {
        None => None,
        Some(at) => name_at(symbols, at),
    }
}

/// Adds the names of things of one kind, which have these names of their own and these symbols.
fn add_names(
    alloc: Global,
    names: &mut Items<Name>,
    taken: &mut IndexSet<Name>,
    owns: &[Name],
    symbols: &[Symbol],
) -> Result<(), AllocError>
    requires { length owns.now < 2 ^ 32 }
    ensures names { OnOk result (names.new
        ≡ names.old ++ label_names taken.old.keys (labels_from symbols.now 0 owns.now)) }
    ensures taken { OnOk result (taken.new.keys
        ≡ taken_behind taken.old.keys (labels_from symbols.now 0 owns.now)) }
{
    let places = numbers_of(alloc, symbols)?;
    let mut number: u32 = 0;
    for own in owns {
        let name = next_name(taken, first_symbol(&places, symbols, number), own)?;
        names.push(name)?;
        number += 1;
    }
    Ok(())
}

/// The names of their own of these variables.
fn own_variables(alloc: Global, vars: &[u32]) -> Result<Items<Name>, AllocError>
    ensures { IfOk result (λ owns. owns ≡ map own_variable vars.now) }
{
    let mut owns = Items::new(alloc);
    for var in vars {
        owns.push(own_variable(alloc, *var)?)?;
    }
    Ok(owns)
}

/// The names of their own of these outputs.
fn own_outputs(alloc: Global, outputs: &[AigOutput]) -> Result<Items<Name>, AllocError>
    requires { length outputs.now < 2 ^ 32 }
    ensures { IfOk result (λ owns. owns ≡ own_outputs 0 outputs.now) }
{
    let mut owns = Items::new(alloc);
    for number in 0..outputs.len() {
        owns.push(own_output(alloc, number as u32)?)?;
    }
    Ok(owns)
}

/// The variables of these latches.
fn latch_vars(alloc: Global, latches: &[AigLatch]) -> Result<Vec<u32>, AllocError>
    ensures { IfOk result (λ vars. vars.items ≡ map (λ latch. latch.var) latches.now) }
{
    latches.iter().map(|latch| latch.var).collect(alloc)
}

/// The places of the variables of inputs and latches.
fn sources_of(alloc: Global, aig: &Aig) -> Result<Places, AllocError>
    ensures { IfOk result (λ places. places ≡ sources aig.now) }
{
    let empty = Places::new(alloc);
    let inputs = empty.with_all(aig.inputs.as_slice())?;
    let vars = latch_vars(alloc, aig.latches.as_slice())?;
    let sources = inputs.with_all(vars.as_slice())?;
    Ok(sources)
}

/// The names of the inputs, latches and outputs, in this order.
fn names_of(alloc: Global, aig: &Aig) -> Result<Items<Name>, AllocError>
    requires few { IsFew aig.now }
    ensures { IfOk result (λ found. found ≡ names aig.now) }
{
    let mut names = Items::new(alloc);
    let mut taken = IndexSet::new(alloc);
    let inputs = own_variables(alloc, aig.inputs.as_slice())?;
    add_names(
        alloc,
        &mut names,
        &mut taken,
        inputs.as_slice(),
        aig.input_symbols.as_slice(),
    )?;
    let vars = latch_vars(alloc, aig.latches.as_slice())?;
    let latches = own_variables(alloc, vars.as_slice())?;
    add_names(
        alloc,
        &mut names,
        &mut taken,
        latches.as_slice(),
        aig.latch_symbols.as_slice(),
    )?;
    let outputs = own_outputs(alloc, aig.outputs.as_slice())?;
    add_names(
        alloc,
        &mut names,
        &mut taken,
        outputs.as_slice(),
        aig.output_symbols.as_slice(),
    )?;
    Ok(names)
}

/// The names behind the first so many.
fn behind(names: &[Name], count: usize) -> &[Name]
    ensures { result.now ≡ drop count names.now }
{
    if count <= names.len() {
        &names[count..]
    } else {
        &names[names.len()..]
    }
}

/// The name at the first place of a variable.
fn name_placed<'a>(places: &Places, found: &'a [Name], var: u32) -> Option<&'a Name>
    ensures { option_copied result
        ≡ option_and_then (slice_get found.now) (position (nat_eq var) places.now) }
{
    match places.place(var) {
        None => None,
        Some(at) => found.get(at),
    }
}

/// What a text says, with the names of its signals. Contracts see what it says.
#[derive(Drop)]
pub struct Naming<'a> {
    aig: &'a Aig,
    /// The variables of the inputs and latches.
    places: Places,
    /// The names of the inputs, latches and outputs.
    found: Items<Name>,
}

impl<'a> Model for Naming<'a> {
    ghost use Rattle.std.specs.Prelude.{◌≡◌};
    ghost use Rattle.aig_model.specs.declared.aig.Aig.{Aig};
    ghost use Rattle.aig_model.specs.Names.{names};
    ghost use Rattle.aig_model.specs.Sound.{sources};

    ghost Value = { Aig };

    ghost view = { λ n. n.aig.now };

    ghost invariant = { λ n. (n.places ≡ sources n.aig.now) × (n.found ≡ names n.aig.now) };
}

impl<'a> Naming<'a> {
    /// The names of what a text says.
    pub fn of(alloc: Global, aig: &'a Aig) -> Result<Naming<'a>, AllocError>
        requires few { IsFew aig.now }
        ensures { IfOk result (λ naming. naming ≡ aig.now) }
    {
        let places = sources_of(alloc, aig)?;
        let found = names_of(alloc, aig)?;
        Ok(Naming { aig, places, found })
    }

    /// The name of a variable.
    pub fn variable_name(&self, alloc: Global, var: u32) -> Result<Name, AllocError>
        ensures { IfOk result (λ name. name ≡ variable_name self.now var) }
    {
        match name_placed(&self.places, self.found.as_slice(), var) {
            None => own_variable(alloc, var),
            Some(name) => Ok(name.clone()?),
        }
    }

    /// The name of the signal that has a literal's bit.
    pub fn literal_name(&self, alloc: Global, literal: u32) -> Result<Name, AllocError>
        ensures { IfOk result (λ name. name ≡ literal_name self.now literal) }
    {
        if is_odd(literal) {
            own_opposite(alloc, variable_of(literal))
        } else {
            self.variable_name(alloc, variable_of(literal))
        }
    }

    /// The names of the outputs.
    pub fn output_names(&self) -> &[Name]
        ensures { result.now ≡ output_names self.now }
    {
        behind(self.found.as_slice(), self.places.len())
    }

    /// What the text says.
    pub fn aig(&self) -> &Aig
        ensures { result.now ≡ self.now }
    {
        self.aig
    }
}
