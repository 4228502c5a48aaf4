//! The declared variables by name; begin with `Variables`.

ghost use Rattle.std.specs.Prelude.{◌≡◌, ◌<◌, ◌^◌, ◌++◌, ◌∷◌, [], List, ℕ, length, IfOk, IfErr, IfSome, OnOk, OnErr, IsTrue, is_some, bytes_eq};
ghost use Rattle.std.specs.List.{list_any};
ghost use Rattle.bool_expr.specs.Tokens.{variable};
ghost use Rattle.bool_expr.specs.Tree.{tree_of, place};
ghost use Rattle.bool_expr.specs.Read.{number_in, place_by};
ghost use Rattle.bool_expr.specs.private.Held.{numbers, with_place, IsCause};

use crate::expr::Expr;
use crate::fault::ExprFault;
use std::alloc::{AllocError, Global};
use std::collections::HashMap;
use std::marker::Model;
use ste_base::{Name, VarId};

/// The declared variables, with the number of each by its name, for many expressions over them.
/// Contracts see the list of their names, in the order of declaration. A name that stands in it
/// twice has the number of its first place.
#[derive(Drop)]
pub struct Variables {
    names: Vec<Name>,
    places: HashMap<Name, usize>,
}

impl Model for Variables {
    ghost use Rattle.std.specs.Prelude.{List, ℕ, ◌≡◌};
    ghost use Rattle.bool_expr.specs.Read.{number_in};
    ghost use Rattle.bool_expr.specs.private.Held.{numbers};

    ghost Value = { List (List ℕ) };

    ghost view = { λ v. v.names.items };

    ghost invariant = { λ v. (word : List ℕ) →
        numbers v.places word ≡ number_in v.names.items word };
}

/// Adds the number of a variable, where its name has none.
#[tactic(auto, using(crate::proofs::Places::put, crate::proofs::Places::kept))]
fn add_place(places: &mut HashMap<Name, usize>, name: &Name, place: usize) -> Result<(), AllocError>
    ensures ok { OnOk result ((word : List ℕ) → numbers places.new word
        ≡ with_place (numbers places.old word) (bytes_eq name.now word) place) }
    ensures err { OnErr result ((word : List ℕ) → numbers places.new word
        ≡ numbers places.old word) }
{
    if places.get(name).is_none() {
        places.insert(name.clone()?, place)?;
    }
    Ok(())
}

impl Variables {
    /// No variables. It takes no memory.
    pub fn new(alloc: Global) -> Variables
        ensures { result ≡ [] }
    {
        Variables {
            names: Vec::new(alloc),
            places: HashMap::new(alloc),
        }
    }

    /// The variables of these names.
    pub fn of(alloc: Global, names: &[Name]) -> Result<Variables, AllocError>
        ensures { IfOk result (λ variables. variables ≡ names.now) }
    {
        let mut variables = Variables::new(alloc);
        for name in names {
            variables.push(name)?;
        }
        Ok(variables)
    }

    /// Declares one more variable. When memory runs out, the variables stay as they were.
    pub fn push(&mut self, name: &Name) -> Result<(), AllocError>
        ensures ok { OnOk result (self.new ≡ self.old ++ name.now ∷ []) }
        ensures err { OnErr result (self.new ≡ self.old) }
    {
        let place = self.names.len();
        self.names.push(name.clone()?)?;
        if let Err(fault) = add_place(&mut self.places, name, place) {
            self.names.pop();
            return Err(fault);
        }
        Ok(())
    }

    /// Whether a variable of this name is declared. It takes no memory.
    pub fn contains(&self, name: &Name) -> bool
        ensures { result ≡ list_any (bytes_eq name.now) self.now }
    {
        self.places.contains_key(name)
    }

    /// The names of the variables, in the order of declaration. It takes no memory.
    pub fn names(&self) -> &[Name]
        ensures { result.now ≡ self.now }
    {
        self.names.as_slice()
    }

    /// The number of a variable.
    fn number(&self, name: &Name) -> Option<usize>
        ensures number { result ≡ number_in self.now name.now }
        ensures within { IfSome result (λ place. place < length self.now) }
    {
        self.places.get(name).copied()
    }
}

/// The variable that a word is.
pub fn variable_of(alloc: Global, variables: &Variables, word: &[u8]) -> Result<Expr, ExprFault>
    requires { length variables.now < 2 ^ 32 }
    ensures ok { IfOk result (λ expr. tree_of expr
        ≡ place (place_by (number_in variables.now) word.now)) }
    ensures known { IfOk result (λ _. IsTrue (is_some (number_in variables.now word.now))) }
    ensures err { IfErr result (λ fault.
        IsCause (number_in variables.now) (variable word.now ∷ []) fault) }
{
    let name = Name::from_bytes(alloc, word)?;
    match variables.number(&name) {
        Some(place) => Ok(Expr::Var(VarId(place as u32))),
        None => Err(ExprFault::UnknownVar { name }),
    }
}
