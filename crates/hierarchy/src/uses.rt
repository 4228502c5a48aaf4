//! The uses of models, and the models by name and by number; begin with `names_of`.

ghost use Rattle.std.specs.Prelude.{◌≡◌, ◌⊎◌, [], IfErr, IfOk, None, OnOk, bytes_eq, filter_map, position};
ghost use Rattle.hierarchy.specs.Faults.{HasDoubleModel, double_model};
ghost use Rattle.hierarchy.specs.Instances.{model_names};
ghost use Rattle.hierarchy.specs.Lines.{use_lines, use_of};
ghost use Rattle.hierarchy.specs.Reach.{uses};

use crate::fault::NetFault;
use crate::signals::add;
use blif_syntax::{Item, What};
use indexmap::IndexSet;
use std::alloc::{AllocError, Global};
use std::marker::Model;
use ste_base::{Items, Name};

/// A use of a model, as a line gives it: each formal that it binds with its actual.
#[derive(Drop)]
pub struct UseLine<'a> {
    pub line: u32,
    pub model: &'a Name,
    pub bindings: &'a [(Name, Name)],
}

impl<'a> Model for UseLine<'a> {
    ghost use Rattle.hierarchy.specs.Lines.{UseLine};

    ghost Value = { UseLine };

    ghost view = { λ used. record {
      line = used.line;
      model = used.model.now;
      bindings = used.bindings.now;
    } };
}

/// The use of an item, where it is one.
pub fn use_of(item: &Item) -> Option<UseLine<'_>>
    ensures { result ≡ use_of item.now }
{
    match &item.what {
        What::Subckt { model, formals } => Some(UseLine {
            line: item.line,
            model,
            bindings: formals.as_slice(),
        }),
        _ => None,
    }
}

/// The names of the models, in order; or the first model whose name an earlier one has.
pub fn names_of(alloc: Global, models: &[blif_syntax::Model]) -> Result<IndexSet<Name>, NetFault>
    ensures names { IfOk result (λ names. names.keys ≡ model_names models.now) }
    ensures ok { OnOk result (double_model [] models.now ≡ None) }
    ensures err { IfErr result (λ fault. (fault ≡ NetFault.OutOfMemory)
        ⊎ HasDoubleModel models.now fault) }
{
    let mut names = IndexSet::new(alloc);
    for model in models {
        if names.contains(&model.name) {
            let name = model.name.clone()?;
            return Err(NetFault::DoubleModel {
                line: model.line,
                name,
            });
        }
        add(&mut names, &model.name)?;
    }
    Ok(names)
}

/// The numbers of the models that a model uses, by line; a name that no model has is left out.
fn used_by(
    alloc: Global,
    names: &IndexSet<Name>,
    model: &blif_syntax::Model,
) -> Result<Items<usize>, AllocError>
    ensures { IfOk result (λ numbers. numbers
        ≡ filter_map (λ used. position (bytes_eq used.model) names.now.keys)
        (use_lines model.now)) }
{
    let mut numbers = Items::new(alloc);
    for item in model.items.as_slice() {
        if let Some(used) = use_of(item) {
            if let Some(number) = names.get_index_of(used.model) {
                numbers.push(number)?;
            }
        }
    }
    Ok(numbers)
}

/// The numbers of the models that each model uses.
pub fn uses(
    alloc: Global,
    names: &IndexSet<Name>,
    models: &[blif_syntax::Model],
) -> Result<Vec<Items<usize>>, AllocError>
    requires { names.now.keys ≡ model_names models.now }
    ensures { IfOk result (λ graph. graph.items ≡ uses models.now) }
{
    let mut graph = Vec::new(alloc);
    for model in models {
        graph.push(used_by(alloc, names, model)?)?;
    }
    Ok(graph)
}
