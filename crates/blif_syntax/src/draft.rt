//! What is read so far of a netlist; begin with `line_added`.

ghost use Rattle.std.specs.Prelude.{◌≡◌, [], None, IfOk};
ghost use Rattle.blif_syntax.specs.Places.{first_or};
ghost use Rattle.blif_syntax.specs.private.Drafts.{open_cover_of, row_added, cover_item, closed_items, with_pending_cover, item_added, model_added, line_behind, line_added};

use crate::form::{Entry, Form};
use crate::models::{Item, Model, What};
use crate::open_cover::{OpenCover, first_or};
use net_core::{Cover, Row};
use std::alloc::{AllocError, Global};
use ste_base::{Items, Name};

/// A cover whose rows are being read.
#[derive(Drop)]
pub struct Pending {
    /// The number of its `.names` line.
    pub line: u32,
    pub inputs: Items<Name>,
    pub output: Name,
    pub opened: OpenCover,
    pub rows: Items<Row>,
}

/// What is read so far: the models that are ended, the one that is open, and its last cover, where
/// rows may follow.
#[derive(Drop)]
pub struct Draft {
    pub models: Items<Model>,
    pub model: Option<Model>,
    pub cover: Option<Pending>,
}

/// The cover that a row may go on with.
pub fn open_cover_of(cover: &Option<Pending>) -> Option<OpenCover>
    ensures { result ≡ open_cover_of cover.now }
{
    match cover {
        None => None,
        Some(cover) => Some(cover.opened),
    }
}

/// The cover, with one more row.
fn row_added(row: Row, on: bool, cover: Option<Pending>) -> Result<Option<Pending>, AllocError>
    ensures { IfOk result (λ grown. grown ≡ row_added row on cover) }
{
    let Some(
        Pending {
            line,
            inputs,
            output,
            opened,
            mut rows,
        },
    ) = cover
    else {
        return Ok(None);
    };
    rows.push(row)?;
    Ok(Some(Pending {
        line,
        inputs,
        output,
        opened: OpenCover {
            width: opened.width,
            first: Some(first_or(opened.first, on)),
        },
        rows,
    }))
}

/// The item of a cover.
fn cover_item(cover: Pending) -> Item
    ensures { result ≡ cover_item cover }
{
    let Pending {
        line,
        inputs,
        output,
        opened,
        rows,
    } = cover;
    let cover = Cover {
        inputs: opened.width,
        on: first_or(opened.first, true),
        rows,
    };
    Item {
        line,
        what: What::Names {
            inputs,
            output,
            cover,
        },
    }
}

/// The open model, with one more item.
fn item_added(model: Option<Model>, item: Item) -> Result<Option<Model>, AllocError>
    ensures { IfOk result (λ grown. grown ≡ item_added model item) }
{
    let Some(
        Model {
            line,
            name,
            mut items,
        },
    ) = model
    else {
        return Ok(None);
    };
    items.push(item)?;
    Ok(Some(Model { line, name, items }))
}

/// The open model, with the item of a cover.
fn with_pending_cover(
    model: Option<Model>,
    cover: Option<Pending>,
) -> Result<Option<Model>, AllocError>
    ensures { IfOk result (λ grown. grown ≡ with_pending_cover model cover) }
{
    match cover {
        None => Ok(model),
        Some(cover) => item_added(model, cover_item(cover)),
    }
}

/// The models, and the one that was open.
fn model_added(models: Items<Model>, model: Option<Model>) -> Result<Items<Model>, AllocError>
    ensures { IfOk result (λ grown. grown ≡ model_added models model) }
{
    let mut models = models;
    if let Some(model) = model {
        models.push(model)?;
    }
    Ok(models)
}

/// The models, when the last line is read.
pub fn models_of(draft: Draft) -> Result<Items<Model>, AllocError>
    ensures { IfOk result (λ models. models
        ≡ model_added draft.models (with_pending_cover draft.model draft.cover)) }
{
    let Draft {
        models,
        model,
        cover,
    } = draft;
    model_added(models, with_pending_cover(model, cover)?)
}

/// What is read, with one more line that goes on with no cover, behind these models and this open
/// one.
fn line_behind(
    alloc: Global,
    models: Items<Model>,
    model: Option<Model>,
    line: u32,
    form: Form,
) -> Result<Draft, AllocError>
    ensures { IfOk result (λ draft. draft ≡ line_behind models model line form) }
{
    match form {
        Form::Item(what) => Ok(Draft {
            models,
            model: item_added(model, Item { line, what })?,
            cover: None,
        }),
        Form::Names(width, inputs, output) => Ok(Draft {
            models,
            model,
            cover: Some(Pending {
                line,
                inputs,
                output,
                opened: OpenCover { width, first: None },
                rows: Items::new(alloc),
            }),
        }),
        Form::Model(name) => Ok(Draft {
            models: model_added(models, model)?,
            model: Some(Model {
                line,
                name,
                items: Items::new(alloc),
            }),
            cover: None,
        }),
        Form::End => Ok(Draft {
            models: model_added(models, model)?,
            model: None,
            cover: None,
        }),
        _ => Ok(Draft {
            models,
            model,
            cover: None,
        }),
    }
}

/// What is read, with one more line.
pub fn line_added(alloc: Global, draft: Draft, entry: Entry) -> Result<Draft, AllocError>
    ensures { IfOk result (λ grown. grown ≡ line_added draft entry.line entry.form) }
{
    let Draft {
        models,
        model,
        cover,
    } = draft;
    let Entry { line, form } = entry;
    match form {
        Form::Skipped => Ok(Draft {
            models,
            model,
            cover,
        }),
        Form::Row(row, on) => Ok(Draft {
            models,
            model,
            cover: row_added(row, on, cover)?,
        }),
        other => line_behind(
            alloc,
            models,
            with_pending_cover(model, cover)?,
            line,
            other,
        ),
    }
}
