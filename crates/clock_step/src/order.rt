//! The first line of an input file; begin with `read_order`.

ghost use Rattle.std.specs.Prelude.{◌≡◌, [], None, IfOk, false, map, option_map};
ghost use Rattle.std.specs.List.{filter_map};
ghost use Rattle.clock_step.specs.Order.{first_double_net, first_driven, first_unknown_net, is_among, is_undriven, is_undriven_source, nets_with};
ghost use Rattle.clock_step.specs.private.Answers.{IsOrder, IsOrderOf};

use crate::fault::InputFault;
use blif_lines::Line;
use indexmap::IndexSet;
use net_core::{Net, Resolve, Source};
use std::alloc::{AllocError, Global};
use ste_base::{Items, Name, NodeId};

/// Adds a net, where there is one, and answers whether it was there already.
fn add_node(nodes: &mut IndexSet<NodeId>, node: Option<NodeId>) -> Result<bool, AllocError>
    ensures double { IfOk result (λ double. double
        ≡ is_among (map (λ node. node.0) nodes.old.keys) (option_map (λ node. node.0) node)) }
    ensures nodes { IfOk result (λ double. double ≡ false → map (λ node. node.0) nodes.new.keys
        ≡ nets_with (map (λ node. node.0) nodes.old.keys) (option_map (λ node. node.0) node)) }
{
    match node {
        None => Ok(false),
        Some(node) => Ok(!nodes.insert(node)?),
    }
}

/// Adds the nets of these names up to the first whose net is there already, and gives that name.
fn add_up_to_double<N: Resolve>(
    nodes: &mut IndexSet<NodeId>,
    names: &N,
    words: &[Name],
) -> Result<Option<Name>, AllocError>
    requires { nodes.old.keys ≡ [] }
    ensures double { IfOk result (λ found.
        found ≡ first_double_net (N.net_of names.now) [] words.now) }
    ensures nodes { IfOk result (λ found. found ≡ None →
        map (λ node. node.0) nodes.new.keys ≡ filter_map (N.net_of names.now) words.now) }
{
    for word in words {
        if add_node(nodes, names.resolve(word.bytes()))? {
            return Ok(Some(word.clone()?));
        }
    }
    Ok(None)
}

/// The first of these names that names no net.
fn first_unknown<N: Resolve>(names: &N, words: &[Name]) -> Result<Option<Name>, AllocError>
    ensures { IfOk result (λ found. found ≡ first_unknown_net (N.net_of names.now) words.now) }
{
    for word in words {
        if names.resolve(word.bytes()).is_none() {
            return Ok(Some(word.clone()?));
        }
    }
    Ok(None)
}

/// Whether the source is that of an input or of a free net.
fn is_undriven_source(source: Source) -> bool
    ensures { result ≡ is_undriven_source source }
{
    match source {
        Source::Input | Source::Free => true,
        Source::Gate(_) | Source::Latch(_) => false,
    }
}

/// Whether the net is there, and is an input or free.
fn is_undriven(net: &Net, node: NodeId) -> bool
    ensures { result ≡ is_undriven net.now.raw node.0 }
{
    node.0 < net.nets() && is_undriven_source(net.source(node))
}

/// The first of these names whose net is neither an input nor free.
fn first_driven<N: Resolve>(
    names: &N,
    net: &Net,
    words: &[Name],
) -> Result<Option<Name>, AllocError>
    ensures { IfOk result (λ found.
        found ≡ first_driven (N.net_of names.now) net.now.raw words.now) }
{
    for word in words {
        if let Some(node) = names.resolve(word.bytes())
            && !is_undriven(net, node)
        {
            return Ok(Some(word.clone()?));
        }
    }
    Ok(None)
}

/// The nets of these names of a line of this number.
fn nodes_of<N: Resolve>(
    alloc: Global,
    line: u32,
    net: &Net,
    names: &N,
    words: &[Name],
) -> Result<Items<NodeId>, InputFault>
    ensures { IsOrderOf (N.net_of names.now) net.now.raw line words.now result }
{
    let mut nodes = IndexSet::new(alloc);
    if let Some(name) = add_up_to_double(&mut nodes, names, words)? {
        return Err(InputFault::DoubleName { line, name });
    }
    if let Some(name) = first_unknown(names, words)? {
        return Err(InputFault::UnknownNode { line, name });
    }
    if let Some(name) = first_driven(names, net, words)? {
        return Err(InputFault::NotAnInput { line, name });
    }
    Ok(nodes.as_slice().to_vec(alloc)?.into())
}

/// The nets that the first line names, in its order.
pub fn read_order<N: Resolve>(
    alloc: Global,
    line: &Line,
    net: &Net,
    names: &N,
) -> Result<Items<NodeId>, InputFault>
    ensures { IsOrder (N.net_of names.now) net.now.raw line.now result }
{
    match line.words.as_slice() {
        [word, words @ ..] if word.bytes() == ".order".as_bytes() => {
            nodes_of(alloc, line.number, net, names, words)
        }
        _ => Err(InputFault::BadLine { line: line.number }),
    }
}
