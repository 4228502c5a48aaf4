//! What a seat of the table knows: begin with `View`. No value of these types is ever made; the
//! rules speak of them.

use dd_nodes::{Node, Ref};
use std::collections::LinkedList;
use std::marker::Model;

/// A map from slots to words.
pub struct WordMap {
    log: LinkedList<(u64, u64)>,
}

impl Model for WordMap {
    ghost use Rattle.std.specs.Prelude.{ℕ};
    ghost use Rattle.std.specs.Ordering.{nat_cmp};
    ghost use Rattle.std.specs.FinMap as map;
    ghost use Rattle.std.specs.Coded.{coded_ℕ};

    ghost Value = { map.FinMap nat_cmp ℕ };

    ghost coded = { map.code coded_ℕ coded_ℕ };

    ghost view = { λ a. map.from_entries a.log };
}

/// A map from the numbers of references to nodes.
pub struct NodeMap {
    log: LinkedList<(u64, Node)>,
}

impl Model for NodeMap {
    ghost use Rattle.std.specs.Ordering.{nat_cmp};
    ghost use Rattle.std.specs.FinMap as map;
    ghost use Rattle.std.specs.Coded.{coded_ℕ};
    ghost use Rattle.dd_table.specs.Codes.{node_code};
    ghost use Rattle.dd_nodes.specs.declared.node.Node.{Node};

    ghost Value = { map.FinMap nat_cmp Node };

    ghost coded = { map.code coded_ℕ node_code };

    ghost view = { λ a. map.from_entries a.log };
}

/// What a seat knows.
pub struct View {
    /// The words that the seat met, by their slots.
    pub met: WordMap,
    /// The nodes that it holds, by the numbers of their references.
    pub held: NodeMap,
    /// The nodes that it took in last from another seat.
    pub last: NodeMap,
    /// The references that it made, and those that the seats made that it took in.
    pub made: LinkedList<Ref>,
    /// How many references it may make in all.
    pub limit: u64,
    /// The number of variables.
    pub vars: u64,
    /// The number of slots.
    pub slots: u64,
}
