//! What a task file says, with the nodes by name; begin with `RawTasks`.

ghost use Rattle.ste_base.specs.Limits.{most_variables};
ghost use Rattle.std.specs.Prelude.{◌≡◌, ◌≤◌, length};

use bool_expr::Expr;
use ste_base::{Items, Name, Time};

/// Where the guard is 1, the node has the value's bit at each time step from `from` up to, but not
/// at, `to`. `line` is the number of its line.
#[derive(Drop)]
pub struct RawQuint {
    pub line: u32,
    pub guard: Expr,
    pub node: Name,
    pub value: Expr,
    pub from: Time,
    pub to: Time,
}

/// Where the guard is 1, the node has the value's bit at the edge's time step. `line` is the number
/// of its line.
#[derive(Drop)]
pub struct RawBind {
    pub line: u32,
    pub guard: Expr,
    pub node: Name,
    pub value: Expr,
}

/// What drives the node is not looked at, at each time step from `from` up to, but not at, `to`.
/// `line` is the number of its line.
#[derive(Drop)]
pub struct RawWeak {
    pub line: u32,
    pub node: Name,
    pub from: Time,
    pub to: Time,
}

/// What drives the node is not looked at, at the edge's time step. `line` is the number of its
/// line.
#[derive(Drop)]
pub struct RawMark {
    pub line: u32,
    pub node: Name,
}

/// An edge of a graph: the number of its line, the places of its two ends among the vertices, and
/// what it gives and asks and which nodes it weakens, each in order.
#[derive(Drop)]
pub struct RawEdge {
    pub line: u32,
    pub from: u32,
    pub to: u32,
    pub ant: Items<RawBind>,
    pub con: Items<RawBind>,
    pub weak: Items<RawMark>,
}

/// A task: the number of its first line, its name, and whether latches begin with their initial
/// values.
#[derive(Drop)]
pub enum RawTask {
    /// What is given, what has to follow, and the weakenings, each in the order of the lines.
    Ste {
        line: u32,
        name: Name,
        reset: bool,
        ant: Items<RawQuint>,
        con: Items<RawQuint>,
        weak: Items<RawWeak>,
    },
    /// The vertices in the order of first mention, of which the first is the initial one, and the
    /// edges in order.
    Gste {
        line: u32,
        name: Name,
        reset: bool,
        vertices: Items<Name>,
        edges: Items<RawEdge>,
    },
}

/// The tasks of a file, at most 256, and the variables that it declares, at most 4,000, each in
/// order.
#[derive(Drop)]
pub struct RawTasks {
    pub vars: Items<Name>,
    pub tasks: Items<RawTask>,
    ghost declared: { length vars ≤ most_variables },
    ghost few: { length tasks ≤ 256 },
}

impl RawTasks {
    /// The variables, in the order of declaration. It takes no memory.
    pub fn vars(&self) -> &[Name]
        ensures { result.now ≡ self.now.vars }
    {
        self.vars.as_slice()
    }

    /// The number of tasks. It takes no memory.
    pub fn tasks(&self) -> u32
        ensures { result ≡ length self.now.tasks }
    {
        self.tasks.len() as u32
    }
}
