//! What is known of the lines that are read; begin with `Known`.

ghost use Rattle.std.specs.Prelude.{◌≡◌, ◌≤◌, ◌<◌, ◌^◌, ◌++◌, ◌∷◌, [], suc, length, Bool, true, not, Some, None, OnOk, IfOk, IfErr, IfNone, bytes_eq};
ghost use Rattle.std.specs.List.{list_any};
ghost use Rattle.ste_base.specs.Limits.{most_variables};
ghost use Rattle.assert_syntax.specs.Forms as form;
ghost use Rattle.assert_syntax.specs.Places.{context_of, context_behind, first_double, names_fault, graph_fault, vertices_behind};
ghost use Rattle.assert_syntax.specs.Spelled.{vertex_number};
ghost use Rattle.assert_syntax.specs.private.Drafts.{context_held};
ghost use Rattle.assert_syntax.specs.Reads.{IsFault};

use crate::fault::TaskFault;
use crate::position::Position;
use bool_expr::Variables;
use indexmap::IndexSet;
use std::alloc::{AllocError, Global};
use ste_base::Name;

/// The greatest number of variables.
const MAX_VARIABLES: usize = 4_000;

/// The greatest number of tasks.
const MAX_TASKS: usize = 256;

/// The greatest number of vertices of a graph.
const MAX_VERTICES: usize = 1_000;

/// The greatest number of edges of a graph.
const MAX_EDGES: u32 = 10_000;

/// What is known of the lines that are read: the position behind them, the variables, the names of
/// the tasks, and the vertices and the number of edges of the last graph.
#[derive(Drop)]
pub struct Known {
    pub position: Position,
    pub vars: Variables,
    pub names: IndexSet<Name>,
    pub vertices: IndexSet<Name>,
    pub edges: u32,
}

/// Adds a name; false where it is there already.
fn add_name(set: &mut IndexSet<Name>, name: &Name) -> Result<bool, AllocError>
    ensures fresh { IfOk result (λ fresh. fresh ≡ not (list_any (bytes_eq name.now) set.old.keys)) }
    ensures keys { IfOk result (λ fresh. fresh ≡ true →
        set.new.keys ≡ set.old.keys ++ name.now ∷ []) }
{
    if set.contains(name) {
        return Ok(false);
    }
    set.insert(name.clone()?)?;
    Ok(true)
}

/// Declares a variable; false where its name is declared already.
fn add_variable(vars: &mut Variables, name: &Name) -> Result<bool, AllocError>
    ensures fresh { IfOk result (λ fresh. fresh ≡ not (list_any (bytes_eq name.now) vars.old)) }
    ensures names { IfOk result (λ fresh. fresh ≡ true → vars.new ≡ vars.old ++ name.now ∷ []) }
{
    if vars.contains(name) {
        return Ok(false);
    }
    vars.push(name)?;
    Ok(true)
}

/// Declares variables up to the first whose name is declared already, which is the answer.
#[tactic(auto, using(crate::proofs::Texts::name_double, crate::proofs::Texts::name_turn))]
fn add_up_to_double(vars: &mut Variables, names: &[Name]) -> Result<Option<Name>, AllocError>
    ensures double { IfOk result (λ found. found ≡ first_double vars.old names.now) }
    ensures names { IfOk result (λ found. IfNone found (vars.new ≡ vars.old ++ names.now)) }
{
    for name in names {
        if !add_variable(vars, name)? {
            return Ok(Some(name.clone()?));
        }
    }
    Ok(None)
}

impl Known {
    /// What is known before the first line.
    pub fn new(alloc: Global) -> Known
        ensures { context_held result ≡ context_of [] }
    {
        Known {
            position: Position::Start,
            vars: Variables::new(alloc),
            names: IndexSet::new(alloc),
            vertices: IndexSet::new(alloc),
            edges: 0,
        }
    }

    /// Behind a line that declares these variables.
    pub fn declare(&mut self, line: u32, names: &[Name]) -> Result<(), TaskFault>
        ensures context { OnOk result (context_held self.new
            ≡ context_behind (context_held self.old) (form.vars names.now)) }
        ensures sound { OnOk result (names_fault most_variables
            (first_double self.old.vars names.now)
            (self.old.vars ++ names.now) ≡ None) }
        ensures err { IfErr result (λ fault. IsFault line
            (names_fault most_variables (first_double self.old.vars names.now)
            (self.old.vars ++ names.now)) fault) }
    {
        if let Some(name) = add_up_to_double(&mut self.vars, names)? {
            return Err(TaskFault::DoubleName { line, name });
        }
        if self.vars.names().len() > MAX_VARIABLES {
            return Err(TaskFault::TooMany { line });
        }
        Ok(())
    }

    /// Behind a line that starts a task of this name.
    fn name_task(&mut self, line: u32, name: &Name, position: Position) -> Result<(), TaskFault>
        ensures position { OnOk result (self.new.position ≡ position) }
        ensures names { OnOk result (self.new.names.keys ≡ self.old.names.keys ++ name.now ∷ []) }
        ensures vars { self.new.vars ≡ self.old.vars }
        ensures vertices { self.new.vertices ≡ self.old.vertices }
        ensures edges { self.new.edges ≡ self.old.edges }
        ensures sound { OnOk result (names_fault 256
            (first_double self.old.names.keys (name.now ∷ []))
            (self.old.names.keys ++ name.now ∷ []) ≡ None) }
        ensures err { IfErr result (λ fault. IsFault line (names_fault 256
            (first_double self.old.names.keys (name.now ∷ []))
            (self.old.names.keys ++ name.now ∷ [])) fault) }
    {
        if !add_name(&mut self.names, name)? {
            return Err(TaskFault::DoubleName {
                line,
                name: name.clone()?,
            });
        }
        if self.names.len() > MAX_TASKS {
            return Err(TaskFault::TooMany { line });
        }
        self.position = position;
        Ok(())
    }

    /// Behind a line that starts an assertion of this name.
    pub fn start_assertion(&mut self, line: u32, name: &Name, reset: bool) -> Result<(), TaskFault>
        ensures context { OnOk result (context_held self.new
            ≡ context_behind (context_held self.old) (form.ste name.now reset)) }
        ensures sound { OnOk result (names_fault 256
            (first_double self.old.names.keys (name.now ∷ []))
            (self.old.names.keys ++ name.now ∷ []) ≡ None) }
        ensures err { IfErr result (λ fault. IsFault line (names_fault 256
            (first_double self.old.names.keys (name.now ∷ []))
            (self.old.names.keys ++ name.now ∷ [])) fault) }
    {
        let _ = reset;
        self.name_task(line, name, Position::Assertion)
    }

    /// Behind a line that starts a graph of this name from this vertex.
    pub fn start_graph(
        &mut self,
        alloc: Global,
        line: u32,
        name: &Name,
        vertex: &Name,
        reset: bool,
    ) -> Result<(), TaskFault>
        ensures context { OnOk result (context_held self.new
            ≡ context_behind (context_held self.old) (form.gste name.now vertex.now reset)) }
        ensures sound { OnOk result (names_fault 256
            (first_double self.old.names.keys (name.now ∷ []))
            (self.old.names.keys ++ name.now ∷ []) ≡ None) }
        ensures err { IfErr result (λ fault. IsFault line (names_fault 256
            (first_double self.old.names.keys (name.now ∷ []))
            (self.old.names.keys ++ name.now ∷ [])) fault) }
    {
        let _ = reset;
        self.name_task(line, name, Position::Graph)?;
        let mut vertices = IndexSet::new(alloc);
        vertices.insert(vertex.clone()?)?;
        self.vertices = vertices;
        self.edges = 0;
        Ok(())
    }

    /// Behind a line that starts an edge: the numbers of its two vertices.
    pub fn start_edge(&mut self, line: u32, from: Name, to: Name) -> Result<(u32, u32), TaskFault>
        requires room { self.old.edges ≤ 10000 }
        ensures context { OnOk result (context_held self.new
            ≡ context_behind (context_held self.old) (form.edge from to)) }
        ensures ends { IfOk result (λ ends.
            (ends.0 ≡ vertex_number self.new.vertices.keys from)
            × (ends.1 ≡ vertex_number self.new.vertices.keys to)) }
        ensures sound { OnOk result (graph_fault
            (vertices_behind (form.edge from to) self.old.vertices.keys)
            (suc self.old.edges) ≡ None) }
        ensures err { IfErr result (λ fault. IsFault line (graph_fault
            (vertices_behind (form.edge from to) self.old.vertices.keys)
            (suc self.old.edges)) fault) }
    {
        let (from, _) = self.vertices.insert_full(from)?;
        let (to, _) = self.vertices.insert_full(to)?;
        if self.vertices.len() > MAX_VERTICES || self.edges >= MAX_EDGES {
            return Err(TaskFault::TooMany { line });
        }
        self.edges += 1;
        self.position = Position::Edge;
        Ok((from as u32, to as u32))
    }
}
