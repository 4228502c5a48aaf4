//! What the words may ask for: `Command`.

use std::marker::Model;

/// What a command does.
#[derive(Drop)]
pub enum Action<'a> {
    /// Checks every task of the file `tasks` on the netlist of the file `net`.
    Check { net: &'a str, tasks: &'a str },
    /// Counts the parts of the netlist of the file `net`.
    Info { net: &'a str },
    /// Runs the netlist of the file `net` on the inputs of the file `inputs`.
    Sim { net: &'a str, inputs: &'a str },
    /// Makes and checks a pipeline of so many stages, 1 to 1000.
    Bench { stages: u64 },
}

/// What the words ask for.
#[derive(Drop)]
pub struct Command<'a> {
    /// What is done.
    pub action: Action<'a>,
    /// How many workers share the tasks, 1 to 64.
    pub workers: u32,
    /// Node steps for each task, 1 to 16,000,000; none where they are not given.
    pub steps: Option<u64>,
    /// How many cubes of a list are written at most, 1 to 64.
    pub cubes: u32,
    /// Whether a run shows every net.
    pub wave: bool,
    /// Whether the number of shared nodes is written.
    pub nodes: bool,
}

impl<'a> Model for Command<'a> {
    ghost use Rattle.command_line.specs.Command.{Command as Asked};
    ghost use Rattle.command_line.specs.View.{view_of};

    ghost Value = { Asked };

    ghost view = { λ command. record {
      action = view_of command.action;
      workers = command.workers;
      steps = command.steps;
      cubes = command.cubes;
      wave = command.wave;
      nodes = command.nodes;
    } };
}
