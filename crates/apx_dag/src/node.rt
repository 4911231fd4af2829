//! An operator of a graph.

ghost use Rattle.std.specs.Prelude.{◌≡◌};
ghost use Rattle.apx_pass.specs.Graph.{is_input, is_sink};

use crate::role::Role;
use apx_json::Name;
use std::marker::Model;

/// An operator of a graph, by its number in the file from 0.
#[derive(Debug, Drop)]
pub struct Node {
    /// Its name.
    pub name: Name,
    /// What it does, with what its properties say.
    pub role: Role,
    /// How many partitions there are at the start: 1 to 8.
    pub partitions: u8,
    /// The number of the operator that the first input port reads, its own
    /// number where there is no such port.
    pub left: u16,
    /// The same of the second input port.
    pub right: u16,
    /// How many windows there are to one step: 1 to 20,000.
    pub app_windows: u32,
}

impl Model for Node {
    ghost use Rattle.apx_pass.specs.Graph as graph;
    ghost use Rattle.apx_dag.specs.Role.{role_view};

    ghost Value = { graph.Node };

    ghost view = { λ n. record {
      name = n.name;
      role = role_view n.role;
      partitions = n.partitions;
      left = n.left;
      right = n.right;
      app_windows = n.app_windows;
    } };
}

impl Node {
    /// Whether it is an input.
    pub fn is_input(&self) -> bool
        ensures { result ≡ is_input self.now.role }
    {
        matches!(self.role, Role::Input { .. })
    }

    /// Whether it is the sink.
    pub fn is_sink(&self) -> bool
        ensures { result ≡ is_sink self.now.role }
    {
        matches!(self.role, Role::Sink)
    }
}
