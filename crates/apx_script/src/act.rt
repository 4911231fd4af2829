//! The commands of a script.

use apx_json::Name;
use std::marker::Model;

/// Where in its window a partition is killed.
#[derive(Clone, Copy, Debug, PartialEq, Eq)]
pub enum Point {
    /// Before it begins the window.
    Before,
    /// While it has the window open.
    Staged,
    /// Where the window's rows are stored; this is for the sink alone.
    Written,
    /// After it has finished the window.
    Done,
}

/// What a line of a script commands.
#[derive(Debug, Drop)]
pub enum Act {
    /// A partition of the operator with this name is killed at a point of a
    /// window. Windows count from 1 and partitions from 0; a number above 255
    /// is held as 255.
    Kill {
        point: Point,
        window: u32,
        part: u8,
        name: Name,
    },
    /// The operator with this name has another number of partitions after a
    /// window. A number above 255 is held as 255.
    Repartition {
        window: u32,
        count: u8,
        name: Name,
    },
}

/// A command, and where it stands in the script.
#[derive(Debug, Drop)]
pub struct Line {
    /// The number of its line, from 1.
    pub number: u64,
    /// What it commands.
    pub act: Act,
}

impl Model for Line {
    ghost use Rattle.apx_pass.specs.Script as script;
    ghost use Rattle.apx_script.specs.Views.{act_view};

    ghost Value = { script.Line };

    ghost view = { λ l. record { number = l.number; act = act_view l.act } };
}
