//! A script that is read.

ghost use Rattle.std.specs.Prelude.{◌≡◌, ◌≤◌, [], length};
ghost use Rattle.apx_pass.specs.Script.{IsScript};

use crate::act::Line;
use std::alloc::Global;
use std::marker::Model;

/// The commands of a script, in the order of its lines; at most 1,000.
///
/// ```text
/// let script = read_script(alloc, b"# twice\nkill done 3 0 split\nrepartition 4 3 tally\n")?;
/// assert_eq!(script.lines().len(), 2);
/// ```
#[derive(Debug, Drop)]
pub struct Script {
    /// The commands, without the lines that are passed over.
    pub(crate) lines: Vec<Line>,
}

impl Model for Script {
    ghost use Rattle.std.specs.Prelude.{List};
    ghost use Rattle.apx_pass.specs.Script as script;

    ghost Value = { List script.Line };

    ghost view = { λ s. s.lines.items };

    ghost invariant = { λ s. script.IsScript s.lines.items };
}

impl Script {
    /// The script of a run that has none: it commands nothing.
    pub fn new(alloc: Global) -> Script
        ensures { result ≡ [] }
    {
        Script {
            lines: Vec::new(alloc),
        }
    }

    /// Its commands, in the order of their lines.
    pub fn lines(&self) -> &[Line]
        ensures lines { result.now ≡ self.now }
        ensures script { IsScript self.now }
    {
        &self.lines
    }
}
