//! Places within an application, spelled as paths.

use crate::name::Name;
use std::alloc::{AllocError, Global};

/// A value within an application, by the numbers of its operator, stream and
/// sink in the file.
#[derive(Clone, Copy)]
pub(crate) enum Place {
    Application,
    Operator(usize),
    Attributes(usize),
    Stream(usize),
    Source(usize),
    Sink(usize, usize),
}

impl Place {
    ghost use Rattle.std.specs.Prelude.{◌≡◌, IfOk};
    ghost use Rattle.apx_json.specs.Shape.{path, member_path};

    /// Its path.
    pub(crate) fn path(self, alloc: Global) -> Result<Name, AllocError>
        ensures { IfOk result (λ name. name ≡ path self) }
    {
        match self {
            Place::Application => Name::of(alloc, "application"),
            Place::Operator(i) => Ok(Name::from(format!(in alloc; "operators[{i}]")?)),
            Place::Attributes(i) => Ok(Name::from(format!(in alloc; "operators[{i}].attributes")?)),
            Place::Stream(i) => Ok(Name::from(format!(in alloc; "streams[{i}]")?)),
            Place::Source(i) => Ok(Name::from(format!(in alloc; "streams[{i}].source")?)),
            Place::Sink(i, j) => Ok(Name::from(format!(in alloc; "streams[{i}].sinks[{j}]")?)),
        }
    }

    /// The path of a member of the object there; those of the application
    /// itself have their names alone.
    pub(crate) fn member(self, alloc: Global, name: &str) -> Result<Name, AllocError>
        ensures { IfOk result (λ place. place ≡ member_path self name.now) }
    {
        if let Place::Application = self {
            return Name::of(alloc, name);
        }
        let path = self.path(alloc)?;
        Ok(Name::from(format!(in alloc; "{path}.{name}")?))
    }
}
