//! The classes of operators, and their ports.

ghost use Rattle.std.specs.Prelude.{◌≡◌, option_map};
ghost use Rattle.apx_dag.specs.Class.{class_of, has_output, is_end, left_port, right_port};

/// A class of operators, by the name that it has in an application.
#[derive(Clone, Copy, Debug, PartialEq, Eq)]
pub(crate) enum Class {
    Lines,
    Pairs,
    Keep,
    Scale,
    Words,
    Count,
    Sum,
    Peak,
    First,
    Prefix,
    Tumble,
    Top,
    Match,
    Enrich,
    Store,
}

impl Class {
    /// The class with a name.
    pub(crate) fn of(name: &str) -> Option<Class>
        ensures { result ≡ class_of name.now }
    {
        match name {
            "lines" => Some(Class::Lines),
            "pairs" => Some(Class::Pairs),
            "keep" => Some(Class::Keep),
            "scale" => Some(Class::Scale),
            "words" => Some(Class::Words),
            "count" => Some(Class::Count),
            "sum" => Some(Class::Sum),
            "peak" => Some(Class::Peak),
            "first" => Some(Class::First),
            "prefix" => Some(Class::Prefix),
            "tumble" => Some(Class::Tumble),
            "top" => Some(Class::Top),
            "match" => Some(Class::Match),
            "enrich" => Some(Class::Enrich),
            "store" => Some(Class::Store),
            _ => None,
        }
    }

    /// Whether there is an output port, which has the name `output`.
    pub(crate) fn has_output(self) -> bool
        ensures { result ≡ has_output self }
    {
        !matches!(self, Class::Store)
    }

    /// Whether it is an input or the sink.
    pub(crate) fn is_end(self) -> bool
        ensures { result ≡ is_end self }
    {
        matches!(self, Class::Lines | Class::Pairs | Class::Store)
    }

    /// The name of the first input port.
    pub(crate) fn left_port(self) -> Option<&'static str>
        ensures { option_map (λ port. port.now) result ≡ left_port self }
    {
        match self {
            Class::Lines | Class::Pairs => None,
            Class::Match | Class::Enrich => Some("left"),
            _ => Some("input"),
        }
    }

    /// The name of the second input port.
    pub(crate) fn right_port(self) -> Option<&'static str>
        ensures { option_map (λ port. port.now) result ≡ right_port self }
    {
        match self {
            Class::Match | Class::Enrich => Some("right"),
            _ => None,
        }
    }
}
