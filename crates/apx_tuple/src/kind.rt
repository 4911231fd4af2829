//! What an operator does.
ghost use Rattle.std.specs.Prelude.{◌≡◌};
ghost use Rattle.apx_tuple.specs.Kind.{has_right};

/// How an input operator turns a line of its file into a tuple.
#[derive(Clone, Copy, Debug, PartialEq, Eq)]
pub enum InputKind {
    /// The whole line is the key, and the value is 1.
    Lines,
    /// The line is a key, a tab and a value.
    Pairs,
}

/// What an inner operator does with the tuples of a window.
#[derive(Clone, Copy, Debug, PartialEq, Eq)]
pub enum Kind {
    /// Passes on the tuples whose value is from `min` to `max`.
    Keep { min: i64, max: i64 },
    /// Multiplies each value by `factor`.
    Scale { factor: i64 },
    /// Splits each key at blanks and tabs.
    Words,
    /// Cuts each key to its first `len` bytes.
    Prefix { len: u16 },
    /// Counts the tuples of each key.
    Count,
    /// Adds the values of each key.
    Sum,
    /// Keeps the greatest value of each key.
    Peak,
    /// Emits the first value of each key.
    First,
    /// Adds the values of each key over `every` windows.
    Tumble { every: u32 },
    /// Passes on the left tuples whose key comes on the right.
    Match,
    /// Adds the newest right value of its key to each left tuple.
    Enrich,
    /// Passes on the `k` tuples with the greatest values.
    Top { k: u32 },
}

impl Kind {
    /// Whether the operator has a right input port beside the left one.
    pub fn has_right(&self) -> bool
        ensures { result ≡ has_right self.now }
    {
        matches!(self, Kind::Match | Kind::Enrich)
    }
}
