//! What a lock keeps.
ghost use Rattle.std.specs.Prelude.{◌≡◌, ℕ, List, [], ◌∷◌, ◌++◌, length};

/// A value that stands for a name and a log of entries. The log needn't be stored.
pub trait Kept {
    /// What never changes: the name of the value, which each log is a log of.
    type Name;

    /// One change of the value. It is plain data, and no value of it is made.
    type Entry;

    // The value stands for the name and the log.
    ghost stands: { Self → Self.Name → List Self.Entry → Type 0 };

    // The number of the seat that made the entry.
    ghost seat: { Self.Entry → ℕ };

    // What the entry lets go: everything up to this number. It is 0 where nothing is purged.
    ghost bound: { Self.Entry → ℕ };

    // The second value is the first, changed by the entry.
    ghost grows: { Self → Self.Entry → Self → Type 0 };

    /// The length of the log that the value stands for.
    fn count(&self) -> u64
        ensures { (name : Self.Name) (log : List Self.Entry) → stands self.now name log → result ≡ length log };

    // A value changed by one entry stands for the same name, and for the log with that entry.
    ghost one_more: { (value next : Self) (name : Self.Name) (log : List Self.Entry) (entry : Self.Entry)
        → stands value name log → grows value entry next → stands next name (log ++ entry ∷ []) };
}
