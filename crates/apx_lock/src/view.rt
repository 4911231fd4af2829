//! What a seat knows, as plain data. No value of these types is made: they stand in proofs alone.
use std::collections::LinkedList;

/// What a seat knows of one mark.
pub struct Mark {
    /// Whether the seat owns the mark, so that it alone raises it.
    pub owned: bool,
    /// Where the seat last raised the mark to. It says something of an owned mark alone.
    pub at: u64,
    /// What the seat found when it last loaded the mark, or 0. The mark is never below it.
    pub lower: u64,
    /// How often the seat loaded the mark.
    pub loads: u64,
}

/// The entries of a seat that was joined.
pub struct Part<E> {
    /// The number of that seat.
    pub number: u64,
    /// All of its entries, in the order of the log.
    pub entries: LinkedList<E>,
}

/// What a seat knows.
pub struct View<N, E> {
    /// The name of the lock's value, or none where the seat was joined to another one.
    pub name: Option<N>,
    /// The seat's number.
    pub number: u64,
    /// The entries of each seat that was joined to this one.
    pub kept: LinkedList<Part<E>>,
    /// A beginning of the log. It is the whole log while the seat holds the turn.
    pub seen: LinkedList<E>,
    /// The seat's own entries.
    pub mine: LinkedList<E>,
    /// What it knows of each mark of the lock.
    pub marks: LinkedList<Mark>,
    /// Whether it holds the turn.
    pub holds: bool,
    /// How often it found the turn taken.
    pub refused: u64,
    /// How often it read the count of entries while it held the turn.
    pub looks: u64,
    /// How many numbers were given out, where this seat gives them out, and otherwise 0.
    pub given: u64,
}
