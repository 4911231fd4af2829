//! The plan that a machine runs: the graph of its operators, the number of windows, the script.
ghost use Rattle.std.specs.Prelude.{◌≡◌, ℕ, ◌<◌, Bool, length};
ghost use Rattle.apx_history.specs.Plan.{has, operator, line as line_at, reads, below, is_checkpoint, last_checkpoint};

use apx_history::Line;
use std::marker::Model;

/// An operator of a plan: those that it reads, all that are downstream of it, and its number of partitions at first.
///
/// ```text
/// Operator::new(sources, under, 2)
/// ```
#[derive(Debug, Drop)]
pub struct Operator {
    /// The operators that it reads.
    sources: Vec<u16>,
    /// All operators that are downstream of it.
    under: Vec<u16>,
    /// Its number of partitions before any repartition.
    first: u8,
}

impl Model for Operator {
    ghost use Rattle.apx_history.specs.Plan.{Operator as Planned};

    ghost Value = { Planned };

    ghost view = { λ o. record { sources = o.sources.items; under = o.under.items; first = o.first } };
}

impl Operator {
    /// An operator that reads `sources`, has `under` downstream of it, and begins with `first` partitions.
    pub fn new(sources: Vec<u16>, under: Vec<u16>, first: u8) -> Operator
        ensures { result ≡ record { sources = sources.items; under = under.items; first = first } }
    {
        Operator {
            sources,
            under,
            first,
        }
    }

    /// Whether it reads an operator.
    fn reads(&self, source: usize) -> bool
        ensures { result ≡ has self.now.sources source }
    {
        stands_in(&self.sources, source)
    }

    /// Whether an operator is downstream of it.
    fn has_under(&self, op: usize) -> bool
        ensures { result ≡ has self.now.under op }
    {
        stands_in(&self.under, op)
    }

    /// Its number of partitions at first.
    pub fn first(&self) -> u8
        ensures { result ≡ self.now.first }
    {
        self.first
    }
}

/// Whether a number stands in a list.
fn stands_in(numbers: &[u16], number: usize) -> bool
    ensures { result ≡ has numbers.now number }
{
    for n in numbers {
        if *n as usize == number {
            return true;
        }
    }
    false
}

/// The plan of a job: its windows, its checkpoint interval, its sink, its operators, its script.
///
/// ```text
/// Plan::new(4, 2, 2, operators, lines)
/// ```
/// has four windows, a checkpoint after each second one, and its third operator as the sink.
#[derive(Debug, Drop)]
pub struct Plan {
    /// How many windows the job has.
    windows: u32,
    /// A checkpoint is made after each so many windows.
    every: u32,
    /// The number of the sink.
    sink: u16,
    /// The operators, by their numbers.
    operators: Vec<Operator>,
    /// The commands of the script, in order.
    lines: Vec<Line>,
}

impl Model for Plan {
    ghost use Rattle.apx_history.specs.Plan.{Plan as Planned};
    ghost use Rattle.apx_machine.specs.Machine.{plan_of};

    ghost Value = { Planned };

    ghost view = { λ p. plan_of p.windows p.every p.sink p.operators.items p.lines.items };
}

impl Plan {
    /// The plan of these.
    pub fn new(
        windows: u32,
        every: u32,
        sink: u16,
        operators: Vec<Operator>,
        lines: Vec<Line>,
    ) -> Plan
        ensures { result ≡ record { windows = windows; every = every; sink = sink; operators = operators.items; lines = lines.items } }
    {
        Plan {
            windows,
            every,
            sink,
            operators,
            lines,
        }
    }

    /// How many windows there are.
    pub fn windows(&self) -> u32
        ensures { result ≡ self.now.windows }
    {
        self.windows
    }

    /// The number of the sink.
    pub fn sink(&self) -> u16
        ensures { result ≡ self.now.sink }
    {
        self.sink
    }

    /// The checkpoint interval.
    pub fn every(&self) -> u32
        ensures { result ≡ self.now.every }
    {
        self.every
    }

    /// How many lines the script has.
    pub fn lines(&self) -> usize
        ensures { result ≡ length self.now.lines }
    {
        self.lines.len()
    }

    /// A line of the script.
    pub(crate) fn line(&self, line: usize) -> Line
        requires { line < length self.now.lines }
        ensures { result ≡ line_at self.now line }
    {
        self.lines[line]
    }

    /// Whether operator `op` reads operator `source`.
    #[tactic(auto, using(crate::proofs::Lists::reads_beyond))]
    pub(crate) fn reads(&self, op: usize, source: usize) -> bool
        ensures { result ≡ reads self.now op source }
    {
        if op < self.operators.len() {
            let operator = &self.operators[op];
            operator.reads(source)
        } else {
            false
        }
    }

    /// Whether operator `op` is downstream of operator `above`.
    #[tactic(auto, using(crate::proofs::Lists::below_beyond))]
    pub(crate) fn below(&self, above: usize, op: usize) -> bool
        ensures { result ≡ below self.now above op }
    {
        if above < self.operators.len() {
            let operator = &self.operators[above];
            operator.has_under(op)
        } else {
            false
        }
    }

    /// Whether a checkpoint is made after a window.
    pub(crate) fn is_checkpoint(&self, window: u32) -> bool
        requires { 0 < self.now.every }
        ensures { result ≡ is_checkpoint self.now window }
    {
        window % self.every == 0
    }

    /// The last checkpoint up to a window.
    pub(crate) fn last_checkpoint(&self, window: u32) -> u32
        requires { 0 < self.now.every }
        ensures { result ≡ last_checkpoint self.now window }
    {
        self.every * (window / self.every)
    }

    /// How many operators there are.
    pub fn len(&self) -> usize
        ensures { result ≡ length self.now.operators }
    {
        self.operators.len()
    }

    /// An operator's number of partitions at first.
    pub(crate) fn first(&self, op: usize) -> u8
        requires { op < length self.now.operators }
        ensures { result ≡ (operator self.now op).first }
    {
        let operator = &self.operators[op];
        operator.first()
    }
}
