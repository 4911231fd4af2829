//! What is looked up once of a state, for all events that may come next: a look at each line of the script and at each
//! stream, so that each event then takes a few steps.
ghost use Rattle.std.specs.Prelude.{◌≡◌, ℕ, ◌+◌, ◌*◌, ◌<◌, ◌≤◌, ◌&&◌, not, false, length, get_or};
ghost use Rattle.apx_history.specs.Plan.{below, kills as kills_at, line as line_at};
ghost use Rattle.apx_history.specs.State.{parts, slot, IsPart, lowest};
ghost use Rattle.apx_history.specs.Enabled.{limit, due, calm, calm_above, sources_have, readers_reach};
ghost use Rattle.apx_history.specs.Kept.{IsPlan, Kept};
ghost use Rattle.apx_machine.specs.Small.{IsSmall};
ghost use Rattle.apx_machine.specs.declared.outlook.Toward.TheVariants.{Readers};
ghost use Rattle.apx_machine.specs.Asked.{nearer};
ghost use Rattle.apx_machine.specs.Outlook.{joined, measure, asked, least_of, AreLeast, AreLimits, IsCalmTo, IsOutlook};

use crate::conditions::splits;
use crate::engine::Engine;
use crate::partition::Partition;
use crate::plan::Plan;
use apx_history::{Act, Line};

/// The operators beside an operator, and what is asked of their partitions.
#[derive(Clone, Copy, Debug)]
pub(crate) enum Toward {
    /// Those that it reads: how far they have come.
    Sources,
    /// Those that read it: how far they may go back.
    Readers,
}

/// For which partitions no kill is due.
#[derive(Clone, Copy, Debug)]
pub(crate) struct Calm {
    /// Whether none is due for partition `i` of operator `o`, at `8 * o + i`.
    parts: [bool; 128],
    /// Whether none is due for an operator that has this one downstream.
    clear: [bool; 16],
}

/// What is looked up of a state.
#[derive(Clone, Copy, Debug)]
pub(crate) struct Outlook {
    /// The last window that each operator may come to before its next repartition.
    limits: [u32; 16],
    /// The least window that the partitions which each operator reads have finished.
    sources: [u32; 16],
    /// The least recovery checkpoint of the partitions that read each operator.
    readers: [u32; 16],
    /// For which partitions no kill is due.
    calm: Calm,
}

/// What is asked of a partition.
fn measure(toward: Toward, partition: &Partition) -> u32
    ensures { result ≡ measure toward partition.now }
{
    match toward {
        Toward::Sources => partition.at(),
        Toward::Readers => partition.rc(),
    }
}

/// Strikes out the partition that a line kills.
fn strike(line: Line, parts: &mut [bool; 128])
    ensures { (o i : ℕ) → o < 16 → i < 8 →
        get_or parts.new (8 * o + i) false ≡ (not (kills_at o i line) && get_or parts.old (8 * o + i) false) }
{
    if let Act::Fails { point: _, part } = line.act {
        if line.op < 16 && part < 8 {
            parts[8 * line.op as usize + part as usize] = false;
        }
    }
}

/// What is left of a mark, where it is struck out or not.
fn spares(struck: bool, mark: bool) -> bool
    ensures { result ≡ (not struck && mark) }
{
    !struck && mark
}

impl Plan {
    /// Strikes out the operators that are downstream of an operator.
    fn strike_below(&self, above: usize, clear: &mut [bool; 16])
        ensures { (o : ℕ) → o < 16 → get_or clear.new o false ≡ (not (below self.now above o) && get_or clear.old o false) }
    {
        for op in 0..16 {
            clear[op] = spares(self.below(above, op), clear[op]);
        }
    }
}

impl Engine {
    /// Lowers the limit of the operator of a line, where the line is left and repartitions it.
    fn lower(&self, line: usize, limits: &mut [u32; 16])
        requires { line < length self.now.plan.lines }
        ensures { (o : ℕ) → o < 16 → get_or limits.new o 0 ≡ nearer self.now.plan self.now.state line o (get_or limits.old o 0) }
    {
        let it = self.plan().line(line);
        let op = it.op as usize;
        if op < 16 && self.is_left(line) && splits(it.act) {
            limits[op] = it.window.min(limits[op]);
        }
    }

    /// The last window that each operator may come to before its next repartition.
    fn limits(&self) -> [u32; 16]
        ensures { AreLimits self.now.plan self.now.state result }
    {
        let mut limits = [self.plan().windows(); 16];
        for line in 0..self.plan().lines() {
            self.lower(line, &mut limits);
        }
        limits
    }

    /// Whether the kill of a line is due.
    #[tactic(auto, unfolding(apx_history::specs::Enabled::due))]
    pub(crate) fn due(&self, limits: &[u32; 16], line: usize) -> bool
        requires small { IsSmall self.now.plan }
        requires kept { Kept self.now.plan self.now.state }
        requires limits { AreLimits self.now.plan self.now.state limits.now }
        ensures { result ≡ due self.now.plan self.now.state line }
    {
        if !self.is_left(line) {
            return false;
        }
        let it = self.line(line);
        let op = it.op as usize;
        if !self.at_act(op, it.window, it.act) {
            return false;
        }
        self.boundary_of(op) < it.window && it.window <= limits[op]
    }

    /// Strikes out what a line keeps from going on, where its kill is due.
    fn strike_due(&self, limits: &[u32; 16], line: usize, calm: &mut Calm)
        requires small { IsSmall self.now.plan }
        requires kept { Kept self.now.plan self.now.state }
        requires limits { AreLimits self.now.plan self.now.state limits.now }
        requires line { line < length self.now.plan.lines }
        ensures parts { (o i : ℕ) → o < 16 → i < 8 → get_or calm.new.parts (8 * o + i) false
            ≡ (not (due self.now.plan self.now.state line && kills_at o i (line_at self.now.plan line)) && get_or calm.old.parts (8 * o + i) false) }
        ensures clear { (o : ℕ) → o < 16 → get_or calm.new.clear o false
            ≡ (not (due self.now.plan self.now.state line && below self.now.plan (line_at self.now.plan line).op o) && get_or calm.old.clear o false) }
    {
        if self.due(limits, line) {
            let it = self.plan().line(line);
            strike(it, &mut calm.parts);
            self.plan().strike_below(it.op as usize, &mut calm.clear);
        }
    }

    /// For which partitions no kill is due.
    fn calm(&self, limits: &[u32; 16]) -> Calm
        requires small { IsSmall self.now.plan }
        requires kept { Kept self.now.plan self.now.state }
        requires limits { AreLimits self.now.plan self.now.state limits.now }
        ensures { IsCalmTo self.now.plan self.now.state (length self.now.plan.lines) result }
    {
        let mut calm = Calm {
            parts: [true; 128],
            clear: [true; 16],
        };
        for line in 0..self.plan().lines() {
            self.strike_due(limits, line, &mut calm);
        }
        calm
    }

    /// Whether an operator is beside another.
    fn is_joined(&self, toward: Toward, op: usize, other: usize) -> bool
        ensures { result ≡ joined self.now.plan toward op other }
    {
        match toward {
            Toward::Sources => self.plan().reads(op, other),
            Toward::Readers => self.plan().reads(other, op),
        }
    }

    /// The least of a number and what is asked of an operator's partitions.
    pub(crate) fn parts_least(&self, toward: Toward, op: usize, most: u32) -> u32
        requires { op < length self.now.state.ops }
        ensures { result ≡ lowest (parts self.now.state op) (λ i. measure toward (slot self.now.state op i)) most }
    {
        let mut least = most;
        for part in 0..self.parts(op) {
            least = least.min(measure(toward, self.slot(op, part)));
        }
        least
    }

    /// The same of an operator that is beside another, and the number where it isn't.
    fn joined_least(&self, toward: Toward, op: usize, other: usize, most: u32) -> u32
        requires { other < length self.now.state.ops }
        ensures { result ≡ lowest (parts self.now.state other) (asked self.now.plan self.now.state toward op most other) most }
    {
        if self.is_joined(toward, op, other) {
            self.parts_least(toward, other, most)
        } else {
            most
        }
    }

    /// The least of a number and what is asked of the partitions beside an operator.
    fn least_of(&self, toward: Toward, op: usize, most: u32) -> u32
        ensures { result ≡ least_of self.now.plan self.now.state toward op most }
    {
        let mut least = most;
        for other in 0..self.len() {
            least = least.min(self.joined_least(toward, op, other, most));
        }
        least
    }

    /// The same for each operator.
    fn along(&self, toward: Toward) -> [u32; 16]
        ensures { AreLeast self.now.plan self.now.state toward result }
    {
        let mut least = [0; 16];
        for op in 0..16 {
            least[op] = self.least_of(toward, op, u32::MAX);
        }
        least
    }

    /// What is looked up of this state.
    pub(crate) fn outlook(&self) -> Outlook
        requires plan { IsPlan self.now.plan }
        requires small { IsSmall self.now.plan }
        requires kept { Kept self.now.plan self.now.state }
        ensures { IsOutlook self.now.plan self.now.state result }
    {
        let limits = self.limits();
        Outlook {
            limits,
            sources: self.along(Toward::Sources),
            readers: self.along(Toward::Readers),
            calm: self.calm(&limits),
        }
    }

    /// Whether the kill of a line is due.
    pub(crate) fn is_due(&self, look: &Outlook, line: usize) -> bool
        requires { IsOutlook self.now.plan self.now.state look.now }
        ensures { result ≡ due self.now.plan self.now.state line }
    {
        self.due(&look.limits, line)
    }

    /// The last window that an operator may come to before its next repartition.
    pub(crate) fn limit(&self, look: &Outlook, op: usize) -> u32
        requires look { IsOutlook self.now.plan self.now.state look.now }
        requires there { op < length self.now.state.ops }
        ensures { result ≡ limit self.now.plan self.now.state op }
    {
        look.limits[op]
    }

    /// Whether no kill is due for a partition.
    #[tactic(auto, unfolding(apx_history::specs::Enabled::calm))]
    pub(crate) fn is_calm(&self, look: &Outlook, op: usize, part: usize) -> bool
        requires look { IsOutlook self.now.plan self.now.state look.now }
        requires there { IsPart self.now.state op part }
        ensures { result ≡ calm self.now.plan self.now.state op part }
    {
        look.calm.parts[8 * op + part]
    }

    /// Whether none is due for it, nor for one whose tree has it.
    pub(crate) fn is_calm_above(&self, look: &Outlook, op: usize, part: usize) -> bool
        requires look { IsOutlook self.now.plan self.now.state look.now }
        requires there { IsPart self.now.state op part }
        ensures { result ≡ calm_above self.now.plan self.now.state op part }
    {
        let clear = look.calm.clear[op];
        self.is_calm(look, op, part) && clear
    }

    /// Whether all that an operator reads have finished a window.
    pub(crate) fn sources_have(&self, look: &Outlook, op: usize, window: u32) -> bool
        requires look { IsOutlook self.now.plan self.now.state look.now }
        requires there { op < length self.now.state.ops }
        ensures { result ≡ sources_have self.now.plan self.now.state op window }
    {
        window <= look.sources[op]
    }

    /// The least recovery checkpoint of the partitions that read an operator.
    pub(crate) fn readers_rc(&self, look: &Outlook, op: usize) -> u32
        requires look { IsOutlook self.now.plan self.now.state look.now }
        requires there { op < length self.now.state.ops }
        ensures { result ≡ least_of self.now.plan self.now.state Readers op 4294967295 }
    {
        look.readers[op]
    }

    /// Whether a window is at most the recovery checkpoint of each partition that reads an operator.
    pub(crate) fn readers_reach(&self, look: &Outlook, op: usize, window: u32) -> bool
        requires look { IsOutlook self.now.plan self.now.state look.now }
        requires there { op < length self.now.state.ops }
        ensures { result ≡ readers_reach self.now.plan self.now.state op window }
    {
        window <= self.readers_rc(look, op)
    }
}
