//! Which events may come next.
ghost use Rattle.std.specs.Prelude.{◌≡◌, ◌<◌, ◌≤◌, ◌&&◌, min, max, length, cond};
ghost use Rattle.apx_history.specs.Plan.{splits as splits_act, fails_part as fails_at, kills as kills_at};
ghost use Rattle.apx_history.specs.State.{parts, slot, IsPart, is_left, all_parts, all_slots};
ghost use Rattle.apx_history.specs.Enabled.{limit, is_part, at_point, at_act, in_tree, sources_have, readers_rc, readers_reach, greatest, advance_to, least_rc, tree_closed, rests_at, can_start, can_write, can_finish, can_save, can_advance, can_commit, can_purge, can_kill, can_repartition, can_end, can_now, can, is_status as status_at};
ghost use Rattle.apx_machine.specs.Asked.{meets};
ghost use Rattle.apx_machine.specs.Outlook.{IsOutlook};

use crate::engine::Engine;
use crate::outlook::{Outlook, Toward};
use apx_history::{Act, Event, Line, Point};

/// What is asked of each partition.
#[derive(Clone, Copy, Debug)]
pub(crate) enum Ask {
    /// Where it is in the tree of the line, it is closed, or the one that the line names.
    Outside { line: usize },
    /// It is closed and has its recovery checkpoint at the window.
    Rests { window: u32 },
    /// It is closed and at the end, with its recovery checkpoint at the last window at which checkpoints are made.
    Over,
}

/// Whether an act repartitions.
pub(crate) fn splits(act: Act) -> bool
    ensures { result ≡ splits_act act }
{
    match act {
        Act::Splits { count: _ } => true,
        Act::Fails { point: _, part: _ } => false,
    }
}

/// Whether an act kills a partition of that number.
fn fails_part(act: Act, part: usize) -> bool
    ensures { result ≡ fails_at part act }
{
    match act {
        Act::Fails {
            point: _,
            part: killed,
        } => killed as usize == part,
        Act::Splits { count: _ } => false,
    }
}

/// Whether a line kills a partition.
pub(crate) fn kills(line: Line, op: usize, part: usize) -> bool
    ensures { result ≡ kills_at op part line }
{
    line.op as usize == op && fails_part(line.act, part)
}

/// The greater of a window and a number, where the window passes.
fn greater(window: u32, passes: bool, greatest: u32) -> u32
    ensures { result ≡ cond passes (max window greatest) greatest }
{
    if passes {
        window.max(greatest)
    } else {
        greatest
    }
}

/// The statuses that a run may stop with.
#[tactic(auto, unfolding(apx_history::specs::Plan::has))]
fn is_status(status: u8) -> bool
    ensures { result ≡ status_at status }
{
    matches!(status, 8 | 9 | 10 | 11 | 13 | 19)
}

impl Engine {
    /// Whether a partition is there.
    pub fn is_part(&self, op: usize, part: usize) -> bool
        ensures { result ≡ is_part self.now.state op part }
    {
        op < self.len() && part < self.parts(op)
    }

    /// Whether a partition is at the point of a window.
    #[tactic(auto, unfolding(apx_history::specs::Enabled::at_point))]
    fn at_point(&self, op: usize, part: usize, point: Point, window: u32) -> bool
        requires { IsPart self.now.state op part }
        ensures { result ≡ at_point self.now.plan self.now.state op point window (slot self.now.state op part) }
    {
        let slot = self.slot(op, part);
        match point {
            Point::Before => slot.at() as u64 + 1 == window as u64 && slot.is_closed(),
            Point::Staged => slot.opens(window),
            Point::Written => op == self.plan().sink() as usize
                && slot.opens(window)
                && window <= self.stored(),
            Point::Done => slot.at() == window && slot.is_closed(),
        }
    }

    /// Whether the act is a kill whose partition is there and at its point.
    pub(crate) fn at_act(&self, op: usize, window: u32, act: Act) -> bool
        ensures { result ≡ at_act self.now.plan self.now.state op window act }
    {
        match act {
            Act::Fails { point, part } => self.is_part(op, part as usize)
                && self.at_point(op, part as usize, point, window),
            Act::Splits { count: _ } => false,
        }
    }

    /// Whether a partition is in the tree of a line.
    #[tactic(auto, unfolding(apx_history::specs::Enabled::in_tree))]
    pub(crate) fn in_tree(&self, line: usize, op: usize, part: usize) -> bool
        ensures { result ≡ in_tree self.now.plan line op part }
    {
        let it = self.line(line);
        kills(it, op, part) || self.plan().below(it.op as usize, op)
    }

    /// Whether a partition meets what is asked.
    fn meets(&self, ask: Ask, op: usize, part: usize) -> bool
        requires every { 0 < self.now.plan.every }
        requires there { IsPart self.now.state op part }
        ensures { result ≡ meets self.now.plan self.now.state ask op part }
    {
        let slot = self.slot(op, part);
        match ask {
            Ask::Outside { line } => !self.in_tree(line, op, part)
                || kills(self.line(line), op, part)
                || slot.is_closed(),
            Ask::Rests { window } => slot.rc() == window && slot.is_closed(),
            Ask::Over => {
                let end = self.plan().windows();
                slot.is_closed()
                    && slot.at() == end
                    && slot.rc() == self.plan().last_checkpoint(end)
            }
        }
    }

    /// Whether each partition of an operator meets what is asked.
    fn parts_meet(&self, ask: Ask, op: usize) -> bool
        requires every { 0 < self.now.plan.every }
        requires there { op < length self.now.state.ops }
        ensures { result ≡ all_parts self.now.state op (meets self.now.plan self.now.state ask op) }
    {
        for part in 0..self.parts(op) {
            if !self.meets(ask, op, part) {
                return false;
            }
        }
        true
    }

    /// Whether each partition meets what is asked.
    fn all_meet(&self, ask: Ask) -> bool
        requires { 0 < self.now.plan.every }
        ensures { result ≡ all_slots self.now.state (meets self.now.plan self.now.state ask) }
    {
        for op in 0..self.len() {
            if !self.parts_meet(ask, op) {
                return false;
            }
        }
        true
    }

    /// The least recovery checkpoint of all partitions.
    #[tactic(auto, unfolding(apx_history::specs::Enabled::least_rc))]
    pub(crate) fn least_rc(&self) -> u32
        ensures { result ≡ least_rc self.now.plan self.now.state }
    {
        let windows = self.plan().windows();
        let mut least = windows;
        for op in 0..self.len() {
            least = least.min(self.parts_least(Toward::Readers, op, windows));
        }
        least
    }

    /// The window that a partition's recovery checkpoint may come to.
    #[tactic(auto, unfolding(apx_history::specs::Enabled::advance_to))]
    pub(crate) fn advance_to(&self, look: &Outlook, op: usize, part: usize) -> u32
        requires look { IsOutlook self.now.plan self.now.state look.now }
        requires there { IsPart self.now.state op part }
        ensures { result ≡ advance_to self.now.plan self.now.state op part }
    {
        let slot = self.slot(op, part);
        let least = self.readers_rc(look, op);
        let mut greatest = 0;
        for place in 0..slot.saved_len() {
            let window = slot.saved(place);
            greatest = greater(window, window <= least, greatest);
        }
        greatest
    }

    /// Whether a partition may start a window.
    #[tactic(auto, unfolding(apx_history::specs::Enabled::can_start))]
    fn can_start(&self, look: &Outlook, op: usize, part: usize, window: u32) -> bool
        requires { IsOutlook self.now.plan self.now.state look.now }
        ensures { result ≡ can_start self.now.plan self.now.state op part window }
    {
        if !self.is_part(op, part) {
            return false;
        }
        let slot = self.slot(op, part);
        window as u64 == slot.at() as u64 + 1
            && slot.is_closed()
            && window <= self.plan().windows()
            && window as u64 <= self.committed() as u64 + 4 * self.plan().every() as u64
            && window <= self.limit(look, op)
            && (!self.plan().is_checkpoint(slot.at()) || slot.has(slot.at()))
            && self.sources_have(look, op, window)
            && self.is_calm_above(look, op, part)
    }

    /// Whether the sink's window may be stored.
    #[tactic(auto, unfolding(apx_history::specs::Enabled::can_write))]
    fn can_write(&self, look: &Outlook, window: u32) -> bool
        requires { IsOutlook self.now.plan self.now.state look.now }
        ensures { result ≡ can_write self.now.plan self.now.state window }
    {
        let sink = self.plan().sink() as usize;
        self.is_part(sink, 0)
            && self.slot(sink, 0).opens(window)
            && window as u64 == self.stored() as u64 + 1
            && self.is_calm(look, sink, 0)
    }

    /// Whether a partition may finish a window.
    #[tactic(auto, unfolding(apx_history::specs::Enabled::can_finish))]
    fn can_finish(&self, look: &Outlook, op: usize, part: usize, window: u32) -> bool
        requires { IsOutlook self.now.plan self.now.state look.now }
        ensures { result ≡ can_finish self.now.plan self.now.state op part window }
    {
        self.is_part(op, part)
            && self.slot(op, part).opens(window)
            && (op != self.plan().sink() as usize || window <= self.stored())
            && self.is_calm(look, op, part)
    }

    /// Whether a partition's state after a window may be saved.
    #[tactic(auto, unfolding(apx_history::specs::Enabled::can_save))]
    fn can_save(&self, look: &Outlook, op: usize, part: usize, window: u32) -> bool
        requires { IsOutlook self.now.plan self.now.state look.now }
        ensures { result ≡ can_save self.now.plan self.now.state op part window }
    {
        self.is_part(op, part)
            && window == self.slot(op, part).at()
            && 0 < window
            && self.plan().is_checkpoint(window)
            && !self.slot(op, part).has(window)
            && self.slot(op, part).is_closed()
            && self.is_calm(look, op, part)
    }

    /// Whether a partition's recovery checkpoint may become a window.
    #[tactic(auto, unfolding(apx_history::specs::Enabled::can_advance))]
    fn can_advance(&self, look: &Outlook, op: usize, part: usize, window: u32) -> bool
        requires { IsOutlook self.now.plan self.now.state look.now }
        ensures { result ≡ can_advance self.now.plan self.now.state op part window }
    {
        self.is_part(op, part)
            && window == self.advance_to(look, op, part)
            && self.slot(op, part).rc() < window
            && self.is_calm(look, op, part)
    }

    /// Whether what was saved below a window may be dropped.
    #[tactic(auto, unfolding(apx_history::specs::Enabled::can_commit))]
    fn can_commit(&self, window: u32) -> bool
        ensures { result ≡ can_commit self.now.plan self.now.state window }
    {
        window == self.least_rc() && self.committed() < window
    }

    /// Whether a partition's blocks up to a window may be dropped.
    #[tactic(auto, unfolding(apx_history::specs::Enabled::can_purge))]
    fn can_purge(&self, look: &Outlook, op: usize, part: usize, window: u32) -> bool
        requires { IsOutlook self.now.plan self.now.state look.now }
        ensures { result ≡ can_purge self.now.plan self.now.state op part window }
    {
        self.is_part(op, part)
            && op != self.plan().sink() as usize
            && self.slot(op, part).floor() < window
            && window <= self.slot(op, part).at()
            && self.readers_reach(look, op, window)
    }

    /// Whether a line may kill its partition.
    #[tactic(auto, unfolding(apx_history::specs::Enabled::can_kill, apx_history::specs::Enabled::tree_closed))]
    fn can_kill(&self, look: &Outlook, line: usize) -> bool
        requires { IsOutlook self.now.plan self.now.state look.now }
        ensures { result ≡ can_kill self.now.plan self.now.state line }
    {
        self.is_due(look, line) && self.all_meet(Ask::Outside { line })
    }

    /// Whether a line may repartition its operator.
    #[tactic(auto, unfolding(apx_history::specs::Enabled::can_repartition))]
    fn can_repartition(&self, look: &Outlook, line: usize) -> bool
        requires { IsOutlook self.now.plan self.now.state look.now }
        ensures { result ≡ can_repartition self.now.plan self.now.state line }
    {
        let it = self.line(line);
        let op = it.op as usize;
        self.is_left(line)
            && splits(it.act)
            && it.window == self.limit(look, op)
            && self.rests_at(op, it.window)
    }

    /// Whether an operator's partitions all rest at a window; an operator that isn't there has none.
    #[tactic(auto, unfolding(apx_history::specs::Enabled::rests_at))]
    fn rests_at(&self, op: usize, window: u32) -> bool
        requires { 0 < self.now.plan.every }
        ensures { result ≡ rests_at self.now.state op window }
    {
        if op < self.len() {
            self.parts_meet(Ask::Rests { window }, op)
        } else {
            true
        }
    }

    /// Whether the run may end.
    #[tactic(auto, unfolding(apx_history::specs::Enabled::can_end))]
    fn can_end(&self) -> bool
        requires { 0 < self.now.plan.every }
        ensures { result ≡ can_end self.now.plan self.now.state }
    {
        let windows = self.plan().windows();
        self.all_meet(Ask::Over)
            && self.committed() == self.plan().last_checkpoint(windows)
            && self.all_met()
    }

    /// Whether an event may come next, the run going on.
    fn can_now(&self, look: &Outlook, event: Event) -> bool
        requires { IsOutlook self.now.plan self.now.state look.now }
        ensures { result ≡ can_now self.now.plan self.now.state event }
    {
        match event {
            Event::Start { op, part, window } => self.can_start(
                look,
                op as usize,
                part as usize,
                window,
            ),
            Event::Write { window } => self.can_write(look, window),
            Event::Finish { op, part, window } => self.can_finish(
                look,
                op as usize,
                part as usize,
                window,
            ),
            Event::Save { op, part, window } => self.can_save(
                look,
                op as usize,
                part as usize,
                window,
            ),
            Event::Advance { op, part, to } => self.can_advance(
                look,
                op as usize,
                part as usize,
                to,
            ),
            Event::Commit { to } => self.can_commit(to),
            Event::Purge { op, part, to } => self.can_purge(look, op as usize, part as usize, to),
            Event::Kill { line } => self.can_kill(look, line as usize),
            Event::Repartition { line } => self.can_repartition(look, line as usize),
            Event::End => self.can_end(),
            Event::Fault { status } => is_status(status),
        }
    }

    /// Whether an event may come next.
    pub(crate) fn enabled(&self, look: &Outlook, event: Event) -> bool
        requires { IsOutlook self.now.plan self.now.state look.now }
        ensures { result ≡ can self.now.plan self.now.state event }
    {
        self.is_running() && self.can_now(look, event)
    }
}
