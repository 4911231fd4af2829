//! How many events there are to choose from, the one at a place, and the first for a worker, with no list made.
ghost use Rattle.std.specs.Prelude.{◌≡◌, ◌+◌, ◌<◌, ◌&&◌, [], ◌∷◌, true, length, get_or, IfSome};
ghost use Rattle.std.specs.List.{filter};
ghost use Rattle.apx_history.specs.declared.Event.TheVariants.{Write, Commit, End};
ghost use Rattle.apx_history.specs.State.{slot, open_worker, running};
ghost use Rattle.apx_history.specs.Enabled.{can, least_rc};
ghost use Rattle.apx_history.specs.Journals.{owed, owed_act, bears};
ghost use Rattle.apx_history.specs.Choices.{choices};
ghost use Rattle.apx_history.specs.Kept.{IsPlan, Kept};
ghost use Rattle.apx_machine.specs.Outlook.{IsOutlook};
ghost use Rattle.apx_machine.specs.Small.{IsSmall};
ghost use Rattle.apx_machine.specs.Listed.{of_op, of_row, of_lines};
ghost use Rattle.apx_machine.specs.Picked.{killed, ended_by, is_claimed, may_do, first_for, wants, passed, taken, sought_in, found, found_or, ahead};
ghost use Rattle.apx_machine.specs.declared.picking.Sought.TheVariants.{Ahead};

use crate::engine::Engine;
use crate::listing::{Met, Row, event_of};
use crate::outlook::Outlook;
use apx_history::{Act, Event, Line};

/// More than there are ever events to choose from.
const MANY: u32 = 10000;

/// Which of the choices are wanted.
#[derive(Clone, Copy, Debug)]
pub(crate) enum Want {
    /// Each.
    Any,
    /// Those that a worker may do, who claims a partition or none.
    For {
        worker: u8,
        claim: Option<(u16, u8)>,
    },
}

/// A search for one of the wanted choices.
#[derive(Clone, Copy, Debug)]
pub(crate) enum Sought {
    /// It lies ahead, behind so many others.
    Ahead { left: u32 },
    /// It is this one.
    Found { event: Event },
}

/// The search once a wanted event was passed.
fn passed(left: u32, event: Event) -> Sought
    ensures { result ≡ passed left event }
{
    if left == 0 {
        Sought::Found { event }
    } else {
        Sought::Ahead { left: left - 1 }
    }
}

/// The search once an event was passed, with so many wanted ones before the one that is sought.
fn taken(wanted: bool, event: Event, left: u32) -> Sought
    ensures { result ≡ taken wanted event (Ahead left) }
{
    if wanted {
        passed(left, event)
    } else {
        Sought::Ahead { left }
    }
}

/// What a search found.
fn found(sought: Sought) -> Option<Event>
    ensures { result ≡ found sought }
{
    match sought {
        Sought::Found { event } => Some(event),
        Sought::Ahead { left: _ } => None,
    }
}

/// What a search found, and another event where it found none.
fn found_or(sought: Sought, none: Event) -> Event
    ensures { result ≡ found_or none sought }
{
    match sought {
        Sought::Found { event } => event,
        Sought::Ahead { left: _ } => none,
    }
}

/// How many wanted choices there would have to be besides, for a search to find one.
fn ahead(sought: Sought) -> u32
    ensures { result ≡ ahead sought }
{
    match sought {
        Sought::Found { event: _ } => 0,
        Sought::Ahead { left } => left,
    }
}

/// The partition that a line kills.
fn killed(line: Line) -> Option<(u16, u8)>
    ensures { result ≡ killed line.op line.act }
{
    match line.act {
        Act::Fails { point: _, part } => Some((line.op, part)),
        Act::Splits { count: _ } => None,
    }
}

/// Whether a worker may do what is owed by a worker.
fn bears(owed: Option<u8>, worker: u8) -> bool
    ensures { result ≡ bears owed worker }
{
    match owed {
        Some(owner) => owner == worker,
        None => true,
    }
}

/// Whether a partition is that of a claim, where there is one.
fn is_claimed(claim: Option<(u16, u8)>, ended: Option<(u16, u8)>) -> bool
    ensures { result ≡ is_claimed claim ended }
{
    match (claim, ended) {
        (None, _) => true,
        (Some(_), None) => false,
        (Some((op, part)), Some((other, place))) => op == other && part == place,
    }
}

impl Engine {
    /// The worker who began the window that a partition has open.
    fn owner(&self, op: usize, part: usize) -> Option<u8>
        ensures { result ≡ open_worker (slot self.now.state op part).opened }
    {
        if self.is_part(op, part) {
            match self.slot(op, part).opened() {
                Some((_, worker)) => Some(worker),
                None => None,
            }
        } else {
            None
        }
    }

    /// The worker who has the partition open that a line kills.
    fn owed_act(&self, line: Line) -> Option<u8>
        ensures { result ≡ owed_act self.now.state line.op line.act }
    {
        match line.act {
            Act::Fails { point: _, part } => self.owner(line.op as usize, part as usize),
            Act::Splits { count: _ } => None,
        }
    }

    /// The worker who began what an event ends.
    fn owed(&self, event: Event) -> Option<u8>
        ensures { result ≡ owed self.now.plan self.now.state event }
    {
        match event {
            Event::Write { window: _ } => self.owner(self.plan().sink() as usize, 0),
            Event::Finish {
                op,
                part,
                window: _,
            } => self.owner(op as usize, part as usize),
            Event::Kill { line } => self.owed_act(self.line(line as usize)),
            _ => None,
        }
    }

    /// The partition that an event writes, finishes or kills.
    fn ended_by(&self, event: Event) -> Option<(u16, u8)>
        ensures { result ≡ ended_by self.now.plan event }
    {
        match event {
            Event::Write { window: _ } => Some((self.plan().sink(), 0)),
            Event::Finish {
                op,
                part,
                window: _,
            } => Some((op, part)),
            Event::Kill { line } => killed(self.line(line as usize)),
            _ => None,
        }
    }

    /// Whether a worker may do an event.
    fn may_do(&self, worker: u8, claim: Option<(u16, u8)>, event: Event) -> bool
        ensures { result ≡ may_do self.now.plan self.now.state worker claim event }
    {
        bears(self.owed(event), worker) && is_claimed(claim, self.ended_by(event))
    }

    /// Whether an event is wanted.
    fn wants(&self, want: Want, event: Event) -> bool
        ensures { result ≡ wants self.now.plan self.now.state want event }
    {
        match want {
            Want::Any => true,
            Want::For { worker, claim } => self.may_do(worker, claim, event),
        }
    }

    /// Whether an event is wanted and may come next.
    fn is_sought(&self, look: &Outlook, want: Want, event: Event) -> bool
        requires { IsOutlook self.now.plan self.now.state look.now }
        ensures { result ≡ (wants self.now.plan self.now.state want event && can self.now.plan self.now.state event) }
    {
        self.wants(want, event) && self.enabled(look, event)
    }

    /// The search once an event was passed that is there to choose where it may come next.
    fn seek(&self, look: &Outlook, want: Want, event: Event, sought: Sought) -> Sought
        requires { IsOutlook self.now.plan self.now.state look.now }
        ensures { result
            ≡ sought_in (wants self.now.plan self.now.state want) (filter (can self.now.plan self.now.state) (event ∷ [])) sought }
    {
        match sought {
            Sought::Found { event: _ } => sought,
            Sought::Ahead { left } => taken(self.is_sought(look, want, event), event, left),
        }
    }

    /// The search once those of a row were passed that an operator's partitions may have next.
    fn seek_parts(&self, look: &Outlook, want: Want, row: Row, op: usize, sought: Sought) -> Sought
        requires look { IsOutlook self.now.plan self.now.state look.now }
        requires there { op < length self.now.state.ops }
        ensures { result ≡ sought_in (wants self.now.plan self.now.state want) (of_op self.now.plan self.now.state row op) sought }
    {
        let mut reached = sought;
        for part in 0..self.parts(op) {
            reached = self.seek(look, want, self.candidate(look, row, op, part), reached);
        }
        reached
    }

    /// The search once those of a row were passed one after the other that all partitions may have next.
    fn pass_row(&self, look: &Outlook, want: Want, row: Row, sought: Sought) -> Sought
        requires { IsOutlook self.now.plan self.now.state look.now }
        ensures { result ≡ sought_in (wants self.now.plan self.now.state want) (of_row self.now.plan self.now.state row) sought }
    {
        let mut reached = sought;
        for op in 0..self.len() {
            reached = self.seek_parts(look, want, row, op, reached);
        }
        reached
    }

    /// The search once those of a row were passed one after the other that the lines may have next.
    fn pass_lines(&self, look: &Outlook, want: Want, row: Met, sought: Sought) -> Sought
        requires { IsOutlook self.now.plan self.now.state look.now }
        ensures { result ≡ sought_in (wants self.now.plan self.now.state want) (of_lines self.now.plan self.now.state row) sought }
    {
        let mut reached = sought;
        for line in 0..self.left.len() {
            reached = self.seek(look, want, event_of(row, line as u32), reached);
        }
        reached
    }

    /// The search once those of a row were passed that all partitions may have next. Nothing is looked at once it is found.
    fn seek_row(&self, look: &Outlook, want: Want, row: Row, sought: Sought) -> Sought
        requires { IsOutlook self.now.plan self.now.state look.now }
        ensures { result ≡ sought_in (wants self.now.plan self.now.state want) (of_row self.now.plan self.now.state row) sought }
    {
        match sought {
            Sought::Found { event: _ } => sought,
            Sought::Ahead { left: _ } => self.pass_row(look, want, row, sought),
        }
    }

    /// The search once those of a row were passed that the lines may have next. Nothing is looked at once it is found.
    fn seek_lines(&self, look: &Outlook, want: Want, row: Met, sought: Sought) -> Sought
        requires { IsOutlook self.now.plan self.now.state look.now }
        ensures { result ≡ sought_in (wants self.now.plan self.now.state want) (of_lines self.now.plan self.now.state row) sought }
    {
        match sought {
            Sought::Found { event: _ } => sought,
            Sought::Ahead { left: _ } => self.pass_lines(look, want, row, sought),
        }
    }

    /// The Write that could come next.
    fn next_write(&self) -> Event
        requires small { IsSmall self.now.plan }
        requires kept { Kept self.now.plan self.now.state }
        ensures { result ≡ Write (self.now.state.stored + 1) }
    {
        Event::Write {
            window: self.stored() + 1,
        }
    }

    /// The Commit that could come next.
    fn next_commit(&self) -> Event
        ensures { result ≡ Commit (least_rc self.now.plan self.now.state) }
    {
        Event::Commit {
            to: self.least_rc(),
        }
    }

    /// The search along all choices.
    #[tactic(auto, unfolding(apx_history::specs::Choices::choices))]
    fn search(&self, look: &Outlook, want: Want, place: u32) -> Sought
        requires { IsOutlook self.now.plan self.now.state look.now }
        ensures { result ≡ sought_in (wants self.now.plan self.now.state want) (choices self.now.plan self.now.state) (Ahead place) }
    {
        let begun = Sought::Ahead { left: place };
        let started = self.seek_row(look, want, Row::Start, begun);
        let written = self.seek(look, want, self.next_write(), started);
        let finished = self.seek_row(look, want, Row::Finish, written);
        let saved = self.seek_row(look, want, Row::Save, finished);
        let advanced = self.seek_row(look, want, Row::Advance, saved);
        let committed = self.seek(look, want, self.next_commit(), advanced);
        let purged = self.seek_row(look, want, Row::Purge, committed);
        let killed = self.seek_lines(look, want, Met::Kill, purged);
        let replaced = self.seek_lines(look, want, Met::Repartition, killed);
        self.seek(look, want, Event::End, replaced)
    }

    /// How many events there are to choose from.
    pub(crate) fn count(&self) -> u32
        requires plan { IsPlan self.now.plan }
        requires small { IsSmall self.now.plan }
        requires kept { Kept self.now.plan self.now.state }
        ensures count { result ≡ length (choices self.now.plan self.now.state) }
        ensures some { running self.now.state ≡ true → 0 < result }
    {
        let sought = self.search(&self.outlook(), Want::Any, MANY);
        let left = ahead(sought);
        MANY - left
    }

    /// The one at a place.
    pub(crate) fn pick(&self, place: u32) -> Event
        requires plan { IsPlan self.now.plan }
        requires small { IsSmall self.now.plan }
        requires kept { Kept self.now.plan self.now.state }
        requires place { place < length (choices self.now.plan self.now.state) }
        ensures event { result ≡ get_or (choices self.now.plan self.now.state) place End }
        ensures next { can self.now.plan self.now.state result ≡ true }
    {
        found_or(self.search(&self.outlook(), Want::Any, place), Event::End)
    }

    /// The first that a worker may do.
    pub(crate) fn first_for(&self, worker: u8, claim: Option<(u16, u8)>) -> Option<Event>
        requires plan { IsPlan self.now.plan }
        requires small { IsSmall self.now.plan }
        requires kept { Kept self.now.plan self.now.state }
        ensures event { result ≡ first_for self.now.plan self.now.state worker claim }
        ensures next { IfSome result (λ e. can self.now.plan self.now.state e ≡ true) }
        ensures may { IfSome result (λ e. may_do self.now.plan self.now.state worker claim e ≡ true) }
    {
        found(self.search(&self.outlook(), Want::For { worker, claim }, 0))
    }
}
