//! The list of the events to choose from.
ghost use Rattle.std.specs.Prelude.{◌≡◌, ◌+◌, ◌<◌, ◌≤◌, [], ◌∷◌, ◌++◌, length, IfOk};
ghost use Rattle.std.specs.List.{filter};
ghost use Rattle.apx_history.specs.State.{IsPart};
ghost use Rattle.apx_history.specs.Enabled.{can};
ghost use Rattle.apx_history.specs.Choices.{purge_to, choices};
ghost use Rattle.apx_history.specs.Kept.{IsPlan, Kept};
ghost use Rattle.apx_machine.specs.Outlook.{IsOutlook};
ghost use Rattle.apx_machine.specs.Small.{IsSmall};
ghost use Rattle.apx_machine.specs.Listed.{candidate, of_line, of_op, of_row, of_lines};

use crate::engine::Engine;
use crate::outlook::Outlook;
use apx_history::Event;
use std::alloc::AllocError;

/// The rows of events that each partition may have.
#[derive(Clone, Copy, Debug)]
pub(crate) enum Row {
    /// It begins its next window.
    Start,
    /// It finishes its open window.
    Finish,
    /// Its state after its last window is saved.
    Save,
    /// Its recovery checkpoint comes as far as it may.
    Advance,
    /// Its blocks are dropped as far as they may be.
    Purge,
}

/// The rows of events that each line may have.
#[derive(Clone, Copy, Debug)]
pub(crate) enum Met {
    /// It kills.
    Kill,
    /// It repartitions.
    Repartition,
}

/// The event of a row that a line may have next.
pub(crate) fn event_of(row: Met, line: u32) -> Event
    ensures { result ≡ of_line row line }
{
    match row {
        Met::Kill => Event::Kill { line },
        Met::Repartition => Event::Repartition { line },
    }
}

impl Engine {
    /// The greatest window up to which a partition's blocks aren't needed.
    #[tactic(auto, unfolding(apx_history::specs::Choices::purge_to))]
    fn purge_to(&self, look: &Outlook, op: usize, part: usize) -> u32
        requires look { IsOutlook self.now.plan self.now.state look.now }
        requires there { IsPart self.now.state op part }
        ensures { result ≡ purge_to self.now.plan self.now.state op part }
    {
        self.slot(op, part).at().min(self.readers_rc(look, op))
    }

    /// What could come next of a row for a partition.
    pub(crate) fn candidate(&self, look: &Outlook, row: Row, op: usize, part: usize) -> Event
        requires look { IsOutlook self.now.plan self.now.state look.now }
        requires there { IsPart self.now.state op part }
        ensures { result ≡ candidate self.now.plan self.now.state row op part }
    {
        let at = self.slot(op, part).at();
        let open = self.slot(op, part).open_window();
        let (number, place) = (op as u16, part as u8);
        match row {
            Row::Start => Event::Start {
                op: number,
                part: place,
                window: at + 1,
            },
            Row::Finish => Event::Finish {
                op: number,
                part: place,
                window: open,
            },
            Row::Save => Event::Save {
                op: number,
                part: place,
                window: at,
            },
            Row::Advance => Event::Advance {
                op: number,
                part: place,
                to: self.advance_to(look, op, part),
            },
            Row::Purge => Event::Purge {
                op: number,
                part: place,
                to: self.purge_to(look, op, part),
            },
        }
    }

    /// Adds an event, where it may come next.
    fn add(&self, look: &Outlook, event: Event, into: &mut Vec<Event>) -> Result<(), AllocError>
        requires { IsOutlook self.now.plan self.now.state look.now }
        ensures { IfOk result (λ _. into.new.items ≡ into.old.items ++ filter (can self.now.plan self.now.state) (event ∷ [])) }
    {
        if self.enabled(look, event) {
            into.push(event)?;
        }
        Ok(())
    }

    /// Adds those of a row that an operator's partitions may have next.
    fn add_parts(
        &self,
        look: &Outlook,
        row: Row,
        op: usize,
        into: &mut Vec<Event>,
    ) -> Result<(), AllocError>
        requires look { IsOutlook self.now.plan self.now.state look.now }
        requires there { op < length self.now.state.ops }
        ensures { IfOk result (λ _. into.new.items ≡ into.old.items ++ of_op self.now.plan self.now.state row op) }
    {
        for part in 0..self.parts(op) {
            self.add(look, self.candidate(look, row, op, part), into)?;
        }
        Ok(())
    }

    /// Adds those of a row that all partitions may have next.
    fn add_row(&self, look: &Outlook, row: Row, into: &mut Vec<Event>) -> Result<(), AllocError>
        requires { IsOutlook self.now.plan self.now.state look.now }
        ensures { IfOk result (λ _. into.new.items ≡ into.old.items ++ of_row self.now.plan self.now.state row) }
    {
        for op in 0..self.len() {
            self.add_parts(look, row, op, into)?;
        }
        Ok(())
    }

    /// Adds those of a row that the lines may have next.
    fn add_lines(&self, look: &Outlook, row: Met, into: &mut Vec<Event>) -> Result<(), AllocError>
        requires { IsOutlook self.now.plan self.now.state look.now }
        ensures { IfOk result (λ _. into.new.items ≡ into.old.items ++ of_lines self.now.plan self.now.state row) }
    {
        for line in 0..self.left.len() {
            self.add(look, event_of(row, line as u32), into)?;
        }
        Ok(())
    }

    /// The events to choose from, in place of what the list had.
    #[tactic(auto, unfolding(apx_history::specs::Choices::choices))]
    pub(crate) fn choices(&self, into: &mut Vec<Event>) -> Result<(), AllocError>
        requires plan { IsPlan self.now.plan }
        requires small { IsSmall self.now.plan }
        requires kept { Kept self.now.plan self.now.state }
        ensures { IfOk result (λ _. into.new.items ≡ choices self.now.plan self.now.state) }
    {
        into.clear();
        let look = self.outlook();
        self.add_row(&look, Row::Start, into)?;
        self.add(
            &look,
            Event::Write {
                window: self.stored() + 1,
            },
            into,
        )?;
        self.add_row(&look, Row::Finish, into)?;
        self.add_row(&look, Row::Save, into)?;
        self.add_row(&look, Row::Advance, into)?;
        self.add(
            &look,
            Event::Commit {
                to: self.least_rc(),
            },
            into,
        )?;
        self.add_row(&look, Row::Purge, into)?;
        self.add_lines(&look, Met::Kill, into)?;
        self.add_lines(&look, Met::Repartition, into)?;
        self.add(&look, Event::End, into)
    }
}
