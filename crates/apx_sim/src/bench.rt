//! A core with what is held for the windows that it has open.
ghost use Rattle.std.specs.Prelude.{◌≡◌, ◌<◌, true, false, length, get_or, Some, None, []};
ghost use Rattle.std.specs.Prelude.{IsTrue, IsSome, IfSome, IfNone, IfOk, IfErr, OnOk, OnErr};
ghost use Rattle.apx_history.specs.Plan.{line as line_at};
ghost use Rattle.apx_history.specs.State.{running};
ghost use Rattle.apx_history.specs.Enabled.{can};
ghost use Rattle.apx_history.specs.Journals.{beginning, after, owed, bears};
ghost use Rattle.apx_history.specs.Choices.{choices};
ghost use Rattle.apx_history.specs.Laws.{IsHistory};
ghost use Rattle.apx_history.specs.declared.Event.TheVariants.{Start, Write, Finish, Kill, End};
ghost use Rattle.apx_course.specs.Faults.{is_fault};
ghost use Rattle.apx_course.specs.Course.{Did, Stops};
ghost use Rattle.apx_hands.specs.Table.{cell, put_cell};
ghost use Rattle.apx_stores.specs.Crashes.{IsDurable, RowsFollow, IsSettled, EntriesFollow, NoPut};
ghost use Rattle.apx_core.specs.Claim.{IsWork};
ghost use Rattle.apx_core.specs.Crashes.{IsOfRun};
ghost use Rattle.apx_sim.specs.Hand.{IsOfClaim};
ghost use Rattle.apx_sim.specs.Bench.{IsVictim};

use crate::hand::Hand;
use apx_core::{Claim, Core, CoreFault, Naming, Stopped};
use apx_device::{Keeper, Spools, Vault};
use apx_hands::Table;
use apx_history::{Act, Event, Line};
use apx_part::{Done, PartId};
use apx_tuple::Short;
use std::alloc::Global;
use std::marker::Model;

/// The worker who does all.
const WORKER: u8 = 0;

/// A core with what is held for the windows that it has open.
#[derive(Drop)]
pub(crate) struct Bench<K: Keeper + Drop, V: Vault + Drop, P: Spools + Drop, J: Naming> {
    /// The core.
    core: Core<K, V, P, J>,
    /// What is held for each partition that has a window open.
    hands: Table<Hand<J>>,
    /// Where what the work makes comes from.
    alloc: Global,
}

impl<K: Keeper + Drop, V: Vault + Drop, P: Spools + Drop, J: Naming> Model for Bench<K, V, P, J> {
    ghost use Rattle.apx_core.specs.Core.{Seen};
    ghost use Rattle.apx_sim.specs.Bench.{AreHands};

    ghost Value = { Seen K V P P.S.Fault };

    ghost view = { λ b. b.core };

    ghost invariant = { λ b. AreHands b.core.stores.course.machine b.hands };
}

/// Takes what is held for a partition out of a table.
fn taken<J: Naming>(hands: &mut Table<Hand<J>>, op: u16, part: u8) -> Hand<J>
    requires op { op < 16 }
    requires part { part < 8 }
    requires held { IsSome (cell hands.old op part) }
    ensures out { cell hands.old op part ≡ Some result }
    ensures rest { hands.new ≡ put_cell hands.old op part None }
{
    match hands.take(op, part) {
        Some(hand) => hand,
        None => unreachable!(),
    }
}

/// The work of what is held, where it isn't done yet. Where it is refused the run stops.
fn work<K: Keeper + Drop, V: Vault + Drop, P: Spools + Drop, J: Naming>(
    alloc: Global,
    core: &mut Core<K, V, P, J>,
    hand: Hand<J>,
) -> Result<(Claim<J>, Done), Stopped>
    requires { running core.old.stores.course.machine ≡ true }
    ensures core { OnOk result (core.new ≡ core.old) }
    ensures claim { IfOk result (λ r. IsOfClaim hand.claim r.0) }
    ensures work { IfOk result (λ r. IsWork J.run r.0 r.1) }
    ensures keeper { core.new.stores.keeper ≡ core.old.stores.keeper }
    ensures vault { core.new.stores.vault ≡ core.old.stores.vault }
    ensures stops { OnErr result (Stops J.run.plan core.old.stores.course core.new.stores.course 0) }
{
    match hand.work(alloc, core.job()) {
        Ok(made) => Ok(made),
        Err(Short::Memory) => Err(core.fail(WORKER, CoreFault::Memory)),
        Err(Short::Large) => Err(core.fail(WORKER, CoreFault::Large)),
    }
}

impl<K: Keeper + Drop, V: Vault + Drop, P: Spools + Drop, J: Naming> Bench<K, V, P, J> {
    /// A core in which nothing has happened. For want of memory it comes back.
    pub(crate) fn new(alloc: Global, core: Core<K, V, P, J>) -> Result<Self, Core<K, V, P, J>>
        requires { core.stores.course.journal ≡ [] }
        ensures ok { IfOk result (λ bench. bench ≡ core) }
        ensures err { IfErr result (λ r. r ≡ core) }
    {
        core.facts();
        match Table::new(alloc) {
            Ok(hands) => Ok(Bench { core, hands, alloc }),
            Err(_) => Err(core),
        }
    }

    /// The core.
    pub(crate) fn core(self) -> Core<K, V, P, J>
        ensures { result ≡ self }
    {
        self.core
    }

    /// What is known of each bench: what happened is a history, and the machine is in the state after it.
    pub(crate) fn facts(&self)
        ensures history { IsHistory J.run.plan J.run.stored J.run.from self.now.stores.course.journal }
        ensures now { self.now.stores.course.machine
            ≡ after J.run.plan (beginning J.run.plan J.run.stored J.run.from) self.now.stores.course.journal }
        ensures durable { IsDurable J.run K.tells self.now.stores.course.machine.stored
            (K.left self.now.stores.keeper (K.time self.now.stores.keeper)) }
        ensures settled { running self.now.stores.course.machine ≡ true →
            IsSettled V.tells V.time V.left V.held self.now.stores.vault }
    {
        self.core.facts();
    }

    /// Whether the run goes on.
    pub(crate) fn is_running(&self) -> bool
        ensures { result ≡ running self.now.stores.course.machine }
    {
        self.core.machine().is_running()
    }

    /// How many events there are to choose from. While the run goes on there is one.
    pub(crate) fn count(&self) -> u32
        ensures count { result ≡ length (choices J.run.plan self.now.stores.course.machine) }
        ensures some { running self.now.stores.course.machine ≡ true → 0 < result }
    {
        self.core.machine().count()
    }

    /// The event to choose at a place in their order, the first being at 0.
    pub(crate) fn pick(&self, at: u32) -> Event
        requires { at < length (choices J.run.plan self.now.stores.course.machine) }
        ensures event { result ≡ get_or (choices J.run.plan self.now.stores.course.machine) at End }
        ensures next { can J.run.plan self.now.stores.course.machine result ≡ true }
    {
        self.core.machine().pick(at)
    }

    /// A line of the script.
    fn command(&self, line: u32) -> Line
        ensures { result ≡ line_at J.run.plan line }
    {
        self.core.machine().line(line as usize)
    }

    /// The number of the sink.
    fn sink(&self) -> u16
        ensures { result ≡ J.run.plan.sink }
    {
        self.core.machine().plan().sink()
    }

    /// Start: the claim is held.
    fn start(&mut self, id: PartId, window: u32) -> Result<(), Stopped>
        requires { can J.run.plan self.old.stores.course.machine (Start id.op id.part window) ≡ true }
        ensures did { OnOk result (Did J.run.plan self.old.stores.course self.new.stores.course 0 (Start id.op id.part window)) }
        ensures stops { OnErr result (Stops J.run.plan self.old.stores.course self.new.stores.course 0) }
        ensures keeper { self.new.stores.keeper ≡ self.old.stores.keeper }
        ensures vault { self.new.stores.vault ≡ self.old.stores.vault }
    {
        self.core.facts();
        self.hands.facts();
        let claim = self.core.start(WORKER, id, window)?;
        self.hands.put(id.op, id.part, Hand::of(claim));
        Ok(())
    }

    /// Write: the claim of the sink's window stays held, with what its work made.
    fn write(&mut self, window: u32) -> Result<(), Stopped>
        requires can { can J.run.plan self.old.stores.course.machine (Write window) ≡ true }
        requires bears { bears (owed J.run.plan self.old.stores.course.machine (Write window)) 0 ≡ true }
        ensures did { OnOk result (Did J.run.plan self.old.stores.course self.new.stores.course 0 (Write window)) }
        ensures stops { OnErr result (Stops J.run.plan self.old.stores.course self.new.stores.course 0) }
        ensures rows { RowsFollow J.run K.tells self.old.stores.course.machine.stored K.time K.left
            self.old.stores.keeper self.new.stores.keeper }
        ensures vault { self.new.stores.vault ≡ self.old.stores.vault }
    {
        self.core.facts();
        self.hands.facts();
        let sink = self.sink();
        let hand = taken(&mut self.hands, sink, 0);
        let (claim, done) = work(self.alloc, &mut self.core, hand)?;
        self.core.write(&claim, &done)?;
        self.hands.put(sink, 0, Hand::worked(claim, done));
        Ok(())
    }

    /// Finish: the claim is given back, with what its work made.
    fn finish(&mut self, id: PartId, window: u32) -> Result<(), Stopped>
        requires can { can J.run.plan self.old.stores.course.machine (Finish id.op id.part window) ≡ true }
        requires bears { bears (owed J.run.plan self.old.stores.course.machine (Finish id.op id.part window)) 0 ≡ true }
        ensures did { OnOk result (Did J.run.plan self.old.stores.course self.new.stores.course 0 (Finish id.op id.part window)) }
        ensures stops { OnErr result (Stops J.run.plan self.old.stores.course self.new.stores.course 0) }
        ensures keeper { self.new.stores.keeper ≡ self.old.stores.keeper }
        ensures vault { self.new.stores.vault ≡ self.old.stores.vault }
    {
        self.core.facts();
        self.hands.facts();
        let hand = taken(&mut self.hands, id.op, id.part);
        let (claim, done) = work(self.alloc, &mut self.core, hand)?;
        self.core.finish(claim, done)
    }

    /// The partition that a line kills, where it has a window open.
    fn victim(&self, line: u32) -> Option<PartId>
        requires { can J.run.plan self.now.stores.course.machine (Kill line) ≡ true }
        ensures some { IfSome result (λ id. IsVictim J.run.plan self.now.stores.course.machine line id.op id.part) }
        ensures none { IfNone result (owed J.run.plan self.now.stores.course.machine (Kill line) ≡ None) }
    {
        let Line { op, window: _, act } = self.command(line);
        match act {
            Act::Splits { count: _ } => None,
            Act::Fails { point: _, part } => {
                if self
                    .core
                    .machine()
                    .opened(op as usize, part as usize)
                    .is_some()
                {
                    Some(PartId { op, part })
                } else {
                    None
                }
            }
        }
    }

    /// Kill: the claim of the partition is given up, where it has a window open.
    fn kill(&mut self, line: u32) -> Result<(), Stopped>
        requires can { can J.run.plan self.old.stores.course.machine (Kill line) ≡ true }
        requires bears { bears (owed J.run.plan self.old.stores.course.machine (Kill line)) 0 ≡ true }
        ensures did { OnOk result (Did J.run.plan self.old.stores.course self.new.stores.course 0 (Kill line)) }
        ensures stops { OnErr result (Stops J.run.plan self.old.stores.course self.new.stores.course 0) }
        ensures keeper { self.new.stores.keeper ≡ self.old.stores.keeper }
        ensures entries { IsTrue V.tells → EntriesFollow NoPut V.time V.left V.held self.old.stores.vault self.new.stores.vault }
    {
        self.core.facts();
        self.hands.facts();
        match self.victim(line) {
            Some(id) => {
                let hand = taken(&mut self.hands, id.op, id.part);
                self.core.kill(WORKER, line, Some(hand.claim()))
            }
            None => self.core.kill(WORKER, line, None),
        }
    }

    /// An event, which no fault is.
    pub(crate) fn perform(&mut self, event: Event) -> Result<(), Stopped>
        requires can { can J.run.plan self.old.stores.course.machine event ≡ true }
        requires bears { bears (owed J.run.plan self.old.stores.course.machine event) 0 ≡ true }
        requires goes { is_fault event ≡ false }
        ensures did { OnOk result (Did J.run.plan self.old.stores.course self.new.stores.course 0 event) }
        ensures stops { OnErr result (Stops J.run.plan self.old.stores.course self.new.stores.course 0) }

        // What a crash leaves of the stores.
        ensures rows { RowsFollow J.run K.tells self.old.stores.course.machine.stored K.time K.left
            self.old.stores.keeper self.new.stores.keeper }
        ensures entries { IsTrue V.tells → EntriesFollow (IsOfRun J.run.job J.run.told)
            V.time V.left V.held self.old.stores.vault self.new.stores.vault }
    {
        self.facts();
        match event {
            Event::Start { op, part, window } => self.start(PartId { op, part }, window),
            Event::Write { window } => self.write(window),
            Event::Finish { op, part, window } => self.finish(PartId { op, part }, window),
            Event::Save { op, part, window } => {
                self.core.save(WORKER, PartId { op, part }, window)
            }
            Event::Advance { op, part, to } => self.core.advance(WORKER, PartId { op, part }, to),
            Event::Commit { to } => self.core.commit(WORKER, to),
            Event::Purge { op, part, to } => self.core.purge(WORKER, PartId { op, part }, to),
            Event::Kill { line } => self.kill(line),
            Event::Repartition { line } => self.core.repartition(WORKER, line),
            Event::End => self.core.end(WORKER),
            Event::Fault { status: _ } => unreachable!(),
        }
    }
}
