//! What workers share.

use crate::hands::OpenWindow;
use apx_course::Stopped;
use apx_history::Event;

/// A run that workers share: it tells which event a worker may do next, and does it.
///
/// Whoever begins a window of a partition gets a claim. The claim's work is done outside the lock, and what it made comes back
/// with the claim. Each call but `work` is made under the lock, and adds one entry of the worker to the journal, or none.
pub trait Shop {
    ghost use Rattle.std.specs.Prelude.{◌≡◌, ℕ, true, List, length, Option, Some, None, IfOk, IfErr, IfSome, OnOk, OnErr};
    ghost use Rattle.apx_history.specs.declared.Entry as entries;
    ghost use Rattle.apx_history.specs.Plan.{Plan, kills, line as line_of};
    ghost use Rattle.apx_history.specs.State.{State, running};
    ghost use Rattle.apx_history.specs.Enabled.{can};
    ghost use Rattle.apx_history.specs.Journals.{owed, bears};
    ghost use Rattle.apx_history.specs.Laws.{IsHistory};
    ghost use Rattle.apx_history.specs.declared.Event.TheVariants.{Start, Write, Finish, Kill};
    ghost use Rattle.apx_machine.specs.Picked.{may_do, first_for};
    ghost use Rattle.apx_work.specs.declared.hands.OpenWindow.{OpenWindow};
    ghost use Rattle.apx_work.specs.Own.{state_of};
    ghost use Rattle.apx_work.specs.Claims.{open_window, IsOpenFor};
    ghost use Rattle.apx_work.specs.Turns.{goes_alone, Adds, Stops};

    /// What the work of every claim needs.
    type Means;

    /// A worker's claim on a window that it has begun.
    type Claim: Drop;

    /// What the work of a claim made. Whatever can be made ready outside the lock belongs into it, such as the bytes of a
    /// checkpoint that is due.
    type Done: Drop;

    /// Why work was refused.
    type Refusal: Drop;

    /// The plan of the run.
    ghost plan: { Plan };

    /// The last window that the sink's store had as the run began.
    ghost stored: { ℕ };

    /// The window behind which the run began.
    ghost from: { ℕ };

    /// The state of the run's machine.
    ghost machine: { Self → State };

    /// What happened so far.
    ghost journal: { Self → List entries.Entry };

    /// These are the means of this run.
    ghost serves: { Self.Means → Type 0 };

    /// What is claimed.
    ghost claimed: { Self.Claim → OpenWindow };

    /// The claim's work is still to be done.
    ghost is_whole: { Self.Claim → Type 0 };

    /// The claim's work made this.
    ghost made: { Self.Claim → Self.Done → Type 0 };

    /// The refusal is one that a run may stop with.
    ghost may_stop: { Self.Refusal → Type 0 };

    /// The work of a claim. It is done outside the lock.
    fn work(means: &Self::Means, claim: &mut Self::Claim) -> Result<Self::Done, Self::Refusal>
        requires means { serves means.now }
        requires whole { is_whole claim.old }
        ensures claim { claimed claim.new ≡ claimed claim.old }
        ensures made { IfOk result (made claim.new) }
        ensures may { IfErr result may_stop };

    /// The refusal for want of memory.
    fn no_memory() -> Self::Refusal
        ensures { may_stop result };

    /// What is claimed.
    fn open_window(claim: &Self::Claim) -> OpenWindow
        ensures { result ≡ claimed claim.now };

    /// How many entries the journal has.
    fn count(&self) -> u64
        ensures { result ≡ length (journal self.now) };

    /// What is known of each run: what happened is a history, and the machine is in the state behind it.
    fn facts(&self)
        ensures history { IsHistory plan stored from (journal self.now) }
        ensures now { machine self.now ≡ state_of plan stored from (journal self.now) };

    /// Whether the run goes on.
    fn is_running(&self) -> bool
        ensures { result ≡ running (machine self.now) };

    /// The first event to choose that a worker may do: it is no Write, Finish or Kill of a partition that is open for
    /// another worker, and where the worker claims a partition, it is a Write, Finish or Kill of that one.
    fn first_for(&self, worker: u8, claim: Option<(u16, u8)>) -> Option<Event>
        ensures event { result ≡ first_for plan (machine self.now) worker claim }
        ensures next { IfSome result (λ e. can plan (machine self.now) e ≡ true) }
        ensures may { IfSome result (λ e. may_do plan (machine self.now) worker claim e ≡ true) };

    /// A worker begins a window of a partition, or the run stops.
    fn start(&mut self, worker: u8, op: u16, part: u8, window: u32) -> Result<Self::Claim, Stopped>
        requires { can plan (machine self.old) (Start op part window) ≡ true }
        ensures claim { IfOk result (λ claim. claimed claim ≡ open_window op part window worker) }
        ensures whole { IfOk result is_whole }
        ensures did { OnOk result (Adds worker (Start op part window) (journal self.old) (journal self.new)) }
        ensures stops { OnErr result (Stops worker (journal self.old) (journal self.new)) };

    /// The window of the sink that is claimed is stored, or the run stops.
    fn write(&mut self, claim: &Self::Claim, done: &Self::Done) -> Result<(), Stopped>
        requires can { can plan (machine self.old) (Write (claimed claim.now).window) ≡ true }
        requires bears { bears (owed plan (machine self.old) (Write (claimed claim.now).window))
            (claimed claim.now).worker ≡ true }
        requires opened { IsOpenFor (machine self.old) (claimed claim.now) }
        requires sink { ((claimed claim.now).op ≡ plan.sink) × ((claimed claim.now).part ≡ 0) }
        requires made { made claim.now done.now }
        ensures did { OnOk result (Adds (claimed claim.now).worker (Write (claimed claim.now).window)
            (journal self.old) (journal self.new)) }
        ensures stops { OnErr result (Stops (claimed claim.now).worker (journal self.old) (journal self.new)) };

    /// The window that is claimed is finished, or the run stops.
    fn finish(&mut self, claim: Self::Claim, done: Self::Done) -> Result<(), Stopped>
        requires can { can plan (machine self.old)
            (Finish (claimed claim).op (claimed claim).part (claimed claim).window) ≡ true }
        requires bears { bears (owed plan (machine self.old)
            (Finish (claimed claim).op (claimed claim).part (claimed claim).window)) (claimed claim).worker ≡ true }
        requires opened { IsOpenFor (machine self.old) (claimed claim) }
        requires made { made claim done }
        ensures did { OnOk result (Adds (claimed claim).worker
            (Finish (claimed claim).op (claimed claim).part (claimed claim).window) (journal self.old) (journal self.new)) }
        ensures stops { OnErr result (Stops (claimed claim).worker (journal self.old) (journal self.new)) };

    /// A line of the script kills a partition that nobody has open, or the run stops.
    fn kill(&mut self, worker: u8, line: u32) -> Result<(), Stopped>
        requires can { can plan (machine self.old) (Kill line) ≡ true }
        requires nobody { owed plan (machine self.old) (Kill line) ≡ None }
        ensures did { OnOk result (Adds worker (Kill line) (journal self.old) (journal self.new)) }
        ensures stops { OnErr result (Stops worker (journal self.old) (journal self.new)) };

    /// A worker gives up its claim, since a line of the script kills the partition, or the run stops.
    fn give_up(&mut self, line: u32, claim: Self::Claim) -> Result<(), Stopped>
        requires can { can plan (machine self.old) (Kill line) ≡ true }
        requires bears { bears (owed plan (machine self.old) (Kill line)) (claimed claim).worker ≡ true }
        requires opened { IsOpenFor (machine self.old) (claimed claim) }
        requires claim { kills (claimed claim).op (claimed claim).part (line_of plan line) ≡ true }
        ensures did { OnOk result (Adds (claimed claim).worker (Kill line) (journal self.old) (journal self.new)) }
        ensures stops { OnErr result (Stops (claimed claim).worker (journal self.old) (journal self.new)) };

    /// A worker does an event that has to do with no claim and kills nothing, or the run stops.
    fn act(&mut self, worker: u8, event: Event) -> Result<(), Stopped>
        requires can { can plan (machine self.old) event ≡ true }
        requires alone { goes_alone event ≡ true }
        ensures did { OnOk result (Adds worker event (journal self.old) (journal self.new)) }
        ensures stops { OnErr result (Stops worker (journal self.old) (journal self.new)) };

    /// The run stops, since work was refused.
    fn fail(&mut self, worker: u8, why: Self::Refusal) -> Stopped
        requires runs { running (machine self.old) ≡ true }
        requires may { may_stop why }
        ensures { Stops worker (journal self.old) (journal self.new) };
}
