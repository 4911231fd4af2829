//! What a driver drives.

use apx_course::Stopped;
use apx_history::Event;

/// A run whose events are picked from outside: it tells how many may come next, which they are, and does them.
pub trait Desk {
    ghost use Rattle.std.specs.Prelude.{◌≡◌, ℕ, ◌<◌, true, false, length, get_or, OnOk, OnErr};
    ghost use Rattle.apx_history.specs.Plan.{Plan};
    ghost use Rattle.apx_history.specs.State.{running};
    ghost use Rattle.apx_history.specs.Enabled.{can};
    ghost use Rattle.apx_history.specs.Journals.{beginning, after, owed, bears};
    ghost use Rattle.apx_history.specs.Choices.{choices};
    ghost use Rattle.apx_history.specs.Laws.{IsHistory};
    ghost use Rattle.apx_history.specs.declared.Event.TheVariants.{End};
    ghost use Rattle.apx_course.specs.Faults.{is_fault};
    ghost use Rattle.apx_drive.specs.Driven.{Place, Goes, Stops};

    /// The plan of the run.
    ghost plan: { Plan };

    /// The last window that the sink's store had as the run began.
    ghost stored: { ℕ };

    /// The window behind which the run began.
    ghost from: { ℕ };

    /// Where the run stands.
    ghost place: { Self → Place };

    /// What is known of each run: what happened is a history, and the machine is in the state after it.
    fn facts(&self)
        ensures history { IsHistory plan stored from (place self.now).journal }
        ensures now { (place self.now).machine ≡ after plan (beginning plan stored from) (place self.now).journal };

    /// Whether the run goes on.
    fn is_running(&self) -> bool
        ensures { result ≡ running (place self.now).machine };

    /// How many events there are to choose from. While the run goes on there is one.
    fn count(&self) -> u32
        ensures count { result ≡ length (choices plan (place self.now).machine) }
        ensures some { running (place self.now).machine ≡ true → 0 < result };

    /// The event to choose at a place in their order, the first being at 0.
    fn pick(&self, at: u32) -> Event
        requires { at < length (choices plan (place self.now).machine) }
        ensures event { result ≡ get_or (choices plan (place self.now).machine) at End }
        ensures next { can plan (place self.now).machine result ≡ true };

    /// Worker 0 does an event, or the run stops with a fault.
    fn turn(&mut self, event: Event) -> Result<(), Stopped>
        requires can { can plan (place self.old).machine event ≡ true }
        requires bears { bears (owed plan (place self.old).machine event) 0 ≡ true }
        requires goes { is_fault event ≡ false }
        ensures did { OnOk result (Goes plan (place self.old) (place self.new) event) }
        ensures stops { OnErr result (Stops plan (place self.old) (place self.new)) };
}
