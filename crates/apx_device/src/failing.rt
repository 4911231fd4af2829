// Which calls of a device in memory are to fail.
ghost use Rattle.std.specs.Prelude.{◌≡◌, ◌+◌, ◌-◌, ◌^◌, ◌↔◌, min, ⊤, IsTrue, Contains};
ghost use Rattle.std.specs.Bool.{OnFalse};
ghost use Rattle.apx_cause.specs.Cause.{HasCause};

/// The numbers of the calls that are to fail, counted from 1, with the calls made and the faults so far.
#[derive(Drop)]
pub(crate) struct FailingCalls {
    /// The numbers of the calls that are to fail.
    pub(crate) numbers: Vec<u64>,
    /// How many calls there were, up to the last value of the type.
    pub(crate) made: u64,
    /// How many of them failed, up to the last value of the type.
    pub(crate) faults: u64,
}

impl FailingCalls {
    ghost use Rattle.apx_device.specs.Failing.{BeginsWith, CalledOnce, NextFails};

    pub(crate) fn new(numbers: Vec<u64>) -> Self
        ensures { BeginsWith result numbers.items }
    {
        FailingCalls {
            numbers,
            made: 0,
            faults: 0,
        }
    }

    /// Counts one fault, up to the last value.
    pub(crate) fn count_fault(&mut self)
        ensures counted { self.new ≡ record self.old { faults = min (self.old.faults + 1) (2 ^ 64 - 1) } }
        ensures cause { HasCause self.old.faults self.new.faults ⊤ }
    {
        self.faults = self.faults.saturating_add(1);
    }

    /// Counts one call, and the fault where the call is to fail.
    pub(crate) fn next_fails(&mut self) -> bool
        ensures fails { IsTrue result ↔ NextFails self.old }
        ensures called { CalledOnce self.old self.new (IsTrue result) }
        ensures cause { HasCause self.old.faults self.new.faults (IsTrue result) }
        ensures unharmed { OnFalse result (self.new.faults ≡ self.old.faults) }
    {
        self.made = self.made.saturating_add(1);
        let fails = self.numbers.contains(&self.made);
        if fails {
            self.count_fault();
        }
        fails
    }
}
