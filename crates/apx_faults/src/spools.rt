//! A maker of spools of which one alone fails by number.
ghost use Rattle.apx_device.specs.MemorySpool.{makers_faults};

use apx_device::{FailingSpool, FailingSpools, Spools, SpoolsRefusal};
use std::alloc::Global;

/// A maker of spools in memory that may fail by number, and of which one spool does.
#[derive(Drop)]
pub(crate) struct PickedSpools {
    /// How many spools were made, up to the last value of the type.
    made: u64,
    /// Which of them fails, counted from 1.
    picked: u64,
    /// Makes the others.
    maker: FailingSpools,
    /// Makes that one.
    failing: FailingSpools,
}

impl PickedSpools {
    /// A maker of which the calls with the numbers `calls` fail, and of the spool with the number `picked` the puts and the
    /// fetches with those numbers. All are counted from 1.
    pub(crate) fn new(
        alloc: Global,
        calls: Vec<u64>,
        picked: u64,
        puts: Vec<u64>,
        fetches: Vec<u64>,
    ) -> Self {
        PickedSpools {
            made: 0,
            picked,
            maker: FailingSpools::new(alloc, calls, Vec::new(alloc), Vec::new(alloc)),
            failing: FailingSpools::new(alloc, Vec::new(alloc), puts, fetches),
        }
    }

    /// How many spools were made, up to the last value of the type.
    pub(crate) fn made(&self) -> u64 {
        self.made
    }
}

impl Spools for PickedSpools {
    type S = FailingSpool;

    ghost faults = { λ spools. makers_faults spools.maker };

    fn faults(&self) -> u64 {
        self.maker.faults()
    }

    fn fresh(&mut self) -> Result<FailingSpool, SpoolsRefusal> {
        let spool = self.maker.fresh()?;
        self.made = self.made.saturating_add(1);
        if self.made != self.picked {
            return Ok(spool);
        }
        // That maker has no failing call.
        match self.failing.fresh() {
            Ok(spool) => Ok(spool),
            Err(_) => Err(SpoolsRefusal::Memory),
        }
    }
}
