// Spools in memory: ones that tell their pieces, ones that fail by number, and ones with one wrong piece.
ghost use Rattle.std.specs.Prelude.{◌≡◌, ℕ, true, false, Some, None, IsSome, IfOk, OnOk, OnErr};
ghost use Rattle.apx_cause.specs.Cause.{HasCause};
ghost use Rattle.apx_device.specs.Spool.{KeepsOthers, IsFault};

use crate::failing::FailingCalls;
use crate::{Spool, SpoolRefusal, Spools, SpoolsRefusal};
use std::alloc::{AllocError, Global};
use std::collections::BTreeMap;
use std::convert::Infallible;

/// Pieces by number. No call of it fails.
///
/// ```
/// let mut spool = MemorySpool::new(alloc);
/// spool.put(7, &piece)?;
/// let again = spool.fetch(alloc, 7)?;
/// ```
#[derive(Drop)]
pub struct MemorySpool {
    /// Where the pieces lie.
    alloc: Global,
    /// The bytes of each piece, by its number.
    pieces: BTreeMap<u64, Vec<u8>>,
}

impl MemorySpool {
    ghost use Rattle.apx_device.specs.MemorySpool.{piece_of};

    /// An empty spool.
    pub fn new(alloc: Global) -> Self
        ensures { (number : ℕ) → piece_of result number ≡ None }
    {
        MemorySpool {
            alloc,
            pieces: BTreeMap::new(alloc),
        }
    }
}

impl Spool for MemorySpool {
    type Fault = Infallible;

    ghost use Rattle.apx_device.specs.MemorySpool.{piece_of};

    ghost tells = { true };

    ghost held = { piece_of };

    fn put(&mut self, number: u64, piece: &[u8]) -> Result<(), SpoolRefusal<Infallible>> {
        let Ok(copied) = piece.to_vec(self.alloc) else {
            return Err(SpoolRefusal::Memory);
        };
        match self.pieces.insert(number, copied) {
            Ok(_) => Ok(()),
            Err(_) => Err(SpoolRefusal::Memory),
        }
    }

    fn fetch(&mut self, alloc: Global, number: u64) -> Result<Vec<u8>, SpoolRefusal<Infallible>> {
        let piece = self.pieces.get(&number).unwrap();
        piece.to_vec(alloc).map_err(|_| SpoolRefusal::Memory)
    }

    fn forget(&mut self, number: u64) {
        let _ = self.pieces.remove(&number);
    }
}

/// Makes empty spools in memory. No call of it or of its spools fails.
///
/// ```
/// let mut spool = MemorySpools::new(alloc).fresh()?;
/// ```
#[derive(Clone, Copy, Debug)]
pub struct MemorySpools {
    /// Where the pieces are to lie.
    alloc: Global,
}

impl MemorySpools {
    /// The maker of spools whose pieces lie in the memory of this allocator.
    pub fn new(alloc: Global) -> Self
        ensures { result ≡ record { alloc = alloc } }
    {
        MemorySpools { alloc }
    }
}

impl Spools for MemorySpools {
    type S = MemorySpool;

    ghost faults = { λ _. 0 };

    fn faults(&self) -> u64 {
        0
    }

    fn fresh(&mut self) -> Result<MemorySpool, SpoolsRefusal> {
        Ok(MemorySpool::new(self.alloc))
    }
}

/// How a failing spool in memory fails. Its spools alone make one.
#[derive(Debug, PartialEq, Eq, Drop)]
pub struct SpoolFault(());

/// A spool in memory of which some puts and fetches fail.
#[derive(Drop)]
pub struct FailingSpool {
    /// The pieces.
    spool: MemorySpool,
    /// The puts so far, and which are to fail.
    puts: FailingCalls,
    /// The fetches so far, and which are to fail.
    fetches: FailingCalls,
}

// The refusal of a spool that never faults.
fn memory_alone(refusal: SpoolRefusal<Infallible>) -> SpoolRefusal<SpoolFault>
    ensures { result ≡ SpoolRefusal.Memory }
{
    match refusal {
        SpoolRefusal::Fault(never) => match never {},
        SpoolRefusal::Memory => SpoolRefusal::Memory,
    }
}

impl Spool for FailingSpool {
    type Fault = SpoolFault;

    ghost use Rattle.apx_device.specs.Failing.{CalledOnce, NextFails};
    ghost use Rattle.apx_device.specs.MemorySpool.{failing_piece_of};

    ghost tells = { true };

    ghost held = { failing_piece_of };

    fn put(&mut self, number: u64, piece: &[u8]) -> Result<(), SpoolRefusal<SpoolFault>>
        ensures held { OnOk result (IsSome (failing_piece_of self.new number)) }
        ensures told { OnOk result (failing_piece_of self.new number ≡ Some piece.now) }
        ensures others { KeepsOthers (failing_piece_of self.old) (failing_piece_of self.new) number }
        ensures err { OnErr result (failing_piece_of self.new number ≡ failing_piece_of self.old number) }

        // It fails exactly at the puts that are to fail.
        ensures called { CalledOnce self.old.puts self.new.puts (IsFault result) }
        ensures only { IsFault result → NextFails self.old.puts }
        ensures fetches { self.new.fetches ≡ self.old.fetches }
    {
        if self.puts.next_fails() {
            return Err(SpoolRefusal::Fault(SpoolFault(())));
        }
        self.spool.put(number, piece).map_err(memory_alone)
    }

    fn fetch(&mut self, alloc: Global, number: u64) -> Result<Vec<u8>, SpoolRefusal<SpoolFault>>
        requires { IsSome (failing_piece_of self.old number) }
        ensures told { IfOk result (λ piece. failing_piece_of self.old number ≡ Some piece.items) }
        ensures held { (other : ℕ) → failing_piece_of self.new other ≡ failing_piece_of self.old other }

        // It fails exactly at the fetches that are to fail.
        ensures called { CalledOnce self.old.fetches self.new.fetches (IsFault result) }
        ensures only { IsFault result → NextFails self.old.fetches }
        ensures puts { self.new.puts ≡ self.old.puts }
    {
        if self.fetches.next_fails() {
            return Err(SpoolRefusal::Fault(SpoolFault(())));
        }
        self.spool.fetch(alloc, number).map_err(memory_alone)
    }

    fn forget(&mut self, number: u64) {
        self.spool.forget(number);
    }
}

/// Makes spools in memory that fail by number, and fails by number itself.
///
/// ```
/// // The third spool is to fail, and of each spool the first put.
/// let mut spools = FailingSpools::new(alloc, vec![in alloc; 3]?, vec![in alloc; 1]?, Vec::new(alloc));
/// ```
#[derive(Drop)]
pub struct FailingSpools {
    /// Where the pieces are to lie.
    alloc: Global,
    /// The spools asked for so far, and which are to fail.
    calls: FailingCalls,
    /// Which puts of each spool are to fail.
    puts: Vec<u64>,
    /// Which fetches of each spool are to fail.
    fetches: Vec<u64>,
}

impl FailingSpools {
    ghost use Rattle.apx_device.specs.Failing.{BeginsWith};
    ghost use Rattle.apx_device.specs.MemorySpool.{failing_piece_of, makers_faults};

    /// A maker of which the calls with the numbers `calls`, counted from 1, are to fail, and of each
    /// spool that it makes the puts and the fetches with those numbers.
    pub fn new(alloc: Global, calls: Vec<u64>, puts: Vec<u64>, fetches: Vec<u64>) -> Self
        ensures faults { makers_faults result ≡ 0 }
        ensures calls { BeginsWith result.calls calls.items }
        ensures puts { result.puts ≡ puts }
        ensures fetches { result.fetches ≡ fetches }
    {
        FailingSpools {
            alloc,
            calls: FailingCalls::new(calls),
            puts,
            fetches,
        }
    }

    // A spool that fails as this maker's spools do.
    fn make(&self) -> Result<FailingSpool, AllocError>
        ensures empty { IfOk result (λ spool. (number : ℕ) → failing_piece_of spool number ≡ None) }
        ensures puts { IfOk result (λ spool. BeginsWith spool.puts self.now.puts.items) }
        ensures fetches { IfOk result (λ spool. BeginsWith spool.fetches self.now.fetches.items) }
    {
        Ok(FailingSpool {
            spool: MemorySpool::new(self.alloc),
            puts: FailingCalls::new(self.puts.to_vec(self.alloc)?),
            fetches: FailingCalls::new(self.fetches.to_vec(self.alloc)?),
        })
    }
}

impl Spools for FailingSpools {
    type S = FailingSpool;

    ghost use Rattle.apx_device.specs.Failing.{BeginsWith, CalledOnce, NextFails};
    ghost use Rattle.apx_device.specs.MemorySpool.{failing_piece_of, makers_faults};

    ghost faults = { makers_faults };

    fn faults(&self) -> u64 {
        self.calls.faults
    }

    fn fresh(&mut self) -> Result<FailingSpool, SpoolsRefusal>
        ensures empty { IfOk result (λ spool. (number : ℕ) → failing_piece_of spool number ≡ None) }
        ensures cause { HasCause (makers_faults self.old) (makers_faults self.new) (result ≡ Err SpoolsRefusal.Failed) }

        // It fails exactly at the calls that are to fail, and its spools at the puts and fetches that are to fail.
        ensures called { CalledOnce self.old.calls self.new.calls (result ≡ Err SpoolsRefusal.Failed) }
        ensures only { result ≡ Err SpoolsRefusal.Failed → NextFails self.old.calls }
        ensures puts { IfOk result (λ spool. BeginsWith spool.puts self.old.puts.items) }
        ensures fetches { IfOk result (λ spool. BeginsWith spool.fetches self.old.fetches.items) }
    {
        if self.calls.next_fails() {
            return Err(SpoolsRefusal::Failed);
        }
        self.make().map_err(|_| SpoolsRefusal::Memory)
    }
}

/// A spool in memory that tells nothing: under one number it gives other bytes than were put there.
#[derive(Drop)]
pub struct WrongSpool {
    /// The pieces as they were put.
    spool: MemorySpool,
    /// The number under which it gives the wrong piece.
    number: u64,
    /// What it gives there.
    wrong: Vec<u8>,
}

impl Spool for WrongSpool {
    type Fault = Infallible;

    ghost use Rattle.apx_device.specs.MemorySpool.{wrong_piece_of};

    ghost tells = { false };

    ghost held = { wrong_piece_of };

    fn put(&mut self, number: u64, piece: &[u8]) -> Result<(), SpoolRefusal<Infallible>> {
        self.spool.put(number, piece)
    }

    fn fetch(&mut self, alloc: Global, number: u64) -> Result<Vec<u8>, SpoolRefusal<Infallible>> {
        if number == self.number {
            return self.wrong.to_vec(alloc).map_err(|_| SpoolRefusal::Memory);
        }
        self.spool.fetch(alloc, number)
    }

    fn forget(&mut self, number: u64) {
        self.spool.forget(number);
    }
}

/// Makes spools in memory that give one wrong piece.
///
/// ```
/// let mut spools = WrongSpools::new(alloc, 7, wrong);
/// ```
#[derive(Drop)]
pub struct WrongSpools {
    /// Where the pieces are to lie.
    alloc: Global,
    /// The number under which each spool gives the wrong piece.
    number: u64,
    /// What it gives there.
    wrong: Vec<u8>,
}

impl WrongSpools {
    /// A maker of spools that give these bytes under the number, whatever was put there.
    pub fn new(alloc: Global, number: u64, wrong: Vec<u8>) -> Self
        ensures { result ≡ record { alloc = alloc; number = number; wrong = wrong } }
    {
        WrongSpools {
            alloc,
            number,
            wrong,
        }
    }
}

impl Spools for WrongSpools {
    type S = WrongSpool;

    ghost faults = { λ _. 0 };

    fn faults(&self) -> u64 {
        0
    }

    fn fresh(&mut self) -> Result<WrongSpool, SpoolsRefusal> {
        let Ok(wrong) = self.wrong.to_vec(self.alloc) else {
            return Err(SpoolsRefusal::Memory);
        };
        Ok(WrongSpool {
            spool: MemorySpool::new(self.alloc),
            number: self.number,
            wrong,
        })
    }
}
