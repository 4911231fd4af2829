// An output in memory, whose writes may fail by number.
ghost use Rattle.std.specs.Prelude.{◌≡◌, ◌<◌, ◌≤◌, ◌++◌, [], true, length, take, IsErr, IfOk, OnErr};
ghost use Rattle.apx_cause.specs.Cause.{HasCause};

use crate::failing::FailingCalls;
use crate::{Failed, Out};
use std::alloc::Global;

/// The bytes that were written. A write for which there is no memory is a fault. A write that fails takes nothing.
///
/// ```
/// let mut out = MemoryOut::new(alloc);
/// let taken = out.write(b"window 1")?;
/// assert_eq!(rt; out.written(), b"window 1".as_slice());
/// ```
#[derive(Drop)]
pub struct MemoryOut {
    /// The bytes.
    written: Vec<u8>,
    /// The writes so far, and which are to fail.
    calls: FailingCalls,
}

impl MemoryOut {
    ghost use Rattle.apx_device.specs.Failing.{BeginsWith};
    ghost use Rattle.apx_device.specs.MemoryOut.{written_to, faults_of};

    /// An empty output.
    pub fn new(alloc: Global) -> Self
        ensures written { written_to result ≡ [] }
        ensures faults { faults_of result ≡ 0 }
        ensures calls { BeginsWith result.calls [] }
    {
        MemoryOut::failing(alloc, Vec::new(alloc))
    }

    /// An empty output of which the writes with these numbers, counted from 1, are to fail.
    pub fn failing(alloc: Global, calls: Vec<u64>) -> Self
        ensures written { written_to result ≡ [] }
        ensures faults { faults_of result ≡ 0 }
        ensures calls { BeginsWith result.calls calls.items }
    {
        MemoryOut {
            written: Vec::new(alloc),
            calls: FailingCalls::new(calls),
        }
    }

    /// All that was written.
    pub fn written(&self) -> &[u8]
        ensures { result.now ≡ written_to self.now }
    {
        &self.written
    }
}

impl Out for MemoryOut {
    ghost use Rattle.apx_device.specs.Failing.{CalledOnce};
    ghost use Rattle.apx_device.specs.Out.{GotFront};
    ghost use Rattle.apx_device.specs.MemoryOut.{written_to, faults_of};

    ghost tells = { true };

    ghost written = { written_to };

    ghost faults = { faults_of };

    fn faults(&self) -> u64 {
        self.calls.faults
    }

    fn write(&mut self, piece: &[u8]) -> Result<usize, Failed>
        ensures within { IfOk result (λ taken. taken ≤ length piece.now) }
        ensures some { IfOk result (λ taken. 0 < length piece.now → 0 < taken) }
        ensures taken { IfOk result (λ taken. written_to self.new ≡ written_to self.old ++ take taken piece.now) }
        ensures front { OnErr result (GotFront piece.now (written_to self.old) (written_to self.new)) }
        ensures cause { HasCause (faults_of self.old) (faults_of self.new) (IsErr result) }

        // It fails at the calls that are to fail, and a write that fails takes nothing.
        ensures called { CalledOnce self.old.calls self.new.calls (IsErr result) }
        ensures nothing { OnErr result (written_to self.new ≡ written_to self.old) }
    {
        if self.calls.next_fails() {
            return Err(Failed);
        }
        if self.written.extend_from_slice(piece).is_err() {
            self.calls.count_fault();
            return Err(Failed);
        }
        Ok(piece.len())
    }
}
