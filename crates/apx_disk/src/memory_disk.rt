// A disk in memory. It keeps each change with what a read gave before it, so that one can say what a crash might leave.
ghost use Rattle.std.specs.Prelude.{◌≡◌, ◌⊎◌, ◌≤◌, ◌<◌, ◌+◌, ◌-◌, ◌^◌, ◌↔◌, ◌++◌, ◌∷◌, [], ⊤, true, min, replicate, length, take, drop, Some, None, IsTrue, IfOk, OnOk, OnErr};
ghost use Rattle.std.specs.Bool.{OnFalse};
ghost use Rattle.apx_cause.specs.Cause.{HasCause};
ghost use Rattle.apx_disk.specs.Disk.{Holds, Torn};
ghost use Rattle.apx_disk.specs.Changes.{LeftSince};
ghost use Rattle.apx_disk.specs.declared.memory_disk.Change.TheVariants.{Wrote, Cut, Synced};

use crate::{Disk, DiskRefusal};
use std::alloc::{AllocError, Global};

/// A change of the file since it was made or synced.
#[derive(Drop)]
pub(crate) enum Change {
    /// So many bytes were written at a place of these bytes.
    Wrote { was: Vec<u8>, at: u64, count: usize },
    /// These bytes were cut to a length.
    Cut { was: Vec<u8>, len: u64 },
    /// The file was synced.
    Synced,
}

/// The calls of a disk so far, and which are to fail.
#[derive(Drop)]
pub(crate) struct DiskCalls {
    /// The numbers of the calls that are to fail, counted from 1.
    failing: Vec<u64>,
    /// How many calls go well before the disk stops for good, where it is to stop.
    stops_after: Option<u64>,
    /// How many calls there were.
    made: u64,
    /// How many faults there were.
    faults: u64,
}

/// A file in memory.
///
/// A call that is to fail counts a fault and changes nothing. So does each call once the disk has stopped. A cut
/// and a sync for which there is no memory fail too.
///
/// ```
/// // It stops for good after four calls.
/// let mut disk = MemoryDisk::stopping(alloc, Vec::new(alloc), 4);
/// disk.write_at(0, &[8, 9])?;
/// // What was written isn't synced: a crash may leave any bytes in its place.
/// let left = disk.crash(1)?;
/// ```
#[derive(Drop)]
pub struct MemoryDisk {
    /// Where the bytes lie.
    alloc: Global,
    /// What a read gives.
    bytes: Vec<u8>,
    /// The changes since the disk was made.
    changes: Vec<Change>,
    /// The calls so far, and which are to fail.
    calls: DiskCalls,
}

impl DiskCalls {
    ghost use Rattle.apx_disk.specs.Calls.{IsStopped, IsToFail};

    /// Counts one fault, up to the last value.
    fn count_fault(&mut self)
        ensures calls { self.new ≡ record self.old { faults = min (self.old.faults + 1) (2 ^ 64 - 1) } }
        ensures cause { HasCause self.old.faults self.new.faults ⊤ }
    {
        self.faults = self.faults.saturating_add(1);
    }

    /// Whether the disk has stopped for good.
    fn has_stopped(&self) -> bool
        ensures { IsTrue result ↔ IsStopped self.now.stops_after self.now.made }
    {
        match self.stops_after {
            Some(count) => count <= self.made,
            None => false,
        }
    }

    /// Counts one call, and the fault where the call is to fail.
    fn next_fails(&mut self) -> bool
        ensures fails { IsTrue result ↔ IsToFail self.old }
        ensures made { self.new.made ≡ min (self.old.made + 1) (2 ^ 64 - 1) }
        ensures plan { (self.new.failing ≡ self.old.failing) × (self.new.stops_after ≡ self.old.stops_after) }
        ensures cause { HasCause self.old.faults self.new.faults (IsTrue result) }
        ensures unharmed { OnFalse result (self.new.faults ≡ self.old.faults) }
    {
        let stopped = self.has_stopped();
        self.made = self.made.saturating_add(1);
        let fails = stopped || self.failing.contains(&self.made);
        if fails {
            self.count_fault();
        }
        fails
    }
}

impl MemoryDisk {
    ghost use Rattle.apx_disk.specs.InMemory.{bytes_of};

    /// A disk with these bytes, all of them safe from a crash. No call of it fails.
    pub fn new(alloc: Global, bytes: Vec<u8>) -> Self
        ensures bytes { bytes_of result ≡ bytes.items }
        ensures whole { result.changes.items ≡ [] }
        ensures calls { (result.calls.failing.items ≡ []) × (result.calls.stops_after ≡ None)
            × (result.calls.made ≡ 0) × (result.calls.faults ≡ 0) }
    {
        MemoryDisk::failing(alloc, bytes, Vec::new(alloc))
    }

    /// Such a disk of which the calls with these numbers, counted from 1, are to fail.
    pub fn failing(alloc: Global, bytes: Vec<u8>, calls: Vec<u64>) -> Self
        ensures bytes { bytes_of result ≡ bytes.items }
        ensures whole { result.changes.items ≡ [] }
        ensures calls { (result.calls.failing.items ≡ calls.items) × (result.calls.stops_after ≡ None)
            × (result.calls.made ≡ 0) × (result.calls.faults ≡ 0) }
    {
        MemoryDisk {
            alloc,
            bytes,
            changes: Vec::new(alloc),
            calls: DiskCalls {
                failing: calls,
                stops_after: None,
                made: 0,
                faults: 0,
            },
        }
    }

    /// Such a disk that stops for good after so many calls.
    pub fn stopping(alloc: Global, bytes: Vec<u8>, calls: u64) -> Self
        ensures bytes { bytes_of result ≡ bytes.items }
        ensures whole { result.changes.items ≡ [] }
        ensures calls { (result.calls.failing.items ≡ []) × (result.calls.stops_after ≡ Some calls)
            × (result.calls.made ≡ 0) × (result.calls.faults ≡ 0) }
    {
        MemoryDisk {
            alloc,
            bytes,
            changes: Vec::new(alloc),
            calls: DiskCalls {
                failing: Vec::new(alloc),
                stops_after: Some(calls),
                made: 0,
                faults: 0,
            },
        }
    }

    /// What a read gives.
    pub fn bytes(&self) -> &[u8]
        ensures { result.now ≡ bytes_of self.now }
    {
        &self.bytes
    }

    /// Whether the disk has stopped or failed at some call.
    pub fn has_failed(&self) -> bool
        ensures { IsTrue result ↔ (0 < self.now.calls.faults) }
    {
        self.calls.faults > 0
    }

    /// The disk after a crash: its last change was not synced and is torn, with this byte all over the range that
    /// was written or cut off. Where the last change was a sync, the file is as it was read.
    pub fn crash(self, fill: u8) -> Result<MemoryDisk, AllocError>
        ensures image { IfOk result (λ disk. LeftSince self.changes.items self.bytes.items (length self.changes.items) (bytes_of disk)) }
        ensures whole { IfOk result (λ disk. disk.changes.items ≡ []) }
    {
        let MemoryDisk {
            alloc,
            bytes,
            changes,
            calls: _,
        } = self;
        let image = image_of(alloc, bytes, changes, fill)?;
        Ok(MemoryDisk::new(alloc, image))
    }
}

// One of the images that a crash now may leave: the last change torn, where it was not synced.
fn image_of(
    alloc: Global,
    bytes: Vec<u8>,
    mut changes: Vec<Change>,
    fill: u8,
) -> Result<Vec<u8>, AllocError>
    ensures { IfOk result (λ image. LeftSince changes.items bytes.items (length changes.items) image.items) }
{
    match changes.pop() {
        Some(Change::Wrote { was, at, count }) => {
            let image = torn(alloc, &was, at as usize, count, fill)?;
            Ok(image)
        }
        Some(Change::Cut { was, len }) => {
            let rest = was.len().saturating_sub(len as usize);
            let image = torn(alloc, &was, len as usize, rest, fill)?;
            Ok(image)
        }
        Some(Change::Synced) => Ok(bytes),
        None => Ok(bytes),
    }
}

// The bytes with a range of them, or past their end, filled.
fn torn(alloc: Global, was: &[u8], at: usize, count: usize, fill: u8) -> Result<Vec<u8>, AllocError>
    ensures torn { IfOk result (λ image. Torn at count was.now image.items) }
    ensures past { IfOk result (λ image. length was.now < at → image.items ≡ was.now) }
{
    let Some(end) = at.checked_add(count) else {
        return was.to_vec(alloc);
    };
    if at > was.len() {
        return was.to_vec(alloc);
    }
    let mut image = was[..at].to_vec(alloc)?;
    image.resize(end, fill)?;
    if end < was.len() {
        image.extend_from_slice(&was[end..])?;
    }
    Ok(image)
}

// The bytes with others at a place of them.
fn written(alloc: Global, old: &[u8], at: usize, bytes: &[u8]) -> Result<Vec<u8>, AllocError>
    requires { at ≤ length old.now }
    ensures { IfOk result (λ new. Holds old.now at bytes.now new.items) }
{
    let mut new = old[..at].to_vec(alloc)?;
    new.extend_from_slice(bytes)?;
    if bytes.len() < old.len() - at {
        new.extend_from_slice(&old[at + bytes.len()..])?;
    }
    Ok(new)
}

// Keeps what a read gave, and puts the bytes in its place.
fn replace(
    alloc: Global,
    bytes: &mut Vec<u8>,
    changes: &mut Vec<Change>,
    at: u64,
    count: usize,
    new: Vec<u8>,
) -> Result<(), AllocError>
    ensures ok { OnOk result (bytes.new ≡ new) }
    ensures err { OnErr result (bytes.new ≡ bytes.old) }
    ensures kept { OnOk result ((was : _) × (was.items ≡ bytes.old.items)
        × (changes.new.items ≡ changes.old.items ++ Wrote was at count ∷ [])) }
    ensures kept_err { OnErr result (changes.new.items ≡ changes.old.items) }
{
    let was = bytes.to_vec(alloc)?;
    changes.push(Change::Wrote { was, at, count })?;
    *bytes = new;
    Ok(())
}

// Keeps what a read gave, and cuts the bytes to a length.
fn shorten(
    alloc: Global,
    bytes: &mut Vec<u8>,
    changes: &mut Vec<Change>,
    len: u64,
) -> Result<(), AllocError>
    ensures ok { OnOk result (bytes.new.items ≡ take len bytes.old.items) }
    ensures err { OnErr result (bytes.new ≡ bytes.old) }
    ensures kept { OnOk result ((was : _) × (was.items ≡ bytes.old.items) × (changes.new.items ≡ changes.old.items ++ Cut was len ∷ [])) }
    ensures kept_err { OnErr result (changes.new.items ≡ changes.old.items) }
{
    let was = bytes.to_vec(alloc)?;
    changes.push(Change::Cut { was, len })?;
    bytes.truncate(len as usize);
    Ok(())
}

// Keeps that the file was synced.
fn note_sync(changes: &mut Vec<Change>) -> Result<(), AllocError>
    ensures kept { OnOk result (changes.new.items ≡ changes.old.items ++ Synced ∷ []) }
    ensures kept_err { OnErr result (changes.new.items ≡ changes.old.items) }
{
    changes.push(Change::Synced)?;
    Ok(())
}

impl Disk for MemoryDisk {
    ghost use Rattle.apx_disk.specs.Histories.{here_now, earlier_too};
    ghost use Rattle.apx_disk.specs.InMemory.{bytes_of};

    ghost tells = { true };

    ghost seen = { bytes_of };

    ghost time = { λ disk. length disk.changes.items };

    ghost left = { λ disk time image. LeftSince disk.changes.items disk.bytes.items time image };

    ghost faults = { λ disk. disk.calls.faults };

    ghost shows = { λ disk tells. here_now disk.changes.items disk.bytes.items };

    ghost counts = { λ disk t image tells le left. earlier_too disk.changes.items disk.bytes.items t image le left };

    fn faults(&self) -> u64 {
        self.calls.faults
    }

    fn len(&mut self) -> Result<u64, DiskRefusal> {
        if self.calls.next_fails() {
            return Err(DiskRefusal::Failed);
        }
        Ok(self.bytes.len() as u64)
    }

    fn read(&mut self, alloc: Global, at: u64, count: usize) -> Result<Vec<u8>, DiskRefusal> {
        if self.calls.next_fails() {
            return Err(DiskRefusal::Failed);
        }
        let from = at as usize;
        self.bytes[from..from + count]
            .to_vec(alloc)
            .map_err(|_| DiskRefusal::Memory)
    }

    fn write_at(&mut self, at: u64, bytes: &[u8]) -> Result<(), DiskRefusal> {
        if self.calls.next_fails() {
            return Err(DiskRefusal::Failed);
        }
        let Ok(new) = written(self.alloc, &self.bytes, at as usize, bytes) else {
            return Err(DiskRefusal::Memory);
        };
        let count = bytes.len();
        match replace(
            self.alloc,
            &mut self.bytes,
            &mut self.changes,
            at,
            count,
            new,
        ) {
            Ok(()) => Ok(()),
            Err(_) => Err(DiskRefusal::Memory),
        }
    }

    fn cut(&mut self, len: u64) -> Result<(), DiskRefusal> {
        if self.calls.next_fails() {
            return Err(DiskRefusal::Failed);
        }
        match shorten(self.alloc, &mut self.bytes, &mut self.changes, len) {
            Ok(()) => Ok(()),
            Err(_) => {
                self.calls.count_fault();
                Err(DiskRefusal::Failed)
            }
        }
    }

    fn sync(&mut self) -> Result<(), DiskRefusal> {
        if self.calls.next_fails() {
            return Err(DiskRefusal::Failed);
        }
        match note_sync(&mut self.changes) {
            Ok(()) => Ok(()),
            Err(_) => {
                self.calls.count_fault();
                Err(DiskRefusal::Failed)
            }
        }
    }
}
