// A list of records on a disk, of which a stop at any moment leaves all that were added, with the last one or without.
ghost use Rattle.std.specs.Prelude.{◌≡◌, ◌<◌, ◌≤◌, ◌+◌, ◌^◌, ◌++◌, ◌∷◌, [], ℕ, List, Some, None, Ok, Err, length, take, IsTrue, IfOk, IfErr, IfSome, OnOk, OnErr, map, if◌then◌else◌};
ghost use Rattle.apx_cause.specs.Cause.{HasCause};
ghost use Rattle.apx_cause.specs.Steps.{Steps};
ghost use Rattle.apx_disk.specs.Disk.{Holds, Only};
ghost use Rattle.apx_disk.specs.Log.{read_log, with_record, spelled_behind, end_of, is_open, is_whole, body_length, Grows, SpellsOne, IsReady};
ghost use Rattle.apx_disk.specs.Entries.{entry_of};

use crate::{Disk, DiskRefusal};
use std::alloc::{AllocError, Global};
use thiserror::Error;

/// A record as it is read.
#[derive(Debug, PartialEq, Eq, Drop)]
pub struct Record {
    /// The place of the record's gate in the file.
    pub gate: u64,
    /// The bytes of the record's body.
    pub body: Vec<u8>,
}

/// Why a log wasn't opened.
#[derive(Clone, Copy, Debug, PartialEq, Eq, Error)]
pub enum LogRefusal {
    /// The disk failed, and has counted that.
    #[error("the disk failed")]
    Disk,
    /// The gate at this place is open, and no whole record of the log's form follows it.
    #[error("the log is damaged at byte {at}")]
    Damaged { at: u64 },
    /// There was no memory for it.
    #[error("out of memory")]
    Memory,
}

/// Why a list of records wasn't opened.
pub type RecordsRefusal = LogRefusal;

/// A list of records on a disk.
///
/// ```
/// let (mut records, read) = Records::open(alloc, MemoryDisk::new(alloc, Vec::new(alloc)))?;
/// records.add(&[8, 9])?;
/// ```
#[derive(Drop)]
pub struct Records<D: Disk + Drop> {
    /// Where the records stand.
    disk: D,
    /// Where bytes are made that are to be written.
    alloc: Global,
    /// The place of the closed gate behind the records.
    gate: u64,
    /// Whether no call has failed.
    sound: bool,
    /// The file is shorter than 2^63 bytes.
    ghost small: { gate < 2 ^ 63 },
    /// As long as it is sound, a crash leaves what a read gives: records and a closed gate.
    ghost ready: { IsTrue sound → IsTrue D.tells → IsReady (D.seen disk) (D.left disk (D.time disk)) gate },
}

impl<D: Disk + Drop> Records<D> {
    /// Opens the list of records that the file spells, with its records. An empty file is a new list.
    ///
    /// What follows the closed gate is cut off, and the gate is written as 0. A crash within the call leaves a file
    /// that spells what one of the images spells that a crash at its start may leave.
    pub fn open(
        alloc: Global,
        mut disk: D,
    ) -> Result<(Records<D>, Vec<Record>), (D, RecordsRefusal)>
        ensures records { IsTrue D.tells → IfOk result (λ opened.
            read_log (D.seen disk) ≡ Ok (record { entries = map entry_of opened.1.items; end = opened.0.gate })) }
        ensures same { IsTrue D.tells → IfOk result (λ opened. read_log (D.seen opened.0.disk) ≡ read_log (D.seen disk)) }
        ensures sound { IfOk result (λ opened. IsTrue opened.0.sound) }
        ensures damaged { IsTrue D.tells → IfErr result (λ stop. (at : ℕ) → stop.1 ≡ LogRefusal.Damaged at →
            read_log (D.seen disk) ≡ Err at) }
        ensures crash { IsTrue D.tells → IfOk result (λ opened. Steps (D.time disk) (D.time opened.0.disk)
            (D.left disk) (D.left opened.0.disk) (SpellsOne (D.left disk (D.time disk)))) }
        ensures crash_err { IsTrue D.tells → IfErr result (λ stop. Steps (D.time disk) (D.time stop.0) (D.left disk)
            (D.left stop.0) (SpellsOne (D.left disk (D.time disk)))) }
        ensures faults { IfOk result (λ opened. D.faults disk ≤ D.faults opened.0.disk) }
        ensures cause { IfErr result (λ stop. HasCause (D.faults disk) (D.faults stop.0) (stop.1 ≡ LogRefusal.Disk)) }
    {
        let bytes = match fetch(alloc, &mut disk) {
            Ok(bytes) => bytes,
            Err(refusal) => return Err((disk, log_refusal(refusal))),
        };
        let (records, gate) = match parse(alloc, &bytes) {
            Ok(parsed) => parsed,
            Err(refusal) => return Err((disk, refusal)),
        };
        match shut(&mut disk, gate, bytes.len() as u64) {
            Ok(()) => Ok((
                Records {
                    disk,
                    alloc,
                    gate,
                    sound: true,
                },
                records,
            )),
            Err(refusal) => Err((disk, log_refusal(refusal))),
        }
    }

    /// Whether records may be added: no `add` has answered `Failed`.
    pub fn is_sound(&self) -> bool
        ensures { result ≡ self.now.sound }
    {
        self.sound
    }

    /// How many faults the disk had.
    pub fn faults(&self) -> u64
        ensures { result ≡ D.faults self.now.disk }
    {
        self.disk.faults()
    }

    /// Gives the disk back.
    pub fn close(self) -> D
        ensures { result ≡ self.disk }
    {
        let Records {
            disk,
            alloc: _,
            gate: _,
            sound: _,
        } = self;
        disk
    }

    /// Adds a record with this body.
    ///
    /// After Ok a crash leaves it. `Memory` leaves the records as they were, and the call may be made again; after
    /// `Failed` the list is closed and opened again before further use.
    pub fn add(&mut self, body: &[u8]) -> Result<(), DiskRefusal>
        requires sound { IsTrue self.old.sound }
        requires fits { length body.now < 2 ^ 32 }
        ensures added { IsTrue D.tells → OnOk result (read_log (D.seen self.new.disk)
            ≡ with_record body.now (read_log (D.seen self.old.disk))) }
        ensures err { IsTrue D.tells → OnErr result (IsTrue self.new.sound →
            read_log (D.seen self.new.disk) ≡ read_log (D.seen self.old.disk)) }
        ensures sound { OnOk result (IsTrue self.new.sound) }
        ensures sound_memory { result ≡ Err DiskRefusal.Memory → IsTrue self.new.sound }
        ensures crash { IsTrue D.tells → Steps (D.time self.old.disk) (D.time self.new.disk) (D.left self.old.disk)
            (D.left self.new.disk) (Grows (D.seen self.old.disk) body.now) }
        ensures cause { HasCause (D.faults self.old.disk) (D.faults self.new.disk) (result ≡ Err DiskRefusal.Failed) }
    {
        let Ok(piece) = piece_of(self.alloc, body) else {
            return Err(DiskRefusal::Memory);
        };
        match append(&mut self.disk, self.gate, body, &piece) {
            Ok(gate) => {
                self.gate = gate;
                Ok(())
            }
            Err(DiskRefusal::Memory) => Err(DiskRefusal::Memory),
            Err(DiskRefusal::Failed) => {
                self.sound = false;
                Err(DiskRefusal::Failed)
            }
        }
    }
}

// What stands behind the gate of a record: the length of the body, the body, and a closed gate.
fn piece_of(alloc: Global, body: &[u8]) -> Result<Vec<u8>, AllocError>
    requires { length body.now < 2 ^ 32 }
    ensures { IfOk result (λ piece. piece.items ≡ spelled_behind body.now) }
{
    let mut piece = Vec::new(alloc);
    piece.reserve(body.len() + 5)?;
    piece.extend_from_slice(&(body.len() as u32).to_be_bytes())?;
    piece.extend_from_slice(body)?;
    piece.push(0)?;
    Ok(piece)
}

// Writes a piece behind the closed gate and syncs it, whatever becomes of the gate.
fn stage<D: Disk>(disk: &mut D, gate: u64, piece: &[u8]) -> Result<(), DiskRefusal>
    requires small { gate < 2 ^ 63 }
    requires ready { IsTrue D.tells → IsReady (D.seen disk.old) (D.left disk.old (D.time disk.old)) gate }
    ensures written { IsTrue D.tells → OnOk result (Holds (D.seen disk.old) (gate + 1) piece.now (D.seen disk.new)) }
    ensures fits { OnOk result (gate + 1 + length piece.now < 2 ^ 63) }
    ensures same { IsTrue D.tells → read_log (D.seen disk.new) ≡ read_log (D.seen disk.old) }
    ensures ready { IsTrue D.tells → OnOk result (IsReady (D.seen disk.new) (D.left disk.new (D.time disk.new)) gate) }
    ensures ready_memory { IsTrue D.tells → result ≡ Err DiskRefusal.Memory →
        IsReady (D.seen disk.new) (D.left disk.new (D.time disk.new)) gate }
    ensures crash { IsTrue D.tells → Steps (D.time disk.old) (D.time disk.new) (D.left disk.old) (D.left disk.new)
        (λ image. read_log image ≡ read_log (D.seen disk.old)) }
    ensures cause { HasCause (D.faults disk.old) (D.faults disk.new) (result ≡ Err DiskRefusal.Failed) }
{
    disk.write_at(gate + 1, piece)?;
    disk.sync()?;
    Ok(())
}

// Adds the record that the piece spells: the piece behind the closed gate, and then the gate, each synced.
fn append<D: Disk>(disk: &mut D, gate: u64, body: &[u8], piece: &[u8]) -> Result<u64, DiskRefusal>
    requires small { gate < 2 ^ 63 }
    requires fits { length body.now < 2 ^ 32 }
    requires piece { piece.now ≡ spelled_behind body.now }
    requires ready { IsTrue D.tells → IsReady (D.seen disk.old) (D.left disk.old (D.time disk.old)) gate }
    ensures small { IfOk result (λ end. end < 2 ^ 63) }
    ensures added { IsTrue D.tells → OnOk result (read_log (D.seen disk.new) ≡ with_record body.now (read_log (D.seen disk.old))) }
    ensures ready { IsTrue D.tells → IfOk result (IsReady (D.seen disk.new) (D.left disk.new (D.time disk.new))) }
    ensures same { IsTrue D.tells → result ≡ Err DiskRefusal.Memory → read_log (D.seen disk.new) ≡ read_log (D.seen disk.old) }
    ensures ready_memory { IsTrue D.tells → result ≡ Err DiskRefusal.Memory →
        IsReady (D.seen disk.new) (D.left disk.new (D.time disk.new)) gate }
    ensures crash { IsTrue D.tells → Steps (D.time disk.old) (D.time disk.new) (D.left disk.old) (D.left disk.new)
        (Grows (D.seen disk.old) body.now) }
    ensures cause { HasCause (D.faults disk.old) (D.faults disk.new) (result ≡ Err DiskRefusal.Failed) }
{
    stage(disk, gate, piece)?;
    disk.write_at(gate, &[1])?;
    disk.sync()?;
    Ok(gate + (body.len() as u64 + 5))
}

// What a disk's refusal is to the opening of a log.
fn log_refusal(refusal: DiskRefusal) -> LogRefusal
    ensures disk { result ≡ LogRefusal.Disk → refusal ≡ DiskRefusal.Failed }
    ensures whole { (at : ℕ) → result ≡ LogRefusal.Damaged at → ⊥ }
{
    match refusal {
        DiskRefusal::Failed => LogRefusal::Disk,
        DiskRefusal::Memory => LogRefusal::Memory,
    }
}

/// How many bytes of a file are read at once.
const PIECE: u64 = 1_048_576;

// All bytes of the file, which are safe from a crash then.
fn fetch<D: Disk>(alloc: Global, disk: &mut D) -> Result<Vec<u8>, DiskRefusal>
    ensures bytes { IsTrue D.tells → IfOk result (λ bytes. bytes.items ≡ D.seen disk.old) }
    ensures seen { IsTrue D.tells → D.seen disk.new ≡ D.seen disk.old }
    ensures only { IsTrue D.tells → OnOk result (Only (D.seen disk.old) (D.left disk.new (D.time disk.new))) }
    ensures crash { IsTrue D.tells → Steps (D.time disk.old) (D.time disk.new) (D.left disk.old) (D.left disk.new)
        (D.left disk.old (D.time disk.old)) }
    ensures cause { HasCause (D.faults disk.old) (D.faults disk.new) (result ≡ Err DiskRefusal.Failed) }
{
    disk.sync()?; // From here on a crash leaves what is read.
    let len = disk.len()?;
    let bytes = read_all(alloc, disk, len)?;
    Ok(bytes)
}

// So many bytes from the file's beginning on, in pieces.
fn read_all<D: Disk>(alloc: Global, disk: &mut D, len: u64) -> Result<Vec<u8>, DiskRefusal>
    requires { IsTrue D.tells → len ≡ length (D.seen disk.old) }
    ensures bytes { IsTrue D.tells → IfOk result (λ bytes. bytes.items ≡ D.seen disk.old) }
    ensures seen { IsTrue D.tells → D.seen disk.new ≡ D.seen disk.old }
    ensures crash { IsTrue D.tells → Steps (D.time disk.old) (D.time disk.new) (D.left disk.old) (D.left disk.new)
        (D.left disk.old (D.time disk.old)) }
    ensures cause { HasCause (D.faults disk.old) (D.faults disk.new) (result ≡ Err DiskRefusal.Failed) }
{
    let mut bytes = Vec::new(alloc);
    let mut at = 0;
    while at < len {
        let count = PIECE.min(len - at);
        let piece = disk.read(alloc, at, count as usize)?;
        if bytes.extend_from_slice(&piece).is_err() {
            return Err(DiskRefusal::Memory);
        }
        at += count;
    }
    Ok(bytes)
}

// The records that the bytes spell, and the place of the closed gate behind them.
fn parse(alloc: Global, bytes: &[u8]) -> Result<(Vec<Record>, u64), LogRefusal>
    ensures records { IfOk result (λ read. read_log bytes.now ≡ Ok (record { entries = map entry_of read.0.items; end = read.1 })) }
    ensures within { IfOk result (λ read. read.1 ≤ length bytes.now) }
    ensures damaged { (at : ℕ) → result ≡ Err (LogRefusal.Damaged at) → read_log bytes.now ≡ Err at }
    ensures no_disk { result ≡ Err LogRefusal.Disk → ⊥ }
{
    let mut records = Vec::new(alloc);
    let mut place = 0;
    let mut rest = bytes;
    while is_open_gate(rest) {
        let Some(len) = whole_body(rest) else {
            return Err(LogRefusal::Damaged { at: place });
        };
        let Ok(()) = keep(alloc, &mut records, place, &rest[5..len + 5]) else {
            return Err(LogRefusal::Memory);
        };
        let (_, after) = rest.split_at(len + 5);
        rest = after;
        place += len as u64 + 5;
    }
    Ok((records, place))
}

// Adds a record that was read.
fn keep(alloc: Global, records: &mut Vec<Record>, gate: u64, body: &[u8]) -> Result<(), AllocError>
    ensures { OnOk result
        (map entry_of records.new.items ≡ map entry_of records.old.items ++ record { gate = gate; body = body.now } ∷ []) }
{
    let body = body.to_vec(alloc)?;
    records.push(Record { gate, body })?;
    Ok(())
}

// Whether the gate at the front is open: it is 1, and a byte follows it.
fn is_open_gate(bytes: &[u8]) -> bool
    ensures { result ≡ is_open bytes.now }
{
    match bytes {
        [gate, _, ..] => *gate == 1,
        _ => false,
    }
}

// How long the body behind the gate at the front is, where it and the next gate are there.
fn whole_body(bytes: &[u8]) -> Option<usize>
    ensures whole { result ≡ (if is_whole bytes.now then Some (body_length bytes.now) else None) }
    ensures within { IfSome result (λ len. len + 6 ≤ length bytes.now) }
{
    if bytes.len() < 6 {
        return None;
    }
    let len = u32::from_be_bytes([bytes[1], bytes[2], bytes[3], bytes[4]]) as usize;
    if bytes.len() < len + 6 {
        return None;
    }
    Some(len)
}

// Cuts off what follows the closed gate, which takes no record away.
fn trim<D: Disk>(disk: &mut D, gate: u64, len: u64) -> Result<(), DiskRefusal>
    requires small { gate < 2 ^ 63 }
    requires len { IsTrue D.tells → len ≡ length (D.seen disk.old) }
    requires end { IsTrue D.tells → end_of (read_log (D.seen disk.old)) ≡ Some gate }
    requires only { IsTrue D.tells → Only (D.seen disk.old) (D.left disk.old (D.time disk.old)) }
    ensures short { IsTrue D.tells → OnOk result (length (D.seen disk.new) ≤ gate + 1) }
    ensures same { IsTrue D.tells → read_log (D.seen disk.new) ≡ read_log (D.seen disk.old) }
    ensures only { IsTrue D.tells → OnOk result (Only (D.seen disk.new) (D.left disk.new (D.time disk.new))) }
    ensures crash { IsTrue D.tells → Steps (D.time disk.old) (D.time disk.new) (D.left disk.old) (D.left disk.new)
        (λ image. read_log image ≡ read_log (D.seen disk.old)) }
    ensures cause { HasCause (D.faults disk.old) (D.faults disk.new) (result ≡ Err DiskRefusal.Failed) }
{
    if len <= gate + 1 {
        return Ok(());
    }
    disk.cut(gate + 1)?;
    disk.sync()?;
    Ok(())
}

// Makes the file ready for a further record: nothing follows the closed gate, and it is 0.
fn shut<D: Disk>(disk: &mut D, gate: u64, len: u64) -> Result<(), DiskRefusal>
    requires small { gate < 2 ^ 63 }
    requires len { IsTrue D.tells → len ≡ length (D.seen disk.old) }
    requires end { IsTrue D.tells → end_of (read_log (D.seen disk.old)) ≡ Some gate }
    requires only { IsTrue D.tells → Only (D.seen disk.old) (D.left disk.old (D.time disk.old)) }
    ensures same { IsTrue D.tells → read_log (D.seen disk.new) ≡ read_log (D.seen disk.old) }
    ensures ready { IsTrue D.tells → OnOk result (IsReady (D.seen disk.new) (D.left disk.new (D.time disk.new)) gate) }
    ensures crash { IsTrue D.tells → Steps (D.time disk.old) (D.time disk.new) (D.left disk.old) (D.left disk.new)
        (λ image. read_log image ≡ read_log (D.seen disk.old)) }
    ensures cause { HasCause (D.faults disk.old) (D.faults disk.new) (result ≡ Err DiskRefusal.Failed) }
{
    trim(disk, gate, len)?;
    disk.write_at(gate, &[0])?;
    disk.sync()?;
    Ok(())
}
