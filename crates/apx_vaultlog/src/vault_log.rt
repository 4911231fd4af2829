// The checkpoint store as a list of records on a disk, with the entries in memory too.
ghost use Rattle.std.specs.Prelude.{◌≡◌, ◌⊎◌, ◌<◌, ◌≤◌, ◌^◌, [], ℕ, List, Some, None, Ok, Err, is_some, length, map, IsSome, IsTrue, IfOk, IfErr, OnErr};
ghost use Rattle.std.proofs.Props.{props};
ghost use Rattle.std.specs.BTreeMap.{keys, get};
ghost use Rattle.std.specs.List.Sorted.{IsStrictlySortedBy};
ghost use Rattle.apx_cause.specs.Cause.{HasCause};
ghost use Rattle.apx_cause.specs.Steps.{Steps};
ghost use Rattle.apx_device.specs.Vault.{Entry, save_order, entry_at, bytes_at, with_entry, entries_from, PutBy, DroppedBy, StaysSound};
ghost use Rattle.apx_device.specs.MemoryVault.{entries_in, in_order};
ghost use Rattle.apx_disk.specs.Entries.{entry_of};
ghost use Rattle.apx_disk.specs.Opening.{ReadsOne};
ghost use Rattle.apx_vaultlog.specs.Changes.{changed, entries_after, vault_of};

use crate::body::{body_of_drop, body_of_put, change, drop_below, overwrite};
use apx_device::{SaveId, Vault, VaultRefusal};
use apx_disk::{Disk, DiskRefusal, LogRefusal, Record, Records};
use std::alloc::Global;
use std::collections::BTreeMap;

/// The checkpoint store on a disk: each put and each drop is a record of the disk's file, and the entries that they
/// make are in memory too.
///
/// ```
/// let mut log = VaultLog::open(alloc, MemoryDisk::new(alloc, Vec::new(alloc)))?;
/// log.put(SaveId { op: 2, boundary: 0, part: 1, window: 4 }, &bytes)?;
/// log.drop_below(4)?;
/// ```
#[derive(Drop)]
pub struct VaultLog<D: Disk + Drop> {
    /// The records, one for each change.
    pub(crate) records: Records<D>,
    /// Where the entries lie.
    pub(crate) alloc: Global,
    /// The bytes under each id.
    pub(crate) entries: BTreeMap<SaveId, Vec<u8>>,
    /// The ids ascend.
    ghost ordered: { IsStrictlySortedBy save_order (keys entries) } by { Prim.hlevel props },
    /// As long as it is sound, the file spells the entries.
    ghost spelled: { IsTrue records.sound → IsTrue D.tells → vault_of (D.seen records.disk) ≡ Ok (entries_in entries.entries) },
}

impl<D: Disk + Drop> VaultLog<D> {
    /// Opens the log that the file spells. An empty file is a new log.
    ///
    /// A crash within the call leaves a file that spells what one of the images spells that a crash at its start may
    /// leave. A body of another form is damage at its gate, found once the records have been opened.
    pub fn open(alloc: Global, disk: D) -> Result<VaultLog<D>, (D, LogRefusal)>
        ensures entries { IsTrue D.tells → IfOk result (λ log. vault_of (D.seen disk) ≡ Ok (entries_in log.entries.entries)) }
        ensures same { IsTrue D.tells → IfOk result (λ log. vault_of (D.seen log.records.disk) ≡ vault_of (D.seen disk)) }
        ensures sound { IfOk result (λ log. IsTrue log.records.sound) }
        ensures damaged { IsTrue D.tells → IfErr result (λ stop. (at : ℕ) → stop.1 ≡ LogRefusal.Damaged at →
            vault_of (D.seen disk) ≡ Err at) }
        ensures crash { IsTrue D.tells → IfOk result (λ log. Steps (D.time disk) (D.time log.records.disk) (D.left disk)
            (D.left log.records.disk) (ReadsOne vault_of (D.left disk (D.time disk)))) }
        ensures crash_err { IsTrue D.tells → IfErr result (λ stop. Steps (D.time disk) (D.time stop.0) (D.left disk)
            (D.left stop.0) (ReadsOne vault_of (D.left disk (D.time disk)))) }
        ensures faults { IfOk result (λ log. D.faults disk ≤ D.faults log.records.disk) }
        ensures cause { IfErr result (λ stop. HasCause (D.faults disk) (D.faults stop.0) (stop.1 ≡ LogRefusal.Disk)) }
    {
        let (records, read) = match Records::open(alloc, disk) {
            Ok(opened) => opened,
            Err(stop) => return Err(stop),
        };
        match entries_of(alloc, &read) {
            Ok(entries) => Ok(VaultLog {
                records,
                alloc,
                entries,
            }),
            Err(refusal) => Err((records.close(), refusal)),
        }
    }

    /// Gives the disk back.
    pub fn close(self) -> D
        ensures { result ≡ self.records.disk }
    {
        let VaultLog {
            records,
            alloc: _,
            entries: _,
        } = self;
        records.close()
    }

    /// Whether something is kept under an id.
    pub fn holds(&self, id: SaveId) -> bool
        ensures { result ≡ is_some (entry_at (entries_in self.now.entries.entries) id) }
    {
        self.entries.contains_key(&id)
    }

    /// Keeps the bytes under the id: the work of `Vault::put`, with what a crash within it leaves in the file. A refusal
    /// leaves the entries in memory as they were.
    pub fn keep(&mut self, id: SaveId, bytes: &[u8]) -> Result<(), VaultRefusal>
        requires sound { IsTrue self.old.records.sound }
        requires small { length bytes.now < 4294967280 }
        ensures held { PutBy result id bytes.now (entries_in self.old.entries.entries) (entries_in self.new.entries.entries) }
        ensures err { OnErr result (entries_in self.new.entries.entries ≡ entries_in self.old.entries.entries) }
        ensures sound { StaysSound result self.new.records.sound }

        // A crash within the call leaves a file that opens to the entries from before it, or to these with the new one.
        ensures crash { IsTrue D.tells → Steps (D.time self.old.records.disk) (D.time self.new.records.disk)
            (D.left self.old.records.disk) (D.left self.new.records.disk)
            (λ image. (vault_of image ≡ Ok (entries_in self.old.entries.entries))
            ⊎ (vault_of image ≡ Ok (with_entry (entries_in self.old.entries.entries) id bytes.now))) }
        ensures cause { HasCause (D.faults self.old.records.disk) (D.faults self.new.records.disk)
            (result ≡ Err VaultRefusal.Failed) }
    {
        let Ok(body) = body_of_put(self.alloc, id, bytes) else {
            return Err(VaultRefusal::Memory);
        };
        let Ok(copied) = bytes.to_vec(self.alloc) else {
            return Err(VaultRefusal::Memory);
        };
        if self.entries.contains_key(&id) {
            self.replace(id, copied, &body)
        } else {
            self.join(id, copied, &body)
        }
    }

    // Adds the record of a put, and keeps its bytes in the place of others, which takes no memory.
    fn replace(&mut self, id: SaveId, bytes: Vec<u8>, body: &[u8]) -> Result<(), VaultRefusal>
        requires sound { IsTrue self.old.records.sound }
        requires fits { length body.now < 2 ^ 32 }
        requires change { (entries : List Entry) → changed body.now entries ≡ Some (with_entry entries id bytes.items) }
        requires there { IsSome (get save_order self.old.entries id) }
        ensures held { PutBy result id bytes.items (entries_in self.old.entries.entries) (entries_in self.new.entries.entries) }
        ensures err { OnErr result (entries_in self.new.entries.entries ≡ entries_in self.old.entries.entries) }
        ensures sound { StaysSound result self.new.records.sound }
        ensures crash { IsTrue D.tells → Steps (D.time self.old.records.disk) (D.time self.new.records.disk)
            (D.left self.old.records.disk) (D.left self.new.records.disk)
            (λ image. (vault_of image ≡ Ok (entries_in self.old.entries.entries))
            ⊎ (vault_of image ≡ Ok (with_entry (entries_in self.old.entries.entries) id bytes.items))) }
        ensures cause { HasCause (D.faults self.old.records.disk) (D.faults self.new.records.disk)
            (result ≡ Err VaultRefusal.Failed) }
    {
        match self.records.add(body) {
            Ok(()) => {
                overwrite(&mut self.entries, id, bytes);
                Ok(())
            }
            Err(DiskRefusal::Memory) => Err(VaultRefusal::Memory),
            Err(DiskRefusal::Failed) => Err(VaultRefusal::Failed),
        }
    }

    // Keeps the bytes under an id that has none, and adds the record of that. Where that is refused they go again.
    fn join(&mut self, id: SaveId, bytes: Vec<u8>, body: &[u8]) -> Result<(), VaultRefusal>
        requires sound { IsTrue self.old.records.sound }
        requires fits { length body.now < 2 ^ 32 }
        requires change { (entries : List Entry) → changed body.now entries ≡ Some (with_entry entries id bytes.items) }
        requires absent { get save_order self.old.entries id ≡ None }
        ensures held { PutBy result id bytes.items (entries_in self.old.entries.entries) (entries_in self.new.entries.entries) }
        ensures err { OnErr result (entries_in self.new.entries.entries ≡ entries_in self.old.entries.entries) }
        ensures sound { StaysSound result self.new.records.sound }
        ensures crash { IsTrue D.tells → Steps (D.time self.old.records.disk) (D.time self.new.records.disk)
            (D.left self.old.records.disk) (D.left self.new.records.disk)
            (λ image. (vault_of image ≡ Ok (entries_in self.old.entries.entries))
            ⊎ (vault_of image ≡ Ok (with_entry (entries_in self.old.entries.entries) id bytes.items))) }
        ensures cause { HasCause (D.faults self.old.records.disk) (D.faults self.new.records.disk)
            (result ≡ Err VaultRefusal.Failed) }
    {
        let Ok(_) = self.entries.insert(id, bytes) else {
            return Err(VaultRefusal::Memory);
        };
        match self.records.add(body) {
            Ok(()) => Ok(()),
            Err(DiskRefusal::Memory) => {
                let _ = self.entries.remove(&id);
                Err(VaultRefusal::Memory)
            }
            Err(DiskRefusal::Failed) => {
                let _ = self.entries.remove(&id);
                Err(VaultRefusal::Failed)
            }
        }
    }

    /// Removes the entries whose window is below: the work of `Vault::drop_below`, with what a crash leaves in the file.
    pub fn forget_below(&mut self, window: u32) -> Result<(), VaultRefusal>
        requires { IsTrue self.old.records.sound }
        ensures held { DroppedBy result window (entries_in self.old.entries.entries) (entries_in self.new.entries.entries) }
        ensures sound { StaysSound result self.new.records.sound }

        // A crash within the call leaves a file that opens to the entries from before it or to those from after it.
        ensures crash { IsTrue D.tells → Steps (D.time self.old.records.disk) (D.time self.new.records.disk)
            (D.left self.old.records.disk) (D.left self.new.records.disk)
            (λ image. (vault_of image ≡ Ok (entries_in self.old.entries.entries))
            ⊎ (vault_of image ≡ Ok (entries_from (entries_in self.old.entries.entries) window))) }
        ensures cause { HasCause (D.faults self.old.records.disk) (D.faults self.new.records.disk)
            (result ≡ Err VaultRefusal.Failed) }
    {
        let Ok(body) = body_of_drop(self.alloc, window) else {
            return Err(VaultRefusal::Memory);
        };
        match self.records.add(&body) {
            Ok(()) => {
                drop_below(&mut self.entries, window);
                Ok(())
            }
            Err(DiskRefusal::Memory) => Err(VaultRefusal::Memory),
            Err(DiskRefusal::Failed) => Err(VaultRefusal::Failed),
        }
    }
}

// The entries that some records make.
fn entries_of(alloc: Global, read: &[Record]) -> Result<BTreeMap<SaveId, Vec<u8>>, LogRefusal>
    ensures entries { IfOk result (λ entries. entries_after (Ok []) (map entry_of read.now) ≡ Ok (entries_in entries.entries)) }
    ensures ordered { IfOk result (λ entries. IsStrictlySortedBy save_order (keys entries)) }
    ensures damaged { (at : ℕ) → result ≡ Err (LogRefusal.Damaged at) → entries_after (Ok []) (map entry_of read.now) ≡ Err at }
    ensures no_disk { result ≡ Err LogRefusal.Disk → ⊥ }
{
    let mut entries = BTreeMap::new(alloc);
    for record in read {
        let Ok(made) = change(alloc, &mut entries, &record.body) else {
            return Err(LogRefusal::Memory);
        };
        if !made {
            return Err(LogRefusal::Damaged { at: record.gate });
        }
    }
    Ok(entries)
}

impl<D: Disk + Drop> Vault for VaultLog<D> {
    ghost use Rattle.apx_disk.specs.Opening.{LeavesOne, settled_content};

    ghost tells = { D.tells };

    ghost held = { λ log. entries_in log.entries.entries };

    ghost sound = { λ log. log.records.sound };

    ghost faults = { λ log. D.faults log.records.disk };

    ghost time = { λ log. D.time log.records.disk };

    ghost left = { λ log t entries. LeavesOne vault_of (D.left log.records.disk t) entries };

    ghost ordered = { λ log tells. in_order log.entries.entries log.ordered };

    ghost settled = { λ log entries tells sound left.
        settled_content vault_of (D.seen log.records.disk) (D.left log.records.disk (D.time log.records.disk))
        (entries_in log.entries.entries) entries (log.records.ready sound tells).only (log.spelled sound tells) left };

    ghost counts = { λ log t entries tells le left.
        (left.0, D.counts log.records.disk t left.0 tells le left.1, left.2) };

    fn faults(&self) -> u64 {
        self.records.faults()
    }

    fn sound(&self) -> bool {
        self.records.is_sound()
    }

    fn put(&mut self, id: SaveId, bytes: &[u8]) -> Result<(), VaultRefusal> {
        self.keep(id, bytes)
    }

    fn get(&mut self, alloc: Global, id: SaveId) -> Result<Vec<u8>, VaultRefusal> {
        match self.entries.get(&id) {
            Some(bytes) => bytes.to_vec(alloc).map_err(|_| VaultRefusal::Memory),
            None => Ok(Vec::new(alloc)),
        }
    }

    fn drop_below(&mut self, window: u32) -> Result<(), VaultRefusal> {
        self.forget_below(window)
    }
}
