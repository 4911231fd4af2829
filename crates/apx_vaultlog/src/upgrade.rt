// The upgrade of a log whose entries are in the older spelling of a checkpoint.
ghost use Rattle.std.specs.Prelude.{◌≡◌, ◌⊎◌, ◌<◌, ℕ, List, Ok, Err, is_some, length, map, IsTrue, IfOk, IfSome, OnErr};
ghost use Rattle.std.specs.Option.{option_map};
ghost use Rattle.std.specs.Map.{keys_of};
ghost use Rattle.apx_cause.specs.Cause.{HasCause};
ghost use Rattle.apx_cause.specs.Steps.{Steps};
ghost use Rattle.apx_device.specs.Vault.{bytes_at, StaysSound};
ghost use Rattle.apx_device.specs.MemoryVault.{entries_in};
ghost use Rattle.apx_vaultlog.specs.Changes.{vault_of};
ghost use Rattle.apx_vaultlog.specs.Upgrading.{upgraded, upgraded_entry, has_mark, in_spelling_1, with_upgraded, IsPartUpgraded, SpellsPartUpgraded};

use crate::VaultLog;
use apx_device::{SaveId, VaultRefusal};
use apx_disk::Disk;
use apx_statebytes::{StateFault, decode, encode};
use std::alloc::{AllocError, Global};
use std::collections::BTreeMap;

impl<D: Disk + Drop> VaultLog<D> {
    /// Puts spelling 2 of a progress for each entry in spelling 1, in ascending order of ids, and tells how many.
    ///
    /// An entry in neither spelling stays and isn't counted. After a refusal those that were put so far keep spelling 2.
    pub fn upgrade(&mut self) -> Result<u64, VaultRefusal>
        requires { IsTrue self.old.records.sound }
        ensures held { IfOk result (λ count.
            entries_in self.new.entries.entries ≡ map upgraded_entry (entries_in self.old.entries.entries)) }
        ensures count { IfOk result (λ count. count ≡ in_spelling_1 (entries_in self.old.entries.entries)) }
        ensures held_err { OnErr result (IsPartUpgraded (entries_in self.old.entries.entries) (entries_in self.new.entries.entries)) }
        ensures sound { StaysSound result self.new.records.sound }

        // A crash within the call leaves a file that opens to the entries, of which some first ones are upgraded.
        ensures crash { IsTrue D.tells → Steps (D.time self.old.records.disk) (D.time self.new.records.disk)
            (D.left self.old.records.disk) (D.left self.new.records.disk)
            (SpellsPartUpgraded (entries_in self.old.entries.entries)) }
        ensures cause { HasCause (D.faults self.old.records.disk) (D.faults self.new.records.disk)
            (result ≡ Err VaultRefusal.Failed) }
    {
        let Ok(ids) = ids_of(self.alloc, &self.entries) else {
            return Err(VaultRefusal::Memory);
        };
        let mut count = 0;
        for id in &ids {
            let done = match self.upgrade_entry(*id) {
                Ok(done) => done,
                Err(refusal) => return Err(refusal),
            };
            count += u64::from(done);
        }
        Ok(count)
    }

    // Puts spelling 2 for the entry under an id, and tells whether it was in spelling 1.
    fn upgrade_entry(&mut self, id: SaveId) -> Result<bool, VaultRefusal>
        requires { IsTrue self.old.records.sound }
        ensures held { IfOk result (λ _. entries_in self.new.entries.entries
            ≡ with_upgraded (entries_in self.old.entries.entries) id) }
        ensures done { IfOk result (λ done. done ≡ is_some (upgraded (bytes_at (entries_in self.old.entries.entries) id))) }
        ensures err { OnErr result (entries_in self.new.entries.entries ≡ entries_in self.old.entries.entries) }
        ensures sound { StaysSound result self.new.records.sound }
        ensures crash { IsTrue D.tells → Steps (D.time self.old.records.disk) (D.time self.new.records.disk)
            (D.left self.old.records.disk) (D.left self.new.records.disk)
            (λ image. (vault_of image ≡ Ok (entries_in self.old.entries.entries))
            ⊎ (vault_of image ≡ Ok (with_upgraded (entries_in self.old.entries.entries) id))) }
        ensures cause { HasCause (D.faults self.old.records.disk) (D.faults self.new.records.disk)
            (result ≡ Err VaultRefusal.Failed) }
    {
        let Ok(found) = second_under(self.alloc, &self.entries, id) else {
            return Err(VaultRefusal::Memory);
        };
        let Some(bytes) = found else {
            return Ok(false);
        };
        self.keep(id, &bytes)?;
        Ok(true)
    }
}

// The ids of entries, in ascending order.
fn ids_of(alloc: Global, entries: &BTreeMap<SaveId, Vec<u8>>) -> Result<Vec<SaveId>, AllocError>
    ensures { IfOk result (λ ids. ids.items ≡ keys_of entries.now.entries) }
{
    let mut ids = Vec::new(alloc);
    for id in entries.keys() {
        ids.push(*id)?;
    }
    Ok(ids)
}

// Spelling 2 for the entry under an id, if it is in spelling 1.
fn second_under(
    alloc: Global,
    entries: &BTreeMap<SaveId, Vec<u8>>,
    id: SaveId,
) -> Result<Option<Vec<u8>>, AllocError>
    ensures found { IfOk result (λ found. option_map (λ bytes. bytes.items) found
        ≡ upgraded (bytes_at (entries_in entries.now.entries) id)) }
    ensures small { IfOk result (λ found. IfSome found (λ bytes. length bytes.items < 4294967280)) }
{
    match entries.get(&id) {
        Some(bytes) => second_of_first(alloc, bytes),
        None => second_of_first(alloc, &[]),
    }
}

// Spelling 2 of the progress whose spelling 1 the bytes are, if they are one.
#[tactic(auto, unfolding(crate::specs::Upgrading::upgraded))]
fn second_of_first(alloc: Global, bytes: &[u8]) -> Result<Option<Vec<u8>>, AllocError>
    ensures found { IfOk result (λ found. option_map (λ bytes. bytes.items) found ≡ upgraded bytes.now) }
    ensures small { IfOk result (λ found. IfSome found (λ bytes. length bytes.items < 4294967280)) }
{
    if is_marked(bytes) {
        return Ok(None);
    }
    match decode(alloc, bytes) {
        Ok(progress) => {
            let second = encode(alloc, &progress)?;
            Ok(Some(second))
        }
        Err(StateFault::Bad { at: _ }) => Ok(None),
        Err(StateFault::Memory) => Err(AllocError),
    }
}

// Whether bytes begin with the mark of spelling 2.
fn is_marked(bytes: &[u8]) -> bool
    ensures { result ≡ has_mark bytes.now }
{
    match bytes {
        [first, ..] => *first == 255,
        [] => false,
    }
}
