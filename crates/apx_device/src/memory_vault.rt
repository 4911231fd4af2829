// Vaults in memory: one that tells its entries, one whose calls fail by number, and one that tells nothing.
ghost use Rattle.std.specs.Prelude.{◌≡◌, ◌<◌, [], true, false, length, ⊤, IsTrue, IfOk};
ghost use Rattle.std.proofs.Common.{rules};
ghost use Rattle.std.proofs.Props.{props};
ghost use Rattle.std.specs.BTreeMap.{keys};
ghost use Rattle.std.specs.List.Sorted.{IsStrictlySortedBy};
ghost use Rattle.apx_cause.specs.Cause.{HasCause};
ghost use Rattle.apx_cause.specs.Steps.{Steps, OneOf};
ghost use Rattle.apx_device.specs.Vault.{save_order, bytes_at, with_entry, entries_from, PutBy, DroppedBy, StaysSound};
ghost use Rattle.apx_device.specs.MemoryVault.{entries_in, in_order};

use crate::failing::FailingCalls;
use crate::{SaveId, Vault, VaultRefusal};
use std::alloc::Global;
use std::collections::BTreeMap;

/// Bytes by id. No call of it fails.
///
/// ```
/// let mut vault = MemoryVault::new(alloc);
/// vault.put(id, &bytes)?;
/// let again = vault.get(alloc, id)?;
/// ```
#[derive(Drop)]
pub struct MemoryVault {
    /// Where the entries lie.
    alloc: Global,
    /// The bytes under each id.
    entries: BTreeMap<SaveId, Vec<u8>>,
    /// The ids ascend.
    ghost ordered: { IsStrictlySortedBy save_order (keys entries) } by { Prim.hlevel props },
}

impl MemoryVault {
    ghost use Rattle.apx_device.specs.VaultsInMemory.{entries_of};

    /// A vault without entries.
    pub fn new(alloc: Global) -> Self
        ensures { entries_of result ≡ [] }
    {
        MemoryVault {
            alloc,
            entries: BTreeMap::new(alloc),
        }
    }
}

impl Vault for MemoryVault {
    ghost use Rattle.apx_device.specs.VaultsInMemory.{entries_of};

    ghost tells = { true };

    ghost held = { entries_of };

    ghost sound = { λ _. true };

    ghost faults = { λ _. 0 };

    ghost time = { λ _. 0 };

    ghost left = { λ _ _ _. ⊥ };

    ghost ordered = { λ vault tells. in_order vault.entries.entries vault.ordered };

    ghost settled = { λ vault entries tells sound left. absurd left };

    ghost counts = { λ vault t entries tells le left. left };

    fn faults(&self) -> u64 {
        0
    }

    fn sound(&self) -> bool {
        true
    }

    fn put(&mut self, id: SaveId, bytes: &[u8]) -> Result<(), VaultRefusal> {
        let Ok(copied) = bytes.to_vec(self.alloc) else {
            return Err(VaultRefusal::Memory);
        };
        match self.entries.insert(id, copied) {
            Ok(_) => Ok(()),
            Err(_) => Err(VaultRefusal::Memory),
        }
    }

    fn get(&mut self, alloc: Global, id: SaveId) -> Result<Vec<u8>, VaultRefusal> {
        match self.entries.get(&id) {
            Some(bytes) => bytes.to_vec(alloc).map_err(|_| VaultRefusal::Memory),
            None => Ok(Vec::new(alloc)),
        }
    }

    fn drop_below(&mut self, window: u32) -> Result<(), VaultRefusal> {
        self.entries.retain(|id, _| id.window >= window);
        Ok(())
    }
}

/// A vault in memory of which some calls fail. A call that fails leaves the entries as they were.
///
/// ```
/// // The second call is to fail.
/// let mut vault = FailingVault::new(MemoryVault::new(alloc), vec![in alloc; 2]?);
/// ```
#[derive(Drop)]
pub struct FailingVault {
    /// The entries.
    vault: MemoryVault,
    /// The calls so far, and which are to fail.
    calls: FailingCalls,
}

impl FailingVault {
    ghost use Rattle.apx_device.specs.Failing.{BeginsWith};
    ghost use Rattle.apx_device.specs.VaultsInMemory.{entries_of, failing_entries_of};

    /// The vault, of which the puts, gets and drops with these numbers, counted together from 1, are to fail.
    pub fn new(vault: MemoryVault, calls: Vec<u64>) -> Self
        ensures entries { failing_entries_of result ≡ entries_of vault }
        ensures calls { BeginsWith result.calls calls.items }
    {
        FailingVault {
            vault,
            calls: FailingCalls::new(calls),
        }
    }
}

impl Vault for FailingVault {
    ghost use Rattle.apx_device.specs.Failing.{CalledOnce, NextFails};
    ghost use Rattle.apx_device.specs.VaultsInMemory.{failing_entries_of};

    ghost tells = { true };

    ghost held = { failing_entries_of };

    ghost sound = { λ _. true };

    ghost faults = { λ vault. vault.calls.faults };

    ghost time = { λ _. 0 };

    ghost left = { λ _ _ _. ⊥ };

    ghost ordered = { λ vault tells. in_order vault.vault.entries.entries vault.vault.ordered };

    ghost settled = { λ vault entries tells sound left. absurd left };

    ghost counts = { λ vault t entries tells le left. left };

    fn faults(&self) -> u64 {
        self.calls.faults
    }

    fn sound(&self) -> bool {
        true
    }

    fn put(&mut self, id: SaveId, bytes: &[u8]) -> Result<(), VaultRefusal>
        requires sound { IsTrue true }
        requires small { length bytes.now < 4294967280 }
        ensures held { PutBy result id bytes.now (failing_entries_of self.old) (failing_entries_of self.new) }
        ensures sound { StaysSound result true }
        ensures crash { Steps 0 0 (λ _ _. ⊥) (λ _ _. ⊥)
            (OneOf (failing_entries_of self.old) (with_entry (failing_entries_of self.old) id bytes.now)) }
        ensures cause { HasCause self.old.calls.faults self.new.calls.faults (result ≡ Err VaultRefusal.Failed) }

        // It fails exactly at the calls that are to fail.
        ensures called { CalledOnce self.old.calls self.new.calls (result ≡ Err VaultRefusal.Failed) }
        ensures only { result ≡ Err VaultRefusal.Failed → NextFails self.old.calls }
        ensures unharmed { result ≡ Err VaultRefusal.Failed → failing_entries_of self.new ≡ failing_entries_of self.old }
    {
        if self.calls.next_fails() {
            return Err(VaultRefusal::Failed);
        }
        self.vault.put(id, bytes)
    }

    fn get(&mut self, alloc: Global, id: SaveId) -> Result<Vec<u8>, VaultRefusal>
        requires { IsTrue true }
        ensures bytes { IfOk result (λ bytes. bytes.items ≡ bytes_at (failing_entries_of self.old) id) }
        ensures held { failing_entries_of self.new ≡ failing_entries_of self.old }
        ensures sound { StaysSound result true }
        ensures crash { Steps 0 0 (λ _ _. ⊥) (λ _ _. ⊥) (λ entries. entries ≡ failing_entries_of self.old) }
        ensures cause { HasCause self.old.calls.faults self.new.calls.faults (result ≡ Err VaultRefusal.Failed) }

        // It fails exactly at the calls that are to fail.
        ensures called { CalledOnce self.old.calls self.new.calls (result ≡ Err VaultRefusal.Failed) }
        ensures only { result ≡ Err VaultRefusal.Failed → NextFails self.old.calls }
    {
        if self.calls.next_fails() {
            return Err(VaultRefusal::Failed);
        }
        self.vault.get(alloc, id)
    }

    fn drop_below(&mut self, window: u32) -> Result<(), VaultRefusal>
        requires { IsTrue true }
        ensures held { DroppedBy result window (failing_entries_of self.old) (failing_entries_of self.new) }
        ensures sound { StaysSound result true }
        ensures crash { Steps 0 0 (λ _ _. ⊥) (λ _ _. ⊥)
            (OneOf (failing_entries_of self.old) (entries_from (failing_entries_of self.old) window)) }
        ensures cause { HasCause self.old.calls.faults self.new.calls.faults (result ≡ Err VaultRefusal.Failed) }

        // It fails exactly at the calls that are to fail.
        ensures called { CalledOnce self.old.calls self.new.calls (result ≡ Err VaultRefusal.Failed) }
        ensures only { result ≡ Err VaultRefusal.Failed → NextFails self.old.calls }
        ensures unharmed { result ≡ Err VaultRefusal.Failed → failing_entries_of self.new ≡ failing_entries_of self.old }
    {
        if self.calls.next_fails() {
            return Err(VaultRefusal::Failed);
        }
        self.vault.drop_below(window)
    }
}

/// A vault in memory that tells nothing: under each id it gives the same bytes, and it keeps nothing.
///
/// ```
/// let mut vault = GivenVault::new(bytes);
/// ```
#[derive(Drop)]
pub struct GivenVault {
    /// What each get gives.
    bytes: Vec<u8>,
}

impl GivenVault {
    /// The vault that gives these bytes.
    pub fn new(bytes: Vec<u8>) -> Self
        ensures { result ≡ record { bytes = bytes } }
    {
        GivenVault { bytes }
    }
}

impl Vault for GivenVault {
    ghost tells = { false };

    ghost held = { λ _. [] };

    ghost sound = { λ _. true };

    ghost faults = { λ _. 0 };

    ghost time = { λ _. 0 };

    ghost left = { λ _ _ _. ⊤ };

    ghost ordered = { λ vault tells. Prim.search rules };

    ghost settled = { λ vault entries tells sound left. Prim.search rules };

    ghost counts = { λ vault t entries tells le left. left };

    fn faults(&self) -> u64 {
        0
    }

    fn sound(&self) -> bool {
        true
    }

    fn put(&mut self, _id: SaveId, _bytes: &[u8]) -> Result<(), VaultRefusal> {
        Ok(())
    }

    fn get(&mut self, alloc: Global, _id: SaveId) -> Result<Vec<u8>, VaultRefusal> {
        self.bytes.to_vec(alloc).map_err(|_| VaultRefusal::Memory)
    }

    fn drop_below(&mut self, _window: u32) -> Result<(), VaultRefusal> {
        Ok(())
    }
}
