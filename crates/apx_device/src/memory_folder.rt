// Folders in memory: one that tells its files, one whose reads fail by number, and one that tells nothing.
ghost use Rattle.std.specs.Prelude.{◌≡◌, ◌≢◌, ◌≤◌, ◌++◌, ◌∷◌, [], ℕ, List, true, false, Some, None, length, ⊤, IsTrue, IfOk, OnOk, OnErr};
ghost use Rattle.apx_cause.specs.Cause.{HasCause};
ghost use Rattle.apx_device.specs.Folder.{Answer, Says, given, answer_of};

use crate::failing::FailingCalls;
use crate::{Folder, ReadRefusal};
use std::alloc::{AllocError, Global};
use std::collections::BTreeMap;

/// Files by name. No read of it fails.
///
/// ```
/// let mut folder = MemoryFolder::new(alloc);
/// folder.add(alloc, "in.txt", b"to be".to_vec(alloc)?)?;
/// let bytes = folder.read(alloc, "in.txt", 1024)?;
/// ```
#[derive(Drop)]
pub struct MemoryFolder {
    /// The bytes of each file, by its name.
    files: BTreeMap<String, Vec<u8>>,
}

impl MemoryFolder {
    ghost use Rattle.apx_device.specs.MemoryFolder.{file_of};

    /// A folder without files.
    pub fn new(alloc: Global) -> Self
        ensures { (name : List ℕ) → file_of result name ≡ None }
    {
        MemoryFolder {
            files: BTreeMap::new(alloc),
        }
    }

    /// Puts a file under a name, in the place of one that is there.
    pub fn add(&mut self, alloc: Global, name: &str, bytes: Vec<u8>) -> Result<(), AllocError>
        ensures added { OnOk result (file_of self.new name.now ≡ Some bytes.items) }
        ensures others { (other : List ℕ) → other ≢ name.now → file_of self.new other ≡ file_of self.old other }
        ensures err { OnErr result (file_of self.new name.now ≡ file_of self.old name.now) }
    {
        self.files.insert(String::from_str(alloc, name)?, bytes)?;
        Ok(())
    }
}

impl Folder for MemoryFolder {
    ghost use Rattle.apx_device.specs.MemoryFolder.{file_of};

    ghost tells = { true };

    ghost told = { file_of };

    ghost heard = { λ _ _. ⊤ };

    ghost faults = { λ _. 0 };

    fn faults(&self) -> u64 {
        0
    }

    fn read(&mut self, alloc: Global, name: &str, limit: usize) -> Result<Vec<u8>, ReadRefusal> {
        let Some(file) = self.files.get(name) else {
            return Err(ReadRefusal::Absent);
        };
        if file.len() > limit {
            return Err(ReadRefusal::TooLong);
        }
        file.to_vec(alloc).map_err(|_| ReadRefusal::Memory)
    }
}

/// A folder in memory of which some reads fail.
///
/// ```
/// // The second read is to fail.
/// let mut folder = FailingFolder::new(files, vec![in alloc; 2]?);
/// ```
#[derive(Drop)]
pub struct FailingFolder {
    /// The files.
    folder: MemoryFolder,
    /// The reads so far, and which are to fail.
    calls: FailingCalls,
}

impl FailingFolder {
    ghost use Rattle.apx_device.specs.Failing.{BeginsWith};
    ghost use Rattle.apx_device.specs.MemoryFolder.{file_of, failing_file_of};

    /// The folder, of which the reads with these numbers, counted from 1, are to fail.
    pub fn new(folder: MemoryFolder, calls: Vec<u64>) -> Self
        ensures files { failing_file_of result ≡ file_of folder }
        ensures calls { BeginsWith result.calls calls.items }
    {
        FailingFolder {
            folder,
            calls: FailingCalls::new(calls),
        }
    }
}

impl Folder for FailingFolder {
    ghost use Rattle.apx_device.specs.Failing.{CalledOnce, NextFails};
    ghost use Rattle.apx_device.specs.MemoryFolder.{failing_file_of};

    ghost tells = { true };

    ghost told = { failing_file_of };

    ghost heard = { λ _ _. ⊤ };

    ghost faults = { λ folder. folder.calls.faults };

    fn faults(&self) -> u64 {
        self.calls.faults
    }

    fn read(&mut self, alloc: Global, name: &str, limit: usize) -> Result<Vec<u8>, ReadRefusal>
        ensures answer { Says (failing_file_of self.old name.now) limit (given result) }
        ensures within { IfOk result (λ bytes. length bytes.items ≤ limit) }
        ensures files { failing_file_of self.new ≡ failing_file_of self.old }
        ensures cause { HasCause self.old.calls.faults self.new.calls.faults (result ≡ Err ReadRefusal.Failed) }

        // It fails exactly at the calls that are to fail.
        ensures called { CalledOnce self.old.calls self.new.calls (result ≡ Err ReadRefusal.Failed) }
        ensures only { result ≡ Err ReadRefusal.Failed → NextFails self.old.calls }
    {
        if self.calls.next_fails() {
            return Err(ReadRefusal::Failed);
        }
        self.folder.read(alloc, name, limit)
    }
}

/// A folder in memory that tells nothing: it answers its reads by a list of its own, whatever name is asked for.
///
/// So a file that is read twice may come in two forms. Once the list is at its end, each read is told that
/// there is no such file.
///
/// ```
/// let mut folder = ListedFolder::new(vec![in alloc; first, second]?);
/// let bytes = folder.read(alloc, "any.txt", 1024)?;
/// ```
#[derive(Drop)]
pub struct ListedFolder {
    /// What is given at each read in turn.
    contents: Vec<Vec<u8>>,
    /// How many reads there were, up to the last value of the type.
    reads: usize,
}

impl ListedFolder {
    /// The folder that gives these contents in turn.
    pub fn new(contents: Vec<Vec<u8>>) -> Self
        ensures { result ≡ record { contents = contents; reads = 0 } }
    {
        ListedFolder { contents, reads: 0 }
    }
}

impl Folder for ListedFolder {
    ghost tells = { false };

    ghost told = { λ _ _. None };

    ghost heard = { λ _ _. ⊤ };

    ghost faults = { λ _. 0 };

    fn faults(&self) -> u64 {
        0
    }

    fn read(&mut self, alloc: Global, _name: &str, limit: usize) -> Result<Vec<u8>, ReadRefusal> {
        let read = self.reads;
        self.reads = self.reads.saturating_add(1);
        let Some(bytes) = self.contents.get(read) else {
            return Err(ReadRefusal::Absent);
        };
        if bytes.len() > limit {
            return Err(ReadRefusal::TooLong);
        }
        bytes.to_vec(alloc).map_err(|_| ReadRefusal::Memory)
    }
}
