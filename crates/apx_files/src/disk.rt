// A disk that is a file of the system.
ghost use Rattle.std.specs.Prelude.{◌≡◌, ◌<◌, ◌+◌, ◌^◌, [], false, ⊤, Err, length, IsErr, IfOk, OnOk};
ghost use Rattle.std.proofs.Common.{rules};
ghost use Rattle.apx_cause.specs.Cause.{HasCause};

use crate::places::{read_from, write_from};
use apx_disk::{Disk, DiskRefusal};
use std::alloc::Global;
use std::fs::{OpenFile, OpenOptions};
use std::io;
use std::io::ErrorKind;
use std::rt::Files;

/// The most bytes of a file: its places stay below 2^63.
const MAX_LEN: u64 = 9_223_372_036_854_775_807;

/// A file of the system. It is opened at the first call, and made where there is none. It tells no content.
///
/// ```
/// let mut disk = FileDisk::new(&rt, String::from_str(alloc, "sink.log")?);
/// disk.write_at(0, b"abc")?;
/// disk.sync()?;
/// ```
#[derive(Drop)]
pub struct FileDisk<'a, R: Files> {
    /// The files of the system.
    system: &'a R,
    /// The file's name.
    path: String,
    /// The file, once it is open.
    file: Option<R::File>,
    /// How many calls have failed, up to the last value of the type.
    faults: u64,
}

impl<'a, R: Files> FileDisk<'a, R> {
    /// The file under a name. Nothing is opened yet.
    pub fn new(system: &'a R, path: String) -> Self
        ensures faults { result.faults ≡ 0 }
        ensures path { result.path ≡ path }
    {
        FileDisk {
            system,
            path,
            file: None,
            faults: 0,
        }
    }

    // The file, which is then no longer held.
    fn take_file(&mut self) -> io::Result<R::File>
        ensures { self.new.faults ≡ self.old.faults }
    {
        match self.file.take() {
            Some(file) => Ok(file),
            None => OpenOptions::new()
                .read(true)
                .write(true)
                .create(true)
                .open(self.system, &self.path),
        }
    }

    // What a call answers: each failure is a fault, and is counted.
    fn counted<T>(&mut self, answer: io::Result<T>) -> Result<T, DiskRefusal>
        ensures failed { IsErr answer → IsErr result }
        ensures cause { HasCause self.old.faults self.new.faults (IsErr result) }
        ensures no_memory { result ≡ Err DiskRefusal.Memory → ⊥ }
    {
        match answer {
            Ok(value) => Ok(value),
            Err(_) => {
                self.faults = self.faults.saturating_add(1);
                Err(DiskRefusal::Failed)
            }
        }
    }
}

impl<'a, R: Files> Disk for FileDisk<'a, R> {
    ghost tells = { false };

    ghost seen = { λ _. [] };

    ghost time = { λ _. 0 };

    ghost left = { λ _ _ _. ⊤ };

    ghost faults = { λ disk. disk.faults };

    ghost shows = { λ disk tells. Prim.search rules };

    ghost counts = { λ disk t image tells le left. left };

    fn faults(&self) -> u64 {
        self.faults
    }

    fn len(&mut self) -> Result<u64, DiskRefusal> {
        let answer = match self.take_file() {
            Ok(file) => {
                let metadata = file.metadata();
                self.file = Some(file);
                metadata.map(|metadata| metadata.len())
            }
            Err(error) => Err(error),
        };
        self.counted(answer)
    }

    fn read(&mut self, alloc: Global, at: u64, count: usize) -> Result<Vec<u8>, DiskRefusal> {
        let Ok(mut bytes) = vec![in alloc; 0u8; count] else {
            return Err(DiskRefusal::Memory);
        };
        let answer = match self.take_file() {
            Ok(mut file) => {
                let filled = read_from(&mut file, at, &mut bytes);
                self.file = Some(file);
                filled
            }
            Err(error) => Err(error),
        };
        self.counted(answer)?;
        Ok(bytes)
    }

    fn write_at(&mut self, at: u64, bytes: &[u8]) -> Result<(), DiskRefusal> {
        if at > MAX_LEN || bytes.len() as u64 > MAX_LEN - at {
            return self.counted(Err(ErrorKind::FileTooLarge.into()));
        }
        let answer = match self.take_file() {
            Ok(mut file) => {
                let written = write_from(&mut file, at, bytes);
                self.file = Some(file);
                written
            }
            Err(error) => Err(error),
        };
        self.counted(answer)
    }

    fn cut(&mut self, len: u64) -> Result<(), DiskRefusal> {
        let answer = match self.take_file() {
            Ok(file) => {
                let cut = file.set_len(len);
                self.file = Some(file);
                cut
            }
            Err(error) => Err(error),
        };
        self.counted(answer)
    }

    fn sync(&mut self) -> Result<(), DiskRefusal> {
        let answer = match self.take_file() {
            Ok(file) => {
                let synced = file.sync_all();
                self.file = Some(file);
                synced
            }
            Err(error) => Err(error),
        };
        self.counted(answer)
    }
}
