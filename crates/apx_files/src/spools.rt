// Spools that lie in files of the system, a file for each.
ghost use Rattle.std.specs.Prelude.{◌≡◌, false, None, IfOk};
ghost use Rattle.apx_cause.specs.Cause.{HasCause};
ghost use Rattle.apx_files.specs.Spools.{piece_of};

use crate::places::{read_from, write_from};
use apx_device::{Spool, SpoolRefusal, Spools, SpoolsRefusal};
use std::alloc::Global;
use std::collections::BTreeMap;
use std::fs::OpenOptions;
use std::io;
use std::io::{ErrorKind, Read, Seek, Write};
use std::rt::Files;

/// How a file of a spool failed. Its spools alone make one.
#[derive(Debug, PartialEq, Eq, Drop)]
pub struct FileFault {
    /// What the system said.
    kind: ErrorKind,
}

impl FileFault {
    /// What the system said.
    pub fn kind(&self) -> ErrorKind
        ensures { result ≡ self.now.kind }
    {
        self.kind
    }
}

/// Where a piece lies in the file of its spool.
#[derive(Clone, Copy, Debug)]
struct Place {
    /// Its first byte.
    at: u64,
    /// How many bytes it has.
    len: usize,
}

/// Pieces by number, one behind the other in a file. It tells no content.
///
/// The room of a piece that was forgotten is taken again once all are forgotten.
#[derive(Drop)]
pub struct FileSpool<F> {
    /// The file.
    file: F,
    /// Where each piece lies that was put and not forgotten.
    places: BTreeMap<u64, Place>,
    /// Where the next piece goes: behind all others.
    end: u64,
}

// The refusal of a spool whose file failed.
fn fault(error: io::Error) -> SpoolRefusal<FileFault> {
    SpoolRefusal::Fault(FileFault { kind: error.kind() })
}

impl<F: Read + Write + Seek> Spool for FileSpool<F> {
    type Fault = FileFault;

    ghost tells = { false };

    ghost held = { piece_of };

    fn put(&mut self, number: u64, piece: &[u8]) -> Result<(), SpoolRefusal<FileFault>> {
        let place = Place {
            at: self.end,
            len: piece.len(),
        };
        let Some(end) = self.end.checked_add(piece.len() as u64) else {
            return Err(fault(ErrorKind::FileTooLarge.into()));
        };
        if let Err(error) = write_from(&mut self.file, place.at, piece) {
            return Err(fault(error));
        }
        if self.places.insert(number, place).is_err() {
            return Err(SpoolRefusal::Memory);
        }
        self.end = end;
        Ok(())
    }

    fn fetch(&mut self, alloc: Global, number: u64) -> Result<Vec<u8>, SpoolRefusal<FileFault>> {
        let place = *self.places.get(&number).unwrap();
        let Ok(mut piece) = vec![in alloc; 0u8; place.len] else {
            return Err(SpoolRefusal::Memory);
        };
        match read_from(&mut self.file, place.at, &mut piece) {
            Ok(()) => Ok(piece),
            Err(error) => Err(fault(error)),
        }
    }

    fn forget(&mut self, number: u64) {
        let _ = self.places.remove(&number);
        if self.places.is_empty() {
            self.end = 0;
        }
    }
}

/// Makes spools in files of a folder.
///
/// The name of a spool's file is the number of the spool; the name is gone once the file is open, so that nothing is
/// left behind where the process stops.
///
/// ```
/// let mut spools = FileSpools::new(&rt, alloc, String::from_str(alloc, "store")?);
/// let mut spool = spools.fresh()?;
/// spool.put(1, b"a block")?;
/// ```
#[derive(Drop)]
pub struct FileSpools<'a, R> {
    /// The files of the system.
    system: &'a R,
    /// The memory that the names and the places of pieces lie in.
    alloc: Global,
    /// The folder's name.
    folder: String,
    /// How many spools were asked for.
    made: u64,
    /// How many of them couldn't be made, up to the last value of the type.
    faults: u64,
}

impl<'a, R: Files> FileSpools<'a, R> {
    /// A maker of spools in the folder of this name. Nothing is opened yet.
    pub fn new(system: &'a R, alloc: Global, folder: String) -> Self
        ensures folder { result.folder ≡ folder }
        ensures faults { result.faults ≡ 0 }
    {
        FileSpools {
            system,
            alloc,
            folder,
            made: 0,
            faults: 0,
        }
    }
}

// An empty file without a name, which had this name while it was opened.
fn nameless<R: Files>(system: &R, name: &str) -> io::Result<R::File> {
    let file = OpenOptions::new()
        .read(true)
        .write(true)
        .create(true)
        .truncate(true)
        .open(system, name)?;
    system.remove_file(name)?;
    Ok(file)
}

impl<'a, R: Files> Spools for FileSpools<'a, R>
where
    R::File: Send,
{
    type S = FileSpool<R::File>;

    ghost faults = { λ maker. maker.faults };

    fn faults(&self) -> u64 {
        self.faults
    }

    fn fresh(&mut self) -> Result<FileSpool<R::File>, SpoolsRefusal> {
        self.made = self.made.wrapping_add(1);
        let Ok(name) = format!(in self.alloc; "{}/{}.spool", self.folder, self.made) else {
            return Err(SpoolsRefusal::Memory);
        };
        match nameless(self.system, &name) {
            Ok(file) => Ok(FileSpool {
                file,
                places: BTreeMap::new(self.alloc),
                end: 0,
            }),
            Err(_) => {
                self.faults = self.faults.saturating_add(1);
                Err(SpoolsRefusal::Failed)
            }
        }
    }
}
