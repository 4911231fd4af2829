// The folder that the system's file names lead to.
ghost use Rattle.std.specs.Prelude.{◌≡◌, ◌≢◌, ◌↔◌, ◌<◌, ◌≤◌, Err, false, None, length, ⊤, IfOk, IfSome};

use apx_device::{Folder, ReadRefusal};
use std::alloc::Global;
use std::fs;
use std::io::{self, ErrorKind, Read};
use std::rt::Files;

/// How many bytes one read asks for.
const PIECE: usize = 32_768;

/// The files of the system by their names, as relative to the folder that the program runs in. It
/// tells no content. `Absent` comes where the system finds no such file; that it says so rightly is
/// taken from the system.
///
/// ```
/// let mut files = RealFolder::new(&rt);
/// let bytes = files.read(rt.alloc(), "app.json", 1_048_576)?;
/// ```
#[derive(Drop)]
pub struct RealFolder<'a, R> {
    /// The files of the system.
    system: &'a R,
    /// How many reads have failed, up to the last value of the type.
    faults: u64,
}

impl<'a, R: Files> RealFolder<'a, R> {
    /// The system's files, with no fault counted.
    pub fn new(system: &'a R) -> Self
        ensures { result.faults ≡ 0 }
    {
        RealFolder { system, faults: 0 }
    }
}

impl<'a, R: Files> Folder for RealFolder<'a, R> {
    ghost tells = { false };

    ghost told = { λ _ _. None };

    ghost heard = { λ _ _. ⊤ };

    ghost faults = { λ folder. folder.faults };

    fn faults(&self) -> u64 {
        self.faults
    }

    fn read(&mut self, alloc: Global, name: &str, limit: usize) -> Result<Vec<u8>, ReadRefusal> {
        let answer = read_file(self.system, alloc, name, limit);
        if let Err(ReadRefusal::Failed) = answer {
            self.faults = self.faults.saturating_add(1);
        }
        answer
    }
}

// The bytes of the system's file, read to its end or to the first byte past the limit.
fn read_file<R: Files>(
    system: &R,
    alloc: Global,
    name: &str,
    limit: usize,
) -> Result<Vec<u8>, ReadRefusal>
    ensures { IfOk result (λ bytes. length bytes.items ≤ limit) }
{
    read_opened(alloc, fs::open(system, name), limit)
}

// All that a reader that was opened has left, where it is no more than the limit, or why it wasn't opened.
pub fn read_opened<S: Read + Drop>(
    alloc: Global,
    opened: io::Result<S>,
    limit: usize,
) -> Result<Vec<u8>, ReadRefusal>
    ensures within { IfOk result (λ bytes. length bytes.items ≤ limit) }
    ensures whole { IfOk opened (λ source. IfOk result (λ bytes. IfSome (S.remaining source) (λ all. bytes.items ≡ all))) }
    ensures long { IfOk opened (λ source. result ≡ Err ReadRefusal.TooLong → IfSome (S.remaining source) (λ all. limit < length all)) }
{
    match opened {
        Ok(mut source) => read_to_end(alloc, &mut source, limit),
        Err(error) => Err(unopened(error.kind())),
    }
}

// Why a file wasn't opened: only one that isn't there is absent.
pub fn unopened(kind: ErrorKind) -> ReadRefusal
    ensures absent { (result ≡ ReadRefusal.Absent) ↔ (kind ≡ ErrorKind.NotFound) }
    ensures memory { (result ≡ ReadRefusal.Memory) ↔ (kind ≡ ErrorKind.OutOfMemory) }
    ensures fault { (result ≡ ReadRefusal.Failed) ↔ ((kind ≢ ErrorKind.NotFound) × (kind ≢ ErrorKind.OutOfMemory)) }
{
    match kind {
        ErrorKind::NotFound => ReadRefusal::Absent,
        ErrorKind::OutOfMemory => ReadRefusal::Memory,
        _ => ReadRefusal::Failed,
    }
}

// All that the reader has left, where it is no more than the limit.
fn read_to_end<S: Read>(alloc: Global, source: &mut S, limit: usize) -> Result<Vec<u8>, ReadRefusal>
    ensures within { IfOk result (λ bytes. length bytes.items ≤ limit) }
    ensures whole { IfOk result (λ bytes. IfSome (S.remaining source.old) (λ all. bytes.items ≡ all)) }
    ensures long { result ≡ Err ReadRefusal.TooLong → IfSome (S.remaining source.old) (λ all. limit < length all) }
{
    let mut bytes = Vec::new(alloc);
    let mut piece = [0u8; PIECE];
    for _ in 0..u64::MAX {
        match source.read(&mut piece) {
            Ok(0) => return Ok(bytes),
            Ok(read) if read > limit - bytes.len() => return Err(ReadRefusal::TooLong),
            Ok(read) => {
                if bytes.extend_from_slice(&piece[..read]).is_err() {
                    return Err(ReadRefusal::Memory);
                }
            }
            Err(error) if error.kind() == ErrorKind::Interrupted => {}
            Err(_) => return Err(ReadRefusal::Failed),
        }
    }
    Err(ReadRefusal::Failed)
}
