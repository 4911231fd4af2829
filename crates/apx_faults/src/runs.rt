//! Whole runs over devices in memory, and what each leaves.
ghost use Rattle.std.specs.Prelude.{IsTrue};

use crate::calls::plain;
use apx_device::{Folder, Keeper, MemoryFolder, MemoryOut, Out, Spools, Vault};
use apx_history::{Entry, Event};
use apx_top::{Devices, Ended, History, Shown};
use std::alloc::{AllocError, Global};
use std::test::Fail;

/// What a run left behind.
#[derive(Drop)]
pub(crate) struct Left<P> {
    /// Its status.
    pub(crate) status: u8,
    /// What the output got.
    pub(crate) out: Vec<u8>,
    /// What the error output got.
    pub(crate) err: Vec<u8>,
    /// What is stored, row by row, with a bar after each window.
    pub(crate) stored: Vec<u8>,
    /// The last event of the run, where one began.
    pub(crate) last: Option<Event>,
    /// The maker of spools.
    pub(crate) spools: P,
    /// Whether a spool's fault is handed out.
    pub(crate) has_spool_fault: bool,
    /// The bytes that spell nothing.
    pub(crate) shown: Option<Shown>,
    /// Whether a call of a device failed.
    pub(crate) has_failed: bool,
}

/// A folder with these files.
pub(crate) fn folder_of(alloc: Global, files: &[(&str, &str)]) -> Result<MemoryFolder, AllocError> {
    let mut folder = MemoryFolder::new(alloc);
    for (name, text) in files {
        folder.add(alloc, name, text.as_bytes().to_vec(alloc)?)?;
    }
    Ok(folder)
}

fn words(alloc: Global, given: &[&str]) -> Result<Vec<String>, AllocError> {
    let mut words = Vec::new(alloc);
    for word in given {
        words.push(String::from_str(alloc, word)?)?;
    }
    Ok(words)
}

/// The bytes as a text.
pub(crate) fn text(bytes: &[u8]) -> &str {
    std::str::from_utf8(bytes).unwrap_or("no text")
}

/// Adds the rows of a stored window to a text. A read that fails is done again.
fn show_window<K: Keeper>(
    alloc: Global,
    keeper: &mut K,
    window: u32,
    text: &mut Vec<u8>,
) -> Result<(), Fail> {
    if !keeper.sound() || window < 1 || keeper.last() < window {
        return Err("no such window")?;
    }
    let rows = match keeper.rows(alloc, window) {
        Ok(rows) => rows,
        Err(_) if keeper.sound() => keeper.rows(alloc, window)?,
        Err(refusal) => return Err(refusal)?,
    };
    for row in rows.iter() {
        text.extend_from_slice(row.key.bytes())?;
        text.push(b'=')?;
        let value = row.value.to_string(alloc)?;
        text.extend_from_slice(value.as_bytes())?;
        text.push(b' ')?;
    }
    text.push(b'|')?;
    Ok(())
}

/// All that a keeper holds.
fn show<K: Keeper>(alloc: Global, keeper: &mut K) -> Result<Vec<u8>, Fail> {
    let mut text = Vec::new(alloc);
    for done in 0..keeper.last() {
        show_window(alloc, keeper, done + 1, &mut text)?;
    }
    Ok(text)
}

/// The last event of a history.
fn last_of(history: &History) -> Option<Event> {
    match history {
        History::Nothing => None,
        History::Core(journal) => match journal.journal().entries() {
            [.., Entry { worker: _, event }] => Some(*event),
            [] => None,
        },
    }
}

/// What a run with these words over these devices leaves.
pub(crate) fn run<F: Folder, K: Keeper + Drop, V: Vault + Drop, P: Spools + Drop>(
    alloc: Global,
    given: &[&str],
    files: &mut F,
    devices: Devices<K, V, P>,
    mut out: MemoryOut,
    mut err: MemoryOut,
) -> Result<Left<P>, Fail>
    requires sound { IsTrue (K.sound devices.keeper) }
    requires vault_sound { IsTrue (V.sound devices.vault) }
{
    let given = words(alloc, given)?;
    let Ended {
        status,
        end: _,
        devices: Devices {
            mut keeper,
            vault,
            spools,
        },
        journal,
        shown,
        spool,
    } = plain(alloc, &given, files, devices, &mut out, &mut err)?;
    let has_failed = files.faults() > 0
        || keeper.faults() > 0
        || vault.faults() > 0
        || spools.faults() > 0
        || spool.is_some()
        || out.faults() > 0
        || err.faults() > 0;
    Ok(Left {
        status,
        out: Vec::from_slice(alloc, out.written())?,
        err: Vec::from_slice(alloc, err.written())?,
        stored: show(alloc, &mut keeper)?,
        last: last_of(&journal),
        spools,
        has_spool_fault: spool.is_some(),
        shown,
        has_failed,
    })
}
