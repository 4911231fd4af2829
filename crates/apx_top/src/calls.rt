//! The top call for tests that start no thread.
ghost use Rattle.std.specs.Prelude.{◌≡◌, false, map, string_bytes, IsTrue};
ghost use Rattle.apx_cmd.specs.Commands.{command_of};
ghost use Rattle.apx_top.specs.Plain.{IsThreaded};

use crate::{Devices, Ended, History, apex_plain};
use apx_cmd::{Command, CommandRefusal, command};
use apx_device::{Folder, Keeper, Out, Spool, Spools, Vault};
use apx_load::{Refusal, Stop};
use std::alloc::Global;

/// Whether the words are those of a run by worker threads, or there is no memory to read them.
fn is_threaded(alloc: Global, words: &[String]) -> bool
    ensures { result ≡ false → IsThreaded (command_of (map string_bytes words.now)) → ⊥ }
{
    match command(alloc, words) {
        Ok(Command::Run { .. }) => true,
        Ok(_) => false,
        Err(CommandRefusal::Usage) => false,
        Err(CommandRefusal::Memory) => true,
    }
}

/// Does what the words ask for on one thread. Words of `run` are told as no command here.
pub(crate) fn plain<F: Folder, K: Keeper + Drop, V: Vault + Drop, P: Spools + Drop, O: Out, E: Out>(
    alloc: Global,
    words: &[String],
    files: &mut F,
    devices: Devices<K, V, P>,
    out: &mut O,
    err: &mut E,
) -> Ended<K, V, P, <P::S as Spool>::Fault>
    requires sound { IsTrue (K.sound devices.keeper) }
    requires vault_sound { IsTrue (V.sound devices.vault) }
{
    if is_threaded(alloc, words) {
        return Ended {
            status: 1,
            end: Err(Stop::Refused(Refusal::NotACommand)),
            devices,
            journal: History::Nothing,
            shown: None,
            spool: None,
        };
    }
    apex_plain(alloc, words, files, devices, out, err)
}
