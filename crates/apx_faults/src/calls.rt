//! The top call for words that start no thread.
ghost use Rattle.std.specs.Prelude.{◌≡◌, false, map, string_bytes, IsTrue};
ghost use Rattle.apx_cmd.specs.Commands.{command_of};
ghost use Rattle.apx_top.specs.Plain.{IsThreaded};

use apx_cmd::{Command, CommandRefusal, command};
use apx_device::{Folder, Keeper, Out, Spool, Spools, Vault};
use apx_top::{Devices, Ended, apex_plain};
use std::alloc::Global;
use std::test::Fail;

/// Whether the words are those of a run by worker threads, or there is no memory to read them.
fn is_threaded(alloc: Global, words: &[String]) -> bool
    ensures { result ≡ false → IsThreaded (command_of (map string_bytes words.now)) → ⊥ }
{
    match command(alloc, words) {
        Ok(Command::Run { .. }) => true,
        Ok(_) => false,
        Err(CommandRefusal::Usage) => false,
        Err(CommandRefusal::Memory) => true,
    }
}

/// Does what the words ask for on one thread.
pub(crate) fn plain<F: Folder, K: Keeper + Drop, V: Vault + Drop, P: Spools + Drop, O: Out, E: Out>(
    alloc: Global,
    words: &[String],
    files: &mut F,
    devices: Devices<K, V, P>,
    out: &mut O,
    err: &mut E,
) -> Result<Ended<K, V, P, <P::S as Spool>::Fault>, Fail>
    requires sound { IsTrue (K.sound devices.keeper) }
    requires vault_sound { IsTrue (V.sound devices.vault) }
{
    if is_threaded(alloc, words) {
        return Err("a run by worker threads")?;
    }
    Ok(apex_plain(alloc, words, files, devices, out, err))
}
