//! Runs over devices of which one call of one device fails.
use crate::runs::{Left, folder_of, run};
use crate::spools::PickedSpools;
use apx_device::{
    FailingFolder, FailingKeeper, FailingVault, MemoryKeeper, MemoryOut, MemoryVault,
};
use apx_top::Devices;
use std::alloc::{AllocError, Global};
use std::test::Fail;

/// Counts the words of in.txt in two partitions, a line to a window.
const APP: &str =
    r#"{"operators":[{"name":"read","class":"lines","properties":{"file":"in.txt","perWindow":1}},{"name":"split","class":"words"},{"name":"tally","class":"count","attributes":{"PARTITIONS":2}},{"name":"out","class":"store"}],"streams":[{"name":"s1","source":{"operatorName":"read","portName":"output"},"sinks":[{"operatorName":"split","portName":"input"}]},{"name":"s2","source":{"operatorName":"split","portName":"output"},"sinks":[{"operatorName":"tally","portName":"input"}]},{"name":"s3","source":{"operatorName":"tally","portName":"output"},"sinks":[{"operatorName":"out","portName":"input"}]}]}"#;

/// What it counts.
const INPUT: &str = "a\nb\nc\na\nb\nc\n";

/// `tally` goes on in three partitions behind window 4, and the last of them fails while it has window 5 open.
const SCRIPT: &str = "repartition 4 3 tally\nkill staged 5 2 tally\n";

/// What may have happened first in a run of it.
const JOURNAL: &str = "0 start 0 0 1\n";

/// A device, and which of its calls are counted together.
#[derive(Clone, Copy, Debug, PartialEq, Eq)]
pub(crate) enum Device {
    /// The reads of the folder.
    Folder,
    /// The commits and reads of the sink's store, of which a failing commit is stored first or isn't.
    Keeper { stores_first: bool },
    /// The puts, gets and drops of the checkpoint store.
    Vault,
    /// The spools that the maker is asked for.
    Maker,
    /// The puts of a spool, by the number of the spool.
    Puts(u64),
    /// The fetches of a spool, by the number of the spool.
    Fetches(u64),
    /// The writes to the output.
    Out,
    /// The writes to the error output.
    Err,
}

/// The numbers of the calls that are to fail, where the device is the one that fails: this one alone.
fn calls(alloc: Global, fails: bool, call: u64) -> Result<Vec<u64>, AllocError> {
    if fails {
        [call].to_vec(alloc)
    } else {
        Ok(Vec::new(alloc))
    }
}

/// The spools of a run of which this call of this device fails.
fn spools(alloc: Global, device: Device, call: u64) -> Result<PickedSpools, AllocError> {
    let picked = match device {
        Device::Puts(spool) | Device::Fetches(spool) => spool,
        _ => 0,
    };
    Ok(PickedSpools::new(
        alloc,
        calls(alloc, device == Device::Maker, call)?,
        picked,
        calls(alloc, device == Device::Puts(picked), call)?,
        calls(alloc, device == Device::Fetches(picked), call)?,
    ))
}

/// What a run with these words leaves where this call of this device fails.
pub(crate) fn run_failing(
    alloc: Global,
    words: &[&str],
    device: Device,
    call: u64,
) -> Result<Left<PickedSpools>, Fail> {
    let files = [
        ("app.json", APP),
        ("in.txt", INPUT),
        ("script.txt", SCRIPT),
        ("journal.txt", JOURNAL),
    ];
    let reads = calls(alloc, device == Device::Folder, call)?;
    let mut files = FailingFolder::new(folder_of(alloc, &files)?, reads);
    let stores_first = device == Device::Keeper { stores_first: true };
    let commits = stores_first
        || device
            == Device::Keeper {
                stores_first: false,
            };
    let commits = calls(alloc, commits, call)?;
    let saves = calls(alloc, device == Device::Vault, call)?;
    let devices = Devices {
        keeper: FailingKeeper::new(MemoryKeeper::new(alloc), commits, stores_first),
        vault: FailingVault::new(MemoryVault::new(alloc), saves),
        spools: spools(alloc, device, call)?,
    };
    let out = MemoryOut::failing(alloc, calls(alloc, device == Device::Out, call)?);
    let err = MemoryOut::failing(alloc, calls(alloc, device == Device::Err, call)?);
    run(alloc, words, &mut files, devices, out, err)
}
