//! What runs leave behind them: what is printed, what happened, what the stores have, and what is shown of a device.
ghost use Rattle.std.specs.Prelude.{◌≡◌, [], true, false, ⊤, IsTrue};
ghost use Rattle.std.proofs.Common.{rules};

use super::*;
use crate::calls::plain;
use crate::runs::{SIX, SIX_TEXT, expect_lines, memory};
use crate::tests::{copies, joined, shown, words};
use apx_device::{
    FailingKeeper, FailingSpools, GivenVault, Keeper, MemoryFolder, MemoryKeeper, MemoryOut,
    MemorySpools, MemoryVault, SaveId, Spools, Vault, VaultRefusal, WrongSpools,
};
use apx_history::{Entry, Event};
use std::alloc::{AllocError, Global};
use std::process::Abort;
use std::test::Fail;

/// The applications of these runs, but for the lines of a window and what is said of one operator.
const READS_WORDS: &str =
    r#"{"operators":[{"name":"read","class":"lines","properties":{"file":"in.txt","perWindow":"#;

const COUNTS_WORDS: &str = r#"}},{"name":"split","class":"words"},{"name":"tally","class":"count""#;

const STORES_COUNTS: &str =
    r#"},{"name":"out","class":"store"}],"streams":[{"name":"s1","source":{"operatorName":"read","portName":"output"},"sinks":[{"operatorName":"split","portName":"input"}]},{"name":"s2","source":{"operatorName":"split","portName":"output"},"sinks":[{"operatorName":"tally","portName":"input"}]},{"name":"s3","source":{"operatorName":"tally","portName":"output"},"sinks":[{"operatorName":"out","portName":"input"}]}]}"#;

/// Sums pairs, two windows at a time, in as many partitions as are put behind it.
const SUMS_PAIRS: &str =
    r#"{"operators":[{"name":"read","class":"pairs","properties":{"file":"in.txt","perWindow":1}},{"name":"total","class":"sum","attributes":{"APPLICATION_WINDOW_COUNT":2,"PARTITIONS":"#;

const STORES_SUMS: &str =
    r#"}},{"name":"out","class":"store"}],"streams":[{"name":"s1","source":{"operatorName":"read","portName":"output"},"sinks":[{"operatorName":"total","portName":"input"}]},{"name":"s2","source":{"operatorName":"total","portName":"output"},"sinks":[{"operatorName":"out","portName":"input"}]}]}"#;

/// Stores lines, two to a window.
const STORES_LINES: &str =
    r#"{"operators":[{"name":"read","class":"lines","properties":{"file":"in.txt","perWindow":2}},{"name":"out","class":"store"}],"streams":[{"name":"s1","source":{"operatorName":"read","portName":"output"},"sinks":[{"operatorName":"out","portName":"input"}]}]}"#;

/// An operator in two and in four partitions.
const TWO: &str = r#","attributes":{"PARTITIONS":2}"#;

const FOUR: &str = r#","attributes":{"PARTITIONS":4}"#;

/// What the six windows leave in the sink's store.
const SIX_STORED: &str = "a=1 |b=1 |c=1 |a=2 |b=2 |c=2 |";

/// What a run left.
#[derive(Drop)]
struct Left<K, V> {
    status: u8,
    out: Vec<u8>,
    err: Vec<u8>,
    keeper: K,
    vault: V,
    journal: Vec<Entry>,
    shown: Option<Shown>,
}

/// Counts the words of in.txt, with so many lines to a window.
fn counting(alloc: Global, lines: &str, attributes: &str) -> Result<String, AllocError> {
    joined(
        alloc,
        &[READS_WORDS, lines, COUNTS_WORDS, attributes, STORES_COUNTS],
    )
}

/// What happened.
fn entries(alloc: Global, history: &History) -> Result<Vec<Entry>, AllocError> {
    match history {
        History::Nothing => Ok(Vec::new(alloc)),
        History::Core(journal) => journal.journal().entries().to_vec(alloc),
    }
}

/// What these words leave over these texts of app.json, in.txt and script.txt, over devices and an output.
fn run_on<K: Keeper + Drop, V: Vault + Drop, P: Spools + Drop>(
    alloc: Global,
    given: &[&str],
    texts: [&str; 3],
    devices: Devices<K, V, P>,
    mut out: MemoryOut,
) -> Result<Left<K, V>, Fail>
    requires sound { IsTrue (K.sound devices.keeper) }
    requires vault_sound { IsTrue (V.sound devices.vault) }
{
    let [app, input, script] = texts;
    let mut files = MemoryFolder::new(alloc);
    files.add(alloc, "app.json", app.as_bytes().to_vec(alloc)?)?;
    files.add(alloc, "in.txt", input.as_bytes().to_vec(alloc)?)?;
    files.add(alloc, "script.txt", script.as_bytes().to_vec(alloc)?)?;
    let given = words(alloc, given)?;
    let mut err = MemoryOut::new(alloc);
    let Ended {
        status,
        end: _,
        devices,
        journal,
        shown,
        spool: _,
    } = plain(alloc, &given, &mut files, devices, &mut out, &mut err);
    let Devices {
        keeper,
        vault,
        spools: _,
    } = devices;
    Ok(Left {
        status,
        out: Vec::from_slice(alloc, out.written())?,
        err: Vec::from_slice(alloc, err.written())?,
        keeper,
        vault,
        journal: entries(alloc, &journal)?,
        shown,
    })
}

/// What these words leave over devices in memory.
fn run(
    alloc: Global,
    given: &[&str],
    texts: [&str; 3],
) -> Result<Left<MemoryKeeper, MemoryVault>, Fail> {
    run_on(alloc, given, texts, memory(alloc), MemoryOut::new(alloc))
}

fn expect<K, V>(rt: &impl Abort, left: &Left<K, V>, status: u8, out: &str, err: &str) {
    assert_eq!(rt; std::str::from_utf8(left.err.as_slice()).unwrap_or(""), err);
    assert_eq!(rt; left.status, status);
    assert_eq!(rt; std::str::from_utf8(left.out.as_slice()).unwrap_or(""), out);
}

/// Expects a run that was done and printed these rows, and its journal to end with End.
fn expect_rows<K, V>(rt: &impl Abort, left: &Left<K, V>, out: &str) {
    assert_eq!(rt; left.status, 0);
    assert_eq!(rt; std::str::from_utf8(left.out.as_slice()).unwrap_or(""), out);
    assert!(rt; is_ended(&left.journal));
}

/// Whether the last thing that happened is the end.
fn is_ended(journal: &[Entry]) -> bool {
    matches!(journal.last(), Some(last) if last.event == Event::End)
}

/// The last window that was committed.
fn last_commit(journal: &[Entry]) -> u32 {
    let mut last = 0;
    for entry in journal {
        if let Event::Commit { to } = entry.event {
            last = to;
        }
    }
    last
}

/// Ten lines of three words, of which the last is another one in each line, so many times.
fn quick(alloc: Global, times: usize) -> Result<String, AllocError> {
    let ten =
        "the quick w1\nthe quick w2\nthe quick w3\nthe quick w4\nthe quick w5\nthe quick w6\nthe quick w7\nthe quick w8\nthe quick w9\nthe quick w0\n";
    copies(alloc, ten, times)
}

/// A window that ten of these lines make, behind so many of them.
fn quick_window(alloc: Global, done: u64) -> Result<String, AllocError> {
    let number = done.wrapping_add(1);
    let window = number.to_string(alloc)?;
    let tens = number.wrapping_mul(10).to_string(alloc)?;
    let id = done
        .wrapping_add(4_294_967_296_000_000_000)
        .to_string(alloc)?;
    let (w, t) = (window.as_str(), tens.as_str());
    joined(
        alloc,
        &[
            "window ",
            w,
            " ",
            id.as_str(),
            " 12\nquick\t",
            t,
            "\nthe\t",
            t,
            "\nw0\t",
            w,
            "\nw1\t",
            w,
            "\nw2\t",
            w,
            "\nw3\t",
            w,
            "\nw4\t",
            w,
            "\nw5\t",
            w,
            "\nw6\t",
            w,
            "\nw7\t",
            w,
            "\nw8\t",
            w,
            "\nw9\t",
            w,
            "\n",
        ],
    )
}

/// The windows that these lines make.
fn quick_text(alloc: Global, windows: u64) -> Result<String, AllocError> {
    let mut text = String::new(alloc);
    for done in 0..windows {
        let window = quick_window(alloc, done)?;
        text.push_str(window.as_str())?;
    }
    Ok(text)
}

/// Expects a run over an application and an input to print these rows and this report, and a mean the same rows.
fn expect_reported(
    rt: &impl Abort,
    alloc: Global,
    app: &str,
    input: &str,
    out: &str,
    report: &str,
) -> Result<(), Fail> {
    let texts = [app, input, ""];
    let left = run(alloc, &["sim", "app.json"], texts)?;
    expect(rt, &left, 0, out, report);
    assert!(rt; is_ended(&left.journal));
    let mean = run(alloc, &["mean", "app.json"], texts)?;
    expect(rt, &mean, 0, out, "");
    assert!(rt; mean.journal.is_empty());
    Ok(())
}

#[test]
fn runs_without_options_are_reported(rt: HostRuntime) -> Result<(), Fail> {
    let alloc = rt.alloc();
    let app = counting(alloc, "2", "")?;
    let words =
        "window 1 4294967296000000000 2\na\t2\nb\t1\nwindow 2 4294967296000000001 2\na\t3\nc\t1\n";
    for (input, out, report) in [
        (
            "",
            "",
            "windows 0\nrows 0\nstarts 0\nwrites 0\nsaves 0\nkills 0\nrepartitions 0\ncommitted 0\n",
        ),
        (
            "a b\na\nc a\n",
            words,
            "windows 2\nrows 4\nstarts 8\nwrites 2\nsaves 0\nkills 0\nrepartitions 0\ncommitted 0\n",
        ),
    ] {
        expect_reported(&rt, alloc, app.as_str(), input, out, report)?;
    }
    let (lines, rows) = (quick(alloc, 200)?, quick_text(alloc, 200)?);
    let app = counting(alloc, "10", FOUR)?;
    let report =
        "windows 200\nrows 2400\nstarts 1400\nwrites 200\nsaves 21\nkills 0\nrepartitions 0\ncommitted 180\n";
    expect_reported(
        &rt,
        alloc,
        app.as_str(),
        lines.as_str(),
        rows.as_str(),
        report,
    )
}

/// A checkpoint of what carries nothing.
const NOTHING: &[u8] = b"\xff\x02\0\0\0\0\0\0\0\0\0\0\0\0";

/// Checkpoints of counts.
const COUNTED_A: &[u8] = b"\xff\x02\0\0\0\x01\0\x01a\0\0\0\0\0\0\0\x02\0\0\0\0\0\0\0\0";

const COUNTED_B: &[u8] = b"\xff\x02\0\0\0\x01\0\x01b\0\0\0\0\0\0\0\x02\0\0\0\0\0\0\0\0";

const COUNTED_C: &[u8] = b"\xff\x02\0\0\0\x01\0\x01c\0\0\0\0\0\0\0\x02\0\0\0\0\0\0\0\0";

const COUNTED_A_C: &[u8] =
    b"\xff\x02\0\0\0\x02\0\x01a\0\0\0\0\0\0\0\x02\0\x01c\0\0\0\0\0\0\0\x02\0\0\0\0\0\0\0\0";

/// A checkpoint of the sum 2 with a tuple that was gathered since.
const GATHERED: &[u8] =
    b"\xff\x02\0\0\0\x01\0\x01k\0\0\0\0\0\0\0\x02\0\0\0\x01\0\x01k\0\0\0\0\0\0\0\x01\0\0\0\0";

/// The id of the checkpoint of a partition after a window, in the epoch that begins at a boundary.
fn save(op: u16, boundary: u32, part: u8, window: u32) -> SaveId {
    SaveId {
        op,
        boundary,
        part,
        window,
    }
}

/// Adds the ids of an operator and a boundary under which a checkpoint store has something.
fn add_kept(
    alloc: Global,
    vault: &mut MemoryVault,
    op: u16,
    boundary: u32,
    ids: &mut Vec<SaveId>,
) -> Result<(), Fail> {
    for part in 0..8 {
        for window in 0..7 {
            let id = save(op, boundary, part, window);
            if !vault.get(alloc, id)?.is_empty() {
                ids.push(id)?;
            }
        }
    }
    Ok(())
}

/// The ids under which a checkpoint store has something, of four operators and six windows.
fn kept(alloc: Global, vault: &mut MemoryVault) -> Result<Vec<SaveId>, Fail> {
    let mut ids = Vec::new(alloc);
    for op in 0..4 {
        for boundary in 0..7 {
            add_kept(alloc, vault, op, boundary, &mut ids)?;
        }
    }
    Ok(ids)
}

/// Expects a checkpoint store with these checkpoints and no others.
fn expect_kept(
    rt: &impl Abort,
    alloc: Global,
    vault: &mut MemoryVault,
    checkpoints: &[(SaveId, &[u8])],
) -> Result<(), Fail> {
    assert_eq!(rt; kept(alloc, vault)?.len(), checkpoints.len());
    for (id, bytes) in checkpoints {
        assert_eq!(rt; vault.get(alloc, *id)?.as_slice(), *bytes);
    }
    Ok(())
}

/// How many windows began, how many were stored, and how many states were saved.
fn tally(journal: &[Entry]) -> (usize, usize, usize) {
    let starts = journal
        .iter()
        .filter(|entry| matches!(entry.event, Event::Start { .. }));
    let writes = journal
        .iter()
        .filter(|entry| matches!(entry.event, Event::Write { .. }));
    let saves = journal
        .iter()
        .filter(|entry| matches!(entry.event, Event::Save { .. }));
    (starts.count(), writes.count(), saves.count())
}

#[test]
fn each_order_leaves_the_same_rows_and_checkpoints(rt: HostRuntime) -> Result<(), Fail> {
    let alloc = rt.alloc();
    let app = counting(alloc, "1", TWO)?;
    let checkpoints = [
        (save(0, 0, 0, 6), NOTHING),
        (save(1, 0, 0, 6), NOTHING),
        (save(2, 0, 0, 6), COUNTED_B),
        (save(2, 0, 1, 6), COUNTED_A_C),
        (save(3, 0, 0, 6), NOTHING),
    ];
    for order in ["0", "1", "2", "3", "4", "5", "6", "7", "8", "9"] {
        let given = ["sim", "app.json", "--checkpoint", "2", "--order", order];
        let mut left = run(alloc, &given, [app.as_str(), SIX, ""])?;
        expect_rows(&rt, &left, SIX_TEXT);
        assert_eq!(rt; tally(&left.journal), (30, 6, 15));
        assert_eq!(rt; last_commit(&left.journal), 6);
        expect_kept(&rt, alloc, &mut left.vault, &checkpoints)?;
    }
    Ok(())
}

/// The windows of pairs k 1, summed two at a time.
const SUMMED: &str =
    "window 1 4294967296000000000 0\nwindow 2 4294967296000000001 1\nk\t2\nwindow 3 4294967296000000002 0\n";

const SUMMED_TWICE: &str =
    "window 1 4294967296000000000 0\nwindow 2 4294967296000000001 1\nk\t2\nwindow 3 4294967296000000002 0\nwindow 4 4294967296000000003 1\nk\t4\n";

#[test]
fn checkpoints_are_left_of_the_last_epochs(rt: HostRuntime) -> Result<(), Fail> {
    let alloc = rt.alloc();
    let (app, sum) = (
        counting(alloc, "1", TWO)?,
        joined(alloc, &[SUMS_PAIRS, "1", STORES_SUMS])?,
    );
    let thirds = [
        (save(0, 0, 0, 6), NOTHING),
        (save(1, 0, 0, 6), NOTHING),
        (save(2, 4, 0, 6), COUNTED_C),
        (save(2, 4, 1, 6), COUNTED_A),
        (save(2, 4, 2, 6), COUNTED_B),
        (save(3, 0, 0, 6), NOTHING),
    ];
    let sums = [
        (save(0, 0, 0, 3), NOTHING),
        (save(1, 0, 0, 3), GATHERED),
        (save(2, 0, 0, 3), NOTHING),
    ];
    let split = [app.as_str(), SIX, "repartition 4 3 tally\n"];
    let killed = [
        app.as_str(),
        SIX,
        "repartition 4 3 tally\nkill staged 5 2 tally\n",
    ];
    let summed = [sum.as_str(), "k\t1\nk\t1\nk\t1\n", ""];
    let rows: [(&str, [&str; 3], &str, &[(SaveId, &[u8])], &[&str]); 3] = [
        (
            "2",
            split,
            SIX_TEXT,
            &thirds,
            &["starts 32", "saves 16", "kills 0", "repartitions 1"],
        ),
        ("2", killed, SIX_TEXT, &thirds, &["kills 1"]),
        ("1", summed, SUMMED, &sums, &["kills 0"]),
    ];
    for (every, texts, out, checkpoints, lines) in rows {
        let given = [
            "sim",
            "app.json",
            "--checkpoint",
            every,
            "--script",
            "script.txt",
        ];
        let mut left = run(alloc, &given, texts)?;
        expect_rows(&rt, &left, out);
        expect_lines(&rt, &left.err, lines);
        expect_kept(&rt, alloc, &mut left.vault, checkpoints)?;
    }
    let sum = joined(alloc, &[SUMS_PAIRS, "2", STORES_SUMS])?;
    let script = "kill staged 2 1 total\nrepartition 3 3 total\n";
    let texts = [sum.as_str(), "k\t1\nk\t1\nk\t1\nk\t1\n", script];
    let given = [
        "sim",
        "app.json",
        "--checkpoint",
        "1",
        "--script",
        "script.txt",
    ];
    let left = run(alloc, &given, texts)?;
    expect_rows(&rt, &left, SUMMED_TWICE);
    expect_lines(&rt, &left.err, &["kills 1", "repartitions 1"]);
    Ok(())
}

/// A checkpoint store that gives states in the spelling that came before the one of today, and tells nothing.
#[derive(Drop)]
struct OldVault {
    vault: MemoryVault,
    /// The least window of which something was asked for.
    least: u32,
}

impl Vault for OldVault {
    ghost tells = { false };

    ghost held = { λ _. [] };

    ghost sound = { λ _. true };

    ghost faults = { λ _. 0 };

    ghost time = { λ _. 0 };

    ghost left = { λ _ _ _. ⊤ };

    ghost ordered = { λ vault tells. Prim.search rules };

    ghost settled = { λ vault entries tells sound left. Prim.search rules };

    ghost counts = { λ vault t entries tells le left. left };

    fn faults(&self) -> u64 {
        0
    }

    fn sound(&self) -> bool {
        true
    }

    fn put(&mut self, id: SaveId, bytes: &[u8]) -> Result<(), VaultRefusal> {
        match self.vault.put(id, bytes) {
            Ok(()) => Ok(()),
            Err(_) => Err(VaultRefusal::Memory),
        }
    }

    fn get(&mut self, alloc: Global, id: SaveId) -> Result<Vec<u8>, VaultRefusal> {
        self.least = self.least.min(id.window);
        let Ok(bytes) = self.vault.get(alloc, id) else {
            return Err(VaultRefusal::Memory);
        };
        if bytes.len() < 10 {
            return Ok(bytes);
        }
        let state = &bytes[2..bytes.len() - 8];
        state.to_vec(alloc).map_err(|_| VaultRefusal::Memory)
    }

    fn drop_below(&mut self, window: u32) -> Result<(), VaultRefusal> {
        match self.vault.drop_below(window) {
            Ok(()) => Ok(()),
            Err(_) => Err(VaultRefusal::Memory),
        }
    }
}

/// Whether the one byte 7 is shown as what the checkpoint store gave for partition 0 of the counting, or for the sink.
fn is_state_shown(shown: &Option<Shown>) -> bool {
    match shown {
        Some(Shown::State { id, bytes }) => {
            (id.op == 2 || id.op == 3) && id.part == 0 && bytes.as_slice() == [7].as_slice()
        }
        _ => false,
    }
}

/// Whether the one byte 7 is shown as what a spool gave for the second block of the first window of the input.
fn is_block_shown(shown: &Option<Shown>) -> bool {
    match shown {
        Some(
            Shown::Block {
                op,
                part,
                number,
                window,
                index,
                last,
                bytes,
            },
        ) => {
            (*op, *part, *number, *window, *index, *last) == (0, 0, 1, 1, 1, false)
                && bytes.as_slice() == [7].as_slice()
        }
        _ => false,
    }
}

/// Words of a run whose partition fails once its last window is finished, with a checkpoint behind each window.
const FAILS_LATE: [&str; 6] = [
    "sim",
    "app.json",
    "--checkpoint",
    "1",
    "--script",
    "script.txt",
];

#[test]
fn checkpoints_that_are_not_told_are_read(rt: HostRuntime) -> Result<(), Fail> {
    let alloc = rt.alloc();
    let app = counting(alloc, "1", TWO)?;
    let texts = [app.as_str(), SIX, "kill done 6 0 tally\n"];
    let devices = Devices {
        keeper: MemoryKeeper::new(alloc),
        vault: OldVault {
            vault: MemoryVault::new(alloc),
            least: 7,
        },
        spools: MemorySpools::new(alloc),
    };
    let left = run_on(alloc, &FAILS_LATE, texts, devices, MemoryOut::new(alloc))?;
    expect_rows(&rt, &left, SIX_TEXT);
    expect_lines(&rt, &left.err, &["kills 1"]);
    assert!(rt; 2 <= left.vault.least && left.vault.least <= 6);
    let devices = Devices {
        keeper: MemoryKeeper::new(alloc),
        vault: GivenVault::new([7].to_vec(alloc)?),
        spools: MemorySpools::new(alloc),
    };
    let mut left = run_on(alloc, &FAILS_LATE, texts, devices, MemoryOut::new(alloc))?;
    expect(&rt, &left, 11, "", "apex: checkpoint damaged\n");
    assert!(rt; is_state_shown(&left.shown));
    let stored = shown(alloc, &mut left.keeper)?;
    assert!(rt; SIX_STORED.as_bytes().starts_with(&stored));
    Ok(())
}

#[test]
fn blocks_leave_memory_and_come_back(rt: HostRuntime) -> Result<(), Fail> {
    let alloc = rt.alloc();
    let (a, b) = (copies(alloc, "a", 1024)?, copies(alloc, "b", 1024)?);
    let input = joined(alloc, &[a.as_str(), "\n", b.as_str(), "\nc\n"])?;
    let texts = [STORES_LINES, input.as_str(), ""];
    let whole = run(alloc, &["sim", "app.json"], texts)?;
    let given = ["sim", "app.json", "--block", "1040", "--keep", "1"];
    let left = run(alloc, &given, texts)?;
    expect_rows(&rt, &left, std::str::from_utf8(&whole.out)?);
    assert_eq!(rt; left.keeper.last(), 2);
    let devices = Devices {
        keeper: MemoryKeeper::new(alloc),
        vault: MemoryVault::new(alloc),
        spools: FailingSpools::new(alloc, Vec::new(alloc), Vec::new(alloc), [1].to_vec(alloc)?),
    };
    let left = run_on(alloc, &given, texts, devices, MemoryOut::new(alloc))?;
    expect(&rt, &left, 10, "", "apex: spool failed\n");
    assert_eq!(rt; left.keeper.last(), 0);
    let devices = Devices {
        keeper: MemoryKeeper::new(alloc),
        vault: MemoryVault::new(alloc),
        spools: WrongSpools::new(alloc, 1, [7].to_vec(alloc)?),
    };
    let left = run_on(alloc, &given, texts, devices, MemoryOut::new(alloc))?;
    expect(&rt, &left, 11, "", "apex: block damaged\n");
    assert!(rt; is_block_shown(&left.shown));
    Ok(())
}

#[test]
fn a_sinks_store_may_have_windows_and_may_fail(rt: HostRuntime) -> Result<(), Fail> {
    let alloc = rt.alloc();
    let app = counting(alloc, "1", TWO)?;
    let given = ["sim", "app.json", "--checkpoint", "2"];
    let Left { keeper, .. } = run(alloc, &given, [app.as_str(), "a\nb\n", ""])?;
    assert_eq!(rt; keeper.last(), 2);
    let devices = Devices {
        keeper,
        vault: MemoryVault::new(alloc),
        spools: MemorySpools::new(alloc),
    };
    let texts = [app.as_str(), SIX, ""];
    let left = run_on(alloc, &given, texts, devices, MemoryOut::new(alloc))?;
    expect_rows(&rt, &left, SIX_TEXT);
    expect_lines(&rt, &left.err, &["windows 6", "writes 4"]);
    for (stores_first, text) in [(false, "a=1 |"), (true, "a=1 |b=1 |")] {
        let calls = [2].to_vec(alloc)?;
        let devices = Devices {
            keeper: FailingKeeper::new(MemoryKeeper::new(alloc), calls, stores_first),
            vault: MemoryVault::new(alloc),
            spools: MemorySpools::new(alloc),
        };
        let mut left = run_on(alloc, &given, texts, devices, MemoryOut::new(alloc))?;
        expect(&rt, &left, 9, "", "apex: sink store failed\n");
        assert_eq!(rt; shown(alloc, &mut left.keeper)?.as_slice(), text.as_bytes());
    }
    let out = MemoryOut::failing(alloc, [1].to_vec(alloc)?);
    let left = run_on(alloc, &given, texts, memory(alloc), out)?;
    expect(&rt, &left, 12, "", "");
    assert!(rt; is_ended(&left.journal));
    Ok(())
}

#[test]
fn an_example_gives_one_report(rt: HostRuntime) -> Result<(), Fail> {
    let report =
        "windows 100\nrows 3920\nstarts 616\nwrites 100\nsaves 151\nkills 2\nrepartitions 1\ncommitted 100\n";
    for _ in 0..2 {
        let left = run(rt.alloc(), &["gen", "7", "1000"], ["", "", ""])?;
        expect(&rt, &left, 0, report, "");
    }
    Ok(())
}
