//! Whole runs over devices in memory: what each prints, what it stores, its status and its error line.
ghost use Rattle.std.specs.Prelude.{IsTrue};

use super::*;
use crate::calls::plain;
use apx_device::{
    FailingFolder, FailingKeeper, Folder, Keeper, ListedFolder, MemoryFolder, MemoryKeeper,
    MemoryOut, MemorySpools, MemoryVault,
};
use std::alloc::{AllocError, Global};
use std::process::Abort;
use std::test::Fail;

/// Counts the lines of in.txt, two to a window.
const COUNTED: &str =
    r#"{"operators":[{"name":"read","class":"lines","properties":{"file":"in.txt","perWindow":2}},{"name":"tally","class":"count"},{"name":"out","class":"store"}],"streams":[{"name":"s1","source":{"operatorName":"read","portName":"output"},"sinks":[{"operatorName":"tally","portName":"input"}]},{"name":"s2","source":{"operatorName":"tally","portName":"output"},"sinks":[{"operatorName":"out","portName":"input"}]}]}"#;

/// Counts the words of in.txt, two lines to a window.
pub(crate) const WORDS_COUNTED: &str = r#"{"operators": [
  {"name": "read", "class": "lines", "properties": {"file": "in.txt", "perWindow": 2}},
  {"name": "split", "class": "words"},
  {"name": "tally", "class": "count", "attributes": {"PARTITIONS": 2}},
  {"name": "out", "class": "store"}],
 "streams": [
  {"name": "s1", "source": {"operatorName": "read", "portName": "output"},
   "sinks": [{"operatorName": "split", "portName": "input"}]},
  {"name": "s2", "source": {"operatorName": "split", "portName": "output"},
   "sinks": [{"operatorName": "tally", "portName": "input"}]},
  {"name": "s3", "source": {"operatorName": "tally", "portName": "output"},
   "sinks": [{"operatorName": "out", "portName": "input"}]}]}"#;

/// What the counted lines a, b, a print.
const COUNTED_TEXT: &str =
    "window 1 4294967296000000000 2\na\t1\nb\t1\nwindow 2 4294967296000000001 1\na\t2\n";

/// Input lines or pairs of in.txt, by themselves or two to a window.
const SINGLE_LINES: &str = r#""class":"lines","properties":{"file":"in.txt","perWindow":1}"#;

const DOUBLE_LINES: &str = r#""class":"lines","properties":{"file":"in.txt","perWindow":2}"#;

const SINGLE_PAIRS: &str = r#""class":"pairs","properties":{"file":"in.txt","perWindow":1}"#;

/// What a run left behind; the stored rows are shown one by one, with a bar after each window.
#[derive(Drop)]
struct Left {
    status: u8,
    out: Vec<u8>,
    err: Vec<u8>,
    stored: Vec<u8>,
}

fn folder(alloc: Global, files: &[(&str, &str)]) -> Result<MemoryFolder, AllocError> {
    let mut folder = MemoryFolder::new(alloc);
    for (name, text) in files {
        folder.add(alloc, name, Vec::from_slice(alloc, text.as_bytes())?)?;
    }
    Ok(folder)
}

pub(crate) fn words(alloc: Global, words: &[&str]) -> Result<Vec<String>, AllocError> {
    let mut texts = Vec::new(alloc);
    for word in words {
        texts.push(String::from_str(alloc, word)?)?;
    }
    Ok(texts)
}

/// The pieces, one after the other.
pub(crate) fn joined(alloc: Global, pieces: &[&str]) -> Result<String, AllocError> {
    let mut text = String::new(alloc);
    for piece in pieces {
        text.push_str(piece)?;
    }
    Ok(text)
}

/// A text of `count` copies of a piece.
pub(crate) fn copies(alloc: Global, piece: &str, count: usize) -> Result<String, AllocError> {
    let mut text = String::new(alloc);
    for _ in 0..count {
        text.push_str(piece)?;
    }
    Ok(text)
}

/// Adds the rows of a stored window to a text.
fn show_window<K: Keeper>(
    alloc: Global,
    keeper: &mut K,
    window: u32,
    text: &mut Vec<u8>,
) -> Result<(), Fail> {
    if !keeper.sound() || window < 1 || keeper.last() < window {
        return Err("no such window")?;
    }
    for row in keeper.rows(alloc, window)?.iter() {
        text.extend_from_slice(row.key.bytes())?;
        text.push(b'=')?;
        let value = row.value.to_string(alloc)?;
        text.extend_from_slice(value.as_bytes())?;
        text.push(b' ')?;
    }
    text.push(b'|')?;
    Ok(())
}

/// All that a keeper holds.
pub(crate) fn shown<K: Keeper>(alloc: Global, keeper: &mut K) -> Result<Vec<u8>, Fail> {
    let mut text = Vec::new(alloc);
    for done in 0..keeper.last() {
        show_window(alloc, keeper, done + 1, &mut text)?;
    }
    Ok(text)
}

/// What a run with these words over these devices leaves.
fn run_on<F: Folder, K: Keeper + Drop>(
    alloc: Global,
    given: &[&str],
    files: &mut F,
    keeper: K,
    mut out: MemoryOut,
) -> Result<Left, Fail>
    requires { IsTrue (K.sound keeper) }
{
    let given = words(alloc, given)?;
    let mut err = MemoryOut::new(alloc);
    let Ended {
        status,
        end: _,
        devices,
        journal: _,
        shown: _,
        spool: _,
    } = plain(
        alloc,
        &given,
        files,
        Devices {
            keeper,
            vault: MemoryVault::new(alloc),
            spools: MemorySpools::new(alloc),
        },
        &mut out,
        &mut err,
    );
    let Devices {
        mut keeper,
        vault: _,
        spools: _,
    } = devices;
    Ok(Left {
        status,
        out: Vec::from_slice(alloc, out.written())?,
        err: Vec::from_slice(alloc, err.written())?,
        stored: shown(alloc, &mut keeper)?,
    })
}

/// What a run with these words over these files leaves, with devices that don't fail.
fn run(alloc: Global, given: &[&str], files: &[(&str, &str)]) -> Result<Left, Fail> {
    let mut files = folder(alloc, files)?;
    let keeper = MemoryKeeper::new(alloc);
    run_on(alloc, given, &mut files, keeper, MemoryOut::new(alloc))
}

/// What a run of this application over this in.txt leaves.
fn simulate(alloc: Global, app: &str, input: &str) -> Result<Left, Fail> {
    run(
        alloc,
        &["sim", "app.json"],
        &[("app.json", app), ("in.txt", input)],
    )
}

/// What a run leaves of an input, one operator and the store.
fn pipe(alloc: Global, read: &str, step: &str, input: &str) -> Result<Left, Fail> {
    let app = joined(
        alloc,
        &[
            r#"{"operators":[{"name":"read","#,
            read,
            r#"},{"name":"step","#,
            step,
            r#"},{"name":"out","class":"store"}],"streams":[{"name":"s1","source":{"operatorName":"read","portName":"output"},"sinks":[{"operatorName":"step","portName":"input"}]},{"name":"s2","source":{"operatorName":"step","portName":"output"},"sinks":[{"operatorName":"out","portName":"input"}]}]}"#,
        ],
    )?;
    simulate(alloc, app.as_str(), input)
}

fn expect(rt: &impl Abort, left: &Left, status: u8, out: &str, err: &str, stored: &str) {
    assert_eq!(rt; left.err.as_slice(), err.as_bytes());
    assert_eq!(rt; left.status, status);
    assert_eq!(rt; left.out.as_slice(), out.as_bytes());
    assert_eq!(rt; left.stored.as_slice(), stored.as_bytes());
}

/// Expects a run that was done and reported.
fn expect_done(rt: &impl Abort, left: &Left, out: &str, stored: &str) {
    assert_eq!(rt; left.status, 0);
    assert_eq!(rt; left.out.as_slice(), out.as_bytes());
    assert_eq!(rt; left.stored.as_slice(), stored.as_bytes());
}

/// Expects a run that printed and stored nothing.
fn expect_refused(rt: &impl Abort, left: &Left, status: u8, err: &str) {
    expect(rt, left, status, "", err, "");
}

#[test]
fn lines_are_counted(rt: HostRuntime) -> Result<(), Fail> {
    let left = simulate(rt.alloc(), COUNTED, "a\nb\na\n")?;
    expect_done(&rt, &left, COUNTED_TEXT, "a=1 b=1 |a=2 |");
    let left = simulate(rt.alloc(), COUNTED, "")?;
    expect_done(&rt, &left, "", "");
    Ok(())
}

#[test]
fn lines_are_summed_as_ones(rt: HostRuntime) -> Result<(), Fail> {
    let left = pipe(rt.alloc(), DOUBLE_LINES, r#""class":"sum""#, "a\nb\na\n")?;
    expect_done(&rt, &left, COUNTED_TEXT, "a=1 b=1 |a=2 |");
    Ok(())
}

#[test]
fn words_are_counted(rt: HostRuntime) -> Result<(), Fail> {
    let left = simulate(rt.alloc(), WORDS_COUNTED, "a b\na\nc a\n")?;
    let text =
        "window 1 4294967296000000000 2\na\t2\nb\t1\nwindow 2 4294967296000000001 2\na\t3\nc\t1\n";
    expect_done(&rt, &left, text, "a=2 b=1 |a=3 c=1 |");
    let left = simulate(rt.alloc(), WORDS_COUNTED, "")?;
    expect_done(&rt, &left, "", "");
    Ok(())
}

#[test]
fn a_line_has_at_most_1024_bytes(rt: HostRuntime) -> Result<(), Fail> {
    let alloc = rt.alloc();
    let longest = copies(alloc, "x", 1024)?;
    let left = simulate(alloc, COUNTED, longest.as_str())?;
    let text = joined(
        alloc,
        &[
            "window 1 4294967296000000000 1\n",
            longest.as_str(),
            "\t1\n",
        ],
    )?;
    let stored = joined(alloc, &[longest.as_str(), "=1 |"])?;
    expect_done(&rt, &left, text.as_str(), stored.as_str());
    let longer = copies(alloc, "x", 1025)?;
    let left = simulate(alloc, COUNTED, longer.as_str())?;
    expect_refused(&rt, &left, 6, "apex: line 1 of in.txt refused: too long\n");
    Ok(())
}

#[test]
fn a_sum_wraps(rt: HostRuntime) -> Result<(), Fail> {
    let input = "k\t9223372036854775807\nk\t1\n";
    let left = pipe(rt.alloc(), SINGLE_PAIRS, r#""class":"sum""#, input)?;
    let text =
        "window 1 4294967296000000000 1\nk\t9223372036854775807\nwindow 2 4294967296000000001 1\nk\t-9223372036854775808\n";
    let stored = "k=9223372036854775807 |k=-9223372036854775808 |";
    expect_done(&rt, &left, text, stored);
    Ok(())
}

#[test]
fn the_top_rows_are_those_of_the_least_keys(rt: HostRuntime) -> Result<(), Fail> {
    let read = r#""class":"pairs","properties":{"file":"in.txt","perWindow":4}"#;
    let text = "window 1 4294967296000000000 2\na\t5\nb\t5\n";
    for step in [
        r#""class":"top","properties":{"k":2}"#,
        r#""class":"top","properties":{"k":2},"attributes":{"PARTITIONS":3}"#,
    ] {
        let left = pipe(rt.alloc(), read, step, "b\t5\na\t5\nc\t5\nd\t1\n")?;
        expect_done(&rt, &left, text, "a=5 b=5 |");
    }
    Ok(())
}

/// Four windows, each with the pair k 1.
const FOUR_WINDOWS: &str = "k\t1\nk\t1\nk\t1\nk\t1\n";

/// The stored rows of an operator over four windows, each with the pair k 1.
fn expect_stored(rt: &impl Abort, alloc: Global, step: &str, stored: &str) -> Result<(), Fail> {
    let left = pipe(alloc, SINGLE_PAIRS, step, FOUR_WINDOWS)?;
    assert_eq!(rt; left.stored.as_slice(), stored.as_bytes());
    assert_eq!(rt; left.status, 0);
    Ok(())
}

#[test]
fn a_tumbling_sum_is_told_at_every_third_window(rt: HostRuntime) -> Result<(), Fail> {
    let step = r#""class":"tumble","properties":{"every":3}"#;
    let left = pipe(rt.alloc(), SINGLE_PAIRS, step, FOUR_WINDOWS)?;
    let text =
        "window 1 4294967296000000000 0\nwindow 2 4294967296000000001 0\nwindow 3 4294967296000000002 1\nk\t3\nwindow 4 4294967296000000003 0\n";
    expect_done(&rt, &left, text, "||k=3 ||");
    Ok(())
}

#[test]
fn windows_are_gathered(rt: HostRuntime) -> Result<(), Fail> {
    let text =
        "window 1 4294967296000000000 0\nwindow 2 4294967296000000001 1\nk\t2\nwindow 3 4294967296000000002 0\nwindow 4 4294967296000000003 1\nk\t4\n";
    for sum in [
        r#""class":"sum","attributes":{"APPLICATION_WINDOW_COUNT":2}"#,
        r#""class":"sum","attributes":{"APPLICATION_WINDOW_COUNT":2,"PARTITIONS":2}"#,
    ] {
        let left = pipe(rt.alloc(), SINGLE_PAIRS, sum, FOUR_WINDOWS)?;
        expect_done(&rt, &left, text, "|k=2 ||k=4 |");
    }
    let tumble =
        r#""class":"tumble","properties":{"every":2},"attributes":{"APPLICATION_WINDOW_COUNT":2}"#;
    expect_stored(&rt, rt.alloc(), tumble, "|||k=4 |")?;
    let cut_short = r#""class":"sum","attributes":{"APPLICATION_WINDOW_COUNT":3}"#;
    expect_stored(&rt, rt.alloc(), cut_short, "||k=3 ||")
}

#[test]
fn gathered_windows_are_tumbled_by_two_partitions(rt: HostRuntime) -> Result<(), Fail> {
    let tumble =
        r#""class":"tumble","properties":{"every":2},"attributes":{"APPLICATION_WINDOW_COUNT":2,"PARTITIONS":2}"#;
    expect_stored(&rt, rt.alloc(), tumble, "|||k=4 |")
}

/// What a run leaves of two inputs, an operator of this class with two ports, and the store. The right
/// input ends a window before the left one.
fn pair_up(alloc: Global, class: &str) -> Result<Left, Fail> {
    let app = joined(
        alloc,
        &[
            r#"{"operators":[{"name":"one","class":"pairs","properties":{"file":"left.txt","perWindow":2}},{"name":"two","class":"pairs","properties":{"file":"right.txt","perWindow":2}},{"name":"step","class":""#,
            class,
            r#""},{"name":"out","class":"store"}],"streams":[{"name":"s1","source":{"operatorName":"one","portName":"output"},"sinks":[{"operatorName":"step","portName":"left"}]},{"name":"s2","source":{"operatorName":"two","portName":"output"},"sinks":[{"operatorName":"step","portName":"right"}]},{"name":"s3","source":{"operatorName":"step","portName":"output"},"sinks":[{"operatorName":"out","portName":"input"}]}]}"#,
        ],
    )?;
    let files = [
        ("app.json", app.as_str()),
        ("left.txt", "k\t1\nz\t1\nk\t2\nz\t1\n"),
        ("right.txt", "k\t7\nk\t10\n"),
    ];
    run(alloc, &["sim", "app.json"], &files)
}

#[test]
fn two_inputs_are_enriched_or_matched(rt: HostRuntime) -> Result<(), Fail> {
    let left = pair_up(rt.alloc(), "enrich")?;
    let text = "window 1 4294967296000000000 1\nk\t11\nwindow 2 4294967296000000001 1\nk\t12\n";
    expect_done(&rt, &left, text, "k=11 |k=12 |");
    let left = pair_up(rt.alloc(), "match")?;
    let text = "window 1 4294967296000000000 1\nk\t1\nwindow 2 4294967296000000001 0\n";
    expect_done(&rt, &left, text, "k=1 ||");
    Ok(())
}

#[test]
fn other_words_are_no_command(rt: HostRuntime) -> Result<(), Fail> {
    let rows: [&[&str]; 11] = [
        &[],
        &["sim"],
        &["sim", "app.json", "--order"],
        &["sim", "app.json", "--base", "4294959296"],
        &["sim", "app.json", "more"],
        &["sim", ""],
        &["check", "-app.json"],
        &["sim", "app.json", "--base", "1", "--base", "1"],
        &["mean", "app.json", "--order", "1"],
        &["run", "app.json", "--threads", "17"],
        // This is a command that isn't built yet.
        &["group", "app.json", "groups"],
    ];
    for given in rows {
        let left = run(
            rt.alloc(),
            given,
            &[("app.json", COUNTED), ("in.txt", "a\n")],
        )?;
        expect_refused(&rt, &left, 1, "apex: not a command\n");
    }
    Ok(())
}

/// What the counting of one line leaves where these reads fail.
fn fail_reads(alloc: Global, calls: Vec<u64>) -> Result<Left, Fail> {
    let files = folder(alloc, &[("app.json", COUNTED), ("in.txt", "a\n")])?;
    let mut files = FailingFolder::new(files, calls);
    let keeper = MemoryKeeper::new(alloc);
    run_on(
        alloc,
        &["sim", "app.json"],
        &mut files,
        keeper,
        MemoryOut::new(alloc),
    )
}

#[test]
fn a_failed_read_stops_the_run(rt: HostRuntime) -> Result<(), Fail> {
    let alloc = rt.alloc();
    let left = fail_reads(alloc, [1].to_vec(alloc)?)?;
    expect_refused(&rt, &left, 2, "apex: cannot read app.json\n");
    let left = fail_reads(alloc, [2].to_vec(alloc)?)?;
    expect_refused(&rt, &left, 2, "apex: cannot read in.txt\n");
    Ok(())
}

#[test]
fn an_absent_file_is_named(rt: HostRuntime) -> Result<(), Fail> {
    let left = run(rt.alloc(), &["sim", "app.json"], &[("in.txt", "a\n")])?;
    expect_refused(&rt, &left, 3, "apex: no file app.json\n");
    let left = run(rt.alloc(), &["sim", "app.json"], &[("app.json", COUNTED)])?;
    expect_refused(&rt, &left, 3, "apex: no file in.txt\n");
    Ok(())
}

#[test]
fn an_application_has_at_most_1_mib(rt: HostRuntime) -> Result<(), Fail> {
    let alloc = rt.alloc();
    let mut app = String::from_str(alloc, COUNTED)?;
    for _ in COUNTED.len()..1_048_576 {
        app.push_str(" ")?;
    }
    let left = simulate(alloc, app.as_str(), "a\nb\na\n")?;
    expect_done(&rt, &left, COUNTED_TEXT, "a=1 b=1 |a=2 |");
    app.push_str(" ")?;
    let left = simulate(alloc, app.as_str(), "a\nb\na\n")?;
    expect_refused(&rt, &left, 4, "apex: file too long app.json\n");
    Ok(())
}

#[test]
fn an_application_is_judged_before_its_inputs(rt: HostRuntime) -> Result<(), Fail> {
    let rows = [
        ("{", "apex: application refused: Syntax\n"),
        ("{}", "apex: application refused: Shape operators\n"),
        ("[]", "apex: application refused: Shape application\n"),
        (
            r#"{"operators":[],"streams":[]}"#,
            "apex: application refused: A9\n",
        ),
    ];
    for (app, err) in rows {
        for command in ["sim", "check"] {
            let left = run(rt.alloc(), &[command, "app.json"], &[("app.json", app)])?;
            expect_refused(&rt, &left, 5, err);
        }
    }
    Ok(())
}

/// What is left of the graph of an input, a join and two stores with these sinks of its two streams.
fn link(alloc: Global, first: &str, second: &str) -> Result<Left, Fail> {
    let app = joined(
        alloc,
        &[
            r#"{"operators":[{"name":"read","#,
            SINGLE_LINES,
            r#"},{"name":"join","class":"match"},{"name":"out","class":"store"},{"name":"spare","class":"store"}],"streams":[{"name":"s1","source":{"operatorName":"read","portName":"output"},"sinks":["#,
            first,
            r#"]},{"name":"s2","source":{"operatorName":"join","portName":"output"},"sinks":["#,
            second,
            "]}]}",
        ],
    )?;
    simulate(alloc, app.as_str(), "a\n")
}

#[test]
fn the_first_broken_rule_is_named(rt: HostRuntime) -> Result<(), Fail> {
    let alloc = rt.alloc();
    let one = r#"{"operatorName":"join","portName":"left"}"#;
    let other = r#"{"operatorName":"join","portName":"right"}"#;
    let out = r#"{"operatorName":"out","portName":"input"}"#;
    let spare = r#"{"operatorName":"spare","portName":"input"}"#;
    let open = joined(alloc, &[other, ",", out])?;
    let left = link(alloc, one, open.as_str())?;
    expect_refused(&rt, &left, 5, "apex: application refused: A7 spare\n");
    let round = joined(alloc, &[other, ",", out, ",", spare])?;
    let left = link(alloc, one, round.as_str())?;
    expect_refused(&rt, &left, 5, "apex: application refused: A8 join\n");
    let both = joined(alloc, &[one, ",", other])?;
    let stores = joined(alloc, &[out, ",", spare])?;
    let left = link(alloc, both.as_str(), stores.as_str())?;
    expect_refused(&rt, &left, 5, "apex: application refused: A10 spare\n");
    Ok(())
}

#[test]
fn a_refused_line_is_named(rt: HostRuntime) -> Result<(), Fail> {
    let alloc = rt.alloc();
    let left = pipe(alloc, SINGLE_PAIRS, r#""class":"sum""#, "k 1\n")?;
    expect_refused(&rt, &left, 6, "apex: line 1 of in.txt refused: no pair\n");
    let left = pipe(alloc, SINGLE_PAIRS, r#""class":"sum""#, "k\t1\nk\n")?;
    expect_refused(&rt, &left, 6, "apex: line 2 of in.txt refused: no pair\n");
    let many = copies(alloc, "a\n", 20_001)?;
    let left = pipe(alloc, SINGLE_LINES, r#""class":"count""#, many.as_str())?;
    let err = "apex: line 20001 of in.txt refused: too many windows\n";
    expect_refused(&rt, &left, 6, err);
    Ok(())
}

/// What the counting of three lines leaves where this call of the keeper fails.
fn fail_keeper(alloc: Global, call: u64, stores_first: bool) -> Result<Left, Fail> {
    let mut files = folder(alloc, &[("app.json", COUNTED), ("in.txt", "a\nb\na\n")])?;
    let calls = [call].to_vec(alloc)?;
    let keeper = FailingKeeper::new(MemoryKeeper::new(alloc), calls, stores_first);
    run_on(
        alloc,
        &["sim", "app.json"],
        &mut files,
        keeper,
        MemoryOut::new(alloc),
    )
}

#[test]
fn a_failed_store_leaves_the_first_windows(rt: HostRuntime) -> Result<(), Fail> {
    let err = "apex: sink store failed\n";
    let left = fail_keeper(rt.alloc(), 2, false)?;
    expect(&rt, &left, 9, "", err, "a=1 b=1 |");
    let left = fail_keeper(rt.alloc(), 2, true)?;
    expect(&rt, &left, 9, "", err, "a=1 b=1 |a=2 |");
    Ok(())
}

#[test]
fn a_store_that_fails_to_read_ends_the_printing(rt: HostRuntime) -> Result<(), Fail> {
    let left = fail_keeper(rt.alloc(), 4, false)?;
    let text = "window 1 4294967296000000000 2\na\t1\nb\t1\n";
    let err = "apex: sink store failed\n";
    expect(&rt, &left, 9, text, err, "a=1 b=1 |a=2 |");
    Ok(())
}

/// What the counting of three lines leaves where this write of the output fails.
fn fail_output(alloc: Global, call: u64) -> Result<Left, Fail> {
    let mut files = folder(alloc, &[("app.json", COUNTED), ("in.txt", "a\nb\na\n")])?;
    let out = MemoryOut::failing(alloc, [call].to_vec(alloc)?);
    let keeper = MemoryKeeper::new(alloc);
    run_on(alloc, &["sim", "app.json"], &mut files, keeper, out)
}

#[test]
fn a_failed_output_has_no_error_line(rt: HostRuntime) -> Result<(), Fail> {
    let left = fail_output(rt.alloc(), 1)?;
    expect(&rt, &left, 12, "", "", "a=1 b=1 |a=2 |");
    let left = fail_output(rt.alloc(), 2)?;
    let text = "window 1 4294967296000000000 2\na\t1\nb\t1\n";
    expect(&rt, &left, 12, text, "", "a=1 b=1 |a=2 |");
    Ok(())
}

#[test]
fn an_error_line_that_cannot_be_written_keeps_the_status(rt: HostRuntime) -> Result<(), Fail> {
    let alloc = rt.alloc();
    let mut files = folder(alloc, &[])?;
    let given = words(alloc, &["sim", "app.json"])?;
    let mut out = MemoryOut::new(alloc);
    let mut err = MemoryOut::failing(alloc, [1].to_vec(alloc)?);
    let devices = Devices {
        keeper: MemoryKeeper::new(alloc),
        vault: MemoryVault::new(alloc),
        spools: MemorySpools::new(alloc),
    };
    let Ended {
        status,
        end: _,
        devices,
        journal: _,
        shown: _,
        spool: _,
    } = plain(alloc, &given, &mut files, devices, &mut out, &mut err);
    let Devices {
        keeper,
        vault: _,
        spools: _,
    } = devices;
    assert_eq!(rt; status, 3);
    assert_eq!(rt; keeper.last(), 0);
    assert_eq!(rt; err.written(), b"".as_slice());
    assert_eq!(rt; out.written(), b"".as_slice());
    Ok(())
}

#[test]
fn a_check_stores_nothing(rt: HostRuntime) -> Result<(), Fail> {
    let alloc = rt.alloc();
    let left = run(alloc, &["check", "app.json"], &[("app.json", COUNTED)])?;
    expect(&rt, &left, 0, "ok\n", "", "");
    let mut files = folder(alloc, &[("app.json", COUNTED), ("in.txt", "a\n")])?;
    let mut keeper = MemoryKeeper::new(alloc);
    keeper.commit(1, &[])?;
    let out = MemoryOut::new(alloc);
    let left = run_on(alloc, &["check", "app.json"], &mut files, keeper, out)?;
    expect(&rt, &left, 0, "ok\n", "", "|");
    let keeper = MemoryKeeper::new(alloc);
    let out = MemoryOut::failing(alloc, [1].to_vec(alloc)?);
    let left = run_on(alloc, &["check", "app.json"], &mut files, keeper, out)?;
    expect(&rt, &left, 12, "", "", "");
    Ok(())
}

#[test]
fn a_stored_window_is_kept_and_the_rest_is_added(rt: HostRuntime) -> Result<(), Fail> {
    let alloc = rt.alloc();
    let given = words(alloc, &["sim", "app.json"])?;
    let mut begun = folder(alloc, &[("app.json", COUNTED), ("in.txt", "a\nb\n")])?;
    let (mut out, mut err) = (MemoryOut::new(alloc), MemoryOut::new(alloc));
    let devices = Devices {
        keeper: MemoryKeeper::new(alloc),
        vault: MemoryVault::new(alloc),
        spools: MemorySpools::new(alloc),
    };
    let Ended {
        status,
        end: _,
        devices,
        journal: _,
        shown: _,
        spool: _,
    } = plain(alloc, &given, &mut begun, devices, &mut out, &mut err);
    let Devices {
        keeper,
        vault: _,
        spools: _,
    } = devices;
    assert_eq!(rt; status, 0);
    assert_eq!(rt; keeper.last(), 1);
    let mut files = folder(alloc, &[("app.json", COUNTED), ("in.txt", "a\nb\na\n")])?;
    let out = MemoryOut::new(alloc);
    let left = run_on(alloc, &["sim", "app.json"], &mut files, keeper, out)?;
    expect_done(&rt, &left, COUNTED_TEXT, "a=1 b=1 |a=2 |");
    Ok(())
}

#[test]
fn a_stored_window_is_printed_as_it_stands(rt: HostRuntime) -> Result<(), Fail> {
    let alloc = rt.alloc();
    let mut files = folder(alloc, &[("app.json", COUNTED), ("in.txt", "a\nb\na\n")])?;
    let mut keeper = MemoryKeeper::new(alloc);
    keeper.commit(1, &[])?;
    let out = MemoryOut::new(alloc);
    let left = run_on(alloc, &["sim", "app.json"], &mut files, keeper, out)?;
    let text = "window 1 4294967296000000000 0\nwindow 2 4294967296000000001 1\na\t2\n";
    expect_done(&rt, &left, text, "|a=2 |");
    Ok(())
}

/// What the words leave of the counting of words, over a store with a window and an output of which these writes fail.
fn mean_on(alloc: Global, given: &[&str], fails: Vec<u64>) -> Result<Left, Fail> {
    let app = ("app.json", WORDS_COUNTED);
    let mut files = folder(alloc, &[app, ("in.txt", "a b\na\nc a\n")])?;
    let mut keeper = MemoryKeeper::new(alloc);
    keeper.commit(1, &[])?;
    let out = MemoryOut::failing(alloc, fails);
    run_on(alloc, given, &mut files, keeper, out)
}

#[test]
fn a_mean_is_printed_and_not_stored(rt: HostRuntime) -> Result<(), Fail> {
    let alloc = rt.alloc();
    let left = mean_on(alloc, &["mean", "app.json"], Vec::new(alloc))?;
    let text =
        "window 1 4294967296000000000 2\na\t2\nb\t1\nwindow 2 4294967296000000001 2\na\t3\nc\t1\n";
    expect_done(&rt, &left, text, "|");
    let words: &[&str] = &["mean", "app.json", "--base", "1"];
    let left = mean_on(alloc, words, Vec::new(alloc))?;
    let text = "window 1 4294967296 2\na\t2\nb\t1\nwindow 2 4294967297 2\na\t3\nc\t1\n";
    expect_done(&rt, &left, text, "|");
    let left = mean_on(alloc, &["mean", "app.json"], [1].to_vec(alloc)?)?;
    expect(&rt, &left, 12, "", "", "|");
    let left = run(alloc, &["mean", "app.json"], &[("app.json", COUNTED)])?;
    expect_refused(&rt, &left, 3, "apex: no file in.txt\n");
    Ok(())
}

#[test]
fn an_application_is_planned(rt: HostRuntime) -> Result<(), Fail> {
    let alloc = rt.alloc();
    let left = run(alloc, &["plan", "app.json"], &[("app.json", WORDS_COUNTED)])?;
    let text =
        "operator 0 lines 1 read\n  partition 0 mask 0 keys 0\noperator 1 words 1 split\n  partition 0 mask 0 keys 0\noperator 2 count 2 tally\n  partition 0 mask 1 keys 0\n  partition 1 mask 1 keys 1\noperator 3 store 1 out\n  partition 0 mask 0 keys 0\n";
    expect_done(&rt, &left, text, "");
    let left = run(alloc, &["plan", "app.json"], &[("app.json", "{")])?;
    expect_refused(&rt, &left, 5, "apex: application refused: Syntax\n");
    Ok(())
}

#[test]
fn an_application_that_is_judged_or_planned_is_read_alone(rt: HostRuntime) -> Result<(), Fail> {
    let alloc = rt.alloc();
    for command in ["check", "plan"] {
        let files = folder(alloc, &[("app.json", COUNTED), ("in.txt", "a\n")])?;
        let mut files = FailingFolder::new(files, [2].to_vec(alloc)?);
        let keeper = MemoryKeeper::new(alloc);
        let out = MemoryOut::new(alloc);
        let left = run_on(alloc, &[command, "app.json"], &mut files, keeper, out)?;
        assert_eq!(rt; (left.status, files.faults()), (0, 0));
    }
    Ok(())
}

/// What a run of the counting of three lines with this script leaves.
fn scripted(alloc: Global, script: &str) -> Result<Left, Fail> {
    let files = [
        ("app.json", COUNTED),
        ("in.txt", "a\nb\na\n"),
        ("script", script),
    ];
    run(
        alloc,
        &["sim", "app.json", "--script", "script", "--checkpoint", "2"],
        &files,
    )
}

#[test]
fn a_script_is_judged_behind_the_inputs(rt: HostRuntime) -> Result<(), Fail> {
    let alloc = rt.alloc();
    let left = scripted(alloc, "# nothing is commanded\n\n")?;
    expect_done(&rt, &left, COUNTED_TEXT, "a=1 b=1 |a=2 |");
    let left = scripted(alloc, "repartition 2 3 tally\n")?;
    expect_done(&rt, &left, COUNTED_TEXT, "a=1 b=1 |a=2 |");
    for (script, status, err) in [
        ("kill now 1 0 out\n", 7, "apex: script line 1 refused: S1\n"),
        (
            "\nkill done 1 0 none\n",
            7,
            "apex: script line 2 refused: S3\n",
        ),
        (
            "kill written 1 0 tally\n",
            7,
            "apex: script line 1 refused: S10\n",
        ),
        (
            "kill done 1 1 tally\n",
            7,
            "apex: script line 1 refused: S9\n",
        ),
        (
            "repartition 1 2 tally\n",
            7,
            "apex: script line 1 refused: S5\n",
        ),
    ] {
        expect_refused(&rt, &scripted(alloc, script)?, status, err);
    }
    let given = ["sim", "app.json", "--script", "script"];
    let left = run(alloc, &given, &[("app.json", COUNTED)])?;
    expect_refused(&rt, &left, 3, "apex: no file in.txt\n");
    let left = run(alloc, &given, &[("app.json", COUNTED), ("in.txt", "a\n")])?;
    expect_refused(&rt, &left, 3, "apex: no file script\n");
    Ok(())
}

#[test]
fn identifiers_begin_at_the_base(rt: HostRuntime) -> Result<(), Fail> {
    let files = [("app.json", COUNTED), ("in.txt", "a\n")];
    let given = ["sim", "app.json", "--order", "7", "--base", "1"];
    let left = run(rt.alloc(), &given, &files)?;
    expect_done(&rt, &left, "window 1 4294967296 1\na\t1\n", "a=1 |");
    Ok(())
}

/// What the words leave over a folder that tells nothing and gives these contents in turn.
fn run_listed(alloc: Global, given: &[&str], contents: &[&str]) -> Result<Left, Fail> {
    let mut list = Vec::new(alloc);
    for text in contents {
        list.push(text.as_bytes().to_vec(alloc)?)?;
    }
    let mut files = ListedFolder::new(list);
    let keeper = MemoryKeeper::new(alloc);
    run_on(alloc, given, &mut files, keeper, MemoryOut::new(alloc))
}

#[test]
fn a_folder_that_tells_nothing_is_read_as_any(rt: HostRuntime) -> Result<(), Fail> {
    let alloc = rt.alloc();
    let left = run_listed(alloc, &["sim", "app.json"], &[COUNTED, "a\nb\na\n"])?;
    expect_done(&rt, &left, COUNTED_TEXT, "a=1 b=1 |a=2 |");
    let left = run_listed(alloc, &["sim", "app.json"], &[COUNTED])?;
    expect_refused(&rt, &left, 3, "apex: no file in.txt\n");
    let left = run_listed(alloc, &["check", "app.json"], &[COUNTED, "{"])?;
    expect(&rt, &left, 0, "ok\n", "", "");
    let script = ["sim", "app.json", "--script", "s"];
    let left = run_listed(alloc, &script, &[COUNTED, "a\n", "kill done 2 0 tally\n"])?;
    expect_refused(&rt, &left, 7, "apex: script line 1 refused: S4\n");
    let left = run_listed(alloc, &["plan", "app.json"], &[])?;
    expect_refused(&rt, &left, 3, "apex: no file app.json\n");
    let left = run_listed(alloc, &["plan"], &[COUNTED])?;
    expect_refused(&rt, &left, 1, "apex: not a command\n");
    Ok(())
}
