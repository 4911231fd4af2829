//! The applications of the folder examples/, from the text of their files, with the rows that their pages show.
//! `tools/examples` checks that these are the texts, and `tools/examples --write` writes them.
use super::*;
use crate::calls::plain;
use apx_device::{MemoryFolder, MemoryKeeper, MemoryOut, MemorySpools, MemoryVault};
use std::alloc::{AllocError, Global};
use std::process::Abort;
use std::test::Fail;

// The words `sim app.json`.
fn sim(alloc: Global) -> Result<Vec<String>, AllocError> {
    let mut words = Vec::new(alloc);
    words.push(String::from_str(alloc, "sim")?)?;
    words.push(String::from_str(alloc, "app.json")?)?;
    Ok(words)
}

// A run of the application over these files ends well and prints these rows.
fn expect_rows(
    rt: &impl Abort,
    alloc: Global,
    app: &str,
    inputs: &[(&str, &str)],
    rows: &str,
) -> Result<(), Fail> {
    let mut files = MemoryFolder::new(alloc);
    files.add(alloc, "app.json", app.as_bytes().to_vec(alloc)?)?;
    for (name, text) in inputs {
        files.add(alloc, name, text.as_bytes().to_vec(alloc)?)?;
    }
    let words = sim(alloc)?;
    let devices = Devices {
        keeper: MemoryKeeper::new(alloc),
        vault: MemoryVault::new(alloc),
        spools: MemorySpools::new(alloc),
    };
    let (mut out, mut err) = (MemoryOut::new(alloc), MemoryOut::new(alloc));
    let Ended {
        status,
        end: _,
        devices: _,
        journal: _,
        shown: _,
        spool: _,
    } = plain(alloc, &words, &mut files, devices, &mut out, &mut err);
    assert_eq!(rt; std::str::from_utf8(out.written())?, rows);
    assert_eq!(rt; status, 0);
    Ok(())
}

#[test]
fn example_word_count(rt: HostRuntime) -> Result<(), Fail> {
    let app = r#"{"operators": [
  {"name": "read", "class": "lines", "properties": {"file": "in.txt", "perWindow": 2}},
  {"name": "split", "class": "words"},
  {"name": "tally", "class": "count"},
  {"name": "out", "class": "store"}],
 "streams": [
  {"name": "lines", "source": {"operatorName": "read", "portName": "output"}, "sinks": [{"operatorName": "split", "portName": "input"}]},
  {"name": "words", "source": {"operatorName": "split", "portName": "output"}, "sinks": [{"operatorName": "tally", "portName": "input"}]},
  {"name": "counts", "source": {"operatorName": "tally", "portName": "output"}, "sinks": [{"operatorName": "out", "portName": "input"}]}]}
"#;
    let inputs = [(
        "in.txt",
        "to be or not\nto be is to do\ndo or do not\nbe\nnot now\n",
    )];
    let rows =
        "window 1 4294967296000000000 6\nbe\t2\ndo\t1\nis\t1\nnot\t1\nor\t1\nto\t3\nwindow 2 4294967296000000001 4\nbe\t3\ndo\t3\nnot\t2\nor\t2\nwindow 3 4294967296000000002 2\nnot\t3\nnow\t1\n";
    expect_rows(&rt, rt.alloc(), app, &inputs, rows)
}

#[test]
fn example_top_pages(rt: HostRuntime) -> Result<(), Fail> {
    let app = r#"{"operators": [
  {"name": "log", "class": "pairs", "properties": {"file": "hits.txt", "perWindow": 6}},
  {"name": "hits", "class": "sum"},
  {"name": "ranking", "class": "top", "properties": {"k": 3}},
  {"name": "out", "class": "store"}],
 "streams": [
  {"name": "requests", "source": {"operatorName": "log", "portName": "output"}, "sinks": [{"operatorName": "hits", "portName": "input"}]},
  {"name": "totals", "source": {"operatorName": "hits", "portName": "output"}, "sinks": [{"operatorName": "ranking", "portName": "input"}]},
  {"name": "best", "source": {"operatorName": "ranking", "portName": "output"}, "sinks": [{"operatorName": "out", "portName": "input"}]}]}
"#;
    let inputs = [(
        "hits.txt",
        "/home\t1\n/docs\t1\n/home\t1\n/about\t1\n/blog\t1\n/docs\t1\n/blog\t1\n/blog\t1\n/docs\t1\n/home\t1\n/blog\t1\n/jobs\t1\n/jobs\t1\n/about\t1\n",
    )];
    let rows =
        "window 1 4294967296000000000 3\n/about\t1\n/docs\t2\n/home\t2\nwindow 2 4294967296000000001 3\n/blog\t4\n/docs\t3\n/home\t3\nwindow 3 4294967296000000002 2\n/about\t2\n/jobs\t2\n";
    expect_rows(&rt, rt.alloc(), app, &inputs, rows)
}

#[test]
fn example_priced_orders(rt: HostRuntime) -> Result<(), Fail> {
    let app = r#"{"operators": [
  {"name": "orders", "class": "pairs", "properties": {"file": "orders.txt", "perWindow": 4}},
  {"name": "prices", "class": "pairs", "properties": {"file": "prices.txt", "perWindow": 2}},
  {"name": "total", "class": "enrich"},
  {"name": "out", "class": "store"}],
 "streams": [
  {"name": "ordered", "source": {"operatorName": "orders", "portName": "output"}, "sinks": [{"operatorName": "total", "portName": "left"}]},
  {"name": "listed", "source": {"operatorName": "prices", "portName": "output"}, "sinks": [{"operatorName": "total", "portName": "right"}]},
  {"name": "priced", "source": {"operatorName": "total", "portName": "output"}, "sinks": [{"operatorName": "out", "portName": "input"}]}]}
"#;
    let inputs = [
        (
            "orders.txt",
            "lamp\t450\nmug\t300\nsofa\t9900\nlamp\t0\nmug\t300\ndesk\t2500\nlamp\t450\nsofa\t9900\ndesk\t2500\nlamp\t450\nmug\t0\n",
        ),
        (
            "prices.txt",
            "lamp\t1999\nmug\t750\ndesk\t12000\nmug\t820\nlamp\t1799\n",
        ),
    ];
    let rows =
        "window 1 4294967296000000000 3\nlamp\t1999\nlamp\t2449\nmug\t1050\nwindow 2 4294967296000000001 3\ndesk\t14500\nlamp\t2449\nmug\t1120\nwindow 3 4294967296000000002 3\ndesk\t14500\nlamp\t2249\nmug\t820\n";
    expect_rows(&rt, rt.alloc(), app, &inputs, rows)
}

#[test]
fn example_first_visits(rt: HostRuntime) -> Result<(), Fail> {
    let app = r#"{"operators": [
  {"name": "visits", "class": "pairs", "properties": {"file": "visits.txt", "perWindow": 4}},
  {"name": "newcomers", "class": "first"},
  {"name": "out", "class": "store"}],
 "streams": [
  {"name": "seen", "source": {"operatorName": "visits", "portName": "output"}, "sinks": [{"operatorName": "newcomers", "portName": "input"}]},
  {"name": "new", "source": {"operatorName": "newcomers", "portName": "output"}, "sinks": [{"operatorName": "out", "portName": "input"}]}]}
"#;
    let inputs = [(
        "visits.txt",
        "ana\t610\nben\t605\nana\t600\ncy\t615\nben\t660\ndia\t671\nana\t662\ndia\t665\nana\t720\ncy\t725\n",
    )];
    let rows =
        "window 1 4294967296000000000 3\nana\t600\nben\t605\ncy\t615\nwindow 2 4294967296000000001 1\ndia\t665\nwindow 3 4294967296000000002 0\n";
    expect_rows(&rt, rt.alloc(), app, &inputs, rows)
}

#[test]
fn example_meter_totals(rt: HostRuntime) -> Result<(), Fail> {
    let app = r#"{"operators": [
  {"name": "meters", "class": "pairs", "properties": {"file": "readings.txt", "perWindow": 2}},
  {"name": "total", "class": "tumble", "properties": {"every": 3}},
  {"name": "out", "class": "store"}],
 "streams": [
  {"name": "readings", "source": {"operatorName": "meters", "portName": "output"}, "sinks": [{"operatorName": "total", "portName": "input"}]},
  {"name": "totals", "source": {"operatorName": "total", "portName": "output"}, "sinks": [{"operatorName": "out", "portName": "input"}]}]}
"#;
    let inputs = [(
        "readings.txt",
        "north\t12\nsouth\t7\nnorth\t9\nsouth\t11\nnorth\t14\nsouth\t5\nnorth\t10\nsouth\t8\nnorth\t13\nwest\t20\nsouth\t6\nwest\t4\nnorth\t11\nsouth\t9\n",
    )];
    let rows =
        "window 1 4294967296000000000 0\nwindow 2 4294967296000000001 0\nwindow 3 4294967296000000002 2\nnorth\t35\nsouth\t23\nwindow 4 4294967296000000003 0\nwindow 5 4294967296000000004 0\nwindow 6 4294967296000000005 3\nnorth\t23\nsouth\t14\nwest\t24\nwindow 7 4294967296000000006 0\n";
    expect_rows(&rt, rt.alloc(), app, &inputs, rows)
}

#[test]
fn example_allowed_users(rt: HostRuntime) -> Result<(), Fail> {
    let app = r#"{"operators": [
  {"name": "entries", "class": "pairs", "properties": {"file": "entries.txt", "perWindow": 3}},
  {"name": "duty", "class": "lines", "properties": {"file": "on-duty.txt", "perWindow": 2}},
  {"name": "allowed", "class": "match"},
  {"name": "out", "class": "store"}],
 "streams": [
  {"name": "tried", "source": {"operatorName": "entries", "portName": "output"}, "sinks": [{"operatorName": "allowed", "portName": "left"}]},
  {"name": "listed", "source": {"operatorName": "duty", "portName": "output"}, "sinks": [{"operatorName": "allowed", "portName": "right"}]},
  {"name": "passed", "source": {"operatorName": "allowed", "portName": "output"}, "sinks": [{"operatorName": "out", "portName": "input"}]}]}
"#;
    let inputs = [
        (
            "entries.txt",
            "ana\t4\neve\t2\nben\t4\neve\t1\nana\t2\ncy\t3\nben\t5\nben\t4\neve\t2\nana\t4\n",
        ),
        ("on-duty.txt", "ana\nben\ncy\neve\nben\n"),
    ];
    let rows =
        "window 1 4294967296000000000 2\nana\t4\nben\t4\nwindow 2 4294967296000000001 2\ncy\t3\neve\t1\nwindow 3 4294967296000000002 2\nben\t4\nben\t5\nwindow 4 4294967296000000003 0\n";
    expect_rows(&rt, rt.alloc(), app, &inputs, rows)
}

#[test]
fn example_warm_rooms(rt: HostRuntime) -> Result<(), Fail> {
    let app = r#"{"operators": [
  {"name": "sensors", "class": "pairs", "properties": {"file": "sensors.txt", "perWindow": 3}},
  {"name": "warm", "class": "keep", "properties": {"min": 250}},
  {"name": "rooms", "class": "prefix", "properties": {"len": 1}},
  {"name": "record", "class": "peak"},
  {"name": "out", "class": "store"}],
 "streams": [
  {"name": "measured", "source": {"operatorName": "sensors", "portName": "output"}, "sinks": [{"operatorName": "warm", "portName": "input"}]},
  {"name": "high", "source": {"operatorName": "warm", "portName": "output"}, "sinks": [{"operatorName": "rooms", "portName": "input"}]},
  {"name": "by-room", "source": {"operatorName": "rooms", "portName": "output"}, "sinks": [{"operatorName": "record", "portName": "input"}]},
  {"name": "records", "source": {"operatorName": "record", "portName": "output"}, "sinks": [{"operatorName": "out", "portName": "input"}]}]}
"#;
    let inputs = [(
        "sensors.txt",
        "a1\t248\na2\t251\nb1\t262\na1\t255\nb1\t260\nc1\t239\na2\t250\nb2\t271\nc1\t256\n",
    )];
    let rows =
        "window 1 4294967296000000000 2\na\t251\nb\t262\nwindow 2 4294967296000000001 1\na\t255\nwindow 3 4294967296000000002 2\nb\t271\nc\t256\n";
    expect_rows(&rt, rt.alloc(), app, &inputs, rows)
}

#[test]
fn example_half_hours(rt: HostRuntime) -> Result<(), Fail> {
    let app = r#"{"operators": [
  {"name": "meters", "class": "pairs", "properties": {"file": "pulses.txt", "perWindow": 2}},
  {"name": "watt-hours", "class": "scale", "properties": {"factor": 10}},
  {"name": "total", "class": "sum", "attributes": {"APPLICATION_WINDOW_COUNT": 2}},
  {"name": "out", "class": "store"}],
 "streams": [
  {"name": "pulses", "source": {"operatorName": "meters", "portName": "output"}, "sinks": [{"operatorName": "watt-hours", "portName": "input"}]},
  {"name": "used", "source": {"operatorName": "watt-hours", "portName": "output"}, "sinks": [{"operatorName": "total", "portName": "input"}]},
  {"name": "totals", "source": {"operatorName": "total", "portName": "output"}, "sinks": [{"operatorName": "out", "portName": "input"}]}]}
"#;
    let inputs = [(
        "pulses.txt",
        "hall\t3\nyard\t1\nhall\t2\nhall\t4\nyard\t5\nhall\t1\nyard\t2\nyard\t2\nhall\t7\n",
    )];
    let rows =
        "window 1 4294967296000000000 0\nwindow 2 4294967296000000001 2\nhall\t90\nyard\t10\nwindow 3 4294967296000000002 0\nwindow 4 4294967296000000003 2\nhall\t100\nyard\t100\nwindow 5 4294967296000000004 0\n";
    expect_rows(&rt, rt.alloc(), app, &inputs, rows)
}
