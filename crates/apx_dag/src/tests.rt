//! Applications that are accepted, and those that are refused one change away.

use super::*;
use apx_json::{Name, read_app};
use apx_tuple::{InputKind, Kind};
use std::alloc::Global;
use std::process::Abort;
use std::test::Fail;

/// Two inputs that are joined, counted and stored, against their order.
const JOINED: &str = r#"{"operators":[
{"name":"tally","class":"count","attributes":{"PARTITIONS":2,"APPLICATION_WINDOW_COUNT":3}},
{"name":"out","class":"store"},
{"name":"join","class":"match"},
{"name":"side","class":"pairs","properties":{"file":"b.txt","perWindow":"5"}},
{"name":"read","class":"lines","properties":{"file":"a.txt","perWindow":2}}],
"streams":[
{"name":"s1","source":{"operatorName":"read","portName":"output"},"sinks":[{"operatorName":"join","portName":"left"}]},
{"name":"s2","source":{"operatorName":"side","portName":"output"},"sinks":[{"operatorName":"join","portName":"right"}]},
{"name":"s3","source":{"operatorName":"join","portName":"output"},"sinks":[{"operatorName":"tally","portName":"input"}]},
{"name":"s4","source":{"operatorName":"tally","portName":"output"},"sinks":[{"operatorName":"out","portName":"input"}]}]}"#;

const TO_OUT: &str = r#"{"operatorName":"out","portName":"input"}"#;

const TO_OUTS: &str =
    r#"{"operatorName":"out","portName":"input"},{"operatorName":"out2","portName":"input"}"#;

const TO_RIGHT: &str = r#"{"operatorName":"join","portName":"right"}"#;

const STORE: &str = r#"{"name":"out","class":"store"}"#;

const STORES: &str = r#"{"name":"out","class":"store"},{"name":"out2","class":"store"}"#;

const READ: &str = r#""name":"read","class":"lines""#;

const READ_BY_TWO: &str = r#""name":"read","class":"lines","attributes":{"PARTITIONS":2}"#;

const READ_EVERY_TWO: &str =
    r#""name":"read","class":"lines","attributes":{"APPLICATION_WINDOW_COUNT":2}"#;

const IDLE: &str =
    r#"{"name":"out","class":"store"},{"name":"idle","class":"lines","properties":{"file":"c","perWindow":1}}"#;

/// An input whose stream goes to eight ports; four joins of these, and joins of the joins.
const WIDE: &str = r#"{"operators":[
{"name":"read","class":"lines","properties":{"file":"a.txt","perWindow":1}},
{"name":"side","class":"lines","properties":{"file":"b.txt","perWindow":1}},
{"name":"m1","class":"match"},{"name":"m2","class":"match"},{"name":"m3","class":"match"},{"name":"m4","class":"match"},
{"name":"m5","class":"match"},{"name":"m6","class":"match"},{"name":"m7","class":"match"},{"name":"m8","class":"match"},
{"name":"out","class":"store"}],
"streams":[
{"name":"wide","source":{"operatorName":"read","portName":"output"},"sinks":[
{"operatorName":"m1","portName":"left"},{"operatorName":"m1","portName":"right"},
{"operatorName":"m2","portName":"left"},{"operatorName":"m2","portName":"right"},
{"operatorName":"m3","portName":"left"},{"operatorName":"m3","portName":"right"},
{"operatorName":"m4","portName":"left"},{"operatorName":"m4","portName":"right"}]},
{"name":"narrow","source":{"operatorName":"side","portName":"output"},"sinks":[{"operatorName":"m8","portName":"left"}]},
{"name":"from_m1","source":{"operatorName":"m1","portName":"output"},"sinks":[{"operatorName":"m5","portName":"left"}]},
{"name":"from_m2","source":{"operatorName":"m2","portName":"output"},"sinks":[{"operatorName":"m5","portName":"right"}]},
{"name":"from_m3","source":{"operatorName":"m3","portName":"output"},"sinks":[{"operatorName":"m6","portName":"left"}]},
{"name":"from_m4","source":{"operatorName":"m4","portName":"output"},"sinks":[{"operatorName":"m6","portName":"right"}]},
{"name":"from_m5","source":{"operatorName":"m5","portName":"output"},"sinks":[{"operatorName":"m7","portName":"left"}]},
{"name":"from_m6","source":{"operatorName":"m6","portName":"output"},"sinks":[{"operatorName":"m7","portName":"right"}]},
{"name":"from_m7","source":{"operatorName":"m7","portName":"output"},"sinks":[{"operatorName":"m8","portName":"right"}]},
{"name":"from_m8","source":{"operatorName":"m8","portName":"output"},"sinks":[{"operatorName":"out","portName":"input"}]}]}"#;

const TO_LAST: &str = r#"{"operatorName":"m8","portName":"left"}"#;

const AND_TO_LAST: &str = r#",{"operatorName":"m8","portName":"left"}]},"#;

type Change<'a> = (&'a str, &'a str);

/// A change that changes nothing.
const NONE: Change<'static> = ("\"operators\"", "\"operators\"");

/// The last stream comes from the second input.
const FROM_SIDE: Change<'static> = (
    r#""name":"s4","source":{"operatorName":"tally""#,
    r#""name":"s4","source":{"operatorName":"side""#,
);

const NO_STORE: Change<'static> = (r#"{"name":"out","class":"store"},"#, "");

/// A stream without sinks from another input.
const FROM_IDLE: Change<'static> = (
    r#""streams":["#,
    r#""streams":[{"name":"s5","source":{"operatorName":"idle","portName":"output"},"sinks":[]},"#,
);

fn changed(alloc: Global, text: &str, change: Change<'_>) -> Result<String, Fail> {
    let (before, after) = text.split_once(change.0).ok_or(change.0)?;
    let new = change.1;
    Ok(format!(in alloc; "{before}{new}{after}")?)
}

/// The rule that is broken and its place, 0 where none is.
fn answer(alloc: Global, text: &str) -> Result<(u8, Name), Fail> {
    match Dag::of(alloc, read_app(alloc, text.as_bytes())?) {
        Ok(_) => Ok((0, Name::of(alloc, "accepted")?)),
        Err(AppRefusal::Refused { code, place }) => Ok((code, place)),
        Err(refusal) => Err(refusal)?,
    }
}

fn refused(rt: &impl Abort, alloc: Global, text: &str, want: (u8, &str)) -> Result<(), Fail> {
    let (code, place) = answer(alloc, text)?;
    assert_eq!(rt; code, want.0, "{text}");
    assert_eq!(rt; place.text(), want.1, "{text}");
    Ok(())
}

#[test]
fn one_change_away_from_a_graph(rt: HostRuntime) -> Result<(), Fail> {
    let alloc = rt.alloc();
    let rows: [(Change<'static>, Change<'static>, u8, &str); 25] = [
        (NONE, NONE, 0, "accepted"),
        ((r#""name":"side""#, r#""name":"out""#), NONE, 2, "out"),
        ((r#""name":"s4""#, r#""name":"s1""#), NONE, 2, "s1"),
        (
            (r#""class":"match""#, r#""class":"Match""#),
            NONE,
            3,
            "join",
        ),
        ((r#""perWindow":2"#, r#""perWindow":0"#), NONE, 4, "read"),
        ((r#""perWindow":2"#, r#""perWindow":1e3"#), NONE, 4, "read"),
        ((r#""file":"b.txt""#, r#""File":"b.txt""#), NONE, 4, "side"),
        ((r#""file":"b.txt","#, ""), NONE, 4, "side"),
        (
            (r#""portName":"left""#, r#""portName":"input""#),
            NONE,
            5,
            "s1",
        ),
        (
            (r#""operatorName":"side""#, r#""operatorName":"out""#),
            NONE,
            5,
            "s2",
        ),
        (
            (r#""operatorName":"side""#, r#""operatorName":"read""#),
            NONE,
            6,
            "s2",
        ),
        (
            (r#""portName":"right""#, r#""portName":"left""#),
            NONE,
            6,
            "s2",
        ),
        ((TO_RIGHT, ""), NONE, 7, "join"),
        (
            (r#""operatorName":"side""#, r#""operatorName":"tally""#),
            FROM_SIDE,
            8,
            "tally",
        ),
        (NO_STORE, (TO_OUT, ""), 9, ""),
        ((STORE, STORES), (TO_OUT, TO_OUTS), 10, "out2"),
        (
            (r#""PARTITIONS":2"#, r#""PARTITIONS":9"#),
            NONE,
            11,
            "tally",
        ),
        (
            (r#""PARTITIONS":2"#, r#""PARTITIONS":0"#),
            NONE,
            11,
            "tally",
        ),
        ((READ, READ_BY_TWO), NONE, 12, "read"),
        ((STORE, IDLE), FROM_IDLE, 13, "s5"),
        ((r#""name":"s3""#, r#""name":"""#), NONE, 14, ""),
        ((r#""name":"s3""#, r#""name":"\u001f""#), NONE, 14, ""),
        ((r#"COUNT":3"#, r#"COUNT":0"#), NONE, 15, "tally"),
        ((r#"COUNT":3"#, r#"COUNT":20001"#), NONE, 15, "tally"),
        ((READ, READ_EVERY_TWO), NONE, 16, "read"),
    ];
    for (first, second, code, place) in rows {
        let once = changed(alloc, JOINED, first)?;
        let twice = changed(alloc, once.as_str(), second)?;
        refused(&rt, alloc, twice.as_str(), (code, place))?;
    }
    Ok(())
}

#[test]
fn the_first_rule_in_order(rt: HostRuntime) -> Result<(), Fail> {
    let alloc = rt.alloc();
    // Two stores; then a cycle too; then an open port too.
    let stores = changed(alloc, JOINED, (STORE, STORES))?;
    let two_sinks = changed(alloc, stores.as_str(), (TO_OUT, TO_OUTS))?;
    refused(&rt, alloc, two_sinks.as_str(), (10, "out2"))?;
    let swapped = changed(alloc, two_sinks.as_str(), (TO_OUTS, "SINKS"))?;
    let half = changed(alloc, swapped.as_str(), (TO_RIGHT, TO_OUTS))?;
    let cycle = changed(alloc, half.as_str(), ("SINKS", TO_RIGHT))?;
    refused(&rt, alloc, cycle.as_str(), (8, "tally"))?;
    let open = changed(alloc, half.as_str(), ("SINKS", ""))?;
    refused(&rt, alloc, open.as_str(), (7, "join"))?;
    refused(&rt, alloc, r#"{"operators":[],"streams":[]}"#, (9, ""))?;
    Ok(())
}

#[test]
fn at_most_sixteen_operators(rt: HostRuntime) -> Result<(), Fail> {
    let alloc = rt.alloc();
    let mut text = String::from_str(alloc, JOINED)?;
    for _ in 5..16 {
        text = changed(
            alloc,
            text.as_str(),
            (
                STORE,
                r#"{"name":"x","class":"sum"},{"name":"out","class":"store"}"#,
            ),
        )?;
    }
    refused(&rt, alloc, text.as_str(), (2, "x"))?;
    let more = changed(alloc, text.as_str(), (STORE, STORES))?;
    refused(&rt, alloc, more.as_str(), (1, ""))
}

#[test]
fn a_graph_has_its_operators_and_their_order(rt: HostRuntime) -> Result<(), Fail> {
    let alloc = rt.alloc();
    let dag = Dag::of(alloc, read_app(alloc, JOINED.as_bytes())?)?;
    assert_eq!(rt; dag.len(), 5);
    assert!(rt; !dag.is_empty());
    assert_eq!(rt; dag.order(), [3, 4, 2, 0, 1].as_slice());
    assert_eq!(rt; dag.find(b"join"), Some(2));
    assert_eq!(rt; dag.find(b"joins"), None);
    let join = dag.node(2);
    assert_eq!(rt;
        (join.left, join.right, join.partitions, join.app_windows),
        (4, 3, 1, 1)
    );
    assert!(rt; matches!(join.role, Role::Inner(Kind::Match)));
    let tally = dag.node(0);
    assert_eq!(rt;
        (tally.left, tally.right, tally.partitions, tally.app_windows),
        (2, 0, 2, 3)
    );
    let Role::Input {
        kind,
        file,
        per_window,
    } = &dag.node(3).role
    else {
        return Err("an input")?;
    };
    assert_eq!(rt; *kind, InputKind::Pairs);
    assert_eq!(rt; (file.text(), *per_window), ("b.txt", 5));
    Ok(())
}

/// Judges the application with a value in place of the `@` of a change.
fn refused_with(
    rt: &impl Abort,
    alloc: Global,
    change: Change<'_>,
    value: &str,
    want: (u8, &str),
) -> Result<(), Fail> {
    let text = changed(alloc, JOINED, change)?;
    let text = changed(alloc, text.as_str(), ("@", value))?;
    refused(rt, alloc, text.as_str(), want)
}

#[test]
fn both_sides_of_each_range(rt: HostRuntime) -> Result<(), Fail> {
    let alloc = rt.alloc();
    let per_window = (r#""perWindow":2"#, r#""perWindow":@"#);
    let k = (r#""count""#, r#""top","properties":{"k":@}"#);
    let every = (r#""count""#, r#""tumble","properties":{"every":@}"#);
    let len = (r#""count""#, r#""prefix","properties":{"len":@}"#);
    let partitions = (r#""PARTITIONS":2"#, r#""PARTITIONS":@"#);
    let app_windows = (r#"COUNT":3"#, r#"COUNT":@"#);
    // What is changed, the values below, at both ends and above, and the rule that those outside break.
    let rows: [(Change<'static>, [&str; 4], u8, &str); 6] = [
        (per_window, ["0", "1", "1000000", "1000001"], 4, "read"),
        (k, ["0", "1", "1000", "1001"], 4, "tally"),
        (every, ["0", "1", "20000", "20001"], 4, "tally"),
        (len, ["-1", "0", "1024", "1025"], 4, "tally"),
        (partitions, ["0", "1", "8", "9"], 11, "tally"),
        (app_windows, ["0", "1", "20000", "20001"], 15, "tally"),
    ];
    for (change, [below, low, high, above], code, place) in rows {
        refused_with(&rt, alloc, change, below, (code, place))?;
        refused_with(&rt, alloc, change, low, (0, "accepted"))?;
        refused_with(&rt, alloc, change, high, (0, "accepted"))?;
        refused_with(&rt, alloc, change, above, (code, place))?;
    }
    Ok(())
}

/// A name of so many bytes.
fn long_name(alloc: Global, len: usize) -> Result<String, Fail> {
    let mut name = String::new(alloc);
    for _ in 0..len {
        name.push('x')?;
    }
    Ok(name)
}

#[test]
fn both_sides_of_each_length(rt: HostRuntime) -> Result<(), Fail> {
    let alloc = rt.alloc();
    let stream = (r#""name":"s3""#, r#""name":"@""#);
    let operator = (r#""name":"side""#, r#""name":"@""#);
    let source = (r#""operatorName":"side""#, r#""operatorName":"@""#);
    let file = (r#""b.txt""#, r#""@""#);
    let rows: [(Change<'static>, usize, u8, &str); 4] = [
        (stream, 255, 0, "accepted"),
        (stream, 256, 14, ""),
        (file, 4096, 0, "accepted"),
        (file, 4097, 4, "side"),
    ];
    for (change, len, code, place) in rows {
        let name = long_name(alloc, len)?;
        refused_with(&rt, alloc, change, name.as_str(), (code, place))?;
    }
    for (len, code, place) in [(255, 0, "accepted"), (256, 14, "")] {
        let name = long_name(alloc, len)?;
        let text = changed(alloc, JOINED, operator)?;
        let text = changed(alloc, text.as_str(), ("@", name.as_str()))?;
        let text = changed(alloc, text.as_str(), source)?;
        let text = changed(alloc, text.as_str(), ("@", name.as_str()))?;
        refused(&rt, alloc, text.as_str(), (code, place))?;
    }
    Ok(())
}

#[test]
fn a_stream_has_at_most_eight_sinks(rt: HostRuntime) -> Result<(), Fail> {
    let alloc = rt.alloc();
    refused(&rt, alloc, WIDE, (0, "accepted"))?;
    let moved = changed(alloc, WIDE, (TO_LAST, ""))?;
    let nine = changed(alloc, moved.as_str(), ("]},", AND_TO_LAST))?;
    refused(&rt, alloc, nine.as_str(), (13, "wide"))
}
