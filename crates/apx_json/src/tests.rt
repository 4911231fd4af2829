//! Applications that are read, and those that are refused one change away.

use super::*;
use std::alloc::Global;
use std::process::Abort;
use std::test::Fail;

/// The example of the format.
const WORD_COUNT: &str = r#"{"operators": [
  {"name": "read", "class": "lines", "properties": {"file": "in.txt", "perWindow": 2}},
  {"name": "split", "class": "words"},
  {"name": "tally", "class": "count", "attributes": {"PARTITIONS": 2}},
  {"name": "out", "class": "store"}],
 "streams": [
  {"name": "s1", "source": {"operatorName": "read", "portName": "output"},
   "sinks": [{"operatorName": "split", "portName": "input"}]},
  {"name": "s2", "source": {"operatorName": "split", "portName": "output"},
   "sinks": [{"operatorName": "tally", "portName": "input"}]},
  {"name": "s3", "source": {"operatorName": "tally", "portName": "output"},
   "sinks": [{"operatorName": "out", "portName": "input"}]}]}"#;

/// An application with each member of the format.
const WHOLE: &str =
    r#"{"operators":[{"name":"a","class":"lines"},{"name":"b","class":"count","properties":{"x":-7,"y":"t","z":null},"attributes":{"PARTITIONS":"3","APPLICATION_WINDOW_COUNT":4,"other":[]}}],"streams":[{"name":"s","source":{"operatorName":"a","portName":"output"},"sinks":[{"operatorName":"b","portName":"input"},{"operatorName":"c","portName":"left"}]}],"more":0}"#;

fn place_of(alloc: Global, text: &str) -> Result<Option<Name>, Fail> {
    match read_app(alloc, text.as_bytes()) {
        Ok(_) => Ok(None),
        Err(JsonRefusal::Shape { place }) => Ok(Some(place)),
        Err(refusal) => Err(refusal)?,
    }
}

fn assert_place(rt: &impl Abort, alloc: Global, text: &str, place: &str) -> Result<(), Fail> {
    let found = place_of(alloc, text)?;
    let name = found.as_ref().map(Name::text).unwrap_or("accepted");
    assert_eq!(rt; name, place, "{text}");
    Ok(())
}

#[test]
fn one_change_away_from_an_application(rt: HostRuntime) -> Result<(), Fail> {
    let alloc = rt.alloc();
    assert_place(&rt, alloc, WHOLE, "accepted")?;
    let rows = [
        (r#""operators":["#, r#""operator":["#, "operators"),
        (r#"{"name":"b","#, r#"7,{"name":"b","#, "operators[1]"),
        (r#"{"name":"b","#, "{", "operators[1].name"),
        (r#""class":"count""#, r#""class":1"#, "operators[1].class"),
        (
            r#"{"x":-7"#,
            r#"[],"more":{"x":-7"#,
            "operators[1].properties",
        ),
        (
            r#"{"PARTITIONS""#,
            r#"null,"more":{"PARTITIONS""#,
            "operators[1].attributes",
        ),
        (
            r#""PARTITIONS":"3""#,
            r#""PARTITIONS":1.0"#,
            "operators[1].attributes.PARTITIONS",
        ),
        (
            r#""PARTITIONS":"3""#,
            r#""PARTITIONS":"+3""#,
            "operators[1].attributes.PARTITIONS",
        ),
        (
            r#"COUNT":4"#,
            r#"COUNT":9223372036854775808"#,
            "operators[1].attributes.APPLICATION_WINDOW_COUNT",
        ),
        (r#""streams":["#, r#""streams":{},"more":["#, "streams"),
        (r#"{"name":"s","#, r#""s",{"name":"s","#, "streams[0]"),
        (r#"{"name":"s","#, "{", "streams[0].name"),
        (r#""source":{"#, r#""more":{"#, "streams[0].source"),
        (
            r#""operatorName":"a""#,
            r#""operatorName":0"#,
            "streams[0].source.operatorName",
        ),
        (
            r#""portName":"output""#,
            r#""port":"output""#,
            "streams[0].source.portName",
        ),
        (r#""sinks":["#, r#""sink":["#, "streams[0].sinks"),
        (
            r#"{"operatorName":"c""#,
            r#"[],{"operatorName":"c""#,
            "streams[0].sinks[1]",
        ),
        (
            r#""operatorName":"c""#,
            r#""operatorName":null"#,
            "streams[0].sinks[1].operatorName",
        ),
        (
            r#""portName":"left""#,
            r#""portName":[]"#,
            "streams[0].sinks[1].portName",
        ),
    ];
    for (old, new, place) in rows {
        let (before, after) = WHOLE.split_once(old).ok_or(place)?;
        let changed = format!(in alloc; "{before}{new}{after}")?;
        assert_place(&rt, alloc, changed.as_str(), place)?;
    }
    Ok(())
}

#[test]
fn the_first_place_in_order(rt: HostRuntime) -> Result<(), Fail> {
    let rows = [
        ("7", "application"),
        ("{}", "operators"),
        (r#"{"operators":[],"streams":[]}"#, "accepted"),
        (
            r#"{"streams":0,"operators":[{"class":0,"name":"a"}]}"#,
            "operators[0].class",
        ),
        (
            r#"{"streams":[{}],"operators":[{"class":0},0]}"#,
            "operators[0].name",
        ),
        (
            r#"{"operators":[],"operators":0,"streams":[]}"#,
            "operators",
        ),
        (r#"{"operators":0,"operators":[],"streams":[]}"#, "accepted"),
    ];
    for (text, place) in rows {
        assert_place(&rt, rt.alloc(), text, place)?;
    }
    Ok(())
}

#[test]
fn each_front_of_the_example_is_no_json(rt: HostRuntime) -> Result<(), Fail> {
    let alloc = rt.alloc();
    let bytes = WORD_COUNT.as_bytes();
    for len in 0..bytes.len() {
        let refusal = read_app(alloc, &bytes[..len]);
        assert!(rt; matches!(refusal, Err(JsonRefusal::Syntax)), "at {len}");
    }
    assert!(rt; read_app(alloc, bytes).is_ok());
    assert!(rt; matches!(read_app(alloc, b"\"\xff\""), Err(JsonRefusal::Syntax)));
    Ok(())
}

#[test]
fn an_application_has_what_its_text_has(rt: HostRuntime) -> Result<(), Fail> {
    let app = read_app(rt.alloc(), WHOLE.as_bytes())?;
    let [first, second] = app.operators.as_slice() else {
        return Err("two operators")?;
    };
    assert_eq!(rt; (first.partitions, first.app_windows), (1, 1));
    assert_eq!(rt; (second.partitions, second.app_windows), (3, 4));
    assert!(rt; first.properties.is_empty());
    let [x, y, z] = second.properties.as_slice() else {
        return Err("three properties")?;
    };
    assert_eq!(rt; x.name.text(), "x");
    assert_eq!(rt; x.value.integer(), Some(-7));
    assert!(rt; matches!(&y.value, PropertyValue::Text(text) if text.text() == "t"));
    assert!(rt; matches!(z.value, PropertyValue::Other));
    let [stream] = app.streams.as_slice() else {
        return Err("one stream")?;
    };
    assert_eq!(rt; stream.source.operator.copy()?.text(), "a");
    assert_eq!(rt; stream.sinks.len(), 2);
    Ok(())
}

#[test]
fn a_file_name_has_1_to_4096_bytes(rt: HostRuntime) -> Result<(), Fail> {
    let mut name = String::new(rt.alloc());
    for _ in 0..4096 {
        name.push('a')?;
    }
    assert!(rt; is_file_name(name.as_str()));
    name.push('a')?;
    assert!(rt; !is_file_name(name.as_str()));
    assert!(rt; is_file_name("a") && !is_file_name("") && !is_file_name("-a"));
    Ok(())
}
