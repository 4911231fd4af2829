//! A pass over an input, a count that gathers two windows, and a store; the rows are worked by hand.
ghost use Rattle.std.specs.Prelude.{◌≡◌, ◌<◌};
ghost use Rattle.apx_pass.specs.Pass as pass;

use crate::{OnePass, mean};
use apx_dag::Dag;
use apx_input::windows;
use apx_job::Job;
use apx_json::read_app;
use apx_script::{Script, Settings};
use apx_tuple::{Bag, InputKind};
use std::alloc::Global;
use std::test::Fail;

const COUNTED: &str = r#"{"operators":[
{"name":"out","class":"store"},
{"name":"tally","class":"count","attributes":{"APPLICATION_WINDOW_COUNT":2}},
{"name":"read","class":"lines","properties":{"file":"a.txt","perWindow":1}}],
"streams":[
{"name":"s1","source":{"operatorName":"read","portName":"output"},"sinks":[{"operatorName":"tally","portName":"input"}]},
{"name":"s2","source":{"operatorName":"tally","portName":"output"},"sinks":[{"operatorName":"out","portName":"input"}]}]}"#;

/// The rows as text, each as `key=value` and a blank.
fn shown(alloc: Global, rows: &Bag) -> Result<String, Fail> {
    let mut text = String::new(alloc);
    for tuple in rows.tuples() {
        let key = std::str::from_utf8(tuple.key.bytes())?;
        let value = tuple.value;
        text.push_str(format!(in alloc; "{key}={value} ")?.as_str())?;
    }
    Ok(text)
}

/// The sink's rows of the four windows of a pass, as texts.
fn rows_of_four(alloc: Global, new: OnePass<'_>) -> Result<[String; 4], Fail>
    requires start { new.passed ≡ 0 }
    requires within { 3 < pass.windows new.flow }
{
    let (pass, first) = new.next(alloc)?;
    let (pass, second) = pass.next(alloc)?;
    let (pass, third) = pass.next(alloc)?;
    let (_, fourth) = pass.next(alloc)?;
    Ok([
        shown(alloc, &first)?,
        shown(alloc, &second)?,
        shown(alloc, &third)?,
        shown(alloc, &fourth)?,
    ])
}

#[test]
fn a_pass_gives_the_sinks_rows_window_by_window(rt: HostRuntime) -> Result<(), Fail> {
    let alloc = rt.alloc();
    let dag = Dag::of(alloc, read_app(alloc, COUNTED.as_bytes())?)?;
    let read = windows(alloc, InputKind::Lines, 1, b"a\nb\na\na\n")?;
    if read.count() != 4 {
        return Err("four windows")?;
    }
    let mut inputs = Vec::new(alloc);
    inputs.push(read)?;
    let rows = rows_of_four(alloc, OnePass::new(alloc, &dag, &inputs)?)?;
    assert_eq!(rt; rows[0].as_str(), "");
    assert_eq!(rt; rows[1].as_str(), "a=1 b=1 ");
    assert_eq!(rt; rows[2].as_str(), "");
    assert_eq!(rt; rows[3].as_str(), "a=3 ");
    Ok(())
}

/// The job of these lines, each a window, without a script.
fn counted(alloc: Global, lines: &[u8]) -> Result<Job, Fail> {
    let dag = Dag::of(alloc, read_app(alloc, COUNTED.as_bytes())?)?;
    let mut inputs = Vec::new(alloc);
    inputs.push(windows(alloc, InputKind::Lines, 1, lines)?)?;
    if inputs.len() != dag.inputs_before(dag.len()) {
        return Err("another number of inputs")?;
    }
    let script = Script::new(alloc);
    Ok(Job::of(alloc, dag, inputs, script, Settings::default())?)
}

/// The rows of all windows of a job as text, each behind the window's number.
fn mean_shown(alloc: Global, job: &Job) -> Result<String, Fail> {
    let mut text = String::new(alloc);
    for (window, rows) in mean(alloc, job)? {
        let rows = shown(alloc, &rows)?;
        text.push_str(format!(in alloc; "{window}: {rows}")?.as_str())?;
    }
    Ok(text)
}

#[test]
fn a_mean_numbers_the_windows_from_one(rt: HostRuntime) -> Result<(), Fail> {
    let alloc = rt.alloc();
    let job = counted(alloc, b"b\na\nb\n")?;
    let text = mean_shown(alloc, &job)?;
    assert_eq!(rt; text.as_str(), "1: 2: a=1 b=1 3: ");
    Ok(())
}
