//! Worked rows of whole runs, by one partition and by several, and over a repartition.

use crate::BlockRun;
use apx_dag::Dag;
use apx_input::windows;
use apx_job::Job;
use apx_json::read_app;
use apx_script::{Settings, read_script};
use apx_tuple::{Bag, InputKind};
use std::alloc::Global;
use std::test::Fail;

/// Pairs that an operator adds up over two windows, and the sink.
const SUMS: &str =
    r#"{"operators":[{"name":"in","class":"pairs","properties":{"file":"in.txt","perWindow":1}},{"name":"sum","class":"sum","attributes":{"PARTITIONS":1,"APPLICATION_WINDOW_COUNT":2}},{"name":"out","class":"store"}],"streams":[{"name":"a","source":{"operatorName":"in","portName":"output"},"sinks":[{"operatorName":"sum","portName":"input"}]},{"name":"b","source":{"operatorName":"sum","portName":"output"},"sinks":[{"operatorName":"out","portName":"input"}]}]}"#;

/// The same by two partitions.
const SUMS_OF_TWO: &str =
    r#"{"operators":[{"name":"in","class":"pairs","properties":{"file":"in.txt","perWindow":1}},{"name":"sum","class":"sum","attributes":{"PARTITIONS":2,"APPLICATION_WINDOW_COUNT":2}},{"name":"out","class":"store"}],"streams":[{"name":"a","source":{"operatorName":"in","portName":"output"},"sinks":[{"operatorName":"sum","portName":"input"}]},{"name":"b","source":{"operatorName":"sum","portName":"output"},"sinks":[{"operatorName":"out","portName":"input"}]}]}"#;

/// Pairs of which the best is chosen, by three partitions, and the sink.
const BEST: &str =
    r#"{"operators":[{"name":"in","class":"pairs","properties":{"file":"in.txt","perWindow":4}},{"name":"best","class":"top","properties":{"k":2},"attributes":{"PARTITIONS":3}},{"name":"out","class":"store"}],"streams":[{"name":"a","source":{"operatorName":"in","portName":"output"},"sinks":[{"operatorName":"best","portName":"input"}]},{"name":"b","source":{"operatorName":"best","portName":"output"},"sinks":[{"operatorName":"out","portName":"input"}]}]}"#;

/// The job of an application with one input of pairs, each window of a checkpoint.
fn job(alloc: Global, app: &str, per_window: u32, lines: &str, script: &str) -> Result<Job, Fail> {
    let dag = Dag::of(alloc, read_app(alloc, app.as_bytes())?)?;
    let mut inputs = Vec::new(alloc);
    if per_window < 1 || 1_000_000 < per_window {
        return Err("another number of lines")?;
    }
    inputs.push(windows(alloc, InputKind::Pairs, per_window, lines.as_bytes())?)?;
    if inputs.len() != dag.inputs_before(dag.len()) {
        return Err("another number of inputs")?;
    }
    let mut settings = Settings::default();
    settings.every = 1;
    let script = read_script(alloc, script.as_bytes())?;
    Ok(Job::of(alloc, dag, inputs, script, settings)?)
}

/// A bag as text, each tuple as `key=value` and a blank.
fn shown(alloc: Global, bag: &Bag) -> Result<String, Fail> {
    let mut text = String::new(alloc);
    for tuple in bag.tuples() {
        let key = std::str::from_utf8(tuple.key.bytes())?;
        let value = tuple.value;
        text.push_str(format!(in alloc; "{key}={value} ")?.as_str())?;
    }
    Ok(text)
}

/// The rows of each window of a job, as text.
fn rows(alloc: Global, job: &Job) -> Result<String, Fail> {
    let mut run = BlockRun::new(alloc, job)?;
    let mut text = String::new(alloc);
    for _window in 0..job.windows() {
        let (next, rows) = run.next(alloc)?;
        run = next;
        text.push_str(shown(alloc, &rows)?.as_str())?;
        text.push_str("; ")?;
    }
    Ok(text)
}

#[test]
fn two_windows_are_added_up_by_one_partition_and_by_two(rt: HostRuntime) -> Result<(), Fail> {
    let alloc = rt.alloc();
    for app in [SUMS, SUMS_OF_TWO] {
        let job = job(alloc, app, 1, "k\t1\nk\t1\nk\t1\nk\t1\n", "")?;
        assert_eq!(rt; rows(alloc, &job)?.as_str(), "; k=2 ; ; k=4 ; ");
    }
    Ok(())
}

#[test]
fn gathered_pairs_are_cut_anew_at_a_repartition(rt: HostRuntime) -> Result<(), Fail> {
    let alloc = rt.alloc();
    let job = job(
        alloc,
        SUMS_OF_TWO,
        1,
        "k\t1\nk\t1\nk\t1\nk\t1\n",
        "repartition 3 3 sum\n",
    )?;
    assert_eq!(rt; rows(alloc, &job)?.as_str(), "; k=2 ; ; k=4 ; ");
    Ok(())
}

#[test]
fn the_best_of_three_partitions_are_chosen_from_again(rt: HostRuntime) -> Result<(), Fail> {
    let alloc = rt.alloc();
    let job = job(alloc, BEST, 4, "b\t5\na\t5\nc\t5\nd\t1\n", "")?;
    assert_eq!(rt; rows(alloc, &job)?.as_str(), "a=5 b=5 ; ");
    Ok(())
}
