//! The order in which the lines of a script are judged, and the epochs that they make.

use crate::Job;
use apx_dag::Dag;
use apx_input::windows;
use apx_json::read_app;
use apx_script::{ScriptRefusal, Settings, read_script};
use apx_tuple::InputKind;
use std::alloc::Global;
use std::test::Fail;

/// Lines that two partitions split into words, which are counted and stored.
const WORD_COUNT: &str =
    r#"{"operators":[{"name":"in","class":"lines","properties":{"file":"in.txt","perWindow":1}},{"name":"split","class":"words","attributes":{"PARTITIONS":2}},{"name":"tally","class":"count"},{"name":"out","class":"store"}],"streams":[{"name":"a","source":{"operatorName":"in","portName":"output"},"sinks":[{"operatorName":"split","portName":"input"}]},{"name":"b","source":{"operatorName":"split","portName":"output"},"sinks":[{"operatorName":"tally","portName":"input"}]},{"name":"c","source":{"operatorName":"tally","portName":"output"},"sinks":[{"operatorName":"out","portName":"input"}]}]}"#;

/// The job of six windows and a script, with a checkpoint each second window; or the refused line and its reason.
fn job_of(alloc: Global, script: &str) -> Result<Result<Job, (u64, u8)>, Fail> {
    let dag = Dag::of(alloc, read_app(alloc, WORD_COUNT.as_bytes())?)?;
    let mut inputs = Vec::new(alloc);
    inputs.push(windows(alloc, InputKind::Lines, 1, b"a\nb\nc\nd\ne\nf\n")?)?;
    let mut settings = Settings::default();
    settings.every = 2;
    if inputs.len() != dag.inputs_before(dag.len()) {
        return Err("another number of inputs")?;
    }
    match Job::of(
        alloc,
        dag,
        inputs,
        read_script(alloc, script.as_bytes())?,
        settings,
    ) {
        Ok(job) => Ok(Ok(job)),
        Err(ScriptRefusal::Line { line, why }) => Ok(Err((line, why))),
        Err(ScriptRefusal::Memory) => Err("memory")?,
    }
}

/// A script's first refused line with its reason, or nothing where the job accepts it.
fn refused(alloc: Global, script: &str) -> Result<Option<(u64, u8)>, Fail> {
    Ok(job_of(alloc, script)?.err())
}

#[test]
fn parts_are_judged_last(rt: HostRuntime) -> Result<(), Fail> {
    let script = "kill done 1 2 split\nkill written 2 0 tally\n";
    assert_eq!(rt; refused(rt.alloc(), script)?, Some((2, 10)));
    Ok(())
}

/// The boundary and the number of partitions of an operator at a window, where there are both.
fn epoch(job: &Job, op: u16, window: u32) -> Option<(u32, u8)> {
    if op < job.dag().len() && 1 <= window && window <= job.windows() {
        Some((job.boundary(op, window), job.in_force(op, window)))
    } else {
        None
    }
}

/// How many tuples an input has in a window.
fn tuple_count(job: &Job, op: u16, window: u32) -> Result<Option<usize>, Fail> {
    if op < job.dag().len() && job.dag().node(op).is_input() {
        return Ok(Some(job.bag(op, window)?.tuples().len()));
    }
    Ok(None)
}

#[test]
fn a_repartition_begins_an_epoch(rt: HostRuntime) -> Result<(), Fail> {
    let alloc = rt.alloc();
    let job = job_of(alloc, "repartition 4 1 split\nrepartition 2 3 split\n")?.map_err(
        |_| "refused",
    )?;
    assert_eq!(rt; job.windows(), 6);
    assert_eq!(rt; job.dag().len(), 4);
    assert_eq!(rt; job.lines().len(), 2);
    assert_eq!(rt; job.settings().every, 2);
    for (window, boundary, parts) in [
        (1, 0, 2),
        (2, 0, 2),
        (3, 2, 3),
        (4, 2, 3),
        (5, 4, 1),
        (6, 4, 1),
    ] {
        assert_eq!(rt;
            epoch(&job, 1, window),
            Some((boundary, parts)),
            "at {window}"
        );
        assert_eq!(rt; epoch(&job, 2, window), Some((0, 1)), "at {window}");
    }
    for (window, tuples) in [(1, 1), (6, 1), (7, 0)] {
        assert_eq!(rt; tuple_count(&job, 0, window)?, Some(tuples), "at {window}");
    }
    Ok(())
}
