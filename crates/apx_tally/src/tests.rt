//! Reports of a run to its end, and of a journal that has an event of each kind.
use crate::report_text;
use apx_dag::Dag;
use apx_history::{Entry, Event};
use apx_input::windows;
use apx_job::Job;
use apx_json::read_app;
use apx_machine::{Journal, Machine};
use apx_planned::plan_of;
use apx_script::{Script, Settings};
use apx_tuple::InputKind;
use std::alloc::Global;
use std::test::Fail;

/// Lines that are split into words, which are counted and stored.
const WORD_COUNT: &str =
    r#"{"operators":[{"name":"read","class":"lines","properties":{"file":"in.txt","perWindow":2}},{"name":"split","class":"words"},{"name":"tally","class":"count"},{"name":"out","class":"store"}],"streams":[{"name":"s1","source":{"operatorName":"read","portName":"output"},"sinks":[{"operatorName":"split","portName":"input"}]},{"name":"s2","source":{"operatorName":"split","portName":"output"},"sinks":[{"operatorName":"tally","portName":"input"}]},{"name":"s3","source":{"operatorName":"tally","portName":"output"},"sinks":[{"operatorName":"out","portName":"input"}]}]}"#;

/// The job that counts the words of a file, two lines to a window.
fn word_count(alloc: Global, file: &str) -> Result<Job, Fail> {
    let dag = Dag::of(alloc, read_app(alloc, WORD_COUNT.as_bytes())?)?;
    let mut inputs = Vec::new(alloc);
    inputs.push(windows(alloc, InputKind::Lines, 2, file.as_bytes())?)?;
    if inputs.len() != dag.inputs_before(dag.len()) {
        return Err("another number of inputs")?;
    }
    Ok(Job::of(alloc, dag, inputs, Script::new(alloc), Settings::default())?)
}

#[test]
fn a_run_to_its_end_is_reported(rt: HostRuntime) -> Result<(), Fail> {
    let alloc = rt.alloc();
    let job = word_count(alloc, "a b\na\nc a\n")?;
    let mut machine = Machine::new(alloc, plan_of(alloc, &job)?, 0)?;
    let mut journal = Journal::new(alloc);
    for _ in 0..100 {
        if machine.count() > 0 {
            let event = machine.pick(0);
            machine.apply(alloc, 0, event)?;
            journal.add(Entry { worker: 0, event })?;
        }
    }
    let mut text = Vec::new(alloc);
    report_text(&job, &journal, 4, &mut text)?;
    assert_eq!(rt;
        std::str::from_utf8(&text)?,
        "windows 2\nrows 4\nstarts 8\nwrites 2\nsaves 0\nkills 0\nrepartitions 0\ncommitted 0\n"
    );
    Ok(())
}

#[test]
fn each_kind_of_event_has_its_line(rt: HostRuntime) -> Result<(), Fail> {
    let alloc = rt.alloc();
    let job = word_count(alloc, "")?;
    let mut journal = Journal::new(alloc);
    for event in [
        Event::Start {
            op: 1,
            part: 0,
            window: 3,
        },
        Event::Start {
            op: 1,
            part: 1,
            window: 3,
        },
        Event::Start {
            op: 0,
            part: 0,
            window: 4,
        },
        Event::Write { window: 1 },
        Event::Write { window: 2 },
        Event::Save {
            op: 2,
            part: 0,
            window: 2,
        },
        Event::Commit { to: 2 },
        Event::Kill { line: 0 },
        Event::Kill { line: 2 },
        Event::Kill { line: 3 },
        Event::Kill { line: 4 },
        Event::Repartition { line: 1 },
        Event::Repartition { line: 5 },
        Event::Repartition { line: 6 },
        Event::Repartition { line: 7 },
        Event::Repartition { line: 8 },
        Event::Commit { to: 4 },
        Event::Finish {
            op: 0,
            part: 0,
            window: 4,
        },
        Event::Fault { status: 13 },
    ] {
        journal.add(Entry { worker: 7, event })?;
    }
    let mut text = Vec::from_slice(alloc, b"report\n")?;
    report_text(&job, &journal, 0, &mut text)?;
    assert_eq!(rt;
        std::str::from_utf8(&text)?,
        "report\nwindows 0\nrows 0\nstarts 3\nwrites 2\nsaves 1\nkills 4\nrepartitions 5\ncommitted 4\n"
    );
    Ok(())
}
