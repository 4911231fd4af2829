//! A machine that runs the plan of a job to its end.
use crate::plan_of;
use apx_dag::Dag;
use apx_input::windows;
use apx_job::Job;
use apx_json::read_app;
use apx_machine::Machine;
use apx_script::{ScriptRefusal, Settings, read_script};
use apx_tuple::InputKind;
use std::alloc::Global;
use std::test::Fail;

/// Lines that two partitions split into words, which are counted and stored.
const WORD_COUNT: &str =
    r#"{"operators":[{"name":"in","class":"lines","properties":{"file":"in.txt","perWindow":1}},{"name":"split","class":"words","attributes":{"PARTITIONS":2}},{"name":"tally","class":"count"},{"name":"out","class":"store"}],"streams":[{"name":"a","source":{"operatorName":"in","portName":"output"},"sinks":[{"operatorName":"split","portName":"input"}]},{"name":"b","source":{"operatorName":"split","portName":"output"},"sinks":[{"operatorName":"tally","portName":"input"}]},{"name":"c","source":{"operatorName":"tally","portName":"output"},"sinks":[{"operatorName":"out","portName":"input"}]}]}"#;

/// The job of six windows and a script, with a checkpoint each second window.
fn job_of(alloc: Global, script: &str) -> Result<Job, Fail> {
    let dag = Dag::of(alloc, read_app(alloc, WORD_COUNT.as_bytes())?)?;
    let mut inputs = Vec::new(alloc);
    inputs.push(windows(alloc, InputKind::Lines, 1, b"a\nb\nc\nd\ne\nf\n")?)?;
    let mut settings = Settings::default();
    settings.every = 2;
    if inputs.len() != dag.inputs_before(dag.len()) {
        return Err("another number of inputs")?;
    }
    match Job::of(
        alloc,
        dag,
        inputs,
        read_script(alloc, script.as_bytes())?,
        settings,
    ) {
        Ok(job) => Ok(job),
        Err(ScriptRefusal::Line { .. }) => Err("a line is refused")?,
        Err(ScriptRefusal::Memory) => Err("memory")?,
    }
}

#[test]
fn a_machine_runs_the_plan_of_a_job(rt: HostRuntime) -> Result<(), Fail> {
    let alloc = rt.alloc();
    let job = job_of(alloc, "kill done 3 1 split\nrepartition 4 3 tally\n")?;
    let mut machine = Machine::new(alloc, plan_of(alloc, &job)?, 0)?;
    assert_eq!(rt; machine.len(), 4);
    for _ in 0..400 {
        if machine.count() > 0 {
            let event = machine.pick(0);
            machine.apply(alloc, 0, event)?;
        }
    }
    assert!(rt; machine.finished());
    assert_eq!(rt; machine.stored(), 6);
    Ok(())
}
