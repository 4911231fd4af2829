//! Runs over devices in memory.

use crate::{Closed, Devices, simulate};
use apx_dag::Dag;
use apx_device::{Keeper, MemoryKeeper, MemorySpools, MemoryVault};
use apx_history::Event;
use apx_input::windows;
use apx_job::Job;
use apx_json::read_app;
use apx_script::{ScriptRefusal, Settings, read_script};
use apx_tuple::InputKind;
use std::alloc::Global;
use std::convert::Infallible;
use std::sync::Arc;
use std::test::Fail;

/// Lines that two partitions count, and that are stored.
const COUNT: &str =
    r#"{"operators":[{"name":"in","class":"lines","properties":{"file":"in.txt","perWindow":1}},{"name":"tally","class":"count","attributes":{"PARTITIONS":2}},{"name":"out","class":"store"}],"streams":[{"name":"a","source":{"operatorName":"in","portName":"output"},"sinks":[{"operatorName":"tally","portName":"input"}]},{"name":"b","source":{"operatorName":"tally","portName":"output"},"sinks":[{"operatorName":"out","portName":"input"}]}]}"#;

/// A partition that fails while it works, another number of partitions, and a sink that fails once its rows are stored.
const SCRIPT: &str =
    "kill staged 2 1 tally\nrepartition 2 3 tally\nkill staged 4 2 tally\nkill written 3 0 out\n";

/// The job of four windows, with a checkpoint each second window, under a script.
fn job_of(alloc: Global, script: &str) -> Result<Job, Fail> {
    let dag = Dag::of(alloc, read_app(alloc, COUNT.as_bytes())?)?;
    let mut inputs = Vec::new(alloc);
    inputs.push(windows(alloc, InputKind::Lines, 1, b"a\nb\na\nb\n")?)?;
    let mut settings = Settings::default();
    settings.every = 2;
    if inputs.len() != dag.inputs_before(dag.len()) {
        return Err("another number of inputs")?;
    }
    let script = read_script(alloc, script.as_bytes())?;
    match Job::of(alloc, dag, inputs, script, settings) {
        Ok(job) => Ok(job),
        Err(ScriptRefusal::Line { .. }) => Err("a line is refused")?,
        Err(ScriptRefusal::Memory) => Err("memory")?,
    }
}

/// Each window's rows, as a run stores them.
const ROWS: [(u32, &str, i64); 4] = [(1, "a", 1), (2, "b", 1), (3, "a", 2), (4, "b", 2)];

/// A run of the job over devices in memory, in an order.
fn ran(
    alloc: Global,
    script: &str,
    order: u64,
) -> Result<Closed<MemoryKeeper, MemoryVault, MemorySpools, Infallible>, Fail> {
    let devices = Devices {
        keeper: MemoryKeeper::new(alloc),
        vault: MemoryVault::new(alloc),
        spools: MemorySpools::new(alloc),
    };
    let job = Arc::new(alloc, job_of(alloc, script)?)?;
    match simulate(alloc, job, devices, order) {
        Ok(closed) => Ok(closed),
        Err(_) => Err("no run began")?,
    }
}

/// Whether a store has a row in a window.
fn has_row(
    alloc: Global,
    keeper: &mut MemoryKeeper,
    window: u32,
    key: &str,
    value: i64,
) -> Result<bool, Fail> {
    if window < 1 || keeper.last() < window {
        return Ok(false);
    }
    let rows = keeper.rows(alloc, window)?;
    Ok(rows.iter().any(|row| row.key.bytes() == key.as_bytes() && row.value == value))
}

#[test]
fn orders_kills_and_repartitions_leave_the_rows_as_they_are(rt: HostRuntime) -> Result<(), Fail> {
    let alloc = rt.alloc();
    for (script, order, met) in [("", 7, 0), ("", 8, 0), (SCRIPT, 7, 4), (SCRIPT, 8, 4)] {
        let mut closed = ran(alloc, script, order)?;
        assert!(rt; closed.fault.is_none());
        let entries = closed.journal.journal().entries();
        assert!(rt; matches!(entries.last(), Some(last) if last.event == Event::End));
        let lines = entries
            .iter()
            .filter(|entry| matches!(entry.event, Event::Kill { .. } | Event::Repartition { .. }))
            .count();
        assert_eq!(rt; lines, met);
        for (window, key, value) in ROWS {
            assert!(rt; has_row(alloc, &mut closed.devices.keeper, window, key, value)?);
        }
    }
    Ok(())
}

#[test]
fn an_order_gives_one_run(rt: HostRuntime) -> Result<(), Fail> {
    let alloc = rt.alloc();
    let first = ran(alloc, "", 7)?;
    let again = ran(alloc, "", 7)?;
    let other = ran(alloc, "", 8)?;
    assert!(rt; first.journal.journal().entries() == again.journal.journal().entries());
    assert!(rt; first.journal.journal().entries() != other.journal.journal().entries());
    Ok(())
}
