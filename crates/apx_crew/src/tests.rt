//! Runs by workers over devices in memory.
ghost use Rattle.std.specs.Prelude.{◌<◌};

use crate::{Closed, Devices, run_by_threads};
use apx_dag::Dag;
use apx_device::{Gate, Keeper, MemoryKeeper, MemorySpools, MemoryVault, NoGate, PassKind};
use apx_history::Event;
use apx_input::windows;
use apx_job::Job;
use apx_json::read_app;
use apx_script::{ScriptRefusal, Settings, read_script};
use apx_tuple::InputKind;
use std::alloc::Global;
use std::convert::Infallible;
use std::sync::atomic::{AtomicU64, Ordering};
use std::sync::{Arc, Wait};
use std::test::Fail;
use std::thread::{Threads, yield_now};

/// Lines that two partitions count, and that are stored.
const COUNT: &str =
    r#"{"operators":[{"name":"in","class":"lines","properties":{"file":"in.txt","perWindow":1}},{"name":"tally","class":"count","attributes":{"PARTITIONS":2}},{"name":"out","class":"store"}],"streams":[{"name":"a","source":{"operatorName":"in","portName":"output"},"sinks":[{"operatorName":"tally","portName":"input"}]},{"name":"b","source":{"operatorName":"tally","portName":"output"},"sinks":[{"operatorName":"out","portName":"input"}]}]}"#;

/// A partition that fails while it works, another number of partitions, and a sink that fails once its rows are stored.
const SCRIPT: &str =
    "kill staged 2 1 tally\nrepartition 2 3 tally\nkill staged 4 2 tally\nkill written 3 0 out\n";

/// The lines that are counted, one to a window.
const LINES: &[u8] = b"a\nb\na\nb\n";

/// Each window's rows.
const ROWS: [(u32, &str, i64); 4] = [(1, "a", 1), (2, "b", 1), (3, "a", 2), (4, "b", 2)];

/// Pairs on the left with a key that the pairs on the right have.
const MATCH: &str =
    r#"{"operators":[{"name":"one","class":"pairs","properties":{"file":"one.txt","perWindow":1}},{"name":"two","class":"pairs","properties":{"file":"two.txt","perWindow":1}},{"name":"both","class":"match"},{"name":"out","class":"store"}],"streams":[{"name":"a","source":{"operatorName":"one","portName":"output"},"sinks":[{"operatorName":"both","portName":"left"}]},{"name":"b","source":{"operatorName":"two","portName":"output"},"sinks":[{"operatorName":"both","portName":"right"}]},{"name":"c","source":{"operatorName":"both","portName":"output"},"sinks":[{"operatorName":"out","portName":"input"}]}]}"#;

/// How often a gate looks for a second claim.
const LOOKS: u64 = 20_000_000;

/// The job of an application over inputs of one line to a window, with a checkpoint each second window, under a script.
fn job_of(
    alloc: Global,
    app: &str,
    kind: InputKind,
    texts: &[&[u8]],
    script: &str,
) -> Result<Arc<Job>, Fail> {
    let dag = Dag::of(alloc, read_app(alloc, app.as_bytes())?)?;
    let mut inputs = Vec::new(alloc);
    for text in texts {
        inputs.push(windows(alloc, kind, 1, text)?)?;
    }
    let mut settings = Settings::default();
    settings.every = 2;
    if inputs.len() != dag.inputs_before(dag.len()) {
        return Err("another number of inputs")?;
    }
    let script = read_script(alloc, script.as_bytes())?;
    match Job::of(alloc, dag, inputs, script, settings) {
        Ok(job) => Ok(Arc::new(alloc, job)?),
        Err(ScriptRefusal::Line { .. }) => Err("a line is refused")?,
        Err(ScriptRefusal::Memory) => Err("memory")?,
    }
}

/// A run of a job over devices in memory.
fn ran<R: Threads + Wait + Sync, G: Gate + Sync>(
    rt: &R,
    alloc: Global,
    job: Arc<Job>,
    workers: u8,
    gate: &G,
) -> Result<Closed<MemoryKeeper, MemoryVault, MemorySpools, Infallible>, Fail>
    requires { 0 < workers }
{
    let devices = Devices {
        keeper: MemoryKeeper::new(alloc),
        vault: MemoryVault::new(alloc),
        spools: MemorySpools::new(alloc),
    };
    match run_by_threads(rt, alloc, job, devices, workers, gate) {
        Ok(closed) => Ok(closed),
        Err(_) => Err("no run began")?,
    }
}

/// Whether a store has a row in a window.
fn has_row(
    alloc: Global,
    keeper: &mut MemoryKeeper,
    window: u32,
    key: &str,
    value: i64,
) -> Result<bool, Fail> {
    if window < 1 || keeper.last() < window {
        return Ok(false);
    }
    let rows = keeper.rows(alloc, window)?;
    Ok(rows.iter().any(|row| row.key.bytes() == key.as_bytes() && row.value == value))
}

#[test]
fn workers_kills_and_repartitions_leave_the_rows_as_they_are(rt: HostRuntime) -> Result<(), Fail> {
    let alloc = rt.alloc();
    for (script, workers, met) in [
        ("", 1, 0),
        ("", 4, 0),
        (SCRIPT, 1, 4),
        (SCRIPT, 2, 4),
        (SCRIPT, 4, 4),
    ] {
        let job = job_of(alloc, COUNT, InputKind::Lines, &[LINES], script)?;
        let mut closed = ran(&rt, alloc, job, workers, &NoGate)?;
        assert!(rt; closed.fault.is_none());
        let entries = closed.journal.journal().entries();
        assert!(rt; entries.iter().all(|entry| entry.worker < workers));
        assert!(rt; matches!(entries.last(), Some(last) if last.event == Event::End));
        let lines = entries
            .iter()
            .filter(|entry| matches!(entry.event, Event::Kill { .. } | Event::Repartition { .. }))
            .count();
        assert_eq!(rt; lines, met);
        for (window, key, value) in ROWS {
            assert!(rt; has_row(alloc, &mut closed.devices.keeper, window, key, value)?);
        }
    }
    Ok(())
}

/// A gate that holds the first claim until a second one has passed, for so many looks at most.
#[derive(Drop)]
struct Holding {
    /// How many claims have passed.
    passed: AtomicU64,
    /// How often the first claim saw the second one while it was held.
    met: AtomicU64,
}

impl Gate for Holding {
    fn pass(&self, kind: PassKind, _op: u16, _part: u8, _window: u32) {
        if kind == PassKind::Ready || self.passed.fetch_add(1, Ordering::SeqCst) > 0 {
            return;
        }
        for _ in 0..LOOKS {
            if self.passed.load(Ordering::SeqCst) > 1 {
                self.met.store(1, Ordering::SeqCst);
                return;
            }
            yield_now();
        }
    }
}

#[test]
fn two_claims_are_open_at_once(rt: HostRuntime) -> Result<(), Fail> {
    let alloc = rt.alloc();
    let job = job_of(alloc, MATCH, InputKind::Pairs, &[b"k\t1\n", b"k\t7\n"], "")?;
    let gate = Holding {
        passed: AtomicU64::new(0),
        met: AtomicU64::new(0),
    };
    let mut closed = ran(&rt, alloc, job, 2, &gate)?;
    assert!(rt; closed.fault.is_none());
    assert!(rt; has_row(alloc, &mut closed.devices.keeper, 1, "k", 1)?);
    assert_eq!(rt; gate.met.load(Ordering::SeqCst), 1);
    Ok(())
}
