//! Calls of devices fail in the commands beside `sim`.
use crate::failing::{Device, run_failing};
use crate::runs::text;
use apx_history::Event;
use std::alloc::Global;
use std::process::Abort;
use std::test::Fail;

const CHECK: [&str; 2] = ["check", "app.json"];

const PLAN: [&str; 2] = ["plan", "app.json"];

const MEAN: [&str; 2] = ["mean", "app.json"];

const AUDIT: [&str; 7] = [
    "audit",
    "app.json",
    "journal.txt",
    "--checkpoint",
    "2",
    "--script",
    "script.txt",
];

const GEN: [&str; 3] = ["gen", "7", "100"];

const TRACE: [&str; 6] = [
    "trace",
    "app.json",
    "--checkpoint",
    "2",
    "--script",
    "script.txt",
];

/// Lets a read of a command that runs nothing fail: it ends with 2 and has printed nothing.
fn fail_read(rt: &impl Abort, alloc: Global, words: &[&str], call: u64) -> Result<(), Fail> {
    let left = run_failing(alloc, words, Device::Folder, call)?;
    assert_eq!(rt; (left.status, left.out.len()), (2, 0));
    assert!(rt; left.err.starts_with(b"apex: cannot read "));
    assert_eq!(rt; (left.stored.len(), left.last), (0, None));
    Ok(())
}

/// Lets a write of a command that runs nothing fail, where it writes so often: it ends with 12 and has printed a front of the whole
/// text. Whether it failed.
fn fail_write(
    rt: &impl Abort,
    alloc: Global,
    words: &[&str],
    whole: &[u8],
    call: u64,
) -> Result<bool, Fail> {
    let left = run_failing(alloc, words, Device::Out, call)?;
    assert_eq!(rt;
        (left.err.len(), left.stored.len(), left.last),
        (0, 0, None)
    );
    assert_eq!(rt; left.status, if left.has_failed { 12 } else { 0 });
    assert!(rt; whole.starts_with(&left.out));
    assert!(rt; left.has_failed || left.out.len() == whole.len());
    Ok(left.has_failed)
}

/// Lets each write of a command that runs nothing fail in turn.
fn fail_each_write(rt: &impl Abort, alloc: Global, words: &[&str]) -> Result<(), Fail> {
    let whole = run_failing(alloc, words, Device::Out, 100)?;
    for call in 1..100 {
        if !fail_write(rt, alloc, words, &whole.out, call)? {
            assert!(rt; call > 1);
            return Ok(());
        }
    }
    Err("a run meets a failure each time")?
}

#[test]
fn each_read_fails(rt: HostRuntime) -> Result<(), Fail> {
    let alloc = rt.alloc();
    fail_read(&rt, alloc, &CHECK, 1)?;
    fail_read(&rt, alloc, &PLAN, 1)?;
    for call in 1..3 {
        fail_read(&rt, alloc, &MEAN, call)?;
    }
    for call in 1..5 {
        fail_read(&rt, alloc, &AUDIT, call)?;
    }
    Ok(())
}

#[test]
fn each_write_fails(rt: HostRuntime) -> Result<(), Fail> {
    let alloc = rt.alloc();
    fail_each_write(&rt, alloc, &CHECK)?;
    fail_each_write(&rt, alloc, &PLAN)?;
    fail_each_write(&rt, alloc, &MEAN)?;
    fail_each_write(&rt, alloc, &AUDIT)
}

/// Lets a call of each device of a run that prints no rows fail: the first, and of the sink's store also the first read, by which
/// the rows are counted. Nothing is printed.
fn stop_at_each(rt: &impl Abort, alloc: Global, words: &[&str], read: u64) -> Result<(), Fail> {
    let store = Device::Keeper {
        stores_first: false,
    };
    for (device, call, status, line, has_ended) in [
        (
            Device::Vault,
            1,
            8,
            "apex: checkpoint store failed\n",
            false,
        ),
        (store, 1, 9, "apex: sink store failed\n", false),
        (store, read, 9, "apex: sink store failed\n", true),
        (Device::Out, 1, 12, "", true),
    ] {
        let left = run_failing(alloc, words, device, call)?;
        assert_eq!(rt; text(&left.err), line);
        assert_eq!(rt; (left.status, left.out.len()), (status, 0));
        assert_eq!(rt; left.last == Some(Event::End), has_ended);
    }
    let left = run_failing(alloc, words, Device::Maker, 1)?;
    assert_eq!(rt; (left.status, left.out.len()), (10, 0));
    assert_eq!(rt; (left.stored.len(), left.last), (0, None));
    Ok(())
}

/// The example has ten windows, and the run that is traced six.
#[test]
fn runs_that_print_no_rows_stop_at_a_failing_device(rt: HostRuntime) -> Result<(), Fail> {
    let alloc = rt.alloc();
    stop_at_each(&rt, alloc, &GEN, 11)?;
    stop_at_each(&rt, alloc, &TRACE, 7)
}
