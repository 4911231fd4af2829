//! A run whose blocks leave memory: what a spool that fails or gives other bytes leaves.
//!
//! Window 1 has two lines of 1,024 bytes, which make blocks of 14, 1,039, 1,039 and 9 bytes of the least size.
use crate::runs::{Left, folder_of, run, text};
use apx_device::{
    FailingSpools, MemoryKeeper, MemoryOut, MemorySpools, MemoryVault, Spools, WrongSpools,
};
use apx_history::Event;
use apx_top::{Devices, Shown};
use std::alloc::{AllocError, Global};
use std::process::Abort;
use std::test::Fail;

/// Stores the lines of in.txt, two to a window.
const APP: &str =
    r#"{"operators":[{"name":"read","class":"lines","properties":{"file":"in.txt","perWindow":2}},{"name":"out","class":"store"}],"streams":[{"name":"s1","source":{"operatorName":"read","portName":"output"},"sinks":[{"operatorName":"out","portName":"input"}]}]}"#;

/// Two lines of 1,024 bytes, and one more.
fn input(alloc: Global) -> Result<String, AllocError> {
    let mut input = String::new(alloc);
    for letter in ['x', 'y'] {
        for _ in 0..1024 {
            input.push(letter)?;
        }
        input.push('\n')?;
    }
    input.push_str("z\n")?;
    Ok(input)
}

/// What a run with these options over these spools leaves.
fn run_over<P: Spools + Drop>(alloc: Global, options: &[&str], spools: P) -> Result<Left<P>, Fail> {
    let input = input(alloc)?;
    let mut files = folder_of(alloc, &[("app.json", APP), ("in.txt", input.as_str())])?;
    let mut words = Vec::new(alloc);
    words.extend_from_slice(&["sim", "app.json"])?;
    words.extend_from_slice(options)?;
    let devices = Devices {
        keeper: MemoryKeeper::new(alloc),
        vault: MemoryVault::new(alloc),
        spools,
    };
    let (out, err) = (MemoryOut::new(alloc), MemoryOut::new(alloc));
    run(alloc, &words, &mut files, devices, out, err)
}

/// The least blocks, of which a list keeps one in memory.
const LEAST: [&str; 4] = ["--block", "1040", "--keep", "1"];

/// Expects a run that stopped before anything was stored.
fn expect_stopped<P>(rt: &impl Abort, left: &Left<P>, status: u8, line: &str) {
    assert_eq!(rt; text(&left.err), line);
    assert_eq!(rt; left.status, status);
    assert_eq!(rt; (left.out.len(), left.stored.len()), (0, 0));
    assert_eq!(rt; left.last, Some(Event::Fault { status }));
}

#[test]
fn blocks_that_left_memory_give_the_same_rows(rt: HostRuntime) -> Result<(), Fail> {
    let alloc = rt.alloc();
    let least = run_over(alloc, &LEAST, MemorySpools::new(alloc))?;
    let usual = run_over(alloc, &[], MemorySpools::new(alloc))?;
    assert_eq!(rt; (least.status, usual.status), (0, 0));
    assert_eq!(rt; text(&least.out), text(&usual.out));
    assert_eq!(rt; text(&least.stored), text(&usual.stored));
    assert_eq!(rt; least.stored.len(), 2 * (1024 + 3) + 1 + 4 + 1);
    Ok(())
}

#[test]
fn a_first_fetch_that_fails_stores_nothing(rt: HostRuntime) -> Result<(), Fail> {
    let alloc = rt.alloc();
    let fetches = [1].to_vec(alloc)?;
    let spools = FailingSpools::new(alloc, Vec::new(alloc), Vec::new(alloc), fetches);
    let left = run_over(alloc, &LEAST, spools)?;
    expect_stopped(&rt, &left, 10, "apex: spool failed\n");
    assert!(rt; left.has_spool_fault && left.shown.is_none());
    Ok(())
}

#[test]
fn a_block_of_one_byte_is_shown(rt: HostRuntime) -> Result<(), Fail> {
    let alloc = rt.alloc();
    let spools = WrongSpools::new(alloc, 1, b"?".to_vec(alloc)?);
    let left = run_over(alloc, &LEAST, spools)?;
    expect_stopped(&rt, &left, 11, "apex: block damaged\n");
    let Some(
        Shown::Block {
            op,
            part,
            number,
            window,
            index,
            last,
            bytes,
        },
    ) = &left.shown
    else {
        return Err("no block is shown")?;
    };
    assert_eq!(rt; (*op, *part, *number, *window), (0, 0, 1, 1));
    assert_eq!(rt; (*index, *last, text(bytes)), (1, false, "?"));
    assert!(rt; !left.has_spool_fault);
    Ok(())
}
