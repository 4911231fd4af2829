// Bytes and places that were worked by hand, or by a reader of the rules that shares nothing with this one.
use super::*;
use apx_tuple::{Key, Progress};
use std::alloc::Global;
use std::process::Abort;
use std::test::Fail;

/// A state of `a` 2 and `b` 1, alone.
const ALONE: [u8; 26] = [
    0, 0, 0, 2, // two keys
    0, 1, 97, 0, 0, 0, 0, 0, 0, 0, 2, // a 2
    0, 1, 98, 0, 0, 0, 0, 0, 0, 0, 1, // b 1
];

/// That state, `a` 1 and `a` 2 on the left, and `k` 3 on the right.
const WHOLE: [u8; 69] = [
    255, 2, // the mark and the number of the spelling
    0, 0, 0, 2, 0, 1, 97, 0, 0, 0, 0, 0, 0, 0, 2, 0, 1, 98, 0, 0, 0, 0, 0, 0, 0, 1, // the state
    0, 0, 0, 2, 0, 1, 97, 0, 0, 0, 0, 0, 0, 0, 1, 0, 1, 97, 0, 0, 0, 0, 0, 0, 0, 2, // left
    0, 0, 0, 1, 0, 1, 107, 0, 0, 0, 0, 0, 0, 0, 3, // right
];

/// What stands for a place where the bytes are read.
const READ: usize = 99;

// The place where the bytes are refused.
fn place(alloc: Global, bytes: &[u8]) -> Result<usize, Fail> {
    match decode(alloc, bytes) {
        Ok(_) => Ok(READ),
        Err(StateFault::Bad { at }) => Ok(at),
        Err(StateFault::Memory) => Err(Fail::from("out of memory")),
    }
}

#[test]
fn a_state_of_two_keys_has_these_bytes(rt: HostRuntime) -> Result<(), Fail> {
    let alloc = rt.alloc();
    let mut progress = Progress::new(alloc);
    assert_eq!(rt;
        encode(alloc, &progress)?.as_slice(),
        [255, 2, 0, 0, 0, 0, 0, 0, 0, 0, 0, 0, 0, 0].as_slice()
    );
    progress.state.set(Key::of(alloc, b"b")?, 1)?;
    progress.state.set(Key::of(alloc, b"a")?, 2)?;
    assert_eq!(rt; encode(alloc, &progress)?.as_slice(), [
        255, 2, 0, 0, 0, 2, 0, 1, 97, 0, 0, 0, 0, 0, 0, 0, 2, 0, 1, 98, 0, 0, 0, 0, 0, 0, 0, 1, // a 2, b 1
        0, 0, 0, 0, 0, 0, 0, 0, // nothing on the ports
    ].as_slice());
    Ok(())
}

#[test]
fn what_is_read_is_written_again(rt: HostRuntime) -> Result<(), Fail> {
    let alloc = rt.alloc();
    let progress = decode(alloc, &WHOLE)?;
    assert_eq!(rt; progress.state.len(), 2);
    assert_eq!(rt; progress.state.get(&Key::of(alloc, b"a")?), Some(2));
    assert_eq!(rt; progress.left.tuples().len(), 2);
    assert_eq!(rt; progress.right.tuples().len(), 1);
    assert_eq!(rt; encode(alloc, &progress)?.as_slice(), WHOLE.as_slice());
    let alone = decode(alloc, &ALONE)?;
    assert_eq!(rt; alone.state.len(), 2);
    assert_eq!(rt; alone.left.tuples().len() + alone.right.tuples().len(), 0);
    Ok(())
}

#[test]
fn bytes_that_are_cut_are_refused_at_their_end(rt: HostRuntime) -> Result<(), Fail> {
    for len in 0..WHOLE.len() {
        assert_eq!(rt; place(rt.alloc(), &WHOLE[..len])?, len);
    }
    for len in 0..ALONE.len() {
        assert_eq!(rt; place(rt.alloc(), &ALONE[..len])?, len);
    }
    Ok(())
}

// Each byte in turn with this added to it, and the places that are wanted.
fn changed(
    rt: &impl Abort,
    alloc: Global,
    bytes: &[u8],
    by: u8,
    want: &[usize],
) -> Result<(), Fail> {
    assert_eq!(rt; bytes.len(), want.len());
    for (i, want) in want.iter().enumerate() {
        let mut other = bytes.to_vec(alloc)?;
        if let Some(byte) = other.get_mut(i) {
            *byte = byte.wrapping_add(by);
        }
        assert_eq!(rt; place(alloc, &other)?, *want, "byte {i} and {by}");
    }
    Ok(())
}

#[test]
fn a_changed_byte_is_refused_where_it_shows(rt: HostRuntime) -> Result<(), Fail> {
    let alloc = rt.alloc();
    changed(
        &rt,
        alloc,
        &WHOLE,
        1,
        &[
            69, 1, 28, 28, 28, 28, 69, 69, 17, 99, 99, 99, 99, 99, 99, 99, 99, 69, 69, 99, 99, 99,
            99, 99, 99, 99, 99, 99, 54, 54, 54, 54, 69, 69, 43, 43, 43, 43, 43, 43, 43, 43, 99, 69,
            69, 99, 99, 99, 99, 99, 99, 99, 99, 99, 69, 69, 69, 69, 69, 69, 99, 99, 99, 99, 99, 99,
            99, 99, 99,
        ],
    )?;
    changed(
        &rt,
        alloc,
        &WHOLE,
        255,
        &[
            69, 1, 28, 28, 28, 69, 6, 69, 99, 99, 99, 99, 99, 99, 99, 99, 99, 17, 17, 17, 99, 99,
            99, 99, 99, 99, 99, 99, 54, 54, 54, 69, 32, 69, 99, 99, 43, 43, 43, 43, 43, 43, 99, 43,
            43, 43, 43, 99, 99, 99, 99, 99, 99, 99, 69, 69, 69, 58, 58, 68, 99, 99, 99, 99, 99, 99,
            99, 99, 99,
        ],
    )?;
    changed(
        &rt,
        alloc,
        &ALONE,
        1,
        &[
            26, 26, 26, 26, 26, 26, 15, 99, 99, 99, 99, 99, 99, 99, 99, 26, 26, 99, 99, 99, 99, 99,
            99, 99, 99, 99,
        ],
    )?;
    changed(
        &rt,
        alloc,
        &ALONE,
        255,
        &[
            1, 26, 26, 15, 4, 26, 99, 99, 99, 99, 99, 99, 99, 99, 99, 15, 15, 15, 99, 99, 99, 99,
            99, 99, 99, 99,
        ],
    )?;
    Ok(())
}

#[test]
fn bytes_are_refused_at_the_first_fault(rt: HostRuntime) -> Result<(), Fail> {
    let cases: [(&[u8], usize); 14] = [
        (&[], 0),
        (&[0, 0, 0], 3),
        (&[0, 0, 0, 0], READ),
        (&[0, 0, 0, 0, 0], 4), // a byte too many
        (&[255], 1),
        (&[255, 3], 1), // no such spelling
        (&[255, 2], 2),
        (&[254, 255, 255, 255], 4), // four thousand million keys, and none of them
        (&[255, 2, 0, 0, 0, 0, 0, 0, 0, 0], 10),
        (&[255, 2, 0, 0, 0, 0, 0, 0, 0, 0, 0, 0, 0, 0, 7], 14),
        (&[0, 0, 0, 1, 4, 1], 4), // a key of 1,025 bytes
        // b and then a, and a twice
        (
            &[
                0, 0, 0, 2, 0, 1, 98, 0, 0, 0, 0, 0, 0, 0, 1, 0, 1, 97, 0, 0, 0, 0, 0, 0, 0, 2,
            ],
            15,
        ),
        (
            &[0, 0, 0, 2, 0, 1, 97, 0, 0, 0, 0, 0, 0, 0, 1, 0, 1, 97],
            15,
        ),
        // a 2 and then a 1 on the left
        (
            &[
                255, 2, 0, 0, 0, 0, 0, 0, 0, 2, 0, 1, 97, 0, 0, 0, 0, 0, 0, 0, 2, 0, 1, 97, 0, 0,
                0, 0, 0, 0, 0, 1,
            ],
            21,
        ),
    ];
    for (bytes, want) in cases {
        assert_eq!(rt; place(rt.alloc(), bytes)?, want, "{bytes:?}");
    }
    Ok(())
}
