//! What files give and what is refused in them, by hand.
ghost use Rattle.std.specs.Prelude.{◌≤◌};

use crate::{LineRefusal, Windows, windows};
use apx_tuple::InputKind;
use std::alloc::{AllocError, Global};
use std::test::Fail;

/// The tuples of a window, each as its key, an equals sign, its value and a blank.
fn shown(alloc: Global, windows: &Windows, window: u32) -> Result<Vec<u8>, Fail> {
    let bag = windows.bag(window)?;
    let mut text = Vec::new(alloc);
    for tuple in bag.tuples() {
        text.extend_from_slice(tuple.key.bytes())?;
        text.push(b'=')?;
        let value = tuple.value.to_string(alloc)?;
        text.extend_from_slice(value.as_bytes())?;
        text.push(b' ')?;
    }
    Ok(text)
}

/// A text of `count` copies of a piece.
fn copies(alloc: Global, piece: &[u8], count: usize) -> Result<Vec<u8>, AllocError> {
    let mut text = Vec::new(alloc);
    for _ in 0..count {
        text.extend_from_slice(piece)?;
    }
    Ok(text)
}

/// What is refused in a file, if anything.
fn refused(
    alloc: Global,
    kind: InputKind,
    per_window: u32,
    text: &[u8],
) -> Result<Option<LineRefusal>, Fail>
    requires low { 1 ≤ per_window }
    requires high { per_window ≤ 1000000 }
{
    match windows(alloc, kind, per_window, text) {
        Ok(_) => Ok(None),
        Err(refusal) => Ok(Some(refusal)),
    }
}

#[test]
fn lines_are_cut_and_grouped(rt: HostRuntime) -> Result<(), Fail> {
    let rows: [(&[u8], u32, &[u8], &[u8]); 9] = [
        (b"", 0, b"", b""),
        (b"b\na\nb\n", 2, b"a=1 b=1 ", b"b=1 "),
        (b"b\na\nb", 2, b"a=1 b=1 ", b"b=1 "),
        (b"\n\n\n", 2, b"=1 =1 ", b"=1 "),
        (b"a\r\nb\r", 1, b"a=1 b=1 ", b""),
        (b"a\r\r\nb\rc\n", 1, b"a\r=1 b\rc=1 ", b""),
        (b"a\n\r", 1, b"=1 a=1 ", b""),
        (b"\r", 1, b"=1 ", b""),
        (b"a\tb\nc", 1, b"a\tb=1 c=1 ", b""),
    ];
    for (text, count, first, second) in rows {
        let windows = windows(rt.alloc(), InputKind::Lines, 2, text)?;
        assert_eq!(rt; windows.count(), count, "in {text:?}");
        assert_eq!(rt; shown(rt.alloc(), &windows, 0)?.as_slice(), b"".as_slice());
        assert_eq!(rt; shown(rt.alloc(), &windows, 1)?.as_slice(), first);
        assert_eq!(rt; shown(rt.alloc(), &windows, 2)?.as_slice(), second);
        assert_eq!(rt; shown(rt.alloc(), &windows, 3)?.as_slice(), b"".as_slice());
    }
    Ok(())
}

#[test]
fn pairs_are_cut_at_the_last_tab(rt: HostRuntime) -> Result<(), Fail> {
    let rows: [(&[u8], &[u8], &[u8]); 5] = [
        (
            b"k\t9223372036854775807\nk\t1\n",
            b"k=9223372036854775807 ",
            b"k=1 ",
        ),
        (
            b"a\tb\t5\n\t-9223372036854775808\r\n",
            b"a\tb=5 ",
            b"=-9223372036854775808 ",
        ),
        (b"k\t007\nk\t-0", b"k=7 ", b"k=0 "),
        (
            b"k\t999999999999999999\nk\t1000000000000000000",
            b"k=999999999999999999 ",
            b"k=1000000000000000000 ",
        ),
        (b"k\t0000000000000000000000001", b"k=1 ", b""),
    ];
    for (text, first, second) in rows {
        let windows = windows(rt.alloc(), InputKind::Pairs, 1, text)?;
        assert_eq!(rt;
            shown(rt.alloc(), &windows, 1)?.as_slice(),
            first,
            "in {text:?}"
        );
        assert_eq!(rt;
            shown(rt.alloc(), &windows, 2)?.as_slice(),
            second,
            "in {text:?}"
        );
    }
    Ok(())
}

#[test]
fn what_is_no_pair_is_refused(rt: HostRuntime) -> Result<(), Fail> {
    let rows: [&[u8]; 11] = [
        b"k 1",
        b"",
        b"k\t",
        b"k\t+1",
        b"k\t-",
        b"k\t 1",
        b"k\t1 ",
        b"5\tk",
        b"k\t1.0",
        b"k\t9223372036854775808",
        b"k\t-9223372036854775809",
    ];
    for line in rows {
        let mut text = Vec::new(rt.alloc());
        text.extend_from_slice(b"k\t1\n")?;
        text.extend_from_slice(line)?;
        text.extend_from_slice(b"\nk")?;
        let refusal = refused(rt.alloc(), InputKind::Pairs, 1, text.as_slice())?;
        assert_eq!(rt;
            refusal,
            Some(LineRefusal::BadPair { line: 2 }),
            "at {line:?}"
        );
    }
    let alone = refused(rt.alloc(), InputKind::Pairs, 1, b"k 1")?;
    assert_eq!(rt; alone, Some(LineRefusal::BadPair { line: 1 }));
    Ok(())
}

#[test]
fn a_line_has_at_most_1024_bytes(rt: HostRuntime) -> Result<(), Fail> {
    let longest = copies(rt.alloc(), b"x", 1024)?;
    let kept = windows(rt.alloc(), InputKind::Lines, 1, longest.as_slice())?;
    assert_eq!(rt; shown(rt.alloc(), &kept, 1)?.len(), 1027);
    let mut with_cr = copies(rt.alloc(), b"x", 1024)?;
    with_cr.extend_from_slice(b"\r\n")?;
    assert_eq!(rt;
        refused(rt.alloc(), InputKind::Lines, 1, with_cr.as_slice())?,
        None
    );
    let longer = copies(rt.alloc(), b"x", 1025)?;
    for kind in [InputKind::Lines, InputKind::Pairs] {
        let refusal = refused(rt.alloc(), kind, 1, longer.as_slice())?;
        assert_eq!(rt; refusal, Some(LineRefusal::TooLong { line: 1 }));
    }
    Ok(())
}

#[test]
fn a_file_has_at_most_20_000_windows(rt: HostRuntime) -> Result<(), Fail> {
    let mut text = copies(rt.alloc(), b"a\n", 20_000)?;
    let kept = windows(rt.alloc(), InputKind::Lines, 1, text.as_slice())?;
    assert_eq!(rt; kept.count(), 20_000);
    assert_eq!(rt;
        shown(rt.alloc(), &kept, 20_000)?.as_slice(),
        b"a=1 ".as_slice()
    );
    let longer = copies(rt.alloc(), b"x", 1025)?;
    text.extend_from_slice(longer.as_slice())?;
    let refusal = refused(rt.alloc(), InputKind::Lines, 1, text.as_slice())?;
    assert_eq!(rt; refusal, Some(LineRefusal::TooMany { line: 20_001 }));
    let pairs = refused(rt.alloc(), InputKind::Lines, 2, text.as_slice())?;
    assert_eq!(rt; pairs, Some(LineRefusal::TooLong { line: 20_001 }));
    Ok(())
}
