// What folds give of tuples that come in pieces; the values are worked by hand from the kinds' rules.
//
// The tables write a tuple as `key=value,` and put `;` between pieces.
ghost use Rattle.std.specs.Prelude.{◌≤◌, ◌<◌};

use super::*;
use apx_tuple::{Bag, Key, Kind, State, Tuple};
use std::alloc::Global;
use std::test::Fail;

// The tuples of a piece.
fn piece_of(alloc: Global, text: &str) -> Result<Vec<Tuple>, Fail> {
    let mut tuples = Vec::new(alloc);
    for word in text.split(',') {
        if let Some((key, value)) = word.split_once('=') {
            tuples.push(Tuple {
                key: Key::of(alloc, key.as_bytes())?,
                value: value.parse::<i64>()?,
            })?;
        }
    }
    Ok(tuples)
}

// The rows as a text.
fn shown(alloc: Global, rows: &Bag) -> Result<String, Fail> {
    let mut text = String::new(alloc);
    for tuple in rows.tuples() {
        let key = std::str::from_utf8(tuple.key.bytes())?;
        let value = tuple.value;
        text.push_str(format!(in alloc; "{key}={value},")?.as_str())?;
    }
    Ok(text)
}

// A state in which `k` has 4.
fn before(alloc: Global) -> Result<State, Fail> {
    let mut state = State::new(alloc);
    state.set(Key::of(alloc, b"k")?, 4)?;
    Ok(state)
}

// The rows of the only partition at the end of window 2, once the pieces came on its two ports.
fn rows_of(alloc: Global, kind: Kind, lefts: &str, rights: &str) -> Result<String, Fail> {
    let mut fold = Fold::of(alloc, &kind, 1, 0);
    for text in lefts.split(';') {
        fold.take(0, &piece_of(alloc, text)?)?;
    }
    for text in rights.split(';') {
        fold.take_all(1, piece_of(alloc, text)?)?;
    }
    let (_, rows) = fold.end(2, &before(alloc)?)?;
    shown(alloc, &rows)
}

#[test]
fn pieces_in_any_order_give_the_rows_of_the_window(rt: HostRuntime) -> Result<(), Fail> {
    let alloc = rt.alloc();
    let table = [
        (
            Kind::Keep { min: 2, max: 9 },
            "k=10,k=9;k=1;k=2",
            "",
            "k=2,k=9,",
        ),
        (Kind::Scale { factor: -2 }, "k=1;j=7", "", "j=-14,k=-2,"),
        (Kind::Words, "to\tbe =1;;to=7", "", "be=1,to=1,to=7,"),
        (Kind::Prefix { len: 2 }, "abc=5;ab=4", "", "ab=4,ab=5,"),
        (Kind::Count, "k=9;a=1,k=9;k=9", "", "a=1,k=7,"),
        (Kind::Sum, "k=3;a=-1,k=2", "", "a=-1,k=9,"),
        (Kind::Peak, "k=3;a=1;k=4,a=2", "", "a=2,"),
        (Kind::First, "a=3,k=1;a=2;a=5", "", "a=2,"),
        (Kind::Tumble { every: 2 }, "a=1;k=1;a=1", "", "a=2,k=5,"),
        (Kind::Tumble { every: 3 }, "a=1;k=1", "", ""),
        (Kind::Top { k: 2 }, "d=1,c=5;b=5;a=5", "", "a=5,b=5,"),
        (Kind::Match, "k=2;z=1;k=1", "a=1;k=9", "k=1,k=2,"),
        (Kind::Enrich, "k=1;z=1", "k=7;k=10", "k=11,"),
        (Kind::Enrich, "k=1", "", "k=5,"),
        (Kind::Sum, "a=1", "k=1;b=1", "a=1,"),
    ];
    for (kind, lefts, rights, rows) in table {
        assert_eq!(rt; rows_of(alloc, kind, lefts, rights)?.as_str(), rows);
    }
    Ok(())
}

// What partition `i` of two makes of a piece that is given away, from no state. Of the keys `b` and `a` the first is of partition 0.
fn rows_of_half(alloc: Global, kind: Kind, i: u8, piece: Vec<Tuple>) -> Result<Bag, Fail>
    requires { i < 2 }
{
    let mut fold = Fold::of(alloc, &kind, 2, i);
    fold.take_all(0, piece)?;
    let (_, rows) = fold.end_by_value(1, State::new(alloc))?;
    Ok(rows)
}

#[test]
fn the_best_of_two_partitions_feed_two_sums(rt: HostRuntime) -> Result<(), Fail> {
    let alloc = rt.alloc();
    let kind = Kind::Top { k: 2 };
    let mut best = Fold::of(alloc, &kind, 1, 0);
    for i in 0..2 {
        let rows = rows_of_half(alloc, kind, i, piece_of(alloc, "b=5,a=5,c=5,d=1")?)?;
        best.take(0, rows.tuples())?;
    }
    let (_, best) = best.end_by_value(1, State::new(alloc))?;
    let mut text = String::new(alloc);
    for i in 0..2 {
        let piece = piece_of(alloc, shown(alloc, &best)?.as_str())?;
        let rows = rows_of_half(alloc, Kind::Sum, i, piece)?;
        text.push_str(shown(alloc, &rows)?.as_str())?;
    }
    assert_eq!(rt; text.as_str(), "b=5,a=5,");
    Ok(())
}

// The best two of a piece, of which each of `n` partitions finds its own best two.
fn best_of_parts(alloc: Global, n: u8) -> Result<String, Fail>
    requires low { 1 ≤ n }
    requires high { n ≤ 8 }
{
    let kind = Kind::Top { k: 2 };
    let mut all = Fold::of(alloc, &kind, 1, 0);
    for i in 0..n {
        let mut part = Fold::of(alloc, &kind, n, i);
        part.take_all(0, piece_of(alloc, "b=5,a=5,c=5,d=1")?)?;
        let (_, rows) = part.end_unsorted(1, State::new(alloc))?;
        all.take_all(0, rows)?;
    }
    let (_, best) = all.end_by_value(1, State::new(alloc))?;
    shown(alloc, &best)
}

#[test]
fn the_best_are_the_same_with_one_partition_and_with_three(rt: HostRuntime) -> Result<(), Fail> {
    let alloc = rt.alloc();
    assert_eq!(rt; best_of_parts(alloc, 1)?.as_str(), "a=5,b=5,");
    assert_eq!(rt; best_of_parts(alloc, 3)?.as_str(), "a=5,b=5,");
    Ok(())
}

#[test]
fn a_sum_is_told_at_each_third_window_alone(rt: HostRuntime) -> Result<(), Fail> {
    let alloc = rt.alloc();
    let mut state = State::new(alloc);
    let mut text = String::new(alloc);
    for window in 1..5 {
        let mut fold = Fold::of(alloc, &Kind::Tumble { every: 3 }, 1, 0);
        fold.take(0, &piece_of(alloc, "k=1")?)?;
        let (kept, rows) = fold.end_by_value(window, state)?;
        state = kept;
        text.push_str(shown(alloc, &rows)?.as_str())?;
        text.push_str(";")?;
    }
    assert_eq!(rt; text.as_str(), ";;k=3,;;");
    Ok(())
}

#[test]
fn a_rate_is_kept_for_the_windows_behind_its_own(rt: HostRuntime) -> Result<(), Fail> {
    let alloc = rt.alloc();
    let mut fold = Fold::of(alloc, &Kind::Enrich, 1, 0);
    fold.take(0, &piece_of(alloc, "k=1")?)?;
    fold.take(1, &piece_of(alloc, "k=7")?)?;
    fold.take(1, &piece_of(alloc, "k=10")?)?;
    let (state, first) = fold.end(1, &State::new(alloc))?;
    let mut fold = Fold::of(alloc, &Kind::Enrich, 1, 0);
    fold.take(0, &piece_of(alloc, "k=2,z=1")?)?;
    let (_, second) = fold.end(2, &state)?;
    assert_eq!(rt; shown(alloc, &first)?.as_str(), "k=11,");
    assert_eq!(rt; shown(alloc, &second)?.as_str(), "k=12,");
    Ok(())
}
