// Each call once with ample memory; the values are worked by hand.
use super::*;
use apx_tuple::{Bag, Key, Kind, State, Tuple};
use std::alloc::Global;
use std::test::Fail;

// Of three partitions the keys `a`, `b` and `c` belong to 1, 2 and 0.
const PARTS: u8 = 3;

// The bag of tuples with these keys and values.
fn bag(alloc: Global, tuples: &[(&str, i64)]) -> Result<Bag, Fail> {
    let mut all = Vec::new(alloc);
    for (key, value) in tuples {
        all.push(Tuple {
            key: Key::of(alloc, key.as_bytes())?,
            value: *value,
        })?;
    }
    Ok(Bag::of(all)?)
}

// The state with these pairs.
fn state(alloc: Global, pairs: &[(&str, i64)]) -> Result<State, Fail> {
    let mut state = State::new(alloc);
    for (key, value) in pairs {
        state.set(Key::of(alloc, key.as_bytes())?, *value)?;
    }
    Ok(state)
}

// A bag as text, each tuple as `key=value` and a blank.
fn shown(alloc: Global, bag: &Bag) -> Result<String, Fail> {
    let mut text = String::new(alloc);
    for tuple in bag.tuples() {
        let key = std::str::from_utf8(tuple.key.bytes())?;
        let value = tuple.value;
        text.push_str(format!(in alloc; "{key}={value} ")?.as_str())?;
    }
    Ok(text)
}

// A state as text, in the same form.
fn kept(alloc: Global, state: &State) -> Result<String, Fail> {
    let mut text = String::new(alloc);
    for (key, value) in state.pairs() {
        let key = std::str::from_utf8(key.bytes())?;
        text.push_str(format!(in alloc; "{key}={value} ")?.as_str())?;
    }
    Ok(text)
}

#[test]
fn each_key_is_cut_to_its_owner(rt: HostRuntime) -> Result<(), Fail> {
    let alloc = rt.alloc();
    let all = bag(alloc, &[("a", 1), ("a", 2), ("b", 3), ("c", 4)])?;
    let pairs = state(alloc, &[("a", 7), ("b", 8), ("c", 9)])?;
    for (i, tuples, owned) in [
        (0, "c=4 ", "c=9 "),
        (1, "a=1 a=2 ", "a=7 "),
        (2, "b=3 ", "b=8 "),
    ] {
        assert_eq!(rt;
            shown(alloc, &cut_bag(alloc, &all, PARTS, i)?)?.as_str(),
            tuples
        );
        assert_eq!(rt;
            kept(alloc, &split_state(alloc, &pairs, PARTS, i)?)?.as_str(),
            owned
        );
    }
    Ok(())
}

#[test]
fn the_best_of_one_partition_and_of_three_are_the_same(rt: HostRuntime) -> Result<(), Fail> {
    let alloc = rt.alloc();
    let kind = Kind::Top { k: 2 };
    let all = bag(alloc, &[("b", 5), ("a", 5), ("c", 5), ("d", 1)])?;
    let none = Bag::new(alloc);
    let before = State::new(alloc);
    for n in [1, 3] {
        let mut parts = Vec::new(alloc);
        for i in 0..n {
            let (_, rows) = step_part(alloc, &kind, n, i, 1, &before, &all, &none)?;
            parts.push(rows)?;
        }
        assert_eq!(rt;
            shown(alloc, &unify(alloc, &kind, parts)?)?.as_str(),
            "a=5 b=5 "
        );
    }
    assert_eq!(rt;
        shown(alloc, &keep_best(alloc, &kind, all)?)?.as_str(),
        "a=5 b=5 "
    );
    Ok(())
}

#[test]
fn a_partition_counts_what_it_owns(rt: HostRuntime) -> Result<(), Fail> {
    let alloc = rt.alloc();
    let all = bag(alloc, &[("a", 1), ("b", 1), ("b", 1)])?;
    let before = state(alloc, &[("a", 3), ("b", 4)])?;
    let none = Bag::new(alloc);
    let (after, rows) = step_part(alloc, &Kind::Count, PARTS, 2, 1, &before, &all, &none)?;
    assert_eq!(rt; kept(alloc, &after)?.as_str(), "b=6 ");
    assert_eq!(rt; shown(alloc, &rows)?.as_str(), "b=6 ");
    Ok(())
}
