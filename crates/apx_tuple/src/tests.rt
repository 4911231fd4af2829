// Each call once with ample memory; the values are worked by hand.
use super::*;
use std::alloc::Global;
use std::cmp::Ordering;
use std::test::Fail;

// A tuple with this key and value.
fn tuple(alloc: Global, key: &str, value: i64) -> Result<Tuple, Fail> {
    Ok(Tuple {
        key: Key::of(alloc, key.as_bytes())?,
        value,
    })
}

// The tuples as text, each as `key=value` and a blank.
fn shown(alloc: Global, tuples: &[Tuple]) -> Result<String, Fail> {
    let mut text = String::new(alloc);
    for tuple in tuples {
        let key = std::str::from_utf8(tuple.key.bytes())?;
        let value = tuple.value;
        text.push_str(format!(in alloc; "{key}={value} ")?.as_str())?;
    }
    Ok(text)
}

// A state with `b` at 1 and `a` at 2.
fn two_keys(alloc: Global) -> Result<State, Fail> {
    let mut state = State::new(alloc);
    state.set(Key::of(alloc, b"b")?, 1)?;
    state.set(Key::of(alloc, b"a")?, 2)?;
    Ok(state)
}

#[test]
fn a_key_has_up_to_1024_bytes(rt: HostRuntime) -> Result<(), Fail> {
    let alloc = rt.alloc();
    let bytes = vec![in alloc; 120u8; 1025]?;
    let key = Key::of(alloc, &bytes[..1024])?;
    assert_eq!(rt; key.copy()?.bytes().len(), 1024);
    assert!(rt;
        matches!(
            Key::of(alloc, &bytes),
            Err(KeyRefusal::TooLong { len: 1025 })
        )
    );
    Ok(())
}

#[test]
fn keys_go_byte_by_byte(rt: HostRuntime) -> Result<(), Fail> {
    let alloc = rt.alloc();
    let rows: [(&[u8], &[u8], Ordering); 9] = [
        (b"", b"", Ordering::Equal),
        (b"", b"\0", Ordering::Less),
        (b"a", b"a\0", Ordering::Less),
        (b"a\0\0", b"a\0", Ordering::Greater),
        (b"b", b"aaaaaaaaaa", Ordering::Greater),
        (b"\x7f", b"\x80", Ordering::Less),
        (b"same eight 1", b"same eight 2", Ordering::Less),
        (b"same eig", b"same eight", Ordering::Less),
        (
            b"a key of more bytes",
            b"a key of more bytes",
            Ordering::Equal,
        ),
    ];
    for (left, right, order) in rows {
        let left = Key::of(alloc, left)?;
        let right = Key::of(alloc, right)?;
        assert_eq!(rt; left.cmp(&right), order);
        assert_eq!(rt; left == right, order == Ordering::Equal);
    }
    Ok(())
}

#[test]
fn a_copied_tuple_is_the_same(rt: HostRuntime) -> Result<(), Fail> {
    let first = tuple(rt.alloc(), "a key of more bytes", -4)?;
    let second = first.copy()?;
    assert!(rt; first == second);
    assert_eq!(rt; second.key.bytes(), b"a key of more bytes".as_slice());
    assert_eq!(rt; second.value, -4);
    Ok(())
}

#[test]
fn a_change_finds_a_key_or_adds_it(rt: HostRuntime) -> Result<(), Fail> {
    let alloc = rt.alloc();
    let mut state = two_keys(alloc)?;
    let raised = |old: Option<i64>| old.unwrap_or(0).wrapping_add(5);
    for (key, before, after) in [("a", Some(2), 7), ("c", None, 5), ("c", Some(5), 10)] {
        let key = Key::of(alloc, key.as_bytes())?;
        let changed = state.change(&key, raised)?;
        assert!(rt; changed == (before, after));
        assert_eq!(rt; state.get(&key), Some(after));
    }
    assert_eq!(rt; state.len(), 3);
    Ok(())
}

#[test]
fn a_bag_ascends_and_keeps_repeats(rt: HostRuntime) -> Result<(), Fail> {
    let alloc = rt.alloc();
    let mut tuples = Vec::new(alloc);
    for (key, value) in [("b", 1), ("a", 2), ("ab", -1), ("a", -3), ("b", 1), ("", 7)] {
        tuples.push(tuple(alloc, key, value)?)?;
    }
    let bag = Bag::of(tuples)?;
    assert_eq!(rt;
        shown(alloc, bag.tuples())?.as_str(),
        "=7 a=-3 a=2 ab=-1 b=1 b=1 "
    );
    let again = Bag::from_ascending(bag.copy(alloc)?.into_tuples())?;
    assert_eq!(rt;
        shown(alloc, again.tuples())?.as_str(),
        "=7 a=-3 a=2 ab=-1 b=1 b=1 "
    );
    Ok(())
}

#[test]
fn merged_bags_are_one_bag(rt: HostRuntime) -> Result<(), Fail> {
    let alloc = rt.alloc();
    let mut first = Vec::new(alloc);
    first.push(tuple(alloc, "c", 1)?)?;
    first.push(tuple(alloc, "a", 1)?)?;
    let mut second = Vec::new(alloc);
    second.push(tuple(alloc, "b", 1)?)?;
    let mut parts = Vec::new(alloc);
    parts.push(Bag::of(first)?)?;
    parts.push(Bag::new(alloc))?;
    parts.push(Bag::of(second)?)?;
    assert_eq!(rt;
        shown(alloc, Bag::merge(alloc, parts)?.tuples())?.as_str(),
        "a=1 b=1 c=1 "
    );
    Ok(())
}

#[test]
fn a_state_keeps_the_last_value_of_each_key(rt: HostRuntime) -> Result<(), Fail> {
    let alloc = rt.alloc();
    let mut state = two_keys(alloc)?;
    let a = Key::of(alloc, b"a")?;
    state.set(a.copy()?, 5)?;
    assert_eq!(rt; state.get(&a), Some(5));
    assert_eq!(rt; state.len(), 2);
    state.remove(&a);
    assert_eq!(rt; state.get(&a), None);
    assert!(rt; !state.is_empty());
    Ok(())
}

#[test]
fn pairs_come_in_the_keys_order(rt: HostRuntime) -> Result<(), Fail> {
    let alloc = rt.alloc();
    let state = two_keys(alloc)?.copy()?;
    let mut values = Vec::new(alloc);
    for (_, value) in state.pairs() {
        values.push(value)?;
    }
    assert!(rt; values.as_slice() == [2, 1].as_slice());
    Ok(())
}

#[test]
fn two_kinds_have_a_right_port(rt: HostRuntime) {
    let kinds = [
        (Kind::Keep { min: 0, max: 1 }, false),
        (Kind::Count, false),
        (Kind::Top { k: 1 }, false),
        (Kind::Match, true),
        (Kind::Enrich, true),
    ];
    for (kind, right) in kinds {
        assert_eq!(rt; kind.has_right(), right);
    }
}

#[test]
fn an_operator_starts_with_nothing(rt: HostRuntime) {
    let progress = Progress::new(rt.alloc());
    assert!(rt; progress.state.is_empty());
    assert_eq!(rt; progress.left.tuples().len(), 0);
    assert_eq!(rt; progress.right.tuples().len(), 0);
}

#[test]
fn sizes_count_each_key_and_ten_more(rt: HostRuntime) -> Result<(), Fail> {
    let alloc = rt.alloc();
    let mut tuples = Vec::new(alloc);
    tuples.push(tuple(alloc, "ab", 1)?)?;
    let left = Bag::of(tuples)?;
    assert_eq!(rt; left.size(), 12);
    let progress = Progress {
        state: two_keys(alloc)?,
        left,
        right: Bag::new(alloc),
    };
    assert_eq!(rt; progress.size(), 34);
    Ok(())
}
