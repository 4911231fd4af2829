//! What an operator carries in three partitions, moved to two.
use crate::repartition;
use apx_tuple::{Bag, Key, Progress, State, Tuple};
use std::alloc::Global;
use std::test::Fail;

/// A progress with one key in its state, and one tuple that came on the left.
fn carried(alloc: Global, key: &str, value: i64) -> Result<Progress, Fail> {
    let mut state = State::new(alloc);
    state.set(Key::of(alloc, key.as_bytes())?, value)?;
    let mut tuples = Vec::new(alloc);
    tuples.push(Tuple {
        key: Key::of(alloc, key.as_bytes())?,
        value,
    })?;
    Ok(Progress {
        state,
        left: Bag::of(tuples)?,
        right: Bag::new(alloc),
    })
}

// Of three partitions the keys `a`, `b` and `c` belong to 1, 2 and 0; of one all belong to 0.
#[test]
fn partitions_go_on_as_others(rt: HostRuntime) -> Result<(), Fail> {
    let alloc = rt.alloc();
    let mut parts = Vec::new(alloc);
    for (key, value) in [("c", 9), ("a", 7), ("b", 8)] {
        parts.push(carried(alloc, key, value)?)?;
    }
    if parts.len() != 3 {
        return Err("another number of partitions")?;
    }
    let one = repartition(alloc, parts, 1)?;
    assert_eq!(rt; one.len(), 1);
    assert_eq!(rt; one[0].state.len(), 3);
    assert_eq!(rt; one[0].left.tuples().len(), 3);
    let three = repartition(alloc, one, 3)?;
    assert_eq!(rt; three.len(), 3);
    for (part, (key, value)) in [("c", 9), ("a", 7), ("b", 8)].iter().enumerate() {
        let found = three[part].state.get(&Key::of(alloc, key.as_bytes())?);
        assert!(rt; found == Some(*value));
        assert_eq!(rt; three[part].state.len(), 1);
        assert_eq!(rt; three[part].left.tuples().len(), 1);
    }
    Ok(())
}
