// What each kind makes of a few windows; the values are worked by hand from the kinds' rules.
//
// The tables write a tuple as `key=value,` and put `;` between windows.
use super::*;
use apx_tuple::{Bag, Key, Kind, State, Tuple};
use std::alloc::Global;
use std::test::Fail;

// The bag that the text writes.
fn bag(alloc: Global, text: &str) -> Result<Bag, Fail> {
    let mut tuples = Vec::new(alloc);
    for word in text.split(',') {
        if word.is_empty() {
            continue;
        }
        let (key, value) = word.split_once('=').ok_or("no value")?;
        tuples.push(Tuple {
            key: Key::of(alloc, key.as_bytes())?,
            value: value.parse::<i64>()?,
        })?;
    }
    Ok(Bag::of(tuples)?)
}

// Adds the rows to the text.
fn write_rows(alloc: Global, rows: &Bag, text: &mut String) -> Result<(), Fail> {
    for tuple in rows.tuples() {
        let key = std::str::from_utf8(tuple.key.bytes())?;
        let value = tuple.value;
        text.push_str(format!(in alloc; "{key}={value},")?.as_str())?;
    }
    Ok(())
}

// The rows of an operator from window 1 on, with what comes on its left and its right port.
fn rows_of(alloc: Global, kind: Kind, lefts: &str, rights: &str) -> Result<String, Fail> {
    let mut text = String::new(alloc);
    let mut state = State::new(alloc);
    let mut window = 1u32;
    for (left, right) in lefts.split(';').zip(rights.split(';')) {
        let left = bag(alloc, left)?;
        let right = bag(alloc, right)?;
        let (next, rows) = step_in_place(alloc, &kind, window, state, &left, &right)?;
        write_rows(alloc, &rows, &mut text)?;
        text.push_str(";")?;
        state = next;
        window = window.wrapping_add(1);
    }
    Ok(text)
}

#[test]
fn kinds_that_keep_nothing_pass_tuples_on(rt: HostRuntime) -> Result<(), Fail> {
    let alloc = rt.alloc();
    let table = [
        (
            Kind::Keep { min: 2, max: 9 },
            "k=1,k=2,k=9,k=10",
            "k=2,k=9,;",
        ),
        (Kind::Scale { factor: 3 }, "k=2", "k=6,;"),
        (Kind::Words, " to\tbe  to =1,to=7", "be=1,to=1,to=1,to=7,;"),
        (Kind::Prefix { len: 1 }, "ab=4,=5", "=5,a=4,;"),
        (Kind::Prefix { len: 2 }, "ab=4,abc=5", "ab=4,ab=5,;"),
        (Kind::Prefix { len: 3 }, "ab=4,abc=5", "ab=4,abc=5,;"),
        (Kind::Top { k: 1 }, "b=5,a=5,c=5,d=1", "a=5,;"),
        (Kind::Top { k: 2 }, "b=5,a=5,c=5,d=1", "a=5,b=5,;"),
        (Kind::Top { k: 3 }, "a=1,b=2,c=3", "a=1,b=2,c=3,;"),
        (Kind::Top { k: 4 }, "a=1,b=2,c=3", "a=1,b=2,c=3,;"),
    ];
    for (kind, left, rows) in table {
        assert_eq!(rt; rows_of(alloc, kind, left, "")?.as_str(), rows);
    }
    Ok(())
}

// The sums of the rows that `top` gives of 70 tuples: `a` has 1, `aa` 2, and so on.
fn top_sum(alloc: Global, k: u32) -> Result<(usize, i64), Fail> {
    let mut tuples = Vec::new(alloc);
    for value in 1..71i64 {
        let bytes = vec![in alloc; b'a'; value.unsigned_abs() as usize]?;
        tuples.push(Tuple {
            key: Key::of(alloc, &bytes)?,
            value,
        })?;
    }
    let (_, rows) = step_in_place(
        alloc,
        &Kind::Top { k },
        1,
        State::new(alloc),
        &Bag::of(tuples)?,
        &Bag::new(alloc),
    )?;
    let mut sum = 0i64;
    for tuple in rows.tuples() {
        sum = sum.wrapping_add(tuple.value);
    }
    Ok((rows.tuples().len(), sum))
}

#[test]
fn top_gives_the_first_k_of_any_number(rt: HostRuntime) -> Result<(), Fail> {
    let table = [
        (1, 1, 70),
        (63, 63, 2457),
        (64, 64, 2464),
        (65, 65, 2470),
        (71, 70, 2485),
    ];
    for (k, count, sum) in table {
        assert!(rt; top_sum(rt.alloc(), k)? == (count, sum));
    }
    Ok(())
}

#[test]
fn kinds_that_keep_an_entry_add_to_it(rt: HostRuntime) -> Result<(), Fail> {
    let alloc = rt.alloc();
    let table = [
        (Kind::Count, "a=1,b=1;a=1,a=5,c=1;;", "a=1,b=1,;a=3,c=1,;;;"),
        (
            Kind::Sum,
            "k=9223372036854775807;k=1;;",
            "k=9223372036854775807,;k=-9223372036854775808,;;;",
        ),
        (Kind::Peak, "k=5;k=3;k=7;", "k=5,;;k=7,;;"),
        (Kind::First, "k=5,k=3;k=1;;", "k=3,;;;;"),
        (Kind::Tumble { every: 1 }, "k=1;k=2;;", "k=1,;k=2,;;;"),
        (Kind::Tumble { every: 3 }, "k=1;k=1;k=1;k=1", ";;k=3,;;"),
        (Kind::Tumble { every: 4 }, "k=1;k=1;k=1;k=1", ";;;k=4,;"),
        (Kind::Tumble { every: 5 }, "k=1;k=1;k=1;k=1", ";;;;"),
        (Kind::Tumble { every: 2 }, "k=1;z=5;;", ";k=1,z=5,;;;"),
    ];
    for (kind, lefts, rows) in table {
        assert_eq!(rt; rows_of(alloc, kind, lefts, ";;;")?.as_str(), rows);
    }
    Ok(())
}

#[test]
fn joins_read_the_right_port(rt: HostRuntime) -> Result<(), Fail> {
    let alloc = rt.alloc();
    let table = [(Kind::Enrich, "k=11,;k=12,;"), (Kind::Match, "k=1,;;")];
    for (kind, rows) in table {
        let emitted = rows_of(alloc, kind, "k=1;k=2,z=1", "k=7,k=10;")?;
        assert_eq!(rt; emitted.as_str(), rows);
    }
    Ok(())
}

#[test]
fn a_step_by_reference_leaves_the_state(rt: HostRuntime) -> Result<(), Fail> {
    let alloc = rt.alloc();
    let mut state = State::new(alloc);
    state.set(Key::of(alloc, b"a")?, 2)?;
    let left = bag(alloc, "a=7,b=7")?;
    let none = Bag::new(alloc);
    for _ in 0..2 {
        let (next, rows) = step(alloc, &Kind::Count, 1, &state, &left, &none)?;
        let mut text = String::new(alloc);
        write_rows(alloc, &rows, &mut text)?;
        assert_eq!(rt; text.as_str(), "a=3,b=1,");
        assert_eq!(rt; next.len(), 2);
    }
    assert_eq!(rt; state.len(), 1);
    Ok(())
}

#[test]
fn bags_that_are_given_away_give_the_same_rows(rt: HostRuntime) -> Result<(), Fail> {
    let alloc = rt.alloc();
    let table = [
        (Kind::Keep { min: 2, max: 9 }, "k=2,k=9,"),
        (Kind::Scale { factor: -2 }, "j=14,k=-20,k=-18,k=-4,k=-2,"),
        (Kind::Count, "j=1,k=4,"),
        (Kind::Match, "j=-7,"),
    ];
    for (kind, rows) in table {
        let left = bag(alloc, "j=-7,k=1,k=2,k=9,k=10")?;
        let right = bag(alloc, "j=1")?;
        let (_, emitted) = step_by_value(alloc, &kind, 1, State::new(alloc), left, right)?;
        let mut text = String::new(alloc);
        write_rows(alloc, &emitted, &mut text)?;
        assert_eq!(rt; text.as_str(), rows);
    }
    Ok(())
}
