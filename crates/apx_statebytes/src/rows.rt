//! Rows: keys with their values, one behind the other.
ghost use Rattle.std.specs.Prelude.{◌≡◌, None};
ghost use Rattle.std.specs.Option.{option_copied};
ghost use Rattle.std.specs.Ordering.{int_cmp, ordering_then};
ghost use Rattle.apx_tuple.specs.Tuple.{key_order};
ghost use Rattle.apx_statebytes.specs.Reading.{Gives, row_behind, row_at, rows_at, rows_of};
ghost use Rattle.apx_statebytes.specs.Rows.{key_may_follow, row_may_follow};

use crate::fault::StateFault;
use crate::fields::{BESIDE_KEY, key_at, u32_at, u64_at};
use apx_tuple::Key;
use std::alloc::Global;
use std::cmp::Ordering;

/// A key and its value.
pub(crate) type Row = (Key, i64);

/// Rows, the room behind them, and the bytes behind them.
pub(crate) type Rows<'a> = (Vec<Row>, u64, &'a [u8]);

/// Rows behind their number. Room for them is taken as far as there are bytes for them.
#[tactic(auto, unfolding(crate::specs::Reading::rows_of))]
pub(crate) fn rows_of(
    alloc: Global,
    total: usize,
    room: u64,
    each_once: bool,
    bytes: &[u8],
) -> Result<Rows<'_>, StateFault>
    ensures { Gives (λ x. (x.0.items, x.1, x.2.now)) result (rows_of each_once total room bytes.now) }
{
    let (count, rest) = u32_at(total, bytes)?;
    rows_at(alloc, total, room, each_once, count, rest)
}

fn rows_at(
    alloc: Global,
    total: usize,
    room: u64,
    each_once: bool,
    count: u32,
    bytes: &[u8],
) -> Result<Rows<'_>, StateFault>
    ensures { Gives (λ x. (x.0.items, x.1, x.2.now)) result (rows_at each_once total count room None bytes.now) }
{
    let mut rows = Vec::with_capacity(alloc, (count as usize).min(bytes.len() / 10))?;
    let mut left = room;
    let mut rest = bytes;
    for _ in 0..count {
        let (row, behind) = row_at(alloc, total, left, each_once, rows.last(), rest)?;
        left = left.saturating_sub(row.0.bytes().len() as u64 + BESIDE_KEY);
        rows.push(row)?;
        rest = behind;
    }
    Ok((rows, left, rest))
}

#[tactic(auto, unfolding(crate::specs::Reading::row_at))]
fn row_at<'a>(
    alloc: Global,
    total: usize,
    room: u64,
    each_once: bool,
    before: Option<&Row>,
    bytes: &'a [u8],
) -> Result<(Row, &'a [u8]), StateFault>
    ensures { Gives (λ x. (x.0, x.1.now)) result (row_at each_once total room (option_copied before.entry) bytes.now) }
{
    let place = total.saturating_sub(bytes.len());
    let (key, rest) = key_at(alloc, total, room, bytes)?;
    if !key_may_follow(each_once, before, &key) {
        return Err(StateFault::Bad { at: place });
    }
    row_behind(total, place, each_once, before, key, rest)
}

#[tactic(auto, unfolding(crate::specs::Reading::row_behind))]
fn row_behind<'a>(
    total: usize,
    place: usize,
    each_once: bool,
    before: Option<&Row>,
    key: Key,
    bytes: &'a [u8],
) -> Result<(Row, &'a [u8]), StateFault>
    ensures { Gives (λ x. (x.0, x.1.now)) result (row_behind each_once total place (option_copied before.entry) key bytes.now) }
{
    let (value, rest) = u64_at(total, bytes)?;
    let row = (key, value.cast_signed());
    if !row_may_follow(each_once, before, &row) {
        return Err(StateFault::Bad { at: place });
    }
    Ok((row, rest))
}

// The order of rows: by key, and then by value.
fn order(x: &Row, y: &Row) -> Ordering
    ensures { result ≡ ordering_then (key_order x.now.0 y.now.0) (int_cmp x.now.1 y.now.1) }
{
    x.0.cmp(&y.0).then(x.1.cmp(&y.1))
}

fn key_may_follow(each_once: bool, before: Option<&Row>, key: &Key) -> bool
    ensures { result ≡ key_may_follow each_once (option_copied before.entry) key.now }
{
    match before {
        None => true,
        Some(earlier) => !each_once || earlier.0 < *key,
    }
}

fn row_may_follow(each_once: bool, before: Option<&Row>, row: &Row) -> bool
    ensures { result ≡ row_may_follow each_once (option_copied before.entry) row.now }
{
    match before {
        None => true,
        Some(earlier) => each_once || !order(earlier, row).is_gt(),
    }
}
