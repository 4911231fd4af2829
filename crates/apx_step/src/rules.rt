//! The rule of each kind for one key.
ghost use Rattle.std.specs.Prelude.{◌≡◌, ◌≤◌, ℤ, int_le, ◌&&◌, pos, List, [], ◌∷◌, ◌++◌, length, map, take, filter, cond, IfOk, OnOk, unwrap_or};
ghost use Rattle.apx_rules.specs.Rule.{keep_rule, scale_rule, prefix_rule, total, greatest, with_entry_added, tuples_of, came, rose, count_rule, sum_rule, peak_rule, first_rule, match_rule, enrich_rule, words_rule};
ghost use Rattle.apx_step.specs.Walk.{values, open_rule, emitted_of_passing};

use crate::words::emit_words;
use apx_tuple::{Key, Kind, Tuple};
use std::alloc::{AllocError, Global};

/// Adds a tuple to those that are emitted.
pub(crate) fn emit(key: &Key, value: i64, emitted: &mut Vec<Tuple>) -> Result<(), AllocError>
    ensures { OnOk result (emitted.new.items ≡ emitted.old.items ++ record { key = key.now; value = value } ∷ []) }
{
    emitted.push(Tuple {
        key: key.copy()?,
        value,
    })?;
    Ok(())
}

/// Whether the value is from `min` to `max`.
pub(crate) fn is_within(min: i64, max: i64, value: i64) -> bool
    ensures { result ≡ (int_le min value && int_le value max) }
{
    min <= value && value <= max
}

/// Emits the tuples whose value is from `min` to `max`.
fn emit_kept(
    min: i64,
    max: i64,
    key: &Key,
    tuples: &[Tuple],
    emitted: &mut Vec<Tuple>,
) -> Result<(), AllocError>
    ensures { OnOk result (emitted.new.items ≡ emitted.old.items ++ (keep_rule min max key.now (values tuples.now)).emitted) }
{
    for tuple in tuples {
        if is_within(min, max, tuple.value) {
            emit(key, tuple.value, emitted)?;
        }
    }
    Ok(())
}

/// Emits the tuples with their values multiplied by `factor`.
fn emit_scaled(
    factor: i64,
    key: &Key,
    tuples: &[Tuple],
    emitted: &mut Vec<Tuple>,
) -> Result<(), AllocError>
    ensures { OnOk result (emitted.new.items ≡ emitted.old.items ++ (scale_rule factor key.now (values tuples.now)).emitted) }
{
    for tuple in tuples {
        emit(key, tuple.value.wrapping_mul(factor), emitted)?;
    }
    Ok(())
}

/// Emits the tuples with another key.
fn emit_as(key: &Key, tuples: &[Tuple], emitted: &mut Vec<Tuple>) -> Result<(), AllocError>
    ensures { OnOk result (emitted.new.items ≡ emitted.old.items ++ tuples_of key.now (values tuples.now)) }
{
    for tuple in tuples {
        emit(key, tuple.value, emitted)?;
    }
    Ok(())
}

/// Emits the tuples with `more` added to their values.
fn emit_raised(
    more: i64,
    key: &Key,
    tuples: &[Tuple],
    emitted: &mut Vec<Tuple>,
) -> Result<(), AllocError>
    ensures { OnOk result (emitted.new.items ≡ emitted.old.items ++ tuples_of key.now (with_entry_added (Some more) (values tuples.now))) }
{
    for tuple in tuples {
        emit(key, tuple.value.wrapping_add(more), emitted)?;
    }
    Ok(())
}

/// The values added to `start`.
fn total(start: i64, tuples: &[Tuple]) -> i64
    ensures { result ≡ total start (values tuples.now) }
{
    let mut sum = start;
    for tuple in tuples {
        sum = sum.wrapping_add(tuple.value);
    }
    sum
}

/// The greatest of an entry, if there is one, and the values.
fn greatest(old: Option<i64>, tuples: &[Tuple]) -> Option<i64>
    ensures { result ≡ greatest old (values tuples.now) }
{
    let mut peak = old;
    for tuple in tuples {
        peak = Some(peak.unwrap_or(tuple.value).max(tuple.value));
    }
    peak
}

/// Emits the tuples with the key cut to its first `len` bytes.
fn emit_cut(
    alloc: Global,
    len: u16,
    key: &Key,
    tuples: &[Tuple],
    emitted: &mut Vec<Tuple>,
) -> Result<(), AllocError>
    ensures { OnOk result (emitted.new.items ≡ emitted.old.items ++ (prefix_rule len key.now (values tuples.now)).emitted) }
{
    let bytes = key.bytes();
    let cut = Key::of_few(alloc, &bytes[..bytes.len().min(len as usize)])?;
    emit_as(&cut, tuples, emitted)
}

/// Emits the number that is kept for the key from then on.
fn emit_running(key: &Key, value: i64, emitted: &mut Vec<Tuple>) -> Result<Option<i64>, AllocError>
    ensures entry { IfOk result (λ entry. entry ≡ Some value) }
    ensures emitted { OnOk result (emitted.new.items ≡ emitted.old.items ++ record { key = key.now; value = value } ∷ []) }
{
    emit(key, value, emitted)?;
    Ok(Some(value))
}

/// Counts the tuples.
fn count(
    key: &Key,
    old: Option<i64>,
    lefts: &[Tuple],
    emitted: &mut Vec<Tuple>,
) -> Result<Option<i64>, AllocError>
    ensures entry { IfOk result (λ entry. entry ≡ (count_rule key.now old (values lefts.now)).entry) }
    ensures emitted { OnOk result (emitted.new.items ≡ emitted.old.items ++ (count_rule key.now old (values lefts.now)).emitted) }
{
    if lefts.is_empty() {
        return Ok(old);
    }
    emit_running(
        key,
        old.unwrap_or(0).wrapping_add(lefts.len() as i64),
        emitted,
    )
}

/// Adds up the values.
fn sum(
    key: &Key,
    old: Option<i64>,
    lefts: &[Tuple],
    emitted: &mut Vec<Tuple>,
) -> Result<Option<i64>, AllocError>
    ensures entry { IfOk result (λ entry. entry ≡ (sum_rule key.now old (values lefts.now)).entry) }
    ensures emitted { OnOk result (emitted.new.items ≡ emitted.old.items ++ (sum_rule key.now old (values lefts.now)).emitted) }
{
    if lefts.is_empty() {
        return Ok(old);
    }
    emit_running(key, total(old.unwrap_or(0), lefts), emitted)
}

/// Whether an entry is new or greater than before.
fn rose(old: Option<i64>, value: i64) -> bool
    ensures { result ≡ rose old value }
{
    match old {
        None => true,
        Some(before) => before < value,
    }
}

/// Keeps the greatest value, and emits it where it is the first or rose.
fn peak(
    key: &Key,
    old: Option<i64>,
    lefts: &[Tuple],
    emitted: &mut Vec<Tuple>,
) -> Result<Option<i64>, AllocError>
    ensures entry { IfOk result (λ entry. entry ≡ (peak_rule key.now old (values lefts.now)).entry) }
    ensures emitted { OnOk result (emitted.new.items ≡ emitted.old.items ++ (peak_rule key.now old (values lefts.now)).emitted) }
{
    let [least, ..] = lefts else {
        return Ok(old);
    };
    let peak = greatest(old, lefts).unwrap_or(least.value);
    if rose(old, peak) {
        emit(key, peak, emitted)?;
    }
    Ok(Some(peak))
}

/// Emits the least value of a key that came for the first time.
fn first(
    key: &Key,
    old: Option<i64>,
    lefts: &[Tuple],
    emitted: &mut Vec<Tuple>,
) -> Result<Option<i64>, AllocError>
    ensures entry { IfOk result (λ entry. entry ≡ (first_rule key.now old (values lefts.now)).entry) }
    ensures emitted { OnOk result (emitted.new.items ≡ emitted.old.items ++ (first_rule key.now old (values lefts.now)).emitted) }
{
    let [least, ..] = lefts else {
        return Ok(old);
    };
    if old.is_none() {
        emit(key, least.value, emitted)?;
    }
    Ok(Some(1))
}

/// Adds up the values, and emits nothing.
fn gathered(old: Option<i64>, lefts: &[Tuple]) -> Option<i64>
    ensures { result ≡ cond (came (values lefts.now)) (Some (total (unwrap_or old (pos 0)) (values lefts.now))) old }
{
    if lefts.is_empty() {
        old
    } else {
        Some(total(old.unwrap_or(0), lefts))
    }
}

/// Passes on the left tuples of a key that came on the right.
fn emit_matched(
    key: &Key,
    lefts: &[Tuple],
    rights: &[Tuple],
    emitted: &mut Vec<Tuple>,
) -> Result<(), AllocError>
    ensures { OnOk result (emitted.new.items ≡ emitted.old.items ++ (match_rule key.now (values lefts.now) (values rights.now)).emitted) }
{
    if rights.is_empty() {
        return Ok(());
    }
    emit_as(key, lefts, emitted)
}

/// The entry of a key that joins: the greatest right value, where there is one.
fn newest(old: Option<i64>, rights: &[Tuple]) -> Option<i64>
    ensures { result ≡ cond (came (values rights.now)) (greatest None (values rights.now)) old }
{
    if rights.is_empty() {
        old
    } else {
        greatest(None, rights)
    }
}

/// Adds the newest right value to each left one.
fn enrich(
    key: &Key,
    old: Option<i64>,
    lefts: &[Tuple],
    rights: &[Tuple],
    emitted: &mut Vec<Tuple>,
) -> Result<Option<i64>, AllocError>
    ensures entry { IfOk result (λ entry. entry ≡ (enrich_rule key.now old (values lefts.now) (values rights.now)).entry) }
    ensures emitted { OnOk result (emitted.new.items ≡ emitted.old.items ++
        (enrich_rule key.now old (values lefts.now) (values rights.now)).emitted) }
{
    let entry = newest(old, rights);
    if let Some(more) = entry {
        emit_raised(more, key, lefts, emitted)?;
    }
    Ok(entry)
}

/// What the kind makes of a key at a window that ends no sum: its new entry. The tuples emitted are added to `emitted`.
#[tactic(auto, unfolding(apx_rules::specs::Rule::rule, crate::specs::Walk::open_rule, crate::specs::Walk::emitted_of_passing))]
pub(crate) fn apply(
    alloc: Global,
    kind: &Kind,
    key: &Key,
    old: Option<i64>,
    lefts: &[Tuple],
    rights: &[Tuple],
    emitted: &mut Vec<Tuple>,
) -> Result<Option<i64>, AllocError>
    ensures entry { IfOk result (λ entry. entry ≡ (open_rule kind.now key.now old (values lefts.now) (values rights.now)).entry) }
    ensures emitted { OnOk result (emitted.new.items ≡ emitted.old.items ++
        (open_rule kind.now key.now old (values lefts.now) (values rights.now)).emitted) }
{
    match *kind {
        Kind::Count => count(key, old, lefts, emitted),
        Kind::Sum => sum(key, old, lefts, emitted),
        Kind::Peak => peak(key, old, lefts, emitted),
        Kind::First => first(key, old, lefts, emitted),
        Kind::Tumble { .. } => Ok(gathered(old, lefts)),
        Kind::Enrich => enrich(key, old, lefts, rights, emitted),
        _ => {
            pass_on(alloc, kind, key, lefts, rights, emitted)?;
            Ok(None)
        }
    }
}

/// What a kind that keeps nothing emits of a key.
#[tactic(auto, unfolding(crate::specs::Walk::emitted_of_passing))]
fn pass_on(
    alloc: Global,
    kind: &Kind,
    key: &Key,
    lefts: &[Tuple],
    rights: &[Tuple],
    emitted: &mut Vec<Tuple>,
) -> Result<(), AllocError>
    ensures { OnOk result (emitted.new.items ≡ emitted.old.items ++
        emitted_of_passing kind.now key.now (values lefts.now) (values rights.now)) }
{
    match *kind {
        Kind::Keep { min, max } => emit_kept(min, max, key, lefts, emitted),
        Kind::Scale { factor } => emit_scaled(factor, key, lefts, emitted),
        Kind::Words => emit_all_words(alloc, key, lefts, emitted),
        Kind::Prefix { len } => emit_cut(alloc, len, key, lefts, emitted),
        Kind::Match => emit_matched(key, lefts, rights, emitted),
        _ => Ok(()),
    }
}

/// Emits each word of the key, with each of its values.
fn emit_all_words(
    alloc: Global,
    key: &Key,
    tuples: &[Tuple],
    emitted: &mut Vec<Tuple>,
) -> Result<(), AllocError>
    ensures { OnOk result (emitted.new.items ≡ emitted.old.items ++ (words_rule key.now (values tuples.now)).emitted) }
{
    for tuple in tuples {
        emit_words(alloc, key, tuple.value, emitted)?;
    }
    Ok(())
}
