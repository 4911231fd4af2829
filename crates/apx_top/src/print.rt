//! Printing the windows that the keeper holds, and counting their rows.
ghost use Rattle.std.specs.Prelude.{◌≡◌, ◌≤◌, ◌-◌, List, Some, length, IsTrue, IfOk, IfErr, OnOk, slice_get, take};
ghost use Rattle.apx_cause.specs.Cause.{Rose};
ghost use Rattle.apx_tuple.specs.declared.tuple.Tuple.{Tuple};
ghost use Rattle.apx_pass.specs.Texts.{window_text as text_of, windows_text};
ghost use Rattle.apx_load.specs.Stops.{IsCaused, no_causes};
ghost use Rattle.apx_top.specs.Run.{printing_causes, row_count};
ghost use Rattle.apx_top.specs.Sent.{HasWritten};

use crate::write::write_all;
use apx_device::{Keeper, Out};
use apx_load::Stop;
use apx_report::window_text;
use apx_tuple::Tuple;
use std::alloc::Global;

/// Writes a window's text, with identifiers over a base second.
fn write_window<O: Out>(
    alloc: Global,
    base: u32,
    window: u32,
    rows: &[Tuple],
    out: &mut O,
) -> Result<(), Stop>
    requires base { base ≤ 4294959295 }
    requires low { 1 ≤ window }
    requires high { window ≤ 20000 }
    ensures written { HasWritten O.tells (text_of base window rows.now) result (O.written out.old) (O.written out.new) }
    ensures later { O.faults out.old ≤ O.faults out.new }
    ensures stop { IfErr result (IsCaused (record no_causes { output = Rose (O.faults out.old) (O.faults out.new) })) }
{
    let mut text = Vec::new(alloc);
    window_text(base, window, rows, &mut text)?;
    Ok(write_all(out, &text)?)
}

/// Prints a window that the keeper holds, and answers how many rows it has.
fn print_window<K: Keeper, O: Out>(
    alloc: Global,
    keeper: &mut K,
    base: u32,
    window: u32,
    out: &mut O,
) -> Result<u64, Stop>
    requires base { base ≤ 4294959295 }
    requires sound { IsTrue (K.sound keeper.old) }
    requires low { 1 ≤ window }
    requires high { window ≤ 20000 }
    requires there { window ≤ K.last keeper.old }
    ensures stored { K.stored keeper.new ≡ K.stored keeper.old }
    ensures last { K.last keeper.new ≡ K.last keeper.old }
    ensures sound { OnOk result (IsTrue (K.sound keeper.new)) }
    ensures count { IsTrue K.tells → (rows : List Tuple) → slice_get (K.stored keeper.old) (window - 1) ≡ Some rows →
        IfOk result (λ count. count ≡ length rows) }
    ensures written { IsTrue K.tells → (rows : List Tuple) → slice_get (K.stored keeper.old) (window - 1) ≡ Some rows →
        HasWritten O.tells (text_of base window rows) result (O.written out.old) (O.written out.new) }
    ensures store_later { K.faults keeper.old ≤ K.faults keeper.new }
    ensures later { O.faults out.old ≤ O.faults out.new }
    ensures stop { IfErr result (IsCaused
        (printing_causes (Rose (K.faults keeper.old) (K.faults keeper.new)) (Rose (O.faults out.old) (O.faults out.new)))) }
{
    let rows = keeper.rows(alloc, window)?;
    write_window(alloc, base, window, &rows, out)?;
    Ok(rows.len() as u64)
}

/// Prints the keeper's windows from the first to the number `windows`, or a front of that text, and answers how many rows they
/// have, up to the type's last value.
pub(crate) fn print_all<K: Keeper, O: Out>(
    alloc: Global,
    keeper: &mut K,
    base: u32,
    windows: u32,
    out: &mut O,
) -> Result<u64, Stop>
    requires base { base ≤ 4294959295 }
    requires sound { IsTrue (K.sound keeper.old) }
    requires few { windows ≤ 20000 }
    requires there { windows ≤ K.last keeper.old }
    ensures stored { K.stored keeper.new ≡ K.stored keeper.old }
    ensures last { K.last keeper.new ≡ K.last keeper.old }
    ensures count { IsTrue K.tells → windows ≤ length (K.stored keeper.old) →
        IfOk result (λ count. count ≡ row_count (take windows (K.stored keeper.old))) }
    ensures written { IsTrue K.tells → windows ≤ length (K.stored keeper.old) →
        HasWritten O.tells (windows_text base 1 (take windows (K.stored keeper.old))) result
        (O.written out.old) (O.written out.new) }
    ensures store_later { K.faults keeper.old ≤ K.faults keeper.new }
    ensures later { O.faults out.old ≤ O.faults out.new }
    ensures stop { IfErr result (IsCaused
        (printing_causes (Rose (K.faults keeper.old) (K.faults keeper.new)) (Rose (O.faults out.old) (O.faults out.new)))) }
{
    let mut count: u64 = 0;
    for done in 0..windows {
        count = count.saturating_add(print_window(alloc, keeper, base, done + 1, out)?);
    }
    Ok(count)
}

/// How many rows the keeper's windows have, from the first to the number `windows`, up to the type's last value.
pub(crate) fn count_all<K: Keeper>(alloc: Global, keeper: &mut K, windows: u32) -> Result<u64, Stop>
    requires sound { IsTrue (K.sound keeper.old) }
    requires there { windows ≤ K.last keeper.old }
    ensures stored { K.stored keeper.new ≡ K.stored keeper.old }
    ensures last { K.last keeper.new ≡ K.last keeper.old }
    ensures count { IsTrue K.tells → windows ≤ length (K.stored keeper.old) →
        IfOk result (λ count. count ≡ row_count (take windows (K.stored keeper.old))) }
    ensures later { K.faults keeper.old ≤ K.faults keeper.new }
    ensures stop { IfErr result (IsCaused (record no_causes { store = Rose (K.faults keeper.old) (K.faults keeper.new) })) }
{
    let mut count: u64 = 0;
    for done in 0..windows {
        count = count.saturating_add(keeper.rows(alloc, done + 1)?.len() as u64);
    }
    Ok(count)
}
