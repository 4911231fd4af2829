//! The texts that a run prints.
#![tactic(auto)]

ghost use Rattle.std.specs.Prelude.{◌≡◌, ℕ, ◌≤◌, ◌++◌, OnOk, OnErr};
ghost use Rattle.apx_pass.specs.Texts.{row_text, rows_text, head_text, window_text};
ghost use Rattle.apx_window.specs.Identifier.{IsOrdinal};
ghost use Rattle.apx_report.specs.Extends.{Extends};

use apx_tuple::Tuple;
use apx_window::id_of;
use itoa::Buffer;
use std::alloc::AllocError;

/// Appends a window's text: a line with its ordinal, its identifier over the base second `base` and
/// how many rows it has, and then a line for each row with its key, a tab and its value in decimal.
///
/// Want of memory alone refuses it, and then the text is as it was.
pub fn window_text(
    base: u32,
    window: u32,
    rows: &[Tuple],
    into: &mut Vec<u8>,
) -> Result<(), AllocError>
    requires base { base ≤ 4294959295 }
    requires window { IsOrdinal window }
    ensures ok { OnOk result (into.new.items ≡ into.old.items ++ window_text base window rows.now) }
    ensures err { OnErr result (into.new.items ≡ into.old.items) }
{
    let len = into.len();
    let appended = append_window(base, window, rows, into);
    if appended.is_err() {
        into.truncate(len);
    }
    appended
}

#[tactic(auto, unfolding(apx_pass::specs::Texts::window_text))]
fn append_window(
    base: u32,
    window: u32,
    rows: &[Tuple],
    into: &mut Vec<u8>,
) -> Result<(), AllocError>
    requires base { base ≤ 4294959295 }
    requires window { IsOrdinal window }
    ensures ok { OnOk result (into.new.items ≡ into.old.items ++ window_text base window rows.now) }
    ensures kept { Extends into.old.items into.new.items }
{
    append_head(base, window, rows.len(), into)?;
    append_rows(rows, into)
}

/// Appends the line that stands over a window's rows.
#[tactic(auto, unfolding(apx_pass::specs::Texts::head_text))]
fn append_head(base: u32, window: u32, rows: usize, into: &mut Vec<u8>) -> Result<(), AllocError>
    requires base { base ≤ 4294959295 }
    requires window { IsOrdinal window }
    ensures ok { OnOk result (into.new.items ≡ into.old.items ++ head_text base window rows) }
    ensures kept { Extends into.old.items into.new.items }
{
    into.extend_from_slice(b"window ")?;
    into.extend_from_slice(Buffer::new().format(window).as_bytes())?;
    into.extend_from_slice(b" ")?;
    into.extend_from_slice(Buffer::new().format(id_of(base, window)).as_bytes())?;
    into.extend_from_slice(b" ")?;
    into.extend_from_slice(Buffer::new().format(rows).as_bytes())?;
    into.extend_from_slice(b"\n")?;
    Ok(())
}

/// Appends the rows, one after the other.
fn append_rows(rows: &[Tuple], into: &mut Vec<u8>) -> Result<(), AllocError>
    ensures ok { OnOk result (into.new.items ≡ into.old.items ++ rows_text rows.now) }
    ensures kept { Extends into.old.items into.new.items }
{
    for row in rows {
        append_row(row, into)?;
    }
    Ok(())
}

/// Appends a row: its key, a tab, its value in decimal, and LF.
#[tactic(auto, unfolding(apx_pass::specs::Texts::row_text))]
fn append_row(row: &Tuple, into: &mut Vec<u8>) -> Result<(), AllocError>
    ensures ok { OnOk result (into.new.items ≡ into.old.items ++ row_text row.now) }
    ensures kept { Extends into.old.items into.new.items }
{
    into.extend_from_slice(row.key.bytes())?;
    into.extend_from_slice(b"\t")?;
    into.extend_from_slice(Buffer::new().format(row.value).as_bytes())?;
    into.extend_from_slice(b"\n")
}

#[cfg(test)]
mod tests {
    use super::*;
    use apx_tuple::Key;
    use std::alloc::Global;
    use std::test::Fail;

    fn row(alloc: Global, key: &str, value: i64) -> Result<Tuple, Fail> {
        Ok(Tuple {
            key: Key::of(alloc, key.as_bytes())?,
            value,
        })
    }

    #[test]
    fn a_window_shows_its_rows(rt: HostRuntime) -> Result<(), Fail> {
        let alloc = rt.alloc();
        let mut rows = Vec::new(alloc);
        rows.push(row(alloc, "a", 2)?)?;
        rows.push(row(alloc, "b", -1)?)?;
        let mut text = Vec::new(alloc);
        window_text(1_000_000_000, 1, &rows, &mut text)?;
        window_text(1_000_000_000, 16001, &[], &mut text)?;
        let shown = std::str::from_utf8(&text)?;
        assert_eq!(rt;
            shown,
            "window 1 4294967296000000000 2\na\t2\nb\t-1\nwindow 16001 4295001655738368000 0\n"
        );
        Ok(())
    }
}
