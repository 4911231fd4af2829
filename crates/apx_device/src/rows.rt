// Rows as bytes: of each row the length of its key in two bytes, the key, and its value in eight, big-endian.
ghost use Rattle.std.specs.Prelude.{◌≡◌, ◌+◌, ◌++◌, ◌<◌, ◌≤◌, length, Some, None, IfOk, IfSome, OnOk, OnErr, if◌then◌else◌};
ghost use Rattle.std.specs.Option.{option_map};
ghost use Rattle.apx_tuple.specs.Size.{size_by};
ghost use Rattle.apx_tuple.specs.Tuple.{tuple_key};
ghost use Rattle.apx_device.specs.Rows.{IsRow, Extends, row_bytes, rows_bytes, key_length, is_row, row_in, rows_in};

use apx_tuple::{Key, KeyRefusal, Tuple};
use std::alloc::{AllocError, Global};

/// How many bytes the rows are.
fn bytes_len(rows: &[Tuple]) -> usize
    requires { size_by tuple_key rows.now < 4294967232 }
    ensures { result ≡ size_by tuple_key rows.now }
{
    let mut len = 0;
    for row in rows {
        len += row.key.bytes().len() + 10;
    }
    len
}

/// Appends the bytes of the rows. Want of memory alone refuses it, and then all is as it was.
pub fn append_rows(rows: &[Tuple], into: &mut Vec<u8>) -> Result<(), AllocError>
    requires { size_by tuple_key rows.now < 4294967232 }
    ensures bytes { OnOk result (into.new.items ≡ into.old.items ++ rows_bytes rows.now) }
    ensures err { OnErr result (into.new.items ≡ into.old.items) }

    // They are read back as the same rows.
    ensures back { OnOk result (rows_in (length rows.now) (rows_bytes rows.now) ≡ Some rows.now) }
{
    let len = into.len();
    let appended = append_all(rows, into);
    if appended.is_err() {
        into.truncate(len);
    }
    appended
}

/// Appends the bytes of the rows, or a front of them.
fn append_all(rows: &[Tuple], into: &mut Vec<u8>) -> Result<(), AllocError>
    requires { size_by tuple_key rows.now < 4294967232 }
    ensures bytes { OnOk result (into.new.items ≡ into.old.items ++ rows_bytes rows.now) }
    ensures kept { Extends into.old.items into.new.items }
    ensures back { OnOk result (rows_in (length rows.now) (rows_bytes rows.now) ≡ Some rows.now) }
{
    into.reserve(bytes_len(rows))?;
    for row in rows {
        append_row(row, into)?;
    }
    Ok(())
}

fn append_row(row: &Tuple, into: &mut Vec<u8>) -> Result<(), AllocError>
    ensures bytes { OnOk result (into.new.items ≡ into.old.items ++ row_bytes row.now) }
    ensures kept { Extends into.old.items into.new.items }
    ensures row { IsRow row.now }
{
    let key = row.key.bytes();
    let value = row.value.cast_unsigned().to_be_bytes();
    into.extend_from_slice(&(key.len() as u16).to_be_bytes())?;
    into.extend_from_slice(key)?;
    into.extend_from_slice(&value)
}

/// The rows that the bytes are, None where they aren't exactly so many rows.
pub fn read_rows(alloc: Global, count: u32, bytes: &[u8]) -> Result<Option<Vec<Tuple>>, AllocError>
    ensures { IfOk result (λ rows. option_map (λ rows. rows.items) rows ≡ rows_in count bytes.now) }
{
    let mut rows = Vec::new(alloc);
    let mut rest = bytes;
    for done in 0..count {
        let Some((row, len)) = first_row(alloc, rest)? else {
            return Ok(None);
        };
        rows.push(row)?;
        let (_, after) = rest.split_at(len);
        rest = after;
    }
    if !rest.is_empty() {
        return Ok(None);
    }
    Ok(Some(rows))
}

/// The row at the front of the bytes with how many of them it is, None where no whole row stands there.
fn first_row(alloc: Global, bytes: &[u8]) -> Result<Option<(Tuple, usize)>, AllocError>
    ensures row { IfOk result (λ found. found ≡ (if is_row bytes.now then Some (row_in bytes.now, key_length bytes.now + 10) else None)) }
    ensures within { IfOk result (λ found. IfSome found (λ row. row.1 ≤ length bytes.now)) }
{
    if bytes.len() < 10 {
        return Ok(None);
    }
    let key_len = usize::from(u16::from_be_bytes([bytes[0], bytes[1]]));
    if key_len > Key::MAX_LEN {
        return Ok(None);
    }
    if bytes.len() < key_len + 10 {
        return Ok(None);
    }
    let key = &bytes[2..key_len + 2];
    let value = &bytes[key_len + 2..];
    let value = u64::from_be_bytes([
        value[0], value[1], value[2], value[3], value[4], value[5], value[6], value[7],
    ]);
    let key = make_key(alloc, key)?;
    let row = Tuple {
        key,
        value: value.cast_signed(),
    };
    Ok(Some((row, key_len + 10)))
}

fn make_key(alloc: Global, bytes: &[u8]) -> Result<Key, AllocError>
    requires { length bytes.now ≤ 1024 }
    ensures { IfOk result (λ key. key ≡ bytes.now) }
{
    match Key::of(alloc, bytes) {
        Ok(key) => Ok(key),
        Err(KeyRefusal::TooLong { .. }) => unreachable!(),
        Err(KeyRefusal::Memory) => Err(AllocError),
    }
}
