//! Writing a progress.
ghost use Rattle.std.specs.Prelude.{◌≡◌, ◌<◌, ◌++◌, map, OnOk, IfOk};
ghost use Rattle.apx_tuple.specs.Progress.{progress_size};
ghost use Rattle.apx_tuple.specs.State.{IsState};
ghost use Rattle.apx_tuple.specs.Tuple.{IsBag};
ghost use Rattle.apx_statebytes.specs.Rows.{row_of, IsRow, AreRows};
ghost use Rattle.apx_statebytes.specs.Spelling.{row_spelling, rows_spelling, second_spelling, IsProgress};

use apx_tuple::{Bag, Key, Progress, State};
use std::alloc::{AllocError, Global};

/// The bytes of a progress, in spelling 2.
pub fn encode(alloc: Global, progress: &Progress) -> Result<Vec<u8>, AllocError>
    requires { progress_size progress.now < 4294967232 }
    ensures spelled { IfOk result (λ bytes. bytes.items ≡ second_spelling progress.now) }

    // So they are read again.
    ensures progress { OnOk result (IsProgress progress.now) }
{
    let mut bytes = Vec::new(alloc);
    bytes.extend_from_slice(&[255, 2])?;
    write_state(&progress.state, &mut bytes)?;
    write_bag(&progress.left, &mut bytes)?;
    write_bag(&progress.right, &mut bytes)?;
    Ok(bytes)
}

fn write_state(state: &State, into: &mut Vec<u8>) -> Result<(), AllocError>
    ensures ok { OnOk result (into.new.items ≡ into.old.items ++ rows_spelling state.now) }
    ensures rows { OnOk result (AreRows state.now) }
    ensures state { IsState state.now }
{
    let count = state.len() as u32;
    into.extend_from_slice(&count.to_be_bytes())?;
    for (key, value) in state.pairs() {
        write_row(key, value, into)?;
    }
    Ok(())
}

fn write_bag(bag: &Bag, into: &mut Vec<u8>) -> Result<(), AllocError>
    ensures ok { OnOk result (into.new.items ≡ into.old.items ++ rows_spelling (map row_of bag.now)) }
    ensures rows { OnOk result (AreRows (map row_of bag.now)) }
    ensures bag { IsBag bag.now }
{
    let tuples = bag.tuples();
    let count = tuples.len() as u32;
    into.extend_from_slice(&count.to_be_bytes())?;
    for tuple in tuples {
        write_row(&tuple.key, tuple.value, into)?;
    }
    Ok(())
}

fn write_row(key: &Key, value: i64, into: &mut Vec<u8>) -> Result<(), AllocError>
    ensures ok { OnOk result (into.new.items ≡ into.old.items ++ row_spelling (key.now, value)) }
    ensures row { IsRow (key.now, value) }
{
    let bytes = key.bytes();
    let [a, b] = (bytes.len() as u16).to_be_bytes();
    let value = value.cast_unsigned().to_be_bytes();
    into.reserve(10 + bytes.len())?;
    into.extend_from_slice(&[a, b])?;
    into.extend_from_slice(bytes)?;
    into.extend_from_slice(&value)
}
