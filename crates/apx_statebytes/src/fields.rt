//! The fields of the bytes, each with the bytes behind it.
ghost use Rattle.std.specs.Prelude.{◌≡◌, ◌≤◌, length, IfOk, IfErr};
ghost use Rattle.std.specs.Int.{w16, w32, w64};
ghost use Rattle.apx_statebytes.specs.Reading.{Gives, number_at, key_at};

use crate::fault::StateFault;
use apx_tuple::{Key, KeyRefusal};
use std::alloc::{AllocError, Global};

/// What a row adds to the size beside its key's length.
pub(crate) const BESIDE_KEY: u64 = 10;

fn u16_at(total: usize, bytes: &[u8]) -> Result<(u16, &[u8]), StateFault>
    ensures { Gives (λ x. (x.0, x.1.now)) result (number_at w16 total bytes.now) }
{
    if bytes.len() < 2 {
        return Err(StateFault::Bad { at: total });
    }
    let (front, rest) = bytes.split_at(2);
    let number = u16::from_be_bytes([front[0], front[1]]);
    Ok((number, rest))
}

pub(crate) fn u32_at(total: usize, bytes: &[u8]) -> Result<(u32, &[u8]), StateFault>
    ensures { Gives (λ x. (x.0, x.1.now)) result (number_at w32 total bytes.now) }
{
    if bytes.len() < 4 {
        return Err(StateFault::Bad { at: total });
    }
    let (front, rest) = bytes.split_at(4);
    let number = u32::from_be_bytes([front[0], front[1], front[2], front[3]]);
    Ok((number, rest))
}

pub(crate) fn u64_at(total: usize, bytes: &[u8]) -> Result<(u64, &[u8]), StateFault>
    ensures { Gives (λ x. (x.0, x.1.now)) result (number_at w64 total bytes.now) }
{
    if bytes.len() < 8 {
        return Err(StateFault::Bad { at: total });
    }
    let (front, rest) = bytes.split_at(8);
    let number = u64::from_be_bytes([
        front[0], front[1], front[2], front[3], front[4], front[5], front[6], front[7],
    ]);
    Ok((number, rest))
}

/// A key behind its length, which is judged before the key is made.
#[tactic(auto, unfolding(crate::specs::Reading::key_at))]
pub(crate) fn key_at(
    alloc: Global,
    total: usize,
    room: u64,
    bytes: &[u8],
) -> Result<(Key, &[u8]), StateFault>
    ensures { Gives (λ x. (x.0, x.1.now)) result (key_at total room bytes.now) }
{
    let place = total.saturating_sub(bytes.len());
    let (len, rest) = u16_at(total, bytes)?;
    if len > 1024 {
        return Err(StateFault::Bad { at: place });
    }
    if room <= u64::from(len) + BESIDE_KEY {
        return Err(StateFault::Bad { at: place });
    }
    let len = usize::from(len);
    if rest.len() < len {
        return Err(StateFault::Bad { at: total });
    }
    let (key, rest) = rest.split_at(len);
    Ok((make_key(alloc, key)?, rest))
}

fn make_key(alloc: Global, bytes: &[u8]) -> Result<Key, AllocError>
    requires { length bytes.now ≤ 1024 }
    ensures { IfOk result (λ key. key ≡ bytes.now) }
{
    match Key::of(alloc, bytes) {
        Ok(key) => Ok(key),
        Err(KeyRefusal::TooLong { .. }) => unreachable!(),
        Err(KeyRefusal::Memory) => Err(AllocError),
    }
}
