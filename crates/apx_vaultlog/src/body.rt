// The changes of a vault as the bodies of their records.
ghost use Rattle.std.specs.Prelude.{◌≡◌, ◌≤◌, ◌<◌, ◌^◌, ◌++◌, ℕ, List, Some, None, length, drop, IfOk, IsSome, IsTrue, if◌then◌else◌};
ghost use Rattle.std.specs.BTreeMap.{keys, get};
ghost use Rattle.std.specs.List.Sorted.{IsStrictlySortedBy};
ghost use Rattle.apx_device.specs.Vault.{Entry, save_order, with_entry, entries_from};
ghost use Rattle.apx_device.specs.MemoryVault.{entries_in};
ghost use Rattle.apx_vaultlog.specs.Changes.{put_front, put_body, drop_body, is_put, is_drop, put_id, drop_window, changed};

use apx_device::SaveId;
use std::alloc::{AllocError, Global};
use std::collections::BTreeMap;

/// The body of a put.
pub(crate) fn body_of_put(alloc: Global, id: SaveId, bytes: &[u8]) -> Result<Vec<u8>, AllocError>
    requires { length bytes.now < 4294967280 }
    ensures spelled { IfOk result (λ body. body.items ≡ put_body id bytes.now) }
    ensures change { IfOk result (λ body. (entries : List Entry) →
        changed body.items entries ≡ Some (with_entry entries id bytes.now)) }
    ensures fits { IfOk result (λ body. length body.items < 2 ^ 32) }
{
    let mut body = front_of_put(alloc, id.op, id.boundary, id.part, id.window)?;
    body.extend_from_slice(bytes)?;
    Ok(body)
}

// What stands before the bytes in the body of a put.
fn front_of_put(
    alloc: Global,
    op: u16,
    boundary: u32,
    part: u8,
    window: u32,
) -> Result<Vec<u8>, AllocError>
    ensures spelled { IfOk result (λ front.
        front.items ≡ put_front (record { op = op; boundary = boundary; part = part; window = window })) }
    ensures change { IfOk result (λ front. (bytes : List ℕ) (entries : List Entry) → changed (front.items ++ bytes) entries
        ≡ Some (with_entry entries (record { op = op; boundary = boundary; part = part; window = window }) bytes)) }
{
    let mut front = Vec::new(alloc);
    front.push(1)?;
    front.extend_from_slice(&op.to_be_bytes())?;
    front.extend_from_slice(&boundary.to_be_bytes())?;
    front.push(part)?;
    front.extend_from_slice(&window.to_be_bytes())?;
    Ok(front)
}

/// The body of a drop.
pub(crate) fn body_of_drop(alloc: Global, window: u32) -> Result<Vec<u8>, AllocError>
    ensures spelled { IfOk result (λ body. body.items ≡ drop_body window) }
    ensures change { IfOk result (λ body. (entries : List Entry) →
        changed body.items entries ≡ Some (entries_from entries window)) }
    ensures fits { IfOk result (λ body. length body.items < 2 ^ 32) }
{
    let mut body = Vec::new(alloc);
    body.push(2)?;
    body.extend_from_slice(&window.to_be_bytes())?;
    Ok(body)
}

/// Makes the change of a record's body. It is false where the body has neither form, and nothing is changed then.
pub(crate) fn change(
    alloc: Global,
    entries: &mut BTreeMap<SaveId, Vec<u8>>,
    body: &[u8],
) -> Result<bool, AllocError>
    requires { IsStrictlySortedBy save_order (keys entries.old) }
    ensures ordered { IsStrictlySortedBy save_order (keys entries.new) }
    ensures change { IfOk result (λ made. changed body.now (entries_in entries.old.entries)
        ≡ (if made then Some (entries_in entries.new.entries) else None)) }
{
    if is_body_of_put(body) {
        put(alloc, entries, id_in(body), &body[12..])?;
        return Ok(true);
    }
    if is_body_of_drop(body) {
        drop_below(entries, window_in(body));
        return Ok(true);
    }
    Ok(false)
}

// Whether a body is that of a put.
fn is_body_of_put(body: &[u8]) -> bool
    ensures is { result ≡ is_put body.now }
    ensures long { IsTrue result → 12 ≤ length body.now }
{
    body.len() >= 12 && body[0] == 1
}

// Whether a body is that of a drop.
fn is_body_of_drop(body: &[u8]) -> bool
    ensures is { result ≡ is_drop body.now }
    ensures long { IsTrue result → 5 ≤ length body.now }
{
    body.len() == 5 && body[0] == 2
}

// The id in the body of a put.
fn id_in(body: &[u8]) -> SaveId
    requires { 12 ≤ length body.now }
    ensures { result ≡ put_id body.now }
{
    SaveId {
        op: u16::from_be_bytes([body[1], body[2]]),
        boundary: u32::from_be_bytes([body[3], body[4], body[5], body[6]]),
        part: body[7],
        window: u32::from_be_bytes([body[8], body[9], body[10], body[11]]),
    }
}

// The window in the body of a drop.
fn window_in(body: &[u8]) -> u32
    requires { 5 ≤ length body.now }
    ensures { result ≡ drop_window body.now }
{
    u32::from_be_bytes([body[1], body[2], body[3], body[4]])
}

// Makes the change of a put.
fn put(
    alloc: Global,
    entries: &mut BTreeMap<SaveId, Vec<u8>>,
    id: SaveId,
    bytes: &[u8],
) -> Result<(), AllocError>
    requires { IsStrictlySortedBy save_order (keys entries.old) }
    ensures ordered { IsStrictlySortedBy save_order (keys entries.new) }
    ensures put { IfOk result (λ _. entries_in entries.new.entries ≡ with_entry (entries_in entries.old.entries) id bytes.now) }
{
    let copied = bytes.to_vec(alloc)?;
    match entries.insert(id, copied) {
        Ok(_) => Ok(()),
        Err(_) => Err(AllocError),
    }
}

/// Keeps the bytes under an id in the place of others, which takes no memory.
pub(crate) fn overwrite(entries: &mut BTreeMap<SaveId, Vec<u8>>, id: SaveId, bytes: Vec<u8>)
    requires { IsSome (get save_order entries.old id) }
    ensures ordered { IsStrictlySortedBy save_order (keys entries.new) }
    ensures put { entries_in entries.new.entries ≡ with_entry (entries_in entries.old.entries) id bytes.items }
{
    let Ok(_) = entries.insert(id, bytes) else {
        unreachable!();
    };
}

/// Takes the entries away whose window is below.
pub(crate) fn drop_below(entries: &mut BTreeMap<SaveId, Vec<u8>>, window: u32)
    ensures ordered { IsStrictlySortedBy save_order (keys entries.new) }
    ensures dropped { entries_in entries.new.entries ≡ entries_from (entries_in entries.old.entries) window }
{
    entries.retain(|id, _| id.window >= window);
}
