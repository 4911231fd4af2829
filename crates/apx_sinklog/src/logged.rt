// A window as the body of its record: the window, how many rows it has, and the rows.
ghost use Rattle.std.specs.Prelude.{◌≡◌, ◌≤◌, ◌<◌, ◌^◌, true, length, is_some, Some, IfOk, IfSome, IsTrue};
ghost use Rattle.std.specs.Option.{option_map};
ghost use Rattle.apx_tuple.specs.Size.{size_by};
ghost use Rattle.apx_tuple.specs.Tuple.{tuple_key};
ghost use Rattle.apx_sinklog.specs.Windows.{body_bytes, body_rows, window_in, is_window};

use apx_device::{append_rows, read_rows};
use apx_tuple::Tuple;
use std::alloc::{AllocError, Global};

/// The rows of a window, as the body of its record.
#[derive(Drop)]
pub(crate) struct LoggedWindow {
    /// The bytes.
    pub(crate) body: Vec<u8>,
    /// The window and the count are there.
    ghost long: { 8 ≤ length body.items },
    /// So many rows follow, and nothing else.
    ghost whole: { is_some (body_rows body.items) ≡ true },
}

impl LoggedWindow {
    ghost use Rattle.apx_sinklog.specs.Logged.{logged_rows};

    /// The window with these rows.
    pub(crate) fn of(alloc: Global, window: u32, rows: &[Tuple]) -> Result<LoggedWindow, AllocError>
        requires { size_by tuple_key rows.now < 4294967232 }
        ensures rows { IfOk result (λ logged. logged_rows logged ≡ rows.now) }
        ensures body { IfOk result (λ logged. window_in window logged.body.items ≡ Some rows.now) }
        ensures fits { IfOk result (λ logged. length logged.body.items < 2 ^ 32) }
    {
        let body = body_of(alloc, window, rows)?;
        Ok(LoggedWindow { body })
    }

    /// The window that the body of a record is, None where it isn't this window's.
    pub(crate) fn read(
        alloc: Global,
        window: u64,
        body: &[u8],
    ) -> Result<Option<LoggedWindow>, AllocError>
        ensures rows { IfOk result (λ logged. option_map logged_rows logged ≡ window_in window body.now) }
        ensures few { IfOk result (λ logged. IfSome logged (λ _. window < 2 ^ 32)) }
    {
        if !is_of_window(window, body) {
            return Ok(None);
        }
        let Some(_) = rows_of_body(alloc, body)? else {
            return Ok(None);
        };
        let body = body.to_vec(alloc)?;
        Ok(Some(LoggedWindow { body }))
    }

    /// The rows of the window.
    pub(crate) fn rows(&self, alloc: Global) -> Result<Vec<Tuple>, AllocError>
        ensures { IfOk result (λ rows. rows.items ≡ logged_rows self.now) }
    {
        match rows_of_body(alloc, &self.body)? {
            Some(rows) => Ok(rows),
            None => unreachable!(),
        }
    }
}

// The body of a window's record.
fn body_of(alloc: Global, window: u32, rows: &[Tuple]) -> Result<Vec<u8>, AllocError>
    requires { size_by tuple_key rows.now < 4294967232 }
    ensures bytes { IfOk result (λ body. body.items ≡ body_bytes window rows.now) }
    ensures back { IfOk result (λ body. window_in window body.items ≡ Some rows.now) }
    ensures fits { IfOk result (λ body. length body.items < 2 ^ 32) }
{
    let mut body = Vec::new(alloc);
    body.extend_from_slice(&window.to_be_bytes())?;
    body.extend_from_slice(&(rows.len() as u32).to_be_bytes())?;
    append_rows(rows, &mut body)?;
    Ok(body)
}

// Whether a body is that of this window, as far as its first eight bytes say.
fn is_of_window(window: u64, body: &[u8]) -> bool
    ensures is { result ≡ is_window window body.now }
    ensures long { IsTrue result → 8 ≤ length body.now }
    ensures few { IsTrue result → window < 2 ^ 32 }
{
    if body.len() < 8 {
        return false;
    }
    u64::from(u32::from_be_bytes([body[0], body[1], body[2], body[3]])) == window
}

// The rows of a body, None where it isn't of the form that its first eight bytes tell.
fn rows_of_body(alloc: Global, body: &[u8]) -> Result<Option<Vec<Tuple>>, AllocError>
    requires { 8 ≤ length body.now }
    ensures { IfOk result (λ rows. option_map (λ rows. rows.items) rows ≡ body_rows body.now) }
{
    let count = u32::from_be_bytes([body[4], body[5], body[6], body[7]]);
    read_rows(alloc, count, &body[8..])
}
