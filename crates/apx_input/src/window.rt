//! The windows of a file.
ghost use Rattle.std.specs.Prelude.{◌≡◌, ◌-◌, ◌*◌, ◌≤◌, ◌<◌, [], length, take, drop, All, filter_map, IfOk, IfNone, IfSome, OnSome};
ghost use Rattle.apx_tuple.specs.Size.{size_by};
ghost use Rattle.apx_tuple.specs.Tuple.{bag_of, tuple_key};
ghost use Rattle.apx_pass.specs.Groups.{groups, window_bag, IsInput};
ghost use Rattle.apx_pass.specs.Lines.{lines};
ghost use Rattle.apx_pass.specs.Pairs.{tuple_of};

use crate::tuple::tuple_of;
use apx_lines::next_line;
use apx_tuple::{Bag, InputKind, Short, Tuple};
use std::alloc::{AllocError, Global};
use std::marker::Model;

/// The windows of a file, numbered from 1.
///
/// It holds the file's bytes once and eight bytes a window beside them: a window's bag is made when it is
/// asked for.
///
/// ```
/// let windows = Windows::of(InputKind::Pairs, 1000, bytes)?;
/// for window in 0..windows.count() {
///     let bag = windows.bag(window + 1)?;
/// }
/// ```
#[derive(Drop)]
pub struct Windows {
    /// How its lines are read.
    pub(crate) kind: InputKind,
    /// How many lines make a window: 1 to 1,000,000.
    pub(crate) per_window: u32,
    /// The file's bytes.
    pub(crate) bytes: Vec<u8>,
    /// The place in `bytes` at which each window begins.
    pub(crate) starts: Vec<usize>,
}

impl Model for Windows {
    ghost use Rattle.apx_pass.specs.Groups.{Input, input_of};

    ghost Value = { Input };

    ghost use Rattle.apx_input.specs.Starts.{IsKept};

    ghost view = { λ w. input_of w.kind w.per_window w.bytes.items };

    ghost invariant = { λ w. IsKept w.kind w.per_window w.bytes.items w.starts.items };
}

impl Windows {
    /// How many windows there are, at most 20,000.
    pub fn count(&self) -> u32
        ensures count { result ≡ groups self.now }
        ensures few { result ≤ 20000 }
        ensures input { IsInput self.now }
    {
        self.starts.len() as u32
    }

    /// The bag of the tuples of a window; no tuples where there is no such window.
    pub fn bag(&self, window: u32) -> Result<Bag, AllocError>
        ensures bag { IfOk result (λ bag. bag ≡ window_bag self.now window) }
        ensures input { IsInput self.now }
    {
        let alloc = *self.bytes.allocator();
        match self.text_from(window) {
            Some(text) => bag_of(tuples_of(alloc, self.kind, self.per_window, text)?),
            None => Ok(Bag::new(alloc)),
        }
    }

    /// The text from the first line of a window on; None where there is no such window.
    fn text_from(&self, window: u32) -> Option<&[u8]>
        ensures none { IfNone result (window_bag self.now window ≡ []) }
        ensures text { IfSome result (λ text. lines text.now ≡ drop ((window - 1) * self.now.per_window) self.now.lines) }
        ensures counted { OnSome result (0 < window) }
    {
        let index = (window as usize).checked_sub(1)?;
        let start = self.starts.get(index)?;
        Some(&self.bytes[*start..])
    }
}

/// The tuples of the first `count` lines of the text.
fn tuples_of(
    alloc: Global,
    kind: InputKind,
    count: u32,
    text: &[u8],
) -> Result<Vec<Tuple>, AllocError>
    requires { All (λ line. length line ≤ 1024) (lines text.now) }
    ensures { IfOk result (λ tuples. tuples.items ≡ filter_map (tuple_of kind) (take count (lines text.now))) }
{
    let mut tuples = Vec::new(alloc);
    let mut rest = text;
    for _ in 0..count {
        match next_line(rest) {
            Some((line, behind)) => {
                if let Some(tuple) = tuple_of(alloc, kind, line)? {
                    tuples.push(tuple)?;
                }
                rest = behind;
            }
            None => return Ok(tuples),
        }
    }
    Ok(tuples)
}

/// The bag of tuples that are not too large for one.
fn bag_of(tuples: Vec<Tuple>) -> Result<Bag, AllocError>
    requires { size_by tuple_key (bag_of tuples.items) < 4294967232 }
    ensures { IfOk result (λ bag. bag ≡ bag_of tuples.items) }
{
    match Bag::of(tuples) {
        Ok(bag) => Ok(bag),
        Err(Short::Memory) => Err(AllocError),
        Err(Short::Large) => unreachable!(),
    }
}
