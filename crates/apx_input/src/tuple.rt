//! The tuple of a line.
ghost use Rattle.std.specs.Prelude.{◌≡◌, ◌≤◌, length, is_some, IfOk};
ghost use Rattle.apx_pass.specs.Pairs.{tuple_of};

use crate::pair::{is_pair, pair_of};
use apx_tuple::{InputKind, Key, Tuple};
use std::alloc::{AllocError, Global};

/// Whether the line has a tuple.
#[tactic(auto, unfolding(apx_pass::specs::Pairs::tuple_of))]
pub(crate) fn has_tuple(kind: InputKind, line: &[u8]) -> bool
    ensures { result ≡ is_some (tuple_of kind line.now) }
{
    match kind {
        InputKind::Lines => true,
        InputKind::Pairs => is_pair(line),
    }
}

/// The tuple of the line, if it has one.
#[tactic(auto, unfolding(apx_pass::specs::Pairs::tuple_of))]
pub(crate) fn tuple_of(
    alloc: Global,
    kind: InputKind,
    line: &[u8],
) -> Result<Option<Tuple>, AllocError>
    requires { length line.now ≤ 1024 }
    ensures { IfOk result (λ tuple. tuple ≡ tuple_of kind line.now) }
{
    match kind {
        InputKind::Lines => {
            let key = Key::of_few(alloc, line)?;
            Ok(Some(Tuple { key, value: 1 }))
        }
        InputKind::Pairs => match pair_of(line) {
            Some((key, value)) => {
                let key = Key::of_few(alloc, key)?;
                Ok(Some(Tuple { key, value }))
            }
            None => Ok(None),
        },
    }
}
