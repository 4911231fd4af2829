//! The names of operators and streams.

ghost use Rattle.std.specs.Prelude.{◌≡◌, List, ℕ, OnOk, IfOk, option_map, nat_lt};
ghost use Rattle.std.specs.List.{list_any};
ghost use Rattle.std.specs.Prelude.{[]};
ghost use Rattle.apx_dag.specs.Names.{named_again, is_bad_name};

use crate::known::KnownOperator;
use apx_json::{Name, StreamText};
use indexmap::IndexSet;
use std::alloc::{AllocError, Global};

/// What has a name in an application.
pub(crate) trait Named {
    /// The bytes of its name.
    ghost named: { Self → List ℕ };

    /// Its name.
    fn name(&self) -> &Name
        ensures { result.now ≡ named self.now };
}

impl Named for KnownOperator {
    ghost named = { λ operator. operator.name };

    fn name(&self) -> &Name {
        &self.written().name
    }
}

impl Named for StreamText {
    ghost named = { λ stream. stream.name };

    fn name(&self) -> &Name {
        &self.name
    }
}

/// The first name that an earlier one of the list has too.
pub(crate) fn first_repeated<T: Named>(
    alloc: Global,
    items: &[T],
) -> Result<Option<&Name>, AllocError>
    ensures { IfOk result (λ found. option_map (λ name. name.now) found ≡ named_again T.named [] items.now) }
{
    let mut seen = IndexSet::new(alloc);
    for item in items {
        let name = item.name();
        if !seen.insert(Vec::from_slice(alloc, name.text().as_bytes())?)? {
            return Ok(Some(name));
        }
    }
    Ok(None)
}

/// Whether a name is empty, longer than 255 bytes, or has a byte below 32.
fn is_bad(name: &Name) -> bool
    ensures { result ≡ is_bad_name name.now }
{
    let bytes = name.text().as_bytes();
    bytes.is_empty() || 255 < bytes.len() || has_control(bytes)
}

fn has_control(bytes: &[u8]) -> bool
    ensures { result ≡ list_any (λ byte. nat_lt byte 32) bytes.now }
{
    bytes.iter().any(|byte| *byte < 32)
}

/// Whether one of them has a bad name.
pub(crate) fn any_bad<T: Named>(items: &[T]) -> bool
    ensures { result ≡ list_any (λ item. is_bad_name (T.named item)) items.now }
{
    items.iter().any(|item| is_bad(item.name()))
}
