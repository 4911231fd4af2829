//! What one operator makes of a window, from what comes on its ports.
ghost use Rattle.std.specs.Prelude.{◌≡◌, ◌<◌, ◌≤◌, cond, [], IfOk};
ghost use Rattle.std.specs.Option.{option_copied};
ghost use Rattle.apx_tuple.specs.Kind.{has_right};
ghost use Rattle.apx_pass.specs.Pass.{at_start, rows_of_input, pass_node};
ghost use Rattle.apx_pass.specs.Large.{IsLargePassed, right_came};
ghost use Rattle.apx_mean.specs.Views.{IsPassed, IsInner};

use crate::gather::{Passed, gather};
use crate::rows::Rows;
use apx_dag::{Node, Role};
use apx_input::Windows;
use apx_tuple::{Kind, Progress, Short};
use std::alloc::{AllocError, Global};

/// An input gives its window.
fn pass_input(alloc: Global, input: Option<&Windows>, window: u32) -> Result<Passed, AllocError>
    requires { 1 ≤ window }
    ensures { IfOk result (λ passed.
        IsPassed passed.progress passed.rows
        (record { progress = at_start; rows = rows_of_input (option_copied input.entry) window })) }
{
    let rows = match input {
        Some(windows) => Rows::of_bag(windows.bag(window)?),
        None => Rows::new(alloc),
    };
    Ok(Passed {
        progress: Progress::new(alloc),
        rows,
    })
}

/// The sink gives what reaches it.
fn pass_sink(alloc: Global, left: Rows) -> Passed
    ensures { IsPassed result.progress result.rows (record { progress = at_start; rows = left }) }
{
    Passed {
        progress: Progress::new(alloc),
        rows: left,
    }
}

/// What comes on the right port of an operator of this kind: nothing, where it has none.
fn right_of(alloc: Global, kind: &Kind, right: Rows) -> Rows
    ensures { result ≡ cond (has_right kind.now) right [] }
{
    if kind.has_right() {
        return right;
    }
    Rows::new(alloc)
}

/// What an operator makes of the window `window`, counted from 1, from the rows that come on its ports.
///
/// `Large` comes only where what came since its last step, or what it makes of it, is too large.
#[tactic(auto, unfolding(apx_pass::specs::Pass::pass_role, apx_pass::specs::Large::right_came))]
pub(crate) fn pass_operator(
    alloc: Global,
    node: &Node,
    input: Option<&Windows>,
    window: u32,
    before: Progress,
    left: Rows,
    right: Rows,
) -> Result<Passed, Short>
    requires window { 1 ≤ window }
    requires app_windows { 0 < node.now.app_windows }
    ensures ok { IfOk result (λ passed.
        IsPassed passed.progress passed.rows (pass_node node.now (option_copied input.entry) window before left right)) }
    ensures inner { result ≡ Err Short.Large → IsInner node.now.role }
    ensures large { result ≡ Err Short.Large →
        IsLargePassed before left (right_came node.now.role right)
        (pass_node node.now (option_copied input.entry) window before left right) }
{
    match &node.role {
        Role::Input { .. } => Ok(pass_input(alloc, input, window)?),
        Role::Inner(kind) => {
            let right = right_of(alloc, kind, right);
            gather(alloc, kind, node.app_windows, window, before, left, right)
        }
        Role::Sink => Ok(pass_sink(alloc, left)),
    }
}
