//! The messages around a window's tuples.
ghost use Rattle.std.specs.Prelude.{◌≡◌, IfOk};
ghost use Rattle.apx_list.specs.Plan.{IsPlan, IsWindow};
ghost use Rattle.apx_list.specs.Messages.{opening, closing};

use crate::plan::CutPlan;
use apx_window::{SECONDS_A_STEP, WINDOWS_A_SECOND, id_of};
use apx_wire::Message;
use std::alloc::{AllocError, Global};

/// What opens a window.
pub fn opening_messages(
    alloc: Global,
    plan: &CutPlan,
    window: u32,
) -> Result<Vec<Message>, AllocError>
    requires plan { IsPlan plan.now }
    requires window { IsWindow plan.now window }
    ensures { IfOk result (λ messages. messages.items ≡ opening plan.now window) }
{
    let mut messages = Vec::new(alloc);
    let before = window - 1;
    if before % WINDOWS_A_SECOND == 0 {
        let second = plan.base + before / WINDOWS_A_SECOND * SECONDS_A_STEP;
        messages.push(Message::Reset(second))?;
    }
    messages.push(Message::Begin(id_of(plan.base, window)))?;
    Ok(messages)
}

/// What closes a window.
pub fn closing_messages(
    alloc: Global,
    plan: &CutPlan,
    window: u32,
) -> Result<Vec<Message>, AllocError>
    requires plan { IsPlan plan.now }
    requires window { IsWindow plan.now window }
    ensures { IfOk result (λ messages. messages.items ≡ closing plan.now window) }
{
    let id = id_of(plan.base, window);
    let mut messages = Vec::new(alloc);
    messages.push(Message::End(id))?;
    if window % plan.every == 0 {
        messages.push(Message::Checkpoint(id))?;
    }
    if window == plan.windows {
        messages.push(Message::EndOfStream)?;
    }
    Ok(messages)
}
