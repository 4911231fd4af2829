//! Which message may come behind the messages before it.
ghost use Rattle.std.specs.Prelude.{◌≡◌};
ghost use Rattle.std.specs.Option.{option_copied};
ghost use Rattle.apx_wire.specs.Order.{may_follow, is_inside, is_outside, is_window, payload_may_follow, begin_may_follow, second_part, counter_part, next_window, next_second, checkpoint_may_follow, window_after};

use crate::message::Message;
use apx_tuple::Tuple;
use apx_window::{SECONDS_A_STEP, WINDOWS_A_SECOND, WindowId};

/// Whether a message may come, given the message right before it and the latest window.
pub fn may_come(latest: Option<&Message>, window: Option<WindowId>, message: &Message) -> bool
    ensures { result ≡ may_follow (record { latest = option_copied latest.entry; window = window }) message.now }
{
    match message {
        Message::Payload(tuple) => payload_may_come(latest, tuple),
        Message::Begin(id) => begin_may_come(latest, window, *id),
        Message::End(id) => inside(latest) && window == Some(*id),
        Message::Checkpoint(id) => checkpoint_may_come(latest, *id),
        Message::Reset(second) => outside(latest) && second_may_come(window, *second),
        Message::EndOfStream => outside(latest),
    }
}

/// The latest window, with this message.
pub fn window_with(window: Option<WindowId>, message: &Message) -> Option<WindowId>
    ensures { result ≡ window_after window message.now }
{
    match message {
        Message::Begin(id) => Some(*id),
        _ => window,
    }
}

fn inside(latest: Option<&Message>) -> bool
    ensures { result ≡ is_inside (option_copied latest.entry) }
{
    matches!(latest, Some(Message::Begin(_) | Message::Payload(_)))
}

fn outside(latest: Option<&Message>) -> bool
    ensures { result ≡ is_outside (option_copied latest.entry) }
{
    matches!(
        latest,
        None | Some(Message::End(_) | Message::Checkpoint(_))
    )
}

fn payload_may_come(latest: Option<&Message>, tuple: &Tuple) -> bool
    ensures { result ≡ payload_may_follow (option_copied latest.entry) tuple.now }
{
    match latest {
        Some(Message::Begin(_)) => true,
        Some(Message::Payload(earlier)) => earlier <= tuple,
        _ => false,
    }
}

fn begin_may_come(latest: Option<&Message>, window: Option<WindowId>, id: WindowId) -> bool
    ensures { result ≡ begin_may_follow (record { latest = option_copied latest.entry; window = window }) id }
{
    match latest {
        Some(Message::Reset(second)) => second_of(id) == u64::from(*second) && counter_of(id) == 0,
        _ => outside(latest) && window_may_come(window, id),
    }
}

fn second_of(id: WindowId) -> u64
    ensures { result ≡ second_part id }
{
    id >> 32
}

fn counter_of(id: WindowId) -> u64
    ensures { result ≡ counter_part id }
{
    id % (1 << 32)
}

fn window_may_come(window: Option<WindowId>, id: WindowId) -> bool
    ensures { result ≡ next_window window id }
{
    let counted = counter_of(id) < u64::from(WINDOWS_A_SECOND);
    match window {
        None => counted,
        Some(window) => window.checked_add(1) == Some(id) && counted,
    }
}

fn checkpoint_may_come(latest: Option<&Message>, id: WindowId) -> bool
    ensures { result ≡ checkpoint_may_follow (option_copied latest.entry) id }
{
    match latest {
        Some(Message::End(window)) => id == *window,
        _ => false,
    }
}

fn second_may_come(window: Option<WindowId>, second: u32) -> bool
    ensures { result ≡ next_second window second }
{
    match window {
        None => true,
        Some(window) => {
            counter_of(window) + 1 == u64::from(WINDOWS_A_SECOND)
                && u64::from(second) == second_of(window) + u64::from(SECONDS_A_STEP)
        }
    }
}
