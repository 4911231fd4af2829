//! Identifiers of streaming windows: the second of a base and a counter, one to one with the
//! window's ordinal.
#![tactic(auto)]

ghost use Rattle.std.specs.Prelude.{◌≡◌, ℕ, ◌≤◌, ◌<◌, ◌^◌, IfSome};
ghost use Rattle.apx_window.specs.Identifier.{IsOrdinal, identifier_of};

/// A window's identifier: the high 32 bits are a second, the low 32 bits a counter from 0 to
/// 15999. Apex numbers its windows so within a base second
/// (<https://apex.apache.org/docs/apex/application_development/>); the steps are this project's.
pub type WindowId = u64;

/// The greatest ordinal of a window; the first is 1.
pub const LAST_ORDINAL: u32 = 20000;

/// How many windows share one second.
pub const WINDOWS_A_SECOND: u32 = 16000;

/// How far one second is from the next.
pub const SECONDS_A_STEP: u32 = 8000;

/// The greatest base second: one step more still fits 32 bits.
pub const LAST_BASE: u32 = 4_294_959_295;

/// What a second counts for in an identifier: its low half comes first.
const HALF: u64 = 1 << 32;

/// The identifier of the window with this ordinal, over a base second.
#[tactic(auto, unfolding(crate::specs::Identifier::identifier_of))]
pub fn id_of(base: u32, ordinal: u32) -> WindowId
    requires base { base ≤ LAST_BASE }
    requires ordinal { IsOrdinal ordinal }
    ensures value { result ≡ identifier_of base ordinal }
{
    let before = ordinal - 1;
    let second = base + before / WINDOWS_A_SECOND * SECONDS_A_STEP;
    let counter = before % WINDOWS_A_SECOND;
    u64::from(second) * HALF + u64::from(counter)
}

/// The ordinal of the window with this identifier, over a base second. `None` where none has it.
#[tactic(auto, unfolding(crate::specs::Identifier::identifier_of))]
pub fn ordinal_of(base: u32, id: WindowId) -> Option<u32>
    requires { base ≤ LAST_BASE }
    ensures found { IfSome result (λ ordinal. IsOrdinal ordinal × (identifier_of base ordinal ≡ id)) }
    // No other ordinal has it, and where one has it, it is found.
    ensures only { (ordinal : ℕ) → IsOrdinal ordinal → identifier_of base ordinal ≡ id → result ≡ Some ordinal }
{
    let second = (id / HALF) as u32;
    let counter = (id % HALF) as u32;
    if counter >= WINDOWS_A_SECOND {
        return None;
    }
    if second == base {
        Some(counter + 1)
    } else if second == base + SECONDS_A_STEP && counter < LAST_ORDINAL - WINDOWS_A_SECOND {
        Some(counter + 1 + WINDOWS_A_SECOND)
    } else {
        None
    }
}

#[cfg(test)]
mod tests {
    use super::*;

    #[test]
    fn ordinals_have_their_ids(rt: HostRuntime) {
        for (base, ordinal, id) in [
            (0, 1, 0),
            (1_000_000_000, 1, 4_294_967_296_000_000_000),
            (1_000_000_000, 2, 4_294_967_296_000_000_001),
            (1_000_000_000, 16000, 4_294_967_296_000_015_999),
            (1_000_000_000, 16001, 4_295_001_655_738_368_000),
            (4_294_959_295, 20000, 18_446_744_069_414_588_319),
        ] {
            assert_eq!(rt; id_of(base, ordinal), id, "at {ordinal}");
            assert_eq!(rt; ordinal_of(base, id), Some(ordinal), "at {id}");
        }
    }

    #[test]
    fn other_ids_have_no_ordinal(rt: HostRuntime) {
        for id in [
            4_294_967_296_000_016_000,
            4_295_001_655_738_372_000,
            4_294_967_291_705_032_704,
            0,
        ] {
            assert_eq!(rt; ordinal_of(1_000_000_000, id), None, "at {id}");
        }
    }
}
