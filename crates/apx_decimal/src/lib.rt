//! Decimal numbers: what digits write, with a minus in front or without.
//!
//! [`natural`] reads digits alone, and [`integer`] an optional minus and digits. Leading zeros are allowed,
//! and a plus is not.
#![tactic(auto)]

ghost use Rattle.std.specs.Prelude.{◌≡◌, ◌≤◌, ◌-◌, ◌^◌, IfSome};
ghost use Rattle.apx_decimal.specs.Decimal.{number_up_to, integer_of};

#[cfg(test)]
mod tests;

const MINUS: u8 = b'-';

/// The number that one or more digits write, where `u64` has it; None for any other text.
pub fn natural(text: &[u8]) -> Option<u64>
    ensures { result ≡ number_up_to (2 ^ 64 - 1) text.now }
{
    if text.is_empty() {
        return None;
    }
    let mut number = 0u64;
    let mut digits = text;
    while let [digit, rest @ ..] = digits {
        if !digit.is_ascii_digit() {
            return None;
        }
        number = number
            .checked_mul(10)?
            .checked_add(u64::from(*digit - b'0'))?;
        digits = rest;
    }
    Some(number)
}

/// The number that one or more digits write, where it is no more than `limit`; None for any other text.
pub fn natural_up_to(limit: u64, text: &[u8]) -> Option<u64>
    ensures value { result ≡ number_up_to limit text.now }
    ensures within { IfSome result (λ number. number ≤ limit) }
{
    let number = natural(text)?;
    if number <= limit { Some(number) } else { None }
}

/// The number that an optional minus and one or more digits write, where `i64` has it; None for any other
/// text. `-0` is 0.
pub fn integer(text: &[u8]) -> Option<i64>
    ensures { result ≡ integer_of text.now }
{
    let (first, digits) = text.split_first()?;
    if *first == MINUS {
        0i64.checked_sub_unsigned(natural(digits)?)
    } else {
        0i64.checked_add_unsigned(natural(text)?)
    }
}
