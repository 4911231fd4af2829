//! Lines that are a key, a tab and a value.
ghost use Rattle.std.specs.Prelude.{◌≡◌, ◌<◌, ◌≤◌, true, length, is_some, IfSome};
ghost use Rattle.std.specs.Bool.{OnTrue};
ghost use Rattle.std.specs.Option.{option_map};
ghost use Rattle.apx_pass.specs.Pairs.{at_last_tab, pair_of};
ghost use Rattle.apx_input.specs.Texts.{parts_of, pair_from};

use apx_decimal::integer;

const TAB: u8 = b'\t';

/// The most digits that write a number in the range of `i64` whatever they are.
const SURE_DIGITS: usize = 18;

/// The key and the value of the line, which is cut at its last tab; None where it is no pair.
pub(crate) fn pair_of(line: &[u8]) -> Option<(&[u8], i64)>
    ensures pair { option_map pair_from result ≡ pair_of line.now }
    ensures shorter { IfSome result (λ p. length p.0.now ≤ length line.now) }
{
    let (key, text) = cut_at_last_tab(line)?;
    Some((key, integer(text)?))
}

/// Whether the line is a key, a tab and a value.
pub(crate) fn is_pair(line: &[u8]) -> bool
    ensures { result ≡ is_some (pair_of line.now) }
{
    is_plain(line) || pair_of(line).is_some()
}

/// Whether the line ends with a tab and 1 to 18 digits. Then it is a pair, whatever they are, so that the value is
/// read only when its window is.
fn is_plain(line: &[u8]) -> bool
    ensures { OnTrue result (true ≡ is_some (pair_of line.now)) }
{
    for place in (0..line.len()).rev() {
        if line[place] == TAB {
            return is_sure(line.len() - place - 1);
        }
        if !line[place].is_ascii_digit() {
            return false;
        }
    }
    false
}

/// Whether so many digits write a number in the range of `i64` whatever they are.
fn is_sure(count: usize) -> bool
    ensures { OnTrue result ((0 < count) × (count ≤ 18)) }
{
    0 < count && count <= SURE_DIGITS
}

/// What stands before the last tab, and what stands after it.
fn cut_at_last_tab(line: &[u8]) -> Option<(&[u8], &[u8])>
    ensures parts { option_map parts_of result ≡ at_last_tab line.now }
    ensures shorter { IfSome result (λ p. length p.0.now ≤ length line.now) }
{
    for at in (0..line.len()).rev() {
        if line[at] == TAB {
            return Some((&line[..at], &line[at + 1..]));
        }
    }
    None
}
