//! The words of a script's line.

ghost use Rattle.std.specs.Prelude.{◌≡◌, option_map};
ghost use Rattle.apx_pass.specs.Script.{at_space, point_of, script_number, script_part};
ghost use Rattle.apx_script.specs.Views.{parts_of, point_view};

use crate::act::Point;
use apx_decimal::natural_up_to;

/// The most digits of a number.
const MOST_DIGITS: usize = 9;

/// What stands before the first space, and what stands after it.
pub(crate) fn split_word(text: &str) -> Option<(&str, &str)>
    ensures { option_map parts_of result ≡ at_space text.now }
{
    text.split_once(' ')
}

/// The point with a name.
pub(crate) fn point(word: &str) -> Option<Point>
    ensures { option_map point_view result ≡ point_of word.now }
{
    match word {
        "before" => Some(Point::Before),
        "staged" => Some(Point::Staged),
        "written" => Some(Point::Written),
        "done" => Some(Point::Done),
        _ => None,
    }
}

/// A number of 1 to 9 digits.
#[tactic(auto, unfolding(apx_pass::specs::Script::script_number))]
pub(crate) fn number(digits: &str) -> Option<u32>
    ensures { result ≡ script_number digits.now }
{
    if digits.len() > MOST_DIGITS {
        return None;
    }
    let number = natural_up_to(999_999_999, digits.as_bytes())?;
    Some(number as u32)
}

/// A number of partitions, or of one; above 255 it is held as 255.
#[tactic(auto, unfolding(apx_pass::specs::Script::script_part))]
pub(crate) fn part(digits: &str) -> Option<u8>
    ensures { result ≡ script_part digits.now }
{
    Some(number(digits)?.min(255) as u8)
}
