//! The options of commands, and what they are given.
//!
//! Options stand in pairs of a name and a value, in any order, each at most once.

ghost use Rattle.std.specs.Prelude.{◌≡◌, map, string_bytes, is_some, IfSome, IfOk};
ghost use Rattle.std.specs.List.{list_any};
ghost use Rattle.std.specs.Option.{option_map};
ghost use Rattle.apx_script.specs.Settings.{IsSettings};
ghost use Rattle.apx_cmd.specs.Bounds.{IsWithin};
ghost use Rattle.apx_cmd.specs.Options.{name_of, low_of, high_of, usual_of, number_within, takes_number, takes, given, are_options, given_number, given_script, settings_of};

use apx_decimal::natural_up_to;
use apx_json::{Name, is_file_name};
use apx_script::Settings;
use std::alloc::{AllocError, Global};

/// The most digits of a number.
const MOST_DIGITS: usize = 20;

/// The name of the option that gives a script.
const SCRIPT: &str = "--script";

/// An option whose value is a number.
#[derive(Clone, Copy, Debug, PartialEq, Eq)]
pub(crate) enum Number {
    Base,
    Checkpoint,
    Block,
    Keep,
    Order,
    Threads,
}

impl Number {
    fn name(self) -> &'static str
        ensures { result.now ≡ name_of self }
    {
        match self {
            Number::Base => "--base",
            Number::Checkpoint => "--checkpoint",
            Number::Block => "--block",
            Number::Keep => "--keep",
            Number::Order => "--order",
            Number::Threads => "--threads",
        }
    }

    /// The least value.
    fn low(self) -> u64
        ensures { result ≡ low_of self }
    {
        match self {
            Number::Base | Number::Order => 0,
            Number::Checkpoint | Number::Keep | Number::Threads => 1,
            Number::Block => 1040,
        }
    }

    /// The greatest value.
    fn high(self) -> u64
        ensures { result ≡ high_of self }
    {
        match self {
            Number::Base => 4_294_959_295,
            Number::Checkpoint => 1000,
            Number::Block => 1_048_576,
            Number::Keep => 1_000_000,
            Number::Order => u64::MAX,
            Number::Threads => 16,
        }
    }

    /// The value where the option isn't given.
    fn usual(self) -> u64
        ensures value { result ≡ usual_of self }
        ensures within { IsWithin (low_of self) (high_of self) result }
    {
        match self {
            Number::Base => 1_000_000_000,
            Number::Checkpoint => 60,
            Number::Block => 65_536,
            Number::Keep => 64,
            Number::Order => 0,
            Number::Threads => 4,
        }
    }
}

/// The number from `low` to `high` that 1 to 20 digits write.
#[tactic(auto, unfolding(crate::specs::Options::number_within))]
pub(crate) fn number_within(low: u64, high: u64, text: &str) -> Option<u64>
    ensures value { result ≡ number_within low high text.now }
    ensures within { IfSome result (IsWithin low high) }
{
    if text.len() > MOST_DIGITS {
        return None;
    }
    let number = natural_up_to(high, text.as_bytes())?;
    if low <= number { Some(number) } else { None }
}

/// Whether a number option has this name and takes this value.
fn takes_number(number: Number, option: &str, value: &str) -> bool
    ensures { result ≡ takes_number option.now value.now number }
{
    option == number.name() && number_within(number.low(), number.high(), value).is_some()
}

fn takes_any(numbers: &[Number], option: &str, value: &str) -> bool
    ensures { result ≡ list_any (takes_number option.now value.now) numbers.now }
{
    numbers
        .iter()
        .any(|number| takes_number(*number, option, value))
}

/// Whether one of the options has this name and takes this value.
fn takes(script: bool, numbers: &[Number], option: &str, value: &str) -> bool
    ensures { result ≡ takes script numbers.now option.now value.now }
{
    script && option == SCRIPT && is_file_name(value) || takes_any(numbers, option, value)
}

/// What the first option of this name is given.
#[tactic(auto, unfolding(crate::specs::Options::given))]
fn given<'a>(option: &str, words: &'a [String]) -> Option<&'a str>
    ensures { option_map (λ value. value.now) result ≡ given option.now (map string_bytes words.now) }
{
    let mut rest = words;
    while let [name, value, behind @ ..] = rest {
        if name.as_str() == option {
            return Some(value.as_str());
        }
        rest = behind;
    }
    None
}

/// Whether the words are options with their values, each of these options at most once.
#[tactic(auto, unfolding(crate::specs::Options::are_options))]
pub(crate) fn are_options(script: bool, numbers: &[Number], words: &[String]) -> bool
    ensures { result ≡ are_options script numbers.now (map string_bytes words.now) }
{
    let mut rest = words;
    while let [option, value, behind @ ..] = rest {
        if !takes(script, numbers, option.as_str(), value.as_str()) {
            return false;
        }
        if given(option.as_str(), behind).is_some() {
            return false;
        }
        rest = behind;
    }
    rest.is_empty()
}

/// The number that an option is given.
pub(crate) fn given_number(number: Number, words: &[String]) -> u64
    ensures value { result ≡ given_number number (map string_bytes words.now) }
    ensures within { IsWithin (low_of number) (high_of number) result }
{
    match given(number.name(), words) {
        Some(text) => { number_within(number.low(), number.high(), text).unwrap_or(number.usual()) }
        None => number.usual(),
    }
}

/// The file of the script, where one is given.
pub(crate) fn given_script(alloc: Global, words: &[String]) -> Result<Option<Name>, AllocError>
    ensures { IfOk result (λ script. script ≡ given_script (map string_bytes words.now)) }
{
    match given(SCRIPT, words) {
        Some(name) => Ok(Some(Name::of(alloc, name)?)),
        None => Ok(None),
    }
}

/// The settings that the options give.
pub(crate) fn settings(words: &[String]) -> Settings
    ensures value { result ≡ settings_of (map string_bytes words.now) }
    ensures bounded { IsSettings result }
{
    Settings {
        base: given_number(Number::Base, words) as u32,
        every: given_number(Number::Checkpoint, words) as u32,
        block: given_number(Number::Block, words) as usize,
        keep: given_number(Number::Keep, words) as usize,
    }
}
