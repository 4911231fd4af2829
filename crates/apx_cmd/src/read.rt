//! Reading the words.

ghost use Rattle.std.specs.Prelude.{◌≡◌, map, string_bytes, IfSome, IfOk, IfErr};
ghost use Rattle.std.specs.Option.{option_map};
ghost use Rattle.apx_cmd.specs.declared.refusal.CommandRefusal.TheVariants.{Usage};
ghost use Rattle.apx_script.specs.Settings.{IsSettings};
ghost use Rattle.apx_cmd.specs.Answers.{Answers};
ghost use Rattle.apx_cmd.specs.Bounds.{IsWithin, IsBounded};
ghost use Rattle.apx_cmd.specs.Commands.{file_of, file_and_options, check_of, plan_of, mean_of, sim_of, trace_of, run_of, group_of, audit_of, gen_of, called, command_of, resume_told, resume_of, record_told, record_of};

use crate::commands::{Command, ResumeWords};
use crate::option::{Number, are_options, given_number, given_script, number_within, settings};
use crate::refusal::CommandRefusal;
use apx_json::{Name, is_file_name};
use std::alloc::Global;

/// The numbers that a simulation may be given.
const SIM_NUMBERS: [Number; 5] = [
    Number::Base,
    Number::Checkpoint,
    Number::Block,
    Number::Keep,
    Number::Order,
];

/// The numbers that a run by threads may be given.
const RUN_NUMBERS: [Number; 5] = [
    Number::Base,
    Number::Checkpoint,
    Number::Block,
    Number::Keep,
    Number::Threads,
];

/// The numbers that a run by groups may be given.
const GROUP_NUMBERS: [Number; 4] = [
    Number::Base,
    Number::Checkpoint,
    Number::Block,
    Number::Keep,
];

/// The name of a file, and the words after it.
#[tactic(auto, unfolding(crate::specs::Commands::file_of))]
fn file(words: &[String]) -> Option<(&str, &[String])>
    ensures { option_map (λ f. (f.0.now, map string_bytes f.1.now)) result ≡ file_of (map string_bytes words.now) }
{
    match words {
        [name, words @ ..] if is_file_name(name.as_str()) => Some((name.as_str(), words)),
        _ => None,
    }
}

/// The name of a file, and the words after it, where these are options of a command.
#[tactic(auto, unfolding(crate::specs::Commands::file_and_options))]
fn file_and_options<'a>(
    script: bool,
    numbers: &[Number],
    words: &'a [String],
) -> Option<(&'a str, &'a [String])>
    ensures { option_map (λ f. (f.0.now, map string_bytes f.1.now)) result
        ≡ file_and_options script numbers.now (map string_bytes words.now) }
{
    let (name, options) = file(words)?;
    if are_options(script, numbers, options) {
        Some((name, options))
    } else {
        None
    }
}

#[tactic(auto, unfolding(crate::specs::Commands::check_of))]
fn check(alloc: Global, words: &[String]) -> Result<Command, CommandRefusal>
    ensures answers { Answers (check_of (map string_bytes words.now)) result }
    ensures bounded { IfOk result IsBounded }
{
    match file_and_options(false, &[], words) {
        Some((app, _)) => Ok(Command::Check {
            app: Name::of(alloc, app)?,
        }),
        None => Err(CommandRefusal::Usage),
    }
}

#[tactic(auto, unfolding(crate::specs::Commands::plan_of))]
fn plan(alloc: Global, words: &[String]) -> Result<Command, CommandRefusal>
    ensures answers { Answers (plan_of (map string_bytes words.now)) result }
    ensures bounded { IfOk result IsBounded }
{
    match file_and_options(false, &[], words) {
        Some((app, _)) => Ok(Command::Plan {
            app: Name::of(alloc, app)?,
        }),
        None => Err(CommandRefusal::Usage),
    }
}

#[tactic(auto, unfolding(crate::specs::Commands::mean_of))]
fn mean(alloc: Global, words: &[String]) -> Result<Command, CommandRefusal>
    ensures answers { Answers (mean_of (map string_bytes words.now)) result }
    ensures bounded { IfOk result IsBounded }
{
    match file_and_options(false, &[Number::Base], words) {
        Some((app, options)) => Ok(Command::Mean {
            app: Name::of(alloc, app)?,
            base: given_number(Number::Base, options) as u32,
        }),
        None => Err(CommandRefusal::Usage),
    }
}

#[tactic(auto, unfolding(crate::specs::Commands::sim_of))]
fn sim(alloc: Global, words: &[String]) -> Result<Command, CommandRefusal>
    ensures answers { Answers (sim_of (map string_bytes words.now)) result }
    ensures bounded { IfOk result IsBounded }
{
    match file_and_options(true, &SIM_NUMBERS, words) {
        Some((app, options)) => Ok(Command::Sim {
            app: Name::of(alloc, app)?,
            script: given_script(alloc, options)?,
            settings: settings(options),
            order: given_number(Number::Order, options),
        }),
        None => Err(CommandRefusal::Usage),
    }
}

#[tactic(auto, unfolding(crate::specs::Commands::trace_of))]
fn trace(alloc: Global, words: &[String]) -> Result<Command, CommandRefusal>
    ensures answers { Answers (trace_of (map string_bytes words.now)) result }
    ensures bounded { IfOk result IsBounded }
{
    match file_and_options(true, &SIM_NUMBERS, words) {
        Some((app, options)) => Ok(Command::Trace {
            app: Name::of(alloc, app)?,
            script: given_script(alloc, options)?,
            settings: settings(options),
            order: given_number(Number::Order, options),
        }),
        None => Err(CommandRefusal::Usage),
    }
}

#[tactic(auto, unfolding(crate::specs::Commands::run_of))]
fn run(alloc: Global, words: &[String]) -> Result<Command, CommandRefusal>
    ensures answers { Answers (run_of (map string_bytes words.now)) result }
    ensures bounded { IfOk result IsBounded }
{
    match file_and_options(true, &RUN_NUMBERS, words) {
        Some((app, options)) => Ok(Command::Run {
            app: Name::of(alloc, app)?,
            script: given_script(alloc, options)?,
            settings: settings(options),
            threads: given_number(Number::Threads, options) as u8,
        }),
        None => Err(CommandRefusal::Usage),
    }
}

#[tactic(auto, unfolding(crate::specs::Commands::group_of))]
fn group(alloc: Global, words: &[String]) -> Result<Command, CommandRefusal>
    ensures answers { Answers (group_of (map string_bytes words.now)) result }
    ensures bounded { IfOk result IsBounded }
{
    let Some((app, words)) = file(words) else {
        return Err(CommandRefusal::Usage);
    };
    match file_and_options(true, &GROUP_NUMBERS, words) {
        Some((groups, options)) => Ok(Command::Group {
            app: Name::of(alloc, app)?,
            groups: Name::of(alloc, groups)?,
            script: given_script(alloc, options)?,
            settings: settings(options),
        }),
        None => Err(CommandRefusal::Usage),
    }
}

#[tactic(auto, unfolding(crate::specs::Commands::audit_of))]
fn audit(alloc: Global, words: &[String]) -> Result<Command, CommandRefusal>
    ensures answers { Answers (audit_of (map string_bytes words.now)) result }
    ensures bounded { IfOk result IsBounded }
{
    let Some((app, words)) = file(words) else {
        return Err(CommandRefusal::Usage);
    };
    match file_and_options(true, &[Number::Checkpoint], words) {
        Some((journal, options)) => Ok(Command::Audit {
            app: Name::of(alloc, app)?,
            journal: Name::of(alloc, journal)?,
            script: given_script(alloc, options)?,
            settings: settings(options),
        }),
        None => Err(CommandRefusal::Usage),
    }
}

#[tactic(auto, unfolding(crate::specs::Commands::gen_of))]
fn example(words: &[String]) -> Option<Command>
    ensures value { result ≡ gen_of (map string_bytes words.now) }
    ensures bounded { IfSome result IsBounded }
{
    let [number, size] = words else {
        return None;
    };
    let number = number_within(0, u64::MAX, number.as_str())?;
    let size = number_within(1, 200_000, size.as_str())?;
    Some(Command::Gen {
        number,
        size: size as u32,
    })
}

/// The command of this name, told by the words after the name.
fn named(alloc: Global, name: &str, words: &[String]) -> Result<Command, CommandRefusal>
    ensures answers { Answers (called name.now (map string_bytes words.now)) result }
    ensures bounded { IfOk result IsBounded }
{
    match name {
        "check" => check(alloc, words),
        "plan" => plan(alloc, words),
        "mean" => mean(alloc, words),
        "sim" => sim(alloc, words),
        "run" => run(alloc, words),
        "gen" => example(words).ok_or(CommandRefusal::Usage),
        "group" => group(alloc, words),
        "trace" => trace(alloc, words),
        "audit" => audit(alloc, words),
        _ => Err(CommandRefusal::Usage),
    }
}

/// The command that the words are, which stand after the program's name.
///
/// | Words | Options |
/// |---|---|
/// | `check APP`, `plan APP` | none |
/// | `mean APP` | `--base` |
/// | `sim APP`, `trace APP` | `--script`, `--base`, `--checkpoint`, `--block`, `--keep`, `--order` |
/// | `run APP` | `--script`, `--base`, `--checkpoint`, `--block`, `--keep`, `--threads` |
/// | `group APP GROUPS` | `--script`, `--base`, `--checkpoint`, `--block`, `--keep` |
/// | `audit APP JOURNAL` | `--script`, `--checkpoint` |
/// | `gen NUMBER SIZE` | none |
///
/// Options stand behind the other words, in pairs of an option and its value, in any order, each at most
/// once. `--script` takes a file name, as do APP, GROUPS and JOURNAL: 1 to 4,096 bytes that don't begin
/// with `-`. A number is 1 to 20 decimal digits, leading zeros allowed: `--base` 0 to 4294959295,
/// `--checkpoint` 1 to 1000, `--block` 1040 to 1048576, `--keep` 1 to 1000000, `--order` and NUMBER 0 to
/// 18446744073709551615, `--threads` 1 to 16, SIZE 1 to 200000.
///
/// `Usage` comes exactly where the words are no such command, and `Memory` only where they are one.
#[tactic(auto, unfolding(crate::specs::Commands::command_of))]
pub fn command(alloc: Global, words: &[String]) -> Result<Command, CommandRefusal>
    ensures answers { Answers (command_of (map string_bytes words.now)) result }
    ensures bounded { IfOk result IsBounded }
{
    match words {
        [name, words @ ..] => named(alloc, name.as_str(), words),
        [] => Err(CommandRefusal::Usage),
    }
}

#[tactic(auto, unfolding(crate::specs::Commands::resume_told))]
fn resume(alloc: Global, words: &[String]) -> Result<ResumeWords, CommandRefusal>
    ensures answers { Answers (resume_told (map string_bytes words.now)) result }
    ensures bounded { IfOk result (λ told. IsSettings told.settings) }
{
    let Some((app, words)) = file(words) else {
        return Err(CommandRefusal::Usage);
    };
    match file_and_options(false, &SIM_NUMBERS, words) {
        Some((_, options)) => Ok(ResumeWords {
            app: Name::of(alloc, app)?,
            settings: settings(options),
            order: given_number(Number::Order, options),
        }),
        None => Err(CommandRefusal::Usage),
    }
}

/// What the words `resume APP DIR` tell, which may have the options `--base`, `--checkpoint`, `--block`,
/// `--keep` and `--order` by the rules of [`command`]. APP and DIR are file names.
///
/// `Usage` comes exactly where the words are no such command, and `Memory` only where they are one.
#[tactic(auto, unfolding(crate::specs::Commands::resume_of))]
pub fn resume_words(alloc: Global, words: &[String]) -> Result<ResumeWords, CommandRefusal>
    ensures answers { Answers (resume_of (map string_bytes words.now)) result }
    ensures bounded { IfOk result (λ told. IsSettings told.settings) }
{
    match words {
        [name, words @ ..] if name.as_str() == "resume" => resume(alloc, words),
        _ => Err(CommandRefusal::Usage),
    }
}

#[tactic(auto, unfolding(crate::specs::Commands::record_told))]
fn per(words: &[String]) -> Option<u32>
    ensures value { result ≡ record_told (map string_bytes words.now) }
    ensures bounded { IfSome result (IsWithin 1 1000000) }
{
    let [per, dir] = words else {
        return None;
    };
    let per = number_within(1, 1_000_000, per.as_str())?;
    if is_file_name(dir.as_str()) {
        Some(per as u32)
    } else {
        None
    }
}

/// How many lines the words `record PER DIR` make a window of: PER, from 1 to 1000000, by the rules of
/// [`command`]. DIR is a file name.
///
/// `Usage` comes exactly where the words are no such command. It takes no memory.
#[tactic(auto, unfolding(crate::specs::Commands::record_of))]
pub fn record_words(words: &[String]) -> Result<u32, CommandRefusal>
    ensures answers { Answers (record_of (map string_bytes words.now)) result }
    ensures words { IfErr result (λ e. e ≡ Usage) }
    ensures bounded { IfOk result (IsWithin 1 1000000) }
{
    match words {
        [name, words @ ..] if name.as_str() == "record" => {
            per(words).ok_or(CommandRefusal::Usage)
        }
        _ => Err(CommandRefusal::Usage),
    }
}
