//! Reading a script.

ghost use Rattle.std.specs.Prelude.{◌≡◌, IfOk, option_map, not};
ghost use Rattle.apx_pass.specs.Script.{kill_of, repartition_of, after_word, form_of, act_of, is_passed_over, command_at, script_of};
ghost use Rattle.apx_script.specs.Refusal.{Gives};
ghost use Rattle.apx_script.specs.Views.{act_view, kill_from, repartition_from};

use crate::act::{Act, Line, Point};
use crate::refusal::ScriptRefusal;
use crate::script::Script;
use crate::word::{number, part, point, split_word};
use apx_json::Name;
use apx_lines::next_line;
use std::alloc::{AllocError, Global};

/// The most commands of a script.
const MOST_COMMANDS: usize = 1000;

/// The point, the window, the partition and the operator of a kill.
#[tactic(auto, unfolding(apx_pass::specs::Script::kill_of, apx_pass::specs::Script::after_word))]
fn kill_in(text: &str) -> Option<(Point, u32, u8, &str)>
    ensures { option_map kill_from result ≡ kill_of text.now }
{
    let (word, text) = split_word(text)?;
    let point = point(word)?;
    let (word, text) = split_word(text)?;
    let window = number(word)?;
    let (word, name) = split_word(text)?;
    let part = part(word)?;
    Some((point, window, part, name))
}

/// The window, the number of partitions and the operator of a repartition.
#[tactic(auto, unfolding(apx_pass::specs::Script::repartition_of, apx_pass::specs::Script::after_word))]
fn repartition_in(text: &str) -> Option<(u32, u8, &str)>
    ensures { option_map repartition_from result ≡ repartition_of text.now }
{
    let (word, text) = split_word(text)?;
    let window = number(word)?;
    let (word, name) = split_word(text)?;
    let count = part(word)?;
    Some((window, count, name))
}

fn kill(alloc: Global, text: &str) -> Result<Option<Act>, AllocError>
    ensures { IfOk result (λ act. option_map act_view act ≡ kill_of text.now) }
{
    match kill_in(text) {
        Some((point, window, part, name)) => Ok(Some(Act::Kill {
            point,
            window,
            part,
            name: Name::of(alloc, name)?,
        })),
        None => Ok(None),
    }
}

fn repartition(alloc: Global, text: &str) -> Result<Option<Act>, AllocError>
    ensures { IfOk result (λ act. option_map act_view act ≡ repartition_of text.now) }
{
    match repartition_in(text) {
        Some((window, count, name)) => Ok(Some(Act::Repartition {
            window,
            count,
            name: Name::of(alloc, name)?,
        })),
        None => Ok(None),
    }
}

/// What a text commands, by its first word.
#[tactic(auto, unfolding(apx_pass::specs::Script::after_word))]
fn act_in(alloc: Global, text: &str) -> Result<Option<Act>, AllocError>
    ensures { IfOk result (λ act. option_map act_view act
        ≡ after_word form_of (λ form rest. form rest) text.now) }
{
    let Some((word, text)) = split_word(text) else {
        return Ok(None);
    };
    match word {
        "kill" => kill(alloc, text),
        "repartition" => repartition(alloc, text),
        _ => Ok(None),
    }
}

/// What a line commands; None where it has no form of a command.
fn act(alloc: Global, line: &[u8]) -> Result<Option<Act>, AllocError>
    ensures { IfOk result (λ act. option_map act_view act ≡ act_of line.now) }
{
    match str::from_utf8(line) {
        Ok(line) => act_in(alloc, line),
        Err(_) => Ok(None),
    }
}

/// The command of the line with a number, which so many commands stand before.
#[tactic(auto, unfolding(apx_pass::specs::Script::command_at))]
fn command(alloc: Global, number: u64, before: usize, line: &[u8]) -> Result<Line, ScriptRefusal>
    ensures { Gives (λ line. line) result (command_at number before (act_of line.now)) }
{
    let Some(act) = act(alloc, line)? else {
        return Err(ScriptRefusal::Line {
            line: number,
            why: 1,
        });
    };
    if before >= MOST_COMMANDS {
        return Err(ScriptRefusal::Line {
            line: number,
            why: 2,
        });
    }
    Ok(Line { number, act })
}

/// Whether a line is empty or a comment.
fn is_passed_over(line: &[u8]) -> bool
    ensures { result ≡ is_passed_over line.now }
{
    line.is_empty() || line[0] == b'#'
}

/// The script with this text.
///
/// The text is split into lines as an input is. A line that is empty or begins
/// with `#` is passed over but counted. Each other line is a command, with
/// exactly one space between words; the name is the rest of the line.
///
/// - `kill POINT WINDOW PART NAME`, where POINT is `before`, `staged`,
///   `written` or `done`;
/// - `repartition WINDOW COUNT NAME`.
///
/// A number has 1 to 9 decimal digits. `Line` comes exactly at the first line
/// that is refused: for 1 where it has neither form, and for 2 where it has
/// one but is command 1,001. `Memory` where memory ran out.
pub fn read_script(alloc: Global, bytes: &[u8]) -> Result<Script, ScriptRefusal>
    ensures { Gives (λ script. script) result (script_of bytes.now) }
{
    let mut commands = Vec::new(alloc);
    let mut number = 0u64;
    let mut rest = bytes;
    while let Some((line, behind)) = next_line(rest) {
        number += 1;
        if !is_passed_over(line) {
            commands.push(command(alloc, number, commands.len(), line)?)?;
        }
        rest = behind;
    }
    Ok(Script { lines: commands })
}
