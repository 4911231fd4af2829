//! Examples made from a number: an application that counts words, its lines, and a script with kills and a repartition.
#![tactic(auto)]

ghost use Rattle.std.specs.Prelude.{◌≡◌, ◌≤◌, ◌++◌, OnOk, IfOk};
ghost use Rattle.apx_gen.specs.Generated.{generator_of, drawn, after_one, after_line, word_text, line_text, lines_text, application_text, script_text};

use itoa::Buffer;
use rand_core::utils::NextWord;
use rand_pcg::Lcg64Xsh32;
use std::alloc::{AllocError, Global};

/// The application's text.
const APPLICATION: &str = r#"{"operators": [
  {"name": "read", "class": "lines", "properties": {"file": "gen.txt", "perWindow": 10}},
  {"name": "split", "class": "words"},
  {"name": "tally", "class": "count", "attributes": {"PARTITIONS": 4}},
  {"name": "out", "class": "store"}],
 "streams": [
  {"name": "s1", "source": {"operatorName": "read", "portName": "output"},
   "sinks": [{"operatorName": "split", "portName": "input"}]},
  {"name": "s2", "source": {"operatorName": "split", "portName": "output"},
   "sinks": [{"operatorName": "tally", "portName": "input"}]},
  {"name": "s3", "source": {"operatorName": "tally", "portName": "output"},
   "sinks": [{"operatorName": "out", "portName": "input"}]}]}"#;

/// The script for eight windows or more.
const SCRIPT: &str = "kill done 3 0 split\nrepartition 4 3 tally\nkill staged 6 2 tally\n";

/// The stream of the generator.
const STREAM: u64 = 1;

/// How many lines are a window.
const PER_WINDOW: u32 = 10;

/// The fewest windows that have a script.
const SCRIPTED_WINDOWS: u32 = 8;

/// How many words there are.
const WORDS: u32 = 1_000;

/// The files of an example.
///
/// ```
/// let example = generate(alloc, 7, 1_000)?;
/// let lines = example.lines.as_slice();
/// ```
#[derive(Drop)]
pub struct Generated {
    /// The application, which reads `gen.txt`, ten lines to a window.
    pub app: Vec<u8>,
    /// The lines of `gen.txt`: four words each, of a thousand.
    pub lines: Vec<u8>,
    /// The script, which is empty for fewer than eight windows.
    pub script: Vec<u8>,
}

/// The example of a number with so many lines, 1 to 200,000: an application that counts words, in four partitions.
///
/// The words are drawn by `Lcg64Xsh32` (O'Neill's PCG32) from the number on stream 1, so the same number and size
/// make the same files anywhere. Want of memory alone refuses it.
pub fn generate(alloc: Global, number: u64, size: u32) -> Result<Generated, AllocError>
    requires least { 1 ≤ size }
    requires most { size ≤ 200000 }
    ensures app { IfOk result (λ example. example.app.items ≡ application_text) }
    ensures lines { IfOk result (λ example. example.lines.items ≡ lines_text size (generator_of number)) }
    ensures script { IfOk result (λ example. example.script.items ≡ script_text size) }
{
    Ok(Generated {
        app: Vec::from_slice(alloc, APPLICATION.as_bytes())?,
        lines: lines(alloc, Lcg64Xsh32::new(number, STREAM), size)?,
        script: script(alloc, size)?,
    })
}

#[tactic(auto, using(crate::proofs::Drawing::lines_appended, crate::proofs::Drawing::lines_all))]
// So many lines of what the generator gives.
fn lines(alloc: Global, generator: Lcg64Xsh32, size: u32) -> Result<Vec<u8>, AllocError>
    ensures { IfOk result (λ lines. lines.items ≡ lines_text size generator) }
{
    let mut generator = generator;
    let mut lines = Vec::new(alloc);
    for _ in 0..size {
        append_line(&mut generator, &mut lines)?;
    }
    Ok(lines)
}

#[tactic(auto, unfolding(crate::specs::Generated::line_text, crate::specs::Generated::after_line))]
// Appends a line of the next four words.
fn append_line(generator: &mut Lcg64Xsh32, lines: &mut Vec<u8>) -> Result<(), AllocError>
    ensures line { OnOk result (lines.new.items ≡ lines.old.items ++ line_text generator.old) }
    ensures drawn { OnOk result (generator.new ≡ after_line generator.old) }
{
    append_word(generator, b' ', lines)?;
    append_word(generator, b' ', lines)?;
    append_word(generator, b' ', lines)?;
    append_word(generator, b'\n', lines)?;
    Ok(())
}

#[tactic(auto, unfolding(crate::specs::Generated::word_text, crate::specs::Generated::drawn, crate::specs::Generated::after_one))]
// Appends the next word, and the byte behind it.
fn append_word(
    generator: &mut Lcg64Xsh32,
    ending: u8,
    lines: &mut Vec<u8>,
) -> Result<(), AllocError>
    ensures word { OnOk result (lines.new.items ≡ lines.old.items ++ word_text (drawn generator.old) ending) }
    ensures drawn { generator.new ≡ after_one generator.old }
{
    let drawn = generator.next_word();
    lines.push(b'w')?;
    lines.extend_from_slice(Buffer::new().format(drawn % WORDS).as_bytes())?;
    lines.push(ending)?;
    Ok(())
}

// The script for so many lines.
fn script(alloc: Global, size: u32) -> Result<Vec<u8>, AllocError>
    requires { size ≤ 200000 }
    ensures { IfOk result (λ script. script.items ≡ script_text size) }
{
    if size.div_ceil(PER_WINDOW) < SCRIPTED_WINDOWS {
        Ok(Vec::new(alloc))
    } else {
        Vec::from_slice(alloc, SCRIPT.as_bytes())
    }
}

#[cfg(test)]
mod tests;
