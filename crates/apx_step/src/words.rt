//! The words of a key: what stands between its blanks and tabs.
ghost use Rattle.std.specs.Prelude.{◌≡◌, ◌≤◌, ◌++◌, length, OnOk};
ghost use Rattle.apx_rules.specs.Rule.{words_of};
ghost use Rattle.apx_step.specs.Words.{is_blank, first_word, past_word, unless_empty, with_value};

use apx_tuple::{Key, Tuple};
use std::alloc::{AllocError, Global};

/// Whether the byte parts words.
fn is_blank(byte: u8) -> bool
    ensures { result ≡ is_blank byte }
{
    byte == b' ' || byte == b'\t'
}

/// What comes before the first blank, and what comes after it.
fn split_word(bytes: &[u8]) -> (&[u8], &[u8])
    ensures word { result.0.now ≡ first_word bytes.now }
    ensures rest { result.1.now ≡ past_word bytes.now }
{
    for (len, byte) in bytes.iter().enumerate() {
        if is_blank(*byte) {
            return (&bytes[..len], &bytes[len + 1..]);
        }
    }
    (bytes, &bytes[bytes.len()..])
}

/// Emits the word with the value, unless it is empty.
fn emit_word(
    alloc: Global,
    word: &[u8],
    value: i64,
    emitted: &mut Vec<Tuple>,
) -> Result<(), AllocError>
    requires { length word.now ≤ 1024 }
    ensures { OnOk result (emitted.new.items ≡ emitted.old.items ++ with_value value (unless_empty word.now)) }
{
    if word.is_empty() {
        return Ok(());
    }
    emitted.push(Tuple {
        key: Key::of_few(alloc, word)?,
        value,
    })?;
    Ok(())
}

/// Emits each word of the key with the value.
pub(crate) fn emit_words(
    alloc: Global,
    key: &Key,
    value: i64,
    emitted: &mut Vec<Tuple>,
) -> Result<(), AllocError>
    ensures { OnOk result (emitted.new.items ≡ emitted.old.items ++ with_value value (words_of key.now)) }
{
    let mut rest = key.bytes();
    while !rest.is_empty() {
        let (word, others) = split_word(rest);
        emit_word(alloc, word, value, emitted)?;
        rest = others;
    }
    Ok(())
}
