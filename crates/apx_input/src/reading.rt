//! Reading a file into windows, or refusing its first line that the rules refuse.
ghost use Rattle.std.specs.Prelude.{◌≡◌, ◌≢◌, ◌⊎◌, ℕ, ◌+◌, ◌*◌, ◌≤◌, drop, length, None, IfOk, IfErr, OnOk, MatchResult};
ghost use Rattle.apx_pass.specs.Groups.{Refused, input_of, groups, first_refused, first_refused_from, refused_at};
ghost use Rattle.apx_pass.specs.Lines.{lines};
ghost use Rattle.apx_input.specs.Refusals.{Reports, refusal_of};
ghost use Rattle.apx_lines.specs.Rest.{IsRest};
ghost use Rattle.apx_input.specs.Starts.{AreStarts};

use crate::refusal::LineRefusal;
use crate::tuple::has_tuple;
use crate::window::Windows;
use apx_lines::next_line;
use apx_tuple::InputKind;
use std::alloc::Global;

/// The most windows that a file has.
const MAX_WINDOWS: usize = 20_000;

/// The most bytes that a line has.
const MAX_LINE_LEN: usize = 1024;

/// The windows of a file with these bytes: `per_window` lines each, and fewer in the last.
///
/// A line ends at an LF, and a last line without one counts where it isn't empty; one CR at a line's end
/// doesn't count. The first line is refused that would begin window 20,001, or else has more than 1,024
/// bytes, or else is of kind `Pairs` and is no key, tab and value.
pub fn windows(
    alloc: Global,
    kind: InputKind,
    per_window: u32,
    bytes: &[u8],
) -> Result<Windows, LineRefusal>
    requires low { 1 ≤ per_window }
    requires high { per_window ≤ 1000000 }
    // The windows are those of the file.
    ensures ok { IfOk result (λ windows. windows ≡ input_of kind per_window bytes.now) }
    // No line of it is refused.
    ensures accepted { OnOk result (first_refused (input_of kind per_window bytes.now) ≡ None) }
    // Where a line is refused, the answer is the refusal of the first one, unless memory runs out.
    ensures exact { (refused : Refused) → first_refused (input_of kind per_window bytes.now) ≡ Some refused →
        (result ≡ Err (refusal_of refused)) ⊎ (result ≡ Err LineRefusal.Memory) }
    // And a refusal reports the first refused line and its cause.
    ensures refused { IfErr result (λ refusal. Reports refusal (first_refused (input_of kind per_window bytes.now))) }
{
    Windows::of(kind, per_window, Vec::from_slice(alloc, bytes)?)
}

impl Windows {
    /// The windows of a file with these bytes, which aren't copied: `per_window` lines each, and fewer in the last.
    ///
    /// The first line is refused as [`windows`] says; the bytes are dropped then.
    pub fn of(kind: InputKind, per_window: u32, bytes: Vec<u8>) -> Result<Windows, LineRefusal>
        requires low { 1 ≤ per_window }
        requires high { per_window ≤ 1000000 }
        // The windows are those of the file.
        ensures ok { IfOk result (λ windows. windows ≡ input_of kind per_window bytes.items) }
        // No line of it is refused.
        ensures accepted { OnOk result (first_refused (input_of kind per_window bytes.items) ≡ None) }
        // Where a line is refused, the answer is the refusal of the first one, unless memory runs out.
        ensures exact { (refused : Refused) → first_refused (input_of kind per_window bytes.items) ≡ Some refused →
            (result ≡ Err (refusal_of refused)) ⊎ (result ≡ Err LineRefusal.Memory) }
        // And a refusal reports the first refused line and its cause.
        ensures refused { IfErr result (λ refusal. Reports refusal (first_refused (input_of kind per_window bytes.items))) }
    {
        let starts = window_starts(*bytes.allocator(), kind, per_window, &bytes)?;
        Ok(Windows {
            kind,
            per_window,
            bytes,
            starts,
        })
    }
}

/// Where in a file with these bytes each window begins.
fn window_starts(
    alloc: Global,
    kind: InputKind,
    per_window: u32,
    bytes: &[u8],
) -> Result<Vec<usize>, LineRefusal>
    requires low { 1 ≤ per_window }
    requires high { per_window ≤ 1000000 }
    ensures starts { IfOk result (λ starts. AreStarts per_window bytes.now starts.items) }
    ensures count { IfOk result (λ starts. length starts.items ≡ groups (input_of kind per_window bytes.now)) }
    ensures few { IfOk result (λ starts. length starts.items ≤ 20000) }
    ensures accepted { OnOk result (first_refused_from kind per_window 1 (lines bytes.now) ≡ None) }
    ensures refused { IfErr result (λ refusal. Reports refusal (first_refused_from kind per_window 1 (lines bytes.now))) }
{
    let mut starts = Vec::new(alloc);
    let mut rest = bytes;
    while !rest.is_empty() {
        let line = starts.len() as u64 * u64::from(per_window) + 1;
        if starts.len() == MAX_WINDOWS {
            return Err(LineRefusal::TooMany { line });
        }
        starts.push(bytes.len() - rest.len())?;
        rest = after_window(kind, per_window, line, rest)?;
    }
    Ok(starts)
}

/// The text behind the lines of one window, of which the first has the number `first`.
fn after_window(
    kind: InputKind,
    per_window: u32,
    first: u64,
    text: &[u8],
) -> Result<&[u8], LineRefusal>
    requires { first + per_window ≤ 20000 * per_window + 1 }
    ensures rest { IfOk result (λ rest. IsRest text.now rest.now) }
    ensures lines { IfOk result (λ rest. lines rest.now ≡ drop per_window (lines text.now)) }
    // None of these lines is refused.
    ensures same { IfOk result (λ rest.
        first_refused_from kind per_window (first + per_window) (lines rest.now)
        ≡ first_refused_from kind per_window first (lines text.now)) }
    ensures refused { IfErr result (λ refusal. Reports refusal (first_refused_from kind per_window first (lines text.now))) }
{
    let mut rest = text;
    for done in 0..per_window {
        match next_line(rest) {
            Some((line, behind)) => {
                judge(kind, first + u64::from(done), line)?;
                rest = behind;
            }
            None => return Ok(rest),
        }
    }
    Ok(rest)
}

/// Refuses a line for its length or for what it has to be.
fn judge(kind: InputKind, number: u64, line: &[u8]) -> Result<(), LineRefusal>
    ensures { (per_window : ℕ) → number ≢ 20000 * per_window + 1 →
        MatchResult result
        (λ _. refused_at kind per_window number line.now ≡ None)
        (λ refusal. Reports refusal (refused_at kind per_window number line.now)) }
{
    if line.len() > MAX_LINE_LEN {
        return Err(LineRefusal::TooLong { line: number });
    }
    if !has_tuple(kind, line) {
        return Err(LineRefusal::BadPair { line: number });
    }
    Ok(())
}
