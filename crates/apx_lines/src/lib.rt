//! The lines of a text, one after the other from its front on.
//!
//! A line ends at an LF, and a last line without one counts where it isn't empty; one CR at a line's end
//! doesn't count. Inputs, scripts and all other texts that a run reads are split so.
#![tactic(auto)]

ghost use Rattle.std.specs.Prelude.{◌≡◌, ◌==◌, ◌∷◌, [], ◌<◌, length, MatchOption, IfSome, position};
ghost use Rattle.apx_pass.specs.Lines.{lines, without_cr};
ghost use Rattle.apx_lines.specs.Rest.{IsRest};

use memchr::memchr;

#[cfg(test)]
mod tests;

const LF: u8 = b'\n';

const CR: u8 = b'\r';

/// The first line of the text, and the text behind it; None where the text is empty.
#[tactic(auto, using(apx_pass::proofs::Pieces::lines_at, apx_pass::proofs::Pieces::lines_whole, apx_pass::proofs::Pieces::lines_empty, std::proofs::lemmas::List::take_rest))]
pub fn next_line(text: &[u8]) -> Option<(&[u8], &[u8])>
    ensures lines { MatchOption result (lines text.now ≡ []) (λ p. lines text.now ≡ p.0.now ∷ lines p.1.now) }
    ensures shorter { MatchOption result (text.now ≡ []) (λ p. length p.1.now < length text.now) }
    ensures rest { IfSome result (λ p. IsRest text.now p.1.now) }
{
    if text.is_empty() {
        return None;
    }
    match first_lf(text) {
        Some(end) => Some((without_cr(&text[..end]), &text[end + 1..])),
        None => Some((without_cr(text), &text[text.len()..])),
    }
}

/// Where the first LF stands.
fn first_lf(text: &[u8]) -> Option<usize>
    ensures { result ≡ position (λ byte. byte == 10) text.now }
{
    memchr(LF, text)
}

/// The piece without one CR at its end.
#[tactic(auto, using(apx_pass::proofs::Pieces::without_cr_push, apx_pass::proofs::Pieces::without_cr_empty))]
fn without_cr(piece: &[u8]) -> &[u8]
    ensures { result.now ≡ without_cr piece.now }
{
    let Some((last, line)) = piece.split_last() else {
        return piece;
    };
    if *last == CR { line } else { piece }
}
