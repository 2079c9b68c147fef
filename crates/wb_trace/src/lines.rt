//! Lines, and the words of a line.
ghost use Rattle.std.specs.Prelude.{◌≡◌, ◌<◌, ◌≤◌, ◌+◌, ◌∷◌, [], IfSome, MatchOption, length};
ghost use Rattle.std.specs.Str.Lines.{lines};
ghost use Rattle.wb_trace.specs.Words.{after_word, first_word};

use wb_input::{split_at_first, without_carriage_return};

/// The first line of what is left of a trace, without its LF or CR LF, and what follows it; none where nothing is
/// left. A last line without an end counts.
pub fn first_line(rest: &[u8]) -> Option<(&[u8], &[u8])>
    ensures first { MatchOption result (rest.now ≡ []) (λ p. lines rest.now
        ≡ p.0.now ∷ lines p.1.now) }
    ensures shorter { IfSome result (λ p. length p.1.now < length rest.now) }
    ensures within { IfSome result (λ p. length p.0.now ≤ length rest.now) }
{
    if rest.is_empty() {
        return None;
    }
    match split_at_first(rest, b'\n') {
        Some((line, after)) => Some((without_carriage_return(line), after)),
        None => Some((rest, &[])),
    }
}

/// The first word, and what follows the blank after it.
pub fn split_word(text: &[u8]) -> (&[u8], &[u8])
    ensures word { result.0.now ≡ first_word text.now }
    ensures rest { result.1.now ≡ after_word text.now }
    ensures within { length result.0.now + length result.1.now ≤ length text.now }
{
    match split_at_first(text, b' ') {
        Some((word, rest)) => (word, rest),
        None => (text, &[]),
    }
}
