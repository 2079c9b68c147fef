//! Cutting a text at a byte, and a CR off a line.
ghost use Rattle.std.specs.List.{after_first, before_first, position};
ghost use Rattle.std.specs.Prelude.{◌≡◌, ◌<◌, ◌≤◌, ◌==◌, IfSome, is_some, length};
ghost use Rattle.std.specs.Str.Lines.{strip_carriage_return as strip};

/// What comes before the first such byte and what comes after it, if there is one.
pub fn split_at_first(text: &[u8], byte: u8) -> Option<(&[u8], &[u8])>
    ensures found { is_some result ≡ is_some (position (λ b. b == byte) text.now) }
    ensures before { IfSome result (λ p. p.0.now ≡ before_first (λ b. b == byte) text.now) }
    ensures after { IfSome result (λ p. p.1.now ≡ after_first (λ b. b == byte) text.now) }
{
    let place = place_of(text, byte)?;
    Some((&text[..place], &text[place + 1..]))
}

fn place_of(text: &[u8], byte: u8) -> Option<usize>
    ensures place { result ≡ position (λ b. b == byte) text.now }
    ensures within { IfSome result (λ place. place < length text.now) }
{
    text.iter().position(|b| *b == byte)
}

/// Returns `line` without the CR at its end, if it has one.
pub fn without_carriage_return(line: &[u8]) -> &[u8]
    ensures value { result.now ≡ strip line.now }
    ensures within { length result.now ≤ length line.now }
{
    match line {
        [before @ .., last] => { if *last == b'\r' { before } else { line } }
        [] => line,
    }
}
