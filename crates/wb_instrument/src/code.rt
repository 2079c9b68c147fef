//! Codes: texts of bounded length over an alphabet.
ghost use Rattle.std.specs.List.{list_all};
ghost use Rattle.std.specs.Prelude.{◌≡◌, ◌≤◌, ◌↔◌, Bool, IfOk, IfSome, IsOk, is_some, length, true, ℕ};
ghost use Rattle.wb_instrument.specs.Code.{is_code_text};

use arrayvec::ArrayString;
use std::marker::{Model, PhantomData};

/// The characters of a kind of code.
pub trait Alphabet {
    ghost holds: { ℕ → Bool };

    /// Whether the byte is one of them.
    fn holds(byte: u8) -> bool
        ensures { result ≡ holds byte };
}

/// A code: 1 to `LONGEST` characters of an alphabet, seen as its bytes.
#[derive(Debug, Drop)]
pub struct Code<const LONGEST: usize, A: Alphabet> {
    text: ArrayString<LONGEST>,
    alphabet: PhantomData<A>,
}

/// The text is no code of this kind.
#[derive(Clone, Copy, Debug, Drop, PartialEq, Eq, thiserror::Error)]
#[error("not such a code")]
pub struct NotACode;

impl<const LONGEST: usize, A: Alphabet> Model for Code<LONGEST, A> {
    ghost use Rattle.std.specs.Prelude.{◌≡◌, ℕ, List, true};
    ghost use Rattle.wb_instrument.specs.Code.{is_code_text};

    ghost Value = { List ℕ };

    ghost view = { λ c. c.text.bytes };

    ghost invariant = { λ c. is_code_text LONGEST A.holds c.text.bytes ≡ true };
}

impl<const LONGEST: usize, A: Alphabet> Code<LONGEST, A> {
    /// A code of this text, where it is one.
    pub fn new(text: &str) -> Option<Self>
        ensures valid { is_some result ≡ is_code_text LONGEST A.holds text.now }
        ensures value { IfSome result (λ code. code ≡ text.now) }
    {
        if !is_code::<A>(text, LONGEST) {
            return None;
        }
        let mut code = ArrayString::new();
        code.push_str(text);
        Some(Code {
            text: code,
            alphabet: PhantomData,
        })
    }

    /// The code as text.
    pub fn as_str(&self) -> &str
        ensures value { result.now ≡ self.now }
        ensures valid { is_code_text LONGEST A.holds result.now ≡ true }
        ensures fits { length result.now ≤ LONGEST }
    {
        self.text.as_str()
    }

    /// A copy of the code.
    pub fn copied(&self) -> Self
        ensures { result ≡ self.now }
    {
        Code {
            text: self.text,
            alphabet: PhantomData,
        }
    }
}

impl<'a, const LONGEST: usize, A: Alphabet> TryFrom<&'a str> for Code<LONGEST, A> {
    type Error = NotACode;

    ghost try_from_gives = { λ text r. IfOk r (λ code. code ≡ text.now)
        × (IsOk r ↔ (is_code_text LONGEST A.holds text.now ≡ true)) };

    fn try_from(text: &'a str) -> Result<Self, NotACode> {
        Code::new(text).ok_or(NotACode)
    }
}

/// Whether a text is a code of 1 to so many characters.
pub(crate) fn is_code<A: Alphabet>(text: &str, longest: usize) -> bool
    ensures { result ≡ is_code_text longest A.holds text.now }
{
    !text.is_empty() && text.len() <= longest && are_of::<A>(text.as_bytes())
}

fn are_of<A: Alphabet>(bytes: &[u8]) -> bool
    ensures { result ≡ list_all A.holds bytes.now }
{
    bytes.iter().all(|byte| A::holds(*byte))
}
