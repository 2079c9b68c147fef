//! Where outputs go.
ghost use Rattle.std.specs.Prelude.{◌≡◌, ◌<◌, ◌+◌, ◌-◌, ◌∷◌, ◌^◌, ℕ, List, MatchResult};

use thiserror::Error;

/// An output was not taken.
#[derive(Clone, Copy, Debug, PartialEq, Eq, Error)]
#[error("output refused")]
pub struct Refused;

/// Takes outputs, seen as the list of those taken, each with the place of its event, the newest first, and how many were
/// refused.
pub trait Outputs {
    ghost taken: { Self → List (ℕ × List ℕ) };

    ghost refusals: { Self → ℕ };

    /// Takes the bytes put out at an event; its place is counted from 1. What is refused isn't taken.
    fn put(&mut self, at: u64, bytes: &[u8]) -> Result<(), Refused>
        requires { refusals self.old < 2 ^ 64 - 1 }
        ensures { MatchResult result
            (λ _. (taken self.new ≡ (at, bytes.now) ∷ taken self.old)
            × (refusals self.new ≡ refusals self.old))
            (λ _. (taken self.new ≡ taken self.old)
            × (refusals self.new ≡ refusals self.old + 1)) };
}
