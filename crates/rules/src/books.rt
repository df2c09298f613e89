//! What a rule book is, and the book that admits every triple of steps.
ghost use Rattle.std.specs.Prelude.{◌≡◌, ℕ, Bool, true};
ghost use Rattle.rules.specs.Steps.{three_steps};
ghost use Rattle.std.proofs.Common.{rules};

use crate::steps::is_step;

// A rule book means a set of triples (left space, width, right space) of steps.
pub trait RuleBook {
    // the triples of the set
    ghost admits: { Self → ℕ → ℕ → ℕ → Bool };

    // Whether the triple is in the set: no for whatever is not three steps.
    fn allows(&self, left: u8, width: u8, right: u8) -> bool
        ensures { result ≡ admits self.now left width right };

    // nothing but three steps is in the set
    ghost steps: { (b : Self) (l w r : ℕ) → admits b l w r ≡ true → three_steps l w r ≡ true };
}

// The book that admits every triple of steps.
#[derive(Clone, Copy)]
pub struct OpenBook;

impl RuleBook for OpenBook {
    ghost admits = { λ _. three_steps };

    ghost steps = { Prim.search rules };

    // Every triple of steps.
    fn allows(&self, left: u8, width: u8, right: u8) -> bool {
        is_step(left) && is_step(width) && is_step(right)
    }
}
