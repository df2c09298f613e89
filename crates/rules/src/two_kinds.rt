//! One of two rule books.
ghost use Rattle.std.specs.Prelude.{◌≡◌};
ghost use Rattle.either.specs.Either.{either};
ghost use Rattle.either.specs.declared.Either.TheVariants.{Left, Right};

use crate::books::RuleBook;
use either::{Either, Left, Right};

// A book that is one or the other of two kinds.
impl<P: RuleBook, Q: RuleBook> RuleBook for Either<P, Q> {
    ghost admits = { either P.RuleBook.admits Q.RuleBook.admits };

    ghost steps = { elim [ Left p ↦ P.RuleBook.steps p | Right q ↦ Q.RuleBook.steps q ] };

    // What the book at hand answers.
    fn allows(&self, left: u8, width: u8, right: u8) -> bool {
        match self {
            Left(p) => p.allows(left, width, right),
            Right(q) => q.allows(left, width, right),
        }
    }
}
