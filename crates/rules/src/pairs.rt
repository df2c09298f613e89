//! The book that bars pairs of a width and a space beside it.
ghost use Rattle.std.specs.Prelude.{◌≡◌, ℕ, Bool, true, false};
ghost use Rattle.rules.specs.Steps.{three_steps, two_steps};
ghost use Rattle.rules.specs.Pairs.{stands, neither_barred, bars};
ghost use Rattle.std.proofs.Common.{rules};

use crate::books::RuleBook;
use crate::steps::is_step;

// A mark for each pair (width, space), six spaces for each width in turn: true where the pair is barred.
// Kept as one array of fixed memory, as a book is `Copy`: rows of six would nest what a book means, too.
#[derive(Clone, Copy)]
pub struct PairBook {
    barred: [bool; 36],
}

impl PairBook {
    // The book in which nothing is barred.
    pub fn new() -> PairBook
        ensures { (l w r : ℕ) → neither_barred result.barred l w r ≡ three_steps l w r }
    {
        PairBook {
            barred: [false; 36],
        }
    }

    // Whether a wire of this width may have this space on a side.
    fn permits(&self, width: u8, space: u8) -> bool
        ensures { result ≡ stands self.now.barred width space }
    {
        is_step(width)
            && is_step(space)
            && !self.barred[(width as usize - 1) * 6 + (space as usize - 1)]
    }

    // Bars a pair: no triple with that width and that space on a side is admitted any more. A pair that
    // is not of two steps changes nothing.
    pub fn bar(&mut self, width: u8, space: u8)
        ensures admitted { (l w r : ℕ) → neither_barred self.new.barred l w r ≡ bars (neither_barred self.old.barred) width space l w r }
        ensures kept { two_steps width space ≡ false → self.new ≡ self.old }
    {
        if is_step(width) && is_step(space) {
            self.barred[(width as usize - 1) * 6 + (space as usize - 1)] = true;
        }
    }
}

impl RuleBook for PairBook {
    ghost admits = { λ b. neither_barred b.barred };

    ghost steps = { Prim.search rules };

    // Neither side makes a barred pair.
    fn allows(&self, left: u8, width: u8, right: u8) -> bool {
        self.permits(width, left) && self.permits(width, right)
    }
}
