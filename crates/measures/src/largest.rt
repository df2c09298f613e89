//! The measure that takes the largest delay.
ghost use Rattle.std.specs.Prelude.{◌≡◌, max, leb};
ghost use Rattle.measures.specs.Sums.{within};
ghost use Rattle.measures.specs.declared.printable.Fields.TheVariants.{One};
ghost use Rattle.std.proofs.Common.{rules};

use crate::measure::DelayMeasure;
use crate::printable::{Fields, PrintableMeasure};

// The largest delay.
// Kept beside `Total`: the two differ in how values join, which as a parameter would be a type and a trait more, and no name less.
#[derive(Clone, Copy)]
pub struct Worst;

impl DelayMeasure for Worst {
    type Value = u32;

    ghost EMPTY = { 0 };

    ghost made = { λ _ d _. d };

    ghost joined = { λ _. max };

    ghost below = { λ _. leb };

    ghost reach = { λ _. within };

    const EMPTY: u32 = 0;

    ghost lawful = { Prim.search rules };

    // The wire's delay, whatever its deadline.
    fn make(&self, delay: u32, _deadline: u32) -> u32 {
        delay
    }

    // The larger.
    fn join(&self, a: u32, b: u32) -> u32 {
        a.max(b)
    }

    // By number.
    fn not_above(&self, a: u32, b: u32) -> bool {
        a <= b
    }
}

impl PrintableMeasure for Worst {
    ghost shown = { λ _ v. One v };

    // The largest delay.
    fn fields(&self, value: u32) -> Fields {
        Fields::One(value)
    }
}
