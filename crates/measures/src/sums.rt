//! The measure that sums the delays.
ghost use Rattle.std.specs.Prelude.{◌≡◌, leb};
ghost use Rattle.measures.specs.Sums.{stopped_sum, within};
ghost use Rattle.measures.specs.declared.printable.Fields.TheVariants.{One};
ghost use Rattle.std.proofs.Common.{rules};

use crate::measure::DelayMeasure;
use crate::printable::{Fields, PrintableMeasure};

// The sum of the delays.
#[derive(Clone, Copy)]
pub struct Total;

impl DelayMeasure for Total {
    type Value = u32;

    ghost EMPTY = { 0 };

    ghost made = { λ _ d _. d };

    ghost joined = { λ _. stopped_sum };

    ghost below = { λ _. leb };

    ghost reach = { λ _. within };

    const EMPTY: u32 = 0;

    ghost lawful = { Prim.search rules };

    // The wire's delay, whatever its deadline.
    fn make(&self, delay: u32, _deadline: u32) -> u32 {
        delay
    }

    // The sum, which stops at the largest number.
    fn join(&self, a: u32, b: u32) -> u32 {
        a.saturating_add(b)
    }

    // By number.
    fn not_above(&self, a: u32, b: u32) -> bool {
        a <= b
    }
}

impl PrintableMeasure for Total {
    ghost shown = { λ _ v. One v };

    // The sum.
    fn fields(&self, value: u32) -> Fields {
        Fields::One(value)
    }
}
