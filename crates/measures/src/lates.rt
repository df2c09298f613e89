//! The measure that counts the late wires first.
ghost use Rattle.std.specs.Prelude.{◌≡◌};
ghost use Rattle.measures.specs.Lates.{none_late, late_made, late_joined, late_below, late_within};
ghost use Rattle.measures.specs.declared.printable.Fields.TheVariants.{Two};
ghost use Rattle.std.proofs.Common.{rules};

use crate::measure::DelayMeasure;
use crate::printable::{Fields, PrintableMeasure};

// How many wires have a delay above their deadline, and the sum of the delays of all.
#[derive(Clone, Copy, Debug, PartialEq, Eq, PartialOrd, Ord)]
pub struct Late {
    pub count: u32,
    pub sum: u32,
}

// Fewer late wires first, then the smaller sum.
#[derive(Clone, Copy)]
pub struct LateFirst;

impl DelayMeasure for LateFirst {
    type Value = Late;

    ghost EMPTY = { none_late };

    ghost made = { λ _. late_made };

    ghost joined = { λ _. late_joined };

    ghost below = { λ _. late_below };

    ghost reach = { λ _. late_within };

    const EMPTY: Late = Late { count: 0, sum: 0 };

    ghost lawful = { Prim.search rules };

    // Late if the delay is above the deadline.
    fn make(&self, delay: u32, deadline: u32) -> Late {
        Late {
            count: u32::from(delay > deadline),
            sum: delay,
        }
    }

    // Both summed, and each sum stops on its own.
    fn join(&self, a: Late, b: Late) -> Late {
        Late {
            count: a.count.saturating_add(b.count),
            sum: a.sum.saturating_add(b.sum),
        }
    }

    // By count, then by sum.
    fn not_above(&self, a: Late, b: Late) -> bool {
        a <= b
    }
}

impl PrintableMeasure for LateFirst {
    ghost shown = { λ _ v. Two v.count v.sum };

    // Count and sum.
    fn fields(&self, value: Late) -> Fields {
        Fields::Two(value.count, value.sum)
    }
}
