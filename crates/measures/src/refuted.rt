//! The worst delay, and then the total: values and an order that are no measure.
ghost use Rattle.std.specs.Prelude.{◌≡◌};
ghost use Rattle.measures.specs.Refuted.{worst_total, worst_total_joined, Unsteady, NoMeasure};

// The largest delay, and the sum of the delays.
#[derive(Clone, Copy)]
pub struct WorstTotal {
    pub worst: u32,
    pub total: u32,
}

// Two values that show that 'worst, then total' is no measure: the first is below the second, and joined with the
// second they come the other way round.
pub fn worst_then_total_is_no_measure() -> (WorstTotal, WorstTotal)
    ensures values { result ≡ (worst_total 3 6, worst_total 4 4) }
    ensures first_joined { worst_total_joined result.0 result.1 ≡ worst_total 4 10 }
    ensures second_joined { worst_total_joined result.1 result.1 ≡ worst_total 4 8 }
    ensures unsteady { Unsteady result.0 result.1 result.1 }
    ensures refuted { NoMeasure }
{
    (
        WorstTotal { worst: 3, total: 6 },
        WorstTotal { worst: 4, total: 4 },
    )
}
