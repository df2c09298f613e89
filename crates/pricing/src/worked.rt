//! Prices that are worked out.
ghost use Rattle.pricing.specs.Worked.{WorkedPrices};

// The smaller width of the worked bundles, with their prices as they follow from the definitions.
pub fn worked_prices_hold() -> u8
    ensures { WorkedPrices result }
{
    2
}
