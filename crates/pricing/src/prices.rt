//! What an allocation costs.
ghost use Rattle.std.specs.Prelude.{◌≡◌};
ghost use Rattle.drawing.specs.Shown.{plan_of};
ghost use Rattle.pricing.specs.Measures.{meaning};
ghost use Rattle.pricing.specs.Prices.{total_power, joined_delay};
ghost use Rattle.pricing.specs.Ready.{Ready};
ghost use Rattle.pricing.specs.Replies.{priced};

use crate::allocation::Allocation;
use crate::allocations::lawful_width;
use drawing::{Drawing, Refusal, Wire};
use measures::DelayMeasure;
use rules::RuleBook;

// What an allocation costs: its used width, its power and its delay by a measure.
#[derive(Clone, Copy)]
pub struct Priced<V> {
    pub used: u32,
    pub power: u32,
    pub delay: V,
}

// The powers of all wires together.
fn power_of(wires: &[Wire], allocation: &Allocation<'_>) -> u32
    requires { Ready wires.now allocation.now }
    ensures { result ≡ total_power wires.now allocation.now }
{
    allocation.lays(wires).map(|y| y.power()).sum()
}

// The delays of all wires joined from the left.
fn delay_of<M: DelayMeasure>(measure: &M, wires: &[Wire], allocation: &Allocation<'_>) -> M::Value
    requires { Ready wires.now allocation.now }
    ensures { result ≡ joined_delay (meaning M.DelayMeasure measure.now) wires.now allocation.now }
{
    allocation
        .lays(wires)
        .fold(M::EMPTY, |v, y| measure.join(v, y.value(measure)))
}

// The price of an allocation, or the first refusal: it is judged as a whole by its counts, by the grid, by the book and by the channel.
pub fn price<B: RuleBook, M: DelayMeasure>(
    drawing: &Drawing,
    book: &B,
    measure: &M,
    allocation: &Allocation<'_>,
) -> Result<Priced<M::Value>, Refusal>
    ensures { result ≡ priced (meaning M.DelayMeasure measure.now) (B.RuleBook.admits book.now) (plan_of drawing.now) allocation.now }
{
    let used = lawful_width(drawing, book, allocation)?;
    let wires = drawing.wires();
    let power = power_of(wires, allocation);
    let delay = delay_of(measure, wires, allocation);
    Ok(Priced { used, power, delay })
}
