//! Whether an allocation is lawful.
ghost use Rattle.std.specs.Prelude.{◌≡◌};
ghost use Rattle.drawing.specs.Edits.{first_reason, unless_refused};
ghost use Rattle.drawing.specs.Lists.{all};
ghost use Rattle.drawing.specs.Shown.{plan_of};
ghost use Rattle.pricing.specs.Allocations.{admits_laid, laid, used_width};
ghost use Rattle.pricing.specs.Ready.{Ready};
ghost use Rattle.pricing.specs.Replies.{price_reasons};

use crate::allocation::Allocation;
use drawing::{Drawing, Refusal, Wire};
use rules::RuleBook;

// Whether a book admits every wire between the spaces at its sides.
fn all_admitted<B: RuleBook>(book: &B, wires: &[Wire], allocation: &Allocation<'_>) -> bool
    requires { Ready wires.now allocation.now }
    ensures { result ≡ all (admits_laid (B.RuleBook.admits book.now)) (laid wires.now allocation.now) }
{
    allocation.lays(wires).all(|y| y.is_admitted(book))
}

// The used width of an allocation, or the first refusal.
pub(crate) fn lawful_width<B: RuleBook>(
    drawing: &Drawing,
    book: &B,
    allocation: &Allocation<'_>,
) -> Result<u32, Refusal>
    ensures { result ≡ unless_refused (first_reason (price_reasons (B.RuleBook.admits book.now) (plan_of drawing.now) allocation.now)) (used_width allocation.now) }
{
    let wires = drawing.wires();
    if !allocation.is_counted(wires.len()) {
        return Err(Refusal::WrongCount);
    }
    if !allocation.is_in_grid(drawing.grid()) {
        return Err(Refusal::StepOutsideGrid);
    }
    if !all_admitted(book, wires, allocation) {
        return Err(Refusal::TripleBarred);
    }
    let used = allocation.used_width();
    if used > drawing.channel() {
        return Err(Refusal::AboveChannel);
    }
    Ok(used)
}
