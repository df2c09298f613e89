// The price of an allocation of a sheet's drawing, as a line.
ghost use Rattle.std.specs.Prelude.{◌≡◌, [], ◌∷◌, map, take, string_bytes, codes, decimal};
ghost use Rattle.drawing.specs.Shown.{plan_of};
ghost use Rattle.rules.specs.Steps.{three_steps};
ghost use Rattle.pricing.specs.Measures.{meaning};
ghost use Rattle.pricing.specs.Replies.{priced};
ghost use Rattle.text.specs.Lines.{line_of};
ghost use Rattle.writers.specs.Answers.{answer_bytes};
ghost use Rattle.quotes.specs.Answers.{usage_text, quote_text};
ghost use Rattle.quotes.specs.Quotes.{value_fields, reply_text, quote_by};

use crate::names::MeasureName;
use crate::requests::{Request, requested};
use drawing::Drawing;
use measures::{Fields, LateFirst, PrintableMeasure, Total, Worst};
use pricing::{Allocation, price};
use rules::OpenBook;
use sheets::faults::Fault;
use sheets::reading::read_sheet;
use text::lines::Line;
use writers::answers::Answer;
pub use writers::answers::checks::READ;
use writers::answers::checks::sheet_part;
use writers::line_texts::numbers_line;

// The line of a price.
fn price_line(used: u32, power: u32, delay: Fields) -> Line
    ensures { result ≡ line_of (codes "price" ∷ decimal used ∷ decimal power ∷ value_fields delay) }
{
    match delay {
        Fields::One(n) => numbers_line(b"price", &[used, power, n]),
        Fields::Two(n, m) => numbers_line(b"price", &[used, power, n, m]),
    }
}

// The price of an allocation by the open book and a measure, or the line that names its refusal.
fn quote<M: PrintableMeasure>(drawing: &Drawing, measure: &M, allocation: &Allocation<'_>) -> Answer
    ensures { answer_bytes result ≡ reply_text (M.PrintableMeasure.shown measure.now) (priced (meaning M.DelayMeasure measure.now) three_steps (plan_of drawing.now) allocation.now) }
{
    match price(drawing, &OpenBook, measure, allocation) {
        Ok(cost) => Answer::line(&price_line(cost.used, cost.power, measure.fields(cost.delay))),
        Err(why) => Answer::refusal(Fault::from(why)),
    }
}

// The price that a request asks for.
fn quote_by(drawing: &Drawing, request: &Request) -> Answer
    ensures { answer_bytes result ≡ quote_by request.now.measure (plan_of drawing.now) (record { widths = request.now.widths.items; spaces = request.now.spaces.items }) }
{
    let allocation = Allocation::new(request.widths.as_slice(), request.spaces.as_slice());
    // Kept: a name picks the measure, whose values are of another type each, so the call stands in each case.
    match request.measure {
        MeasureName::ByTotal => quote(drawing, &Total, &allocation),
        MeasureName::ByWorst => quote(drawing, &Worst, &allocation),
        MeasureName::ByLate => quote(drawing, &LateFirst, &allocation),
    }
}

// The line for arguments that ask for nothing.
fn usage() -> Answer
    ensures { answer_bytes result ≡ usage_text }
{
    let mut line = Line::new();
    line.word(b"usage: price WIDTHS SPACES [total|worst|late], a digit for each width and space");
    line.close();
    Answer::line(&line)
}

// The answer to an input whose first 4,096 bytes are read as a sheet, and to a program's arguments: the price of the allocation that they
// spell, or the line that names the sheet's first fault or the price's refusal, or how to ask.
pub fn quoted(input: &[u8], args: &[String]) -> Answer
    ensures { answer_bytes result ≡ quote_text (take 4096 input.now) (map string_bytes args.now) }
{
    match requested(args) {
        Some(request) => match read_sheet(sheet_part(input)) {
            Ok(drawing) => quote_by(&drawing, &request),
            Err(fault) => Answer::refusal(fault),
        },
        None => usage(),
    }
}
