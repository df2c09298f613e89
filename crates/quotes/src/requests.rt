// What the arguments ask for.
ghost use Rattle.std.specs.Prelude.{◌≡◌, map, string_bytes};
ghost use Rattle.quotes.specs.Asked.{asked, asked_by, Asks};

use crate::names::{MeasureName, measure_named};
use crate::steps::{HELD, steps_spelled};
use arrayvec::ArrayVec;
use text::fields::all_digits;

// A measure, widths and spaces.
#[derive(Drop)]
pub(crate) struct Request {
    pub(crate) measure: MeasureName,
    pub(crate) widths: ArrayVec<u8, HELD>,
    pub(crate) spaces: ArrayVec<u8, HELD>,
}

// The request of two runs of digits and a measure, if they are that.
fn request_by(measure: Option<MeasureName>, widths: &str, spaces: &str) -> Option<Request>
    ensures { Asks result (asked_by measure widths.now spaces.now) }
{
    let measure = measure?;
    let (widths, spaces) = (widths.as_bytes(), spaces.as_bytes());
    if !(all_digits(widths) && all_digits(spaces)) {
        return None;
    }
    Some(Request {
        measure,
        widths: steps_spelled(widths),
        spaces: steps_spelled(spaces),
    })
}

// The request of a program's arguments, if they are one.
pub(crate) fn requested(args: &[String]) -> Option<Request>
    ensures { Asks result (asked (map string_bytes args.now)) }
{
    match args {
        [widths, spaces] => request_by(
            Some(MeasureName::ByTotal),
            widths.as_str(),
            spaces.as_str(),
        ),
        [widths, spaces, measure] => request_by(
            measure_named(measure.as_str()),
            widths.as_str(),
            spaces.as_str(),
        ),
        _ => None,
    }
}
