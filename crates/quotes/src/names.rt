// The measure that an argument names.
ghost use Rattle.std.specs.Prelude.{◌≡◌};
ghost use Rattle.quotes.specs.Quotes.{measure_named};

// One of the three measures.
#[derive(Clone, Copy, Debug, PartialEq, Eq)]
pub(crate) enum MeasureName {
    ByTotal,
    ByWorst,
    ByLate,
}

// The measure that a word names.
// Kept as an `Option`: of a word that names none there is nothing more to say, so an error type would be empty.
pub(crate) fn measure_named(word: &str) -> Option<MeasureName>
    ensures { result ≡ measure_named word.now }
{
    match word {
        "total" => Some(MeasureName::ByTotal),
        "worst" => Some(MeasureName::ByWorst),
        "late" => Some(MeasureName::ByLate),
        _ => None,
    }
}
