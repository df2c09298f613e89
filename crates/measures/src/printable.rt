//! Measures whose values are written as numbers.
ghost use Rattle.std.specs.Prelude.{◌≡◌};
ghost use Rattle.measures.specs.declared.printable.Fields.{Fields};

use crate::measure::DelayMeasure;

// The text fields of a value: one number or two.
#[derive(Clone, Copy)]
pub enum Fields {
    One(u32),
    Two(u32, u32),
}

// A measure that says which numbers a value is written as.
pub trait PrintableMeasure: DelayMeasure {
    // the numbers of a value
    ghost shown: { Self → Self.Value → Fields };

    // The numbers of a value.
    fn fields(&self, value: Self::Value) -> Fields
        ensures { result ≡ shown self.now value };
}
