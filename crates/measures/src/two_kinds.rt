//! One of two measures.
ghost use Rattle.std.specs.Prelude.{◌≡◌};
ghost use Rattle.measures.specs.Either.{either_made, either_joined, either_below, either_reach, either_shown};
ghost use Rattle.measures.specs.Choice.{either_lawful};
ghost use Rattle.measures.specs.declared.values.EitherValue.TheVariants.{Empty};

use crate::measure::DelayMeasure;
use crate::printable::{Fields, PrintableMeasure};
use crate::values::EitherValue;
use either::{Either, Left, Right};

// A measure that is one or the other of two kinds.
impl<P: DelayMeasure, Q: DelayMeasure> DelayMeasure for Either<P, Q> {
    type Value = EitherValue<P::Value, Q::Value>;

    ghost EMPTY = { Empty };

    ghost made = { either_made P.DelayMeasure Q.DelayMeasure };

    ghost joined = { either_joined P.DelayMeasure Q.DelayMeasure };

    ghost below = { either_below P.DelayMeasure Q.DelayMeasure };

    ghost reach = { either_reach P.DelayMeasure Q.DelayMeasure };

    const EMPTY: EitherValue<P::Value, Q::Value> = EitherValue::Empty;

    ghost lawful = { either_lawful
        (record { EMPTY = P.EMPTY; made = P.made; joined = P.joined; below = P.below; reach = P.reach })
        (record { EMPTY = Q.EMPTY; made = Q.made; joined = Q.joined; below = Q.below; reach = Q.reach })
        P.lawful Q.lawful };

    // What the measure at hand makes.
    fn make(&self, delay: u32, deadline: u32) -> EitherValue<P::Value, Q::Value> {
        match self {
            Left(p) => EitherValue::from_first(p, p.make(delay, deadline)),
            Right(q) => EitherValue::from_second(q, q.make(delay, deadline)),
        }
    }

    // What the measure at hand joins.
    fn join(
        &self,
        a: EitherValue<P::Value, Q::Value>,
        b: EitherValue<P::Value, Q::Value>,
    ) -> EitherValue<P::Value, Q::Value> {
        match self {
            Left(p) => EitherValue::from_first(p, p.join(a.to_first::<P>(), b.to_first::<P>())),
            Right(q) => EitherValue::from_second(q, q.join(a.to_second::<Q>(), b.to_second::<Q>())),
        }
    }

    // What the measure at hand answers.
    fn not_above(
        &self,
        a: EitherValue<P::Value, Q::Value>,
        b: EitherValue<P::Value, Q::Value>,
    ) -> bool {
        match self {
            Left(p) => p.not_above(a.to_first::<P>(), b.to_first::<P>()),
            Right(q) => q.not_above(a.to_second::<Q>(), b.to_second::<Q>()),
        }
    }
}

impl<P: PrintableMeasure, Q: PrintableMeasure> PrintableMeasure for Either<P, Q> {
    ghost shown = { either_shown P.DelayMeasure.EMPTY P.PrintableMeasure.shown Q.DelayMeasure.EMPTY Q.PrintableMeasure.shown };

    // The numbers by the measure at hand.
    fn fields(&self, value: EitherValue<P::Value, Q::Value>) -> Fields {
        match self {
            Left(p) => p.fields(value.to_first::<P>()),
            Right(q) => q.fields(value.to_second::<Q>()),
        }
    }
}
