//! What a measure of two kinds shows is what the measure at hand shows, written in the values of the two.
ghost use Rattle.frontier.specs.Written.{EitherCurve, FirstWritten, SecondWritten};

use crate::curves::curve_is_holds;
use either::Either;
use measures::DelayMeasure;

// The computed curve is the curve for a measure of two kinds, by what its members mean.
pub fn either_curve_holds<P: DelayMeasure, Q: DelayMeasure>()
    ensures { EitherCurve P.DelayMeasure Q.DelayMeasure }
{
    curve_is_holds::<Either<P, Q>>()
}

// A measure of two kinds that is of the first has the prices, the curve and the kept states of that one, written in its own values.
pub fn first_written_holds<P: DelayMeasure, Q: DelayMeasure>()
    ensures { FirstWritten P.DelayMeasure Q.DelayMeasure }
{}

// A measure of two kinds that is of the second has the prices, the curve and the kept states of that one, written in its own values.
pub fn second_written_holds<P: DelayMeasure, Q: DelayMeasure>()
    ensures { SecondWritten P.DelayMeasure Q.DelayMeasure }
{}
