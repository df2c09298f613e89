//! The computed curve is the curve, and there is no other.
ghost use Rattle.frontier.specs.Always.{Always};
ghost use Rattle.frontier.specs.Curves.{CurveIs, CurveIsOne};

use measures::DelayMeasure;

// The computed curve has a point at or below the price of each lawful allocation, is made of such prices, has none at or below another,
// and rises in power.
pub fn curve_is_holds<M: DelayMeasure>()
    ensures { Always M.DelayMeasure CurveIs }
{}

// Only one list is the curve.
pub fn curve_is_one_holds<M: DelayMeasure>()
    ensures { Always M.DelayMeasure CurveIsOne }
{}
