//! The curve and its witnesses, written into what was lent for them.
ghost use Rattle.std.specs.Prelude.{◌≡◌, ℕ, ◌*◌, ◌<◌, ◌≤◌, length, drop};
ghost use Rattle.pricing.specs.Measures.{meaning};
ghost use Rattle.solver.specs.Front.{points_in, front, Going};
ghost use Rattle.solver.specs.Trail.{Back};
ghost use Rattle.solver.specs.Written.{Filled, FilledShown};

use crate::points::{Front, price_at};
use crate::witness::write_witness;
use frontier::{Point, State, blank_all};
use measures::DelayMeasure;

// Writes the curve of the rows, which stand in the table from `first` on, and a witness for each point; blanks the rest.
pub(crate) fn write_curve<M: DelayMeasure>(
    runs: Front<'_, M>,
    table: &[State<M::Value>],
    first: usize,
    wires: usize,
    points: &mut [Point<M::Value>],
    strip: &mut [u8],
) -> usize
    requires part { runs.rows.now ≡ drop first table.now }
    requires going { Going (meaning M.DelayMeasure runs.measure.now) M.DelayMeasure.EMPTY runs.rows.now (M.DelayMeasure.reach runs.measure.now) runs.cuts runs.heads runs.after }
    requires few { wires ≤ 24 }
    requires back { (i : ℕ) → first ≤ i → i < length table.now → Back M.DelayMeasure.EMPTY table.now wires i }
    requires slots { length (front (meaning M.DelayMeasure runs.measure.now) runs.after (points_in runs.rows.now)) ≤ length points.old }
    requires room { 49 * length (front (meaning M.DelayMeasure runs.measure.now) runs.after (points_in runs.rows.now)) ≤ length strip.old }
    ensures count { result ≡ length (front (meaning M.DelayMeasure runs.entry.measure.now) runs.entry.after (points_in runs.entry.rows.now)) }
    ensures filled { Filled M.DelayMeasure.EMPTY table.now first wires (front (meaning M.DelayMeasure runs.entry.measure.now) runs.entry.after (points_in runs.entry.rows.now)) result (length points.old) (length strip.old) points.new strip.new }
{
    blank_all::<M, Point<M::Value>>(points);
    strip.fill(0);
    // Kept: how many points there are is what is answered, so the loop counts them.
    let mut n = 0;
    for row in runs {
        let slot = first + row;
        points[n] = price_at::<M>(table, slot);
        write_witness::<M>(table, wires, slot, strip, n);
        n += 1;
    }
    n
}

// What is so written of a chained table whose last stage holds the kept states is the curve, with a lawful witness in each row.
pub(crate) fn filled_is_shown<M: DelayMeasure>()
    ensures { (m : M) → FilledShown (meaning M.DelayMeasure m) M.DelayMeasure.EMPTY }
{}
