//! The points of the curve, taken one by one from the rows of the last stage.
ghost use Rattle.std.specs.Prelude.{◌≡◌, ℕ, ◌<◌, ◌≤◌, true, length, unwrap_or, None};
ghost use Rattle.std.specs.Iterator.{at_most};
ghost use Rattle.pricing.specs.Measures.{meaning};
ghost use Rattle.solver.specs.Front.{row_at, ahead, point_in, points_in, front, InReach, InRows, earlier_row, lower_row, LeastIn, Going, Gives, FirstAhead, Runs, Ordered, Cut, RowsCurve};

use crate::options::first_of_two;
use frontier::{Point, Record, State};
use measures::DelayMeasure;
use std::array;

// The power and the delay of a row.
pub(crate) fn price_at<M: DelayMeasure>(rows: &[State<M::Value>], i: usize) -> Point<M::Value>
    requires { i < length rows.now }
    ensures { result ≡ point_in (row_at M.DelayMeasure.EMPTY rows.now i) }
{
    let row = &rows[i];
    Point {
        power: row.power,
        delay: row.delay,
    }
}

// The rows of the last stage in six runs, how far each run is gone through, and the delay of the last point, if there is one.
// Kept: what is known of the rows and the heads stands in the clauses. As a ghost field it has to be truncated, since it names a
// number of wires that may not be the only one; what `least_ahead` asks (`reached`) was then left open.
// Kept: seven cuts beside six heads. What is known of a head goes back to where its run begins, so pairs of a head and an end would
// stand beside the cuts, and not in their place.
#[derive(Drop)]
pub(crate) struct Front<'a, M: DelayMeasure> {
    pub(crate) measure: &'a M,
    pub(crate) rows: &'a [State<M::Value>],
    pub(crate) cuts: [usize; 7],
    pub(crate) heads: [usize; 6],
    pub(crate) after: Option<M::Value>,
}

impl<'a, M: DelayMeasure> Front<'a, M> {
    // The rows in their runs, of which nothing is gone through.
    pub(crate) fn new(measure: &'a M, rows: &'a [State<M::Value>], cuts: [usize; 7]) -> Front<'a, M>
        requires reached { InReach (M.DelayMeasure.reach measure.now) (points_in rows.now) }
        requires runs { Runs M.DelayMeasure.EMPTY rows.now cuts }
        ensures measure { result.measure.now ≡ measure.now }
        ensures rows { result.rows.now ≡ rows.now }
        ensures fresh { result.after ≡ None }
        ensures going { Going (meaning M.DelayMeasure measure.now) M.DelayMeasure.EMPTY rows.now (M.DelayMeasure.reach measure.now) result.cuts result.heads result.after }
    {
        let [a, b, c, d, e, f, _] = cuts;
        Front {
            measure,
            rows,
            cuts,
            heads: [a, b, c, d, e, f],
            after: None,
        }
    }

    // Whether a delay is smaller than that of the last point, if there is one.
    fn is_ahead(&self, delay: M::Value) -> bool
        ensures { result ≡ ahead (meaning M.DelayMeasure self.now.measure.now) self.now.after delay }
    {
        self.after
            .is_none_or(|last| !self.measure.not_above(last, delay))
    }

    // The first row ahead from a place up to another, if one is.
    fn first_ahead(&self, from: usize, to: usize) -> Option<usize>
        requires low { from ≤ to }
        requires high { to ≤ length self.now.rows.now }
        ensures { FirstAhead (meaning M.DelayMeasure self.now.measure.now) M.DelayMeasure.EMPTY self.now.rows.now self.now.after from to (unwrap_or result to) }
    {
        (from..to).find(
            |i|
                requires { i.now < length self.now.rows.now }
            { self.is_ahead(price_at::<M>(self.rows, *i).delay) },
        )
    }

    // The earlier of two rows, where there are two.
    fn earlier(&self, a: Option<usize>, b: Option<usize>) -> Option<usize>
        requires first { InRows self.now.rows.now a }
        requires second { InRows self.now.rows.now b }
        ensures { result ≡ earlier_row (meaning M.DelayMeasure self.now.measure.now) M.DelayMeasure.EMPTY self.now.rows.now a b }
    {
        first_of_two(
            a,
            b,
            |x, y|
                requires { (x < length self.now.rows.now) × (y < length self.now.rows.now) }
            { price_at::<M>(self.rows, x).is_upto(self.measure, &price_at::<M>(self.rows, y)) },
        )
    }

    // The least row of those ahead from a place up to another, if one is, where power does not fall: none but a row of the same
    // power can come before the first of them.
    fn least_ahead(&self, from: usize, to: usize) -> Option<usize>
        requires reached { InReach (M.DelayMeasure.reach self.now.measure.now) (points_in self.now.rows.now) }
        requires low { from ≤ to }
        requires high { to ≤ length self.now.rows.now }
        requires sorted { (i j : ℕ) → from ≤ i → i ≤ j → j < to → (row_at M.DelayMeasure.EMPTY self.now.rows.now i).power ≤ (row_at M.DelayMeasure.EMPTY self.now.rows.now j).power }
        ensures { LeastIn (meaning M.DelayMeasure self.now.measure.now) M.DelayMeasure.EMPTY self.now.rows.now self.now.after from to result }
    {
        let mut least = None;
        // Kept: what is picked is a row's number, so the loop is over the numbers.
        for i in from..to {
            let here = price_at::<M>(self.rows, i);
            if self.is_lower(least, here.power) {
                return least;
            }
            if self.is_ahead(here.delay) {
                least = self.earlier(least, Some(i));
            }
        }
        least
    }

    // Whether there is a row, and it is of less power.
    fn is_lower(&self, row: Option<usize>, power: u32) -> bool
        requires { InRows self.now.rows.now row }
        ensures { result ≡ lower_row M.DelayMeasure.EMPTY self.now.rows.now row power }
    {
        row.is_some_and(|i| price_at::<M>(self.rows, i).power < power)
    }

    // The least row by power and then by delay of those ahead, if one is. The head of a run only moves on, over rows that are not
    // ahead any more.
    fn least(&mut self) -> Option<usize>
        requires { Going (meaning M.DelayMeasure self.old.measure.now) M.DelayMeasure.EMPTY self.old.rows.now (M.DelayMeasure.reach self.old.measure.now) self.old.cuts self.old.heads self.old.after }
        ensures measure { self.new.measure.now ≡ self.old.measure.now }
        ensures rows { self.new.rows.now ≡ self.old.rows.now }
        ensures going { Going (meaning M.DelayMeasure self.old.measure.now) M.DelayMeasure.EMPTY self.old.rows.now (M.DelayMeasure.reach self.old.measure.now) self.new.cuts self.new.heads self.old.after }
        ensures least { LeastIn (meaning M.DelayMeasure self.old.measure.now) M.DelayMeasure.EMPTY self.old.rows.now self.old.after 0 (length self.old.rows.now) result }
    {
        let mut heads = self.heads;
        let mut least = None;
        for (k, head) in heads.iter_mut().enumerate() {
            let end = self.cuts[k + 1];
            let first = self.first_ahead(*head, end).unwrap_or(end);
            *head = first;
            let pick = self.least_ahead(first, end);
            least = self.earlier(least, pick);
        }
        self.heads = heads;
        least
    }
}

// The rows that are the points of the curve, in the order of the curve.
impl<'a, M: DelayMeasure> Iterator for Front<'a, M> {
    type Item = usize;

    ghost can_next = { λ s. Going (meaning M.DelayMeasure s.measure.now) M.DelayMeasure.EMPTY s.rows.now (M.DelayMeasure.reach s.measure.now) s.cuts s.heads s.after };

    ghost next_gives = { λ s r t. (t.rows.now ≡ s.rows.now) × Gives M.DelayMeasure.EMPTY s.rows.now (front (meaning M.DelayMeasure s.measure.now) s.after (points_in s.rows.now)) r (front (meaning M.DelayMeasure t.measure.now) t.after (points_in t.rows.now)) };

    ghost remaining = { λ s. at_most (length (front (meaning M.DelayMeasure s.measure.now) s.after (points_in s.rows.now))) };

    fn next(&mut self) -> Option<usize> {
        let row = self.least()?;
        self.after = Some(price_at::<M>(self.rows, row).delay);
        Some(row)
    }
}

// How many points are to come.
pub(crate) fn count_points<M: DelayMeasure>(runs: Front<'_, M>) -> usize
    requires { Going (meaning M.DelayMeasure runs.measure.now) M.DelayMeasure.EMPTY runs.rows.now (M.DelayMeasure.reach runs.measure.now) runs.cuts runs.heads runs.after }
    ensures { result ≡ length (front (meaning M.DelayMeasure runs.entry.measure.now) runs.entry.after (points_in runs.entry.rows.now)) }
{
    runs.count()
}

// How many rows have a last space of at most k.
fn run_end<M: DelayMeasure>(rows: &[State<M::Value>], k: usize) -> usize
    requires { (i j : ℕ) → i ≤ j → j < length rows.now → (row_at M.DelayMeasure.EMPTY rows.now i).last ≤ (row_at M.DelayMeasure.EMPTY rows.now j).last }
    ensures { Cut M.DelayMeasure.EMPTY rows.now k result }
{
    rows.partition_point(|row| usize::from(row.last) <= k)
}

// Where the rows of each last space begin and end.
pub(crate) fn run_cuts<M: DelayMeasure>(rows: &[State<M::Value>]) -> [usize; 7]
    requires { Ordered M.DelayMeasure.EMPTY rows.now }
    ensures { Runs M.DelayMeasure.EMPTY rows.now result }
{
    array::from_fn(|k| run_end::<M>(rows, k))
}

// What is taken point by point from the kept states of the last stage is the curve.
pub(crate) fn rows_are_the_curve<M: DelayMeasure>()
    ensures { (m : M) → RowsCurve (meaning M.DelayMeasure m) (M.DelayMeasure.reach m) }
{}
