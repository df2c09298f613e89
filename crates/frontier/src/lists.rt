//! Ordered lists of states and of points over lent slices: one text for both kinds of record and for every measure.
ghost use Rattle.std.specs.Prelude.{◌≡◌, ◌<◌, ◌≤◌, Bool, length, replicate};
ghost use Rattle.std.specs.List.{between};
ghost use Rattle.pricing.specs.Measures.{meaning};
ghost use Rattle.frontier.specs.Orders.{state_upto, point_upto, blank_state, blank_point, high_above, put_at, put_in_order};

use crate::records::{Point, State};
use measures::DelayMeasure;

// A record of an ordered list, under a measure.
pub trait Record<M: DelayMeasure>: Copy {
    // the first record comes no later than the second
    ghost upto: { M → Self → Self → Bool };
    // a record that holds nothing
    ghost nothing: { Self };

    // Whether the record comes no later than another.
    fn is_upto(&self, measure: &M, other: &Self) -> bool
        ensures { result ≡ upto measure.now self.now other.now };

    // A record that holds nothing.
    fn blank() -> Self
        ensures { result ≡ nothing };
}

// States go by last space, power, used width and delay.
impl<M: DelayMeasure> Record<M> for State<M::Value> {
    ghost upto = { λ m. state_upto (meaning M.DelayMeasure m) };

    ghost nothing = { blank_state M.DelayMeasure.EMPTY };

    fn is_upto(&self, measure: &M, other: &State<M::Value>) -> bool {
        let mine = (self.last, self.power, self.used);
        let others = (other.last, other.power, other.used);
        mine < others || (mine == others && measure.not_above(self.delay, other.delay))
    }

    fn blank() -> State<M::Value> {
        State {
            from: 0,
            power: 0,
            used: 0,
            delay: M::EMPTY,
            last: 0,
            width: 0,
        }
    }
}

// Points go by power and delay.
impl<M: DelayMeasure> Record<M> for Point<M::Value> {
    ghost upto = { λ m. point_upto (meaning M.DelayMeasure m) };

    ghost nothing = { blank_point M.DelayMeasure.EMPTY };

    fn is_upto(&self, measure: &M, other: &Point<M::Value>) -> bool {
        self.power < other.power
            || (self.power == other.power && measure.not_above(self.delay, other.delay))
    }

    fn blank() -> Point<M::Value> {
        Point {
            power: 0,
            delay: M::EMPTY,
        }
    }
}

// How many records at the high end of a list stand above a new one, before the first that does not.
pub fn count_above<M: DelayMeasure, R: Record<M>>(measure: &M, list: &[R], x: &R) -> usize
    ensures counted { result ≡ high_above (R.Record.upto measure.now) x.now list.now }
    ensures within { result ≤ length list.now }
{
    list.iter()
        .rev()
        .take_while(|y| !y.is_upto(measure, x))
        .count()
}

// Puts a record at a place of the first `end` places; those from there on move one place up, over the place `end`.
// Kept beside the step by which a drawing takes a wire in: this one promises the whole slice, of which a drawing shows a front.
// Inner: the solver's lists stand in parts of a table
pub fn put<R: Copy>(list: &mut [R], place: usize, end: usize, x: R)
    requires within { place ≤ end }
    requires room { end < length list.old }
    ensures { list.new ≡ put_at list.old place end x }
{
    list[end] = x;
    if place < end {
        list[place..end + 1].rotate_right(1);
    }
}

// Puts a record among the places from `from` on and before `to`, below those at their high end that stand above it.
// Inner: the solver's lists stand in parts of a table
pub fn insert<M: DelayMeasure, R: Record<M>>(
    measure: &M,
    list: &mut [R],
    from: usize,
    to: usize,
    x: R,
)
    requires low { from ≤ to }
    requires room { to < length list.old }
    ensures { list.new ≡ put_in_order (R.Record.upto measure.now) list.old from to x }
{
    let above = count_above(measure, &list[from..to], &x);
    put(list, to - above, to, x);
}

// Leaves nothing in a list.
pub fn blank_all<M: DelayMeasure, R: Record<M>>(list: &mut [R])
    ensures { list.new ≡ replicate (length list.old) R.Record.nothing }
{
    let nothing = R::blank();
    // Kept: `fill` asks for a clone that cannot fail, of which nothing is known at a record that is only `Copy`.
    for x in list.iter_mut() {
        *x = nothing;
    }
}
