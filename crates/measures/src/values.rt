//! The values of a measure that is one of two kinds.
ghost use Rattle.std.specs.Prelude.{◌≡◌, ◌&&◌};
ghost use Rattle.measures.specs.Values.{to_first, to_second, from_first, from_second};

use crate::measure::DelayMeasure;

// A value of the one kind or of the other. The empty value of either kind is `Empty`, so that equal values are one.
// Kept as one enum: an `Option` of an `Either` takes 20 bytes of each state where this takes 12, with three measures in one.
#[derive(Clone, Copy)]
pub enum EitherValue<A, B> {
    Empty,
    First(A),
    Second(B),
}

// Whether a value is as good as the empty one of its measure.
fn is_as_empty<M: DelayMeasure>(measure: &M, value: M::Value) -> bool
    ensures { result ≡ (M.DelayMeasure.below measure.now value M.DelayMeasure.EMPTY && M.DelayMeasure.below measure.now M.DelayMeasure.EMPTY value) }
{
    measure.not_above(value, M::EMPTY) && measure.not_above(M::EMPTY, value)
}

impl<A: Copy, B: Copy> EitherValue<A, B> {
    // A value of the first kind as one of either.
    // Kept beside its mirror image: each names a case of its own, and what they have in common is `is_as_empty`.
    pub(crate) fn from_first<P: DelayMeasure<Value = A>>(p: &P, value: A) -> EitherValue<A, B>
        ensures { result ≡ from_first (P.DelayMeasure.below p.now) P.DelayMeasure.EMPTY value }
    {
        if is_as_empty(p, value) {
            EitherValue::Empty
        } else {
            EitherValue::First(value)
        }
    }

    // A value of the second kind as one of either.
    pub(crate) fn from_second<Q: DelayMeasure<Value = B>>(q: &Q, value: B) -> EitherValue<A, B>
        ensures { result ≡ from_second (Q.DelayMeasure.below q.now) Q.DelayMeasure.EMPTY value }
    {
        if is_as_empty(q, value) {
            EitherValue::Empty
        } else {
            EitherValue::Second(value)
        }
    }

    // What a value is to the first measure: one of the other kind is empty.
    // Kept beside its mirror image: one `match` each, and a parameter for the case would be longer than both.
    pub(crate) fn to_first<P: DelayMeasure<Value = A>>(self) -> A
        ensures { result ≡ to_first P.DelayMeasure.EMPTY self }
    {
        match self {
            EitherValue::First(v) => v,
            _ => P::EMPTY,
        }
    }

    // What a value is to the second measure: one of the other kind is empty.
    pub(crate) fn to_second<Q: DelayMeasure<Value = B>>(self) -> B
        ensures { result ≡ to_second Q.DelayMeasure.EMPTY self }
    {
        match self {
            EitherValue::Second(v) => v,
            _ => Q::EMPTY,
        }
    }
}
