use either::{Either, Left, Right};
use measures::{
    DelayMeasure, EitherValue, Fields, Late, LateFirst, PrintableMeasure, Total, Worst,
};
use std::test::Fail;

// The join of two wires of delays 3 and 4, the first with the deadline 3 and the second with the deadline 2.
fn two_wires<M: DelayMeasure>(m: &M) -> M::Value {
    m.join(m.join(M::EMPTY, m.make(3, 3)), m.make(4, 2))
}

// One late wire with less delay is above none with more.
#[test]
fn counts_late_wires(rt: HostRuntime) {
    let v = two_wires(&LateFirst);
    assert!(rt; v.count == 1 && v.sum == 7);
    let w = Late { count: 0, sum: 60 };
    assert!(rt; LateFirst.not_above(w, v) && !LateFirst.not_above(v, w));
}

// Measures of three kinds are handed on as values of one type, and kinds nest.
#[test]
fn nests(rt: HostRuntime) -> Result<(), Fail> {
    let kinds: [Either<Total, Either<Worst, LateFirst>>; 3] = [
        Left(Total),
        Right(Left(Worst)),
        Right(Right(LateFirst)),
    ];
    let total = kinds[0];
    let Fields::One(sum) = total.fields(two_wires(&total)) else {
        return Err(Fail::new("total"));
    };
    let Fields::One(worst) = kinds[1].fields(two_wires(&kinds[1])) else {
        return Err(Fail::new("worst"));
    };
    let Fields::Two(count, both) = kinds[2].fields(two_wires(&kinds[2])) else {
        return Err(Fail::new("late first"));
    };
    assert!(rt; sum == 7 && worst == 4 && count == 1 && both == 7);
    Ok(())
}

// A value as good as the empty one is the empty one.
#[test]
fn has_one_empty_value(rt: HostRuntime) -> Result<(), Fail> {
    let m: Either<Total, LateFirst> = Right(LateFirst);
    let EitherValue::Empty = m.make(0, 0) else {
        return Err(Fail::new("nothing late and no delay"));
    };
    let EitherValue::Second(v) = m.make(1, 0) else {
        return Err(Fail::new("one late"));
    };
    assert!(rt; v.count == 1 && v.sum == 1);
    Ok(())
}
