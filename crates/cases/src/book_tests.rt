use either::{Either, Left, Right};
use rules::{OpenBook, PairBook, RuleBook};

// Barring a pair takes out the triples with that pair on the left, on the right or on both sides.
#[test]
fn bars_on_either_side(rt: HostRuntime) {
    let mut book = PairBook::new();
    assert!(rt; book.allows(3, 3, 2) && !book.allows(0, 3, 2) && !book.allows(3, 7, 2));
    book.bar(3, 3);
    assert!(rt; !book.allows(3, 3, 2) && !book.allows(2, 3, 3) && !book.allows(3, 3, 3));
    assert!(rt; book.allows(2, 3, 2) && book.allows(3, 2, 3));
    book.bar(2, 0);
    assert!(rt; book.allows(3, 2, 3));
}

// A book of either kind is handed on as one value, and kinds nest.
#[test]
fn nests(rt: HostRuntime) {
    let mut pairs = PairBook::new();
    pairs.bar(3, 3);
    let books: [Either<OpenBook, Either<PairBook, OpenBook>>; 3] = [
        Left(OpenBook),
        Right(Left(pairs)),
        Right(Right(OpenBook)),
    ];
    let second = books[1];
    assert!(rt; books[0].allows(3, 3, 2) && !books[1].allows(3, 3, 2) && books[2].allows(3, 3, 2));
    assert!(rt; !second.allows(2, 3, 3) && second.allows(2, 3, 2));
}
