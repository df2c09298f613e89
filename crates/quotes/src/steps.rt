// The steps that an argument spells.
ghost use Rattle.std.specs.Prelude.{◌≡◌, take};
ghost use Rattle.quotes.specs.Quotes.{steps_spelled};

use arrayvec::ArrayVec;

// How many steps of an argument are held: no drawing has as many wires or spaces, so a longer argument has the wrong count as these have.
pub(crate) const HELD: usize = 26;

// A step for each of the first 26 digits.
pub(crate) fn steps_spelled(word: &[u8]) -> ArrayVec<u8, HELD>
    ensures { result.items ≡ take 26 (steps_spelled word.now) }
{
    // Kept: to fill a vector of fixed room from an iterator answers an error, which cannot be here.
    let mut steps = ArrayVec::new();
    let front = &word[..word.len().min(HELD)];
    for b in front {
        steps.push(b.saturating_sub(b'0'));
    }
    steps
}
