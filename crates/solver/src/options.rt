//! Of two values that may be there, the one that comes first.
ghost use Rattle.std.specs.Prelude.{◌≡◌, Some};
ghost use Rattle.solver.specs.Options.{FirstOf};

// The first of two values by a test of them, where there are two.
pub(crate) fn first_of_two<T: Copy, F: Fn(T, T) -> bool>(
    a: Option<T>,
    b: Option<T>,
    upto: F,
) -> Option<T>
    requires { (x : _) (y : _) → a ≡ Some x → b ≡ Some y → F.pre upto x y }
    ensures { FirstOf (F.post upto) a b result }
{
    match (a, b) {
        (Some(x), Some(y)) => { if upto(x, y) { a } else { b } }
        (Some(_), None) => a,
        (None, _) => b,
    }
}
