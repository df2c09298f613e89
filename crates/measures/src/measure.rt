//! What a delay measure is.
ghost use Rattle.std.specs.Prelude.{◌≡◌, Bool, ℕ};
ghost use Rattle.measures.specs.Laws.{Laws};

// A measure of delays: values of its own kind, one made of each wire's delay and deadline, that are joined and
// compared. The ghost members are its meaning, and its functions answer by it for all arguments.
pub trait DelayMeasure {
    type Value: Copy;

    // the value of no wire
    ghost EMPTY: { Self.Value };
    // the value of one wire, by its delay and its deadline
    ghost made: { Self → ℕ → ℕ → Self.Value };
    // two values in one
    ghost joined: { Self → Self.Value → Self.Value → Self.Value };
    // the first value is not above the second
    ghost below: { Self → Self.Value → Self.Value → Bool };
    // the value is in reach of so many wires
    ghost reach: { Self → ℕ → Self.Value → Type 0 };

    // The value of no wire.
    const EMPTY: Self::Value;

    // The value of one wire.
    fn make(&self, delay: u32, deadline: u32) -> Self::Value
        ensures { result ≡ made self.now delay deadline };

    // Two values in one.
    fn join(&self, a: Self::Value, b: Self::Value) -> Self::Value
        ensures { result ≡ joined self.now a b };

    // Whether the one value is not above the other.
    fn not_above(&self, a: Self::Value, b: Self::Value) -> bool
        ensures { result ≡ below self.now a b };

    // what every measure keeps
    ghost lawful: { (m : Self) → Laws EMPTY (made m) (joined m) (below m) (reach m) };
}
