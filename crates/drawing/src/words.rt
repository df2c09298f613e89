// The words of a drawing: wires, grids and edits.
ghost use Rattle.std.specs.Prelude.{◌≡◌, nat_lt, zip, position};
ghost use Rattle.drawing.specs.Plans.{first_excess};

// The largest value of each of a wire's eight numbers, in their order: the seven coefficients, and the deadline.
const LIMITS: [u32; 8] = [1000, 1000, 1000, 1000, 1000, 1000, 1000, 60_000_000];

// A wire: seven coefficients of 0 to 1000, and a deadline t of 0 to 60,000,000.
#[derive(Debug, Clone, Copy, Default, PartialEq, Eq, Hash)]
pub struct Wire {
    pub a: u32,
    pub b: u32,
    pub g: u32,
    pub d: u32,
    pub e: u32,
    pub k: u32,
    pub h: u32,
    pub t: u32,
}

// The steps that widths and spaces may take: bit 0 stands for step 1, up to bit 5 for step 6.
#[derive(Debug, Clone, Copy, PartialEq, Eq, Hash)]
pub struct Grid {
    pub widths: u8,
    pub spaces: u8,
}

// A change of a drawing; places count from 0, from left to right.
#[derive(Debug, Clone, Copy, PartialEq, Eq, Hash)]
pub enum Edit {
    Insert(usize, Wire),
    Remove(usize),
    Replace(usize, Wire),
    SetGrid(Grid),
    SetChannel(u32),
}

impl Wire {
    // The place, from 0, of the first number that is above its limit.
    pub fn first_above_limit(&self) -> Option<usize>
        ensures { result ≡ first_excess self.now }
    {
        let numbers = [
            self.a, self.b, self.g, self.d, self.e, self.k, self.h, self.t,
        ];
        first_above(&numbers, &LIMITS)
    }
}

// The place, from 0, of the first number that is above the limit at its place.
fn first_above(numbers: &[u32], limits: &[u32]) -> Option<usize>
    ensures { result ≡ position (λ p. nat_lt p.1 p.0) (zip numbers.now limits.now) }
{
    numbers
        .iter()
        .zip(limits)
        .position(|(number, limit)| *number > *limit)
}
