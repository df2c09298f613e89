// The answer to a sheet, as bytes of its own.
ghost use Rattle.std.specs.Prelude.{◌≤◌};

pub mod checks;

// How many bytes an answer has at the most: a sheet's head of 24, 24 wire lines of 49 and an end line of 7.
pub const LONGEST: usize = 1207;

// What a program prints of a sheet: the first `len` of the bytes.
// Kept: an answer is copied and has no heap, which no vector of the kit is; and the model of what is copied may forget no byte past `len`.
#[derive(Clone, Copy)]
pub struct Answer {
    bytes: [u8; LONGEST],
    len: usize,
    ghost within: { len ≤ 1207 },
}
