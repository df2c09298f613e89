// The states of a sheet that is written line by line.
ghost use Rattle.std.specs.Prelude.{◌≡◌, ◌≤◌, false};
ghost use Rattle.drawing.specs.Plans.{bad_grid};

use drawing::refusals::Refusal;
use drawing::words::Grid;

// Kept: the three states are types of their own, so that a line that is not due is refused by the compiler.

// A sheet that has no line yet: its text so far has `len` bytes, which is none.
#[derive(Drop)]
pub struct Unheaded {
    pub(crate) len: usize,
}

// A sheet with its head and `count` wire lines; the text so far has `len` bytes.
#[derive(Drop)]
pub struct Headed {
    pub(crate) len: usize,
    pub(crate) grid: Grid,
    pub(crate) channel: u32,
    pub(crate) count: usize,
    ghost gridded: { bad_grid grid ≡ false },
    ghost few: { count ≤ 24 },
}

// A sheet with its end line, which takes no more; the text has `len` bytes.
#[derive(Drop)]
pub struct Ended {
    pub(crate) len: usize,
}

// A refused line: the sheet as it was, and why.
#[derive(Drop)]
pub struct Refused<S> {
    pub sheet: S,
    pub why: Refusal,
}

impl<S> Refused<S> {
    // A refused line of a sheet.
    pub(crate) fn new(sheet: S, why: Refusal) -> Refused<S>
        ensures sheet { result.sheet ≡ sheet }
        ensures why { result.why ≡ why }
    {
        Refused { sheet, why }
    }
}

// What `?` hands on of a refused line: why it was refused.
impl<S: Drop> From<Refused<S>> for Refusal {
    ghost from_gives = { λ x r. r ≡ x.why };

    fn from(x: Refused<S>) -> Refusal {
        x.why
    }
}
