use std::marker::Model;

pub(crate) mod fields;

// Where a sheet is read: it borrows the sheet's bytes and remembers its place in them, and the number of the line that is read.
#[derive(Drop)]
pub(crate) struct Reader<'a> {
    bytes: &'a [u8],
    line: u32,
    at: usize,
}

// A reader is the number of its line, and the bytes that are left.
impl<'a> Model for Reader<'a> {
    ghost use Rattle.std.specs.Prelude.{◌≤◌, length, drop};
    ghost use Rattle.sheets.specs.Places.{Place};

    ghost Value = { Place };

    ghost view = { λ r. record { line = r.line; left = drop r.at r.bytes.now } };

    ghost invariant = { λ r. r.at ≤ length r.bytes.now };
}

// A field of a line: each case holds its own part of the sheet, and what it says.
// Kept: a field is one type with a case for each kind, as the form of the reader is fixed, so who asks for a number rules the other cases out.
#[derive(Clone, Copy)]
pub(crate) enum Field<'a> {
    Word(&'a [u8]),
    Number(&'a [u8], u32),
    Run(&'a [u8], u8),
}
