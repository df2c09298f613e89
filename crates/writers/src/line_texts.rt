// The lines of a sheet, each made as a whole.
ghost use Rattle.std.specs.Prelude.{◌≡◌, ◌+◌, ◌*◌, ◌<◌, ◌∷◌, length, map, decimal};
ghost use Rattle.text.specs.Lines.{line_of};
ghost use Rattle.sheets.specs.Texts.{head_text, wire_text, end_text, refused_text};

use drawing::words::{Grid, Wire};
use sheets::faults::Fault;
use text::lines::Line;

// The head line.
pub(crate) fn head_line(grid: Grid, channel: u32) -> Line
    ensures { result ≡ head_text grid channel }
{
    let mut head = Line::new();
    head.word(b"sheet");
    head.number(channel);
    head.run(grid.widths);
    head.run(grid.spaces);
    head.close();
    head
}

// A line of a word and numbers.
// Inner: who makes a line knows that it fits
pub fn numbers_line(word: &[u8], numbers: &[u32]) -> Line
    requires { length word.now + 11 * length numbers.now < 128 }
    ensures { result ≡ line_of (word.now ∷ map decimal numbers.now) }
{
    let mut line = Line::new();
    line.word(word);
    for n in numbers {
        line.number(*n);
    }
    line.close();
    line
}

// The line of a wire.
pub(crate) fn wire_line(wire: &Wire) -> Line
    ensures { result ≡ wire_text wire.now }
{
    let numbers = [
        wire.a, wire.b, wire.g, wire.d, wire.e, wire.k, wire.h, wire.t,
    ];
    numbers_line(b"wire", &numbers)
}

// The end line behind `count` wire lines.
pub(crate) fn end_line(count: u32) -> Line
    ensures { result ≡ end_text count }
{
    numbers_line(b"end", &[count])
}

// The line that names a fault.
pub(crate) fn refused_line(fault: Fault) -> Line
    ensures { result ≡ refused_text fault }
{
    let numbers = [
        u32::from(fault.why.number()),
        u32::from(fault.layer.number()),
        fault.line,
        fault.field,
    ];
    numbers_line(b"refused", &numbers)
}
