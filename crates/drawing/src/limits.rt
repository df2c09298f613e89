// The tests of a grid, of a channel, and of whether wires fit.
ghost use Rattle.std.specs.Prelude.{◌≡◌, ◌≤◌, false};
ghost use Rattle.drawing.specs.Plans.{bad_byte, bad_grid, bad_channel, least_width, too_narrow};
ghost use Rattle.drawing.specs.Steps.{smallest};

use crate::words::Grid;

// How many wires a drawing has at the most.
pub const MOST_WIRES: usize = 24;

// The byte is no set of steps from 1 to 6.
fn bad_byte(byte: u8) -> bool
    ensures { result ≡ bad_byte byte }
{
    !(1..=63).contains(&byte)
}

// A byte of the grid is no set of steps from 1 to 6.
pub fn bad_grid(grid: Grid) -> bool
    ensures { result ≡ bad_grid grid }
{
    bad_byte(grid.widths) || bad_byte(grid.spaces)
}

// The channel is not from 1 to 300.
pub fn bad_channel(channel: u32) -> bool
    ensures { result ≡ bad_channel channel }
{
    !(1..=300).contains(&channel)
}

// The smallest step that the byte allows.
fn smallest_step(byte: u8) -> usize
    requires { bad_byte byte ≡ false }
    ensures value { result ≡ smallest byte }
    ensures small { result ≤ 6 }
{
    byte.trailing_zeros() as usize + 1
}

// The width that `count` wires take up at the least.
fn least_width(grid: Grid, count: usize) -> usize
    requires gridded { bad_grid grid ≡ false }
    requires few { count ≤ 25 }
    ensures { result ≡ least_width grid count }
{
    let width = smallest_step(grid.widths);
    let space = smallest_step(grid.spaces);
    count * width + (count + 1) * space
}

// Whether `count` wires do not fit the channel at their least width.
// Inner: the writer of sheets judges the least width by the same test
pub fn too_narrow(grid: Grid, channel: u32, count: usize) -> bool
    requires gridded { bad_grid grid ≡ false }
    requires few { count ≤ 25 }
    ensures { result ≡ too_narrow grid channel count }
{
    (channel as usize) < least_width(grid, count)
}
