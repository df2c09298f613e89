//! An allocation: the widths and spaces of wires, from left to right.
ghost use Rattle.std.specs.Prelude.{◌≡◌, ◌+◌, ◌≤◌, ◌&&◌, ◌==◌, length};
ghost use Rattle.drawing.specs.Lists.{all};
ghost use Rattle.pricing.specs.Allocations.{is_step_of, laid, lay, used_width};
ghost use Rattle.pricing.specs.Lists.{total};
ghost use Rattle.pricing.specs.Ready.{Ready};

use crate::grids::in_grid;
use crate::lays::Lays;
use drawing::{Grid, Wire};
use std::marker::Model;

// Whether all numbers are steps of a grid byte.
fn all_in_grid(byte: u8, chosen: &[u8]) -> bool
    ensures { result ≡ all (is_step_of byte) chosen.now }
{
    chosen.iter().all(|s| in_grid(byte, *s))
}

// The sum of at most 25 numbers.
fn sum_of(chosen: &[u8]) -> u32
    requires { length chosen.now ≤ 25 }
    ensures exact { result ≡ total chosen.now }
    ensures small { result ≤ 6375 }
{
    chosen.iter().map(|s| u32::from(*s)).sum()
}

// Widths and spaces as they are handed in. A lawful one has a width for each wire, and one space more.
#[derive(Drop)]
pub struct Allocation<'a> {
    widths: &'a [u8],
    spaces: &'a [u8],
}

impl<'a> Model for Allocation<'a> {
    ghost use Rattle.pricing.specs.Allocations.{Allocation};

    ghost Value = { Allocation };

    ghost view = { λ x. record { widths = x.widths.now; spaces = x.spaces.now } };
}

impl<'a> Allocation<'a> {
    // An allocation of these widths and spaces.
    pub fn new(widths: &'a [u8], spaces: &'a [u8]) -> Allocation<'a>
        ensures { result ≡ record { widths = widths.entry.now; spaces = spaces.entry.now } }
    {
        Allocation { widths, spaces }
    }

    // Whether every width and every space is a step of a grid.
    pub(crate) fn is_in_grid(&self, grid: Grid) -> bool
        ensures { result ≡ all (is_step_of grid.widths) self.now.widths && all (is_step_of grid.spaces) self.now.spaces }
    {
        all_in_grid(grid.widths, self.widths) && all_in_grid(grid.spaces, self.spaces)
    }

    // Whether there is a width for each of so many wires, and one space more.
    pub(crate) fn is_counted(&self, wires: usize) -> bool
        ensures { result ≡ (length self.now.widths == wires && length self.now.spaces == wires + 1) }
    {
        self.widths.len() == wires && self.spaces.len() == wires + 1
    }

    // All widths and spaces together.
    pub(crate) fn used_width(&self) -> u32
        requires widths { length self.now.widths ≤ 24 }
        requires spaces { length self.now.spaces ≤ 25 }
        ensures { result ≡ used_width self.now }
    {
        sum_of(self.widths) + sum_of(self.spaces)
    }

    // The wires as the allocation lays them.
    // Kept as a clause, here and where the wires are gone over: `Ready` is of two values that were apart until their counts were compared, and
    // are apart again in the reply.
    pub(crate) fn lays(&self, wires: &'a [Wire]) -> Lays<'a>
        requires { Ready wires.now self.now }
        ensures { lay result.wires.now result.widths.now result.left result.spaces.now ≡ laid wires.now self.now }
    {
        Lays {
            left: self.spaces[0],
            wires,
            widths: self.widths,
            spaces: &self.spaces[1..],
        }
    }
}
