//! Whether any allocation is lawful, found with six numbers: for each last space the least used width of a partial allocation.
ghost use Rattle.std.specs.Prelude.{◌≡◌, ◌≤◌, Bool, true, not, length, is_some};
ghost use Rattle.std.specs.List.{list_any};
ghost use Rattle.drawing.specs.Shown.{plan_of};
ghost use Rattle.pricing.specs.Allocations.{Allocation, lawful};
ghost use Rattle.frontier.specs.Points.{lawful_allocations};
ghost use Rattle.frontier.specs.Refusals.{none_of};
ghost use Rattle.solver.specs.Least.{LeastWidth, Behind, Into, FirstAt, First, PushedAt, Pushed};

use crate::options::first_of_two;
use drawing::{Drawing, Grid};
use pricing::in_grid;
use rules::RuleBook;
use std::array;

// What a wire more is put in by: the book, the grid and the room of a drawing.
#[derive(Drop)]
struct Setting<'a, B> {
    book: &'a B,
    grid: Grid,
    channel: u32,
}

impl<'a, B: RuleBook> Setting<'a, B> {
    // The least width that the book allows between two spaces, if it allows one.
    fn least_width(&self, left: u8, right: u8) -> Option<u8>
        ensures { LeastWidth (B.RuleBook.admits self.now.book.now) self.now.grid.widths left right result }
    {
        (1..7u8).find(|w| in_grid(self.grid.widths, *w) && self.book.allows(left, *w, right))
    }

    // The used width after one wire more behind a space, if one fits.
    fn used_behind(&self, before: Option<u32>, left: u8, right: u8) -> Option<u32>
        ensures { Behind (B.RuleBook.admits self.now.book.now) self.now.grid.widths self.now.channel before left right result }
    {
        let channel = self.channel;
        let width = self.least_width(left, right)?;
        let used = before?.checked_add(u32::from(width) + u32::from(right))?;
        if used <= channel { Some(used) } else { None }
    }

    // The least used width that ends in the space `right` after one wire more, if one fits.
    fn least_into(&self, row: &[Option<u32>; 6], right: u8) -> Option<u32>
        ensures { Into (B.RuleBook.admits self.now.book.now) self.now.grid.widths self.now.channel row.now right (length row.now) result }
    {
        let mut least = None;
        for (i, before) in row.iter().enumerate() {
            let used = self.used_behind(*before, i as u8 + 1, right);
            least = first_of_two(least, used, |x, y| x <= y);
        }
        least
    }

    // The least used width with a last space after one wire more, if the grid has the space and a wire fits.
    fn next_used(&self, row: &[Option<u32>; 6], space: u8) -> Option<u32>
        ensures { PushedAt (B.RuleBook.admits self.now.book.now) self.now.grid self.now.channel row.now space result }
    {
        if in_grid(self.grid.spaces, space) {
            self.least_into(row, space)
        } else {
            None
        }
    }

    // The row of one wire more.
    fn push_row(&self, row: &[Option<u32>; 6]) -> [Option<u32>; 6]
        ensures { Pushed (B.RuleBook.admits self.now.book.now) self.now.grid self.now.channel row.now result }
    {
        array::from_fn(|i| self.next_used(row, i as u8 + 1))
    }
}

// The used width of no wires with a first space, if the channel has room for it.
fn first_used(spaces: u8, channel: u32, space: u8) -> Option<u32>
    ensures { FirstAt spaces channel space result }
{
    if in_grid(spaces, space) && u32::from(space) <= channel {
        Some(u32::from(space))
    } else {
        None
    }
}

// The row of no wires.
fn first_row(spaces: u8, channel: u32) -> [Option<u32>; 6]
    ensures { First spaces channel result }
{
    array::from_fn(|i| first_used(spaces, channel, i as u8 + 1))
}

// Whether some place of a row has a used width.
fn some_fits(row: &[Option<u32>; 6]) -> bool
    ensures { result ≡ list_any is_some row.now }
{
    row.iter().any(|used| used.is_some())
}

// Whether some allocation is lawful, whatever its widths and spaces.
// Inner: solve joins this with the other parts
pub fn fits<B: RuleBook>(drawing: &Drawing, book: &B) -> bool
    ensures exact { result ≡ not (none_of (lawful_allocations (B.RuleBook.admits book.now) (plan_of drawing.now))) }
    ensures found { result ≡ true → (x : Allocation) × (lawful (B.RuleBook.admits book.now) (plan_of drawing.now) x ≡ true) }
    ensures each { (x : Allocation) → lawful (B.RuleBook.admits book.now) (plan_of drawing.now) x ≡ true → result ≡ true }
{
    let grid = drawing.grid();
    let channel = drawing.channel();
    let setting = Setting {
        book,
        grid,
        channel,
    };
    let mut row = first_row(grid.spaces, channel);
    'rows: for _ in drawing.wires() {
        row = setting.push_row(&row);
    }
    some_fits(&row)
}
