// A drawing, with what holds of every drawing.
ghost use Rattle.std.specs.Prelude.{◌≡◌, ◌≤◌, true, false, length, take};
ghost use Rattle.drawing.specs.Lists.{all};
ghost use Rattle.drawing.specs.Plans.{within_limits, bad_grid, bad_channel, too_narrow};

use crate::limits::MOST_WIRES;
use crate::words::{Grid, Wire};

pub mod edits;
pub mod reads;

// The grid, the channel and the wires: the first `count` of the places.
// Kept: a drawing is `Copy` and takes no heap, so its wires are an array with their count beside it.
// Kept: no model, since a refused edit leaves a drawing equal to what it was, and a model would only say that it shows the same.
#[derive(Clone, Copy)]
pub struct Drawing {
    grid: Grid,
    channel: u32,
    wires: [Wire; MOST_WIRES],
    count: usize,
    ghost whole: { length wires ≡ 24 },
    ghost within: { count ≤ 24 },
    ghost gridded: { bad_grid grid ≡ false },
    ghost channelled: { bad_channel channel ≡ false },
    ghost limited: { all within_limits (take count wires) ≡ true },
    ghost fitting: { too_narrow grid channel (length (take count wires)) ≡ false },
}
