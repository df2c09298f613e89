// A bundle, with what holds of every bundle.
ghost use Rattle.std.specs.Prelude.{◌≡◌, ◌+◌, ◌≤◌, map, length};
ghost use Rattle.drawing.specs.Shown.{plan_of};
ghost use Rattle.bundle.specs.Views.{view_of};
ghost use Rattle.bundle.specs.Stands.{LedTo};

use crate::timeline::MOST_UNDOS;
use drawing::Drawing;

pub mod edits;
pub mod reads;

// A drawing and its timeline: the first `reach` places have the drawings that undo goes back to, the latest last, and the next
// `undone` places those that redo goes on to, the nearest first. Calls from an opened drawing led to every bundle.
// Kept: a bundle takes no heap, and both sides of its history share the 64 places, so that an undo or a redo swaps one drawing and moves the
// mark between them.
// Kept: no model, since a refused change leaves a bundle equal to what it was, and a model would only say that it shows the same.
#[derive(Drop)]
pub struct Bundle {
    drawing: Drawing,
    timeline: [Drawing; MOST_UNDOS],
    reach: usize,
    undone: usize,
    ghost whole: { length timeline ≡ 64 },
    ghost within: { reach + undone ≤ 64 },
    ghost led: { ∥ LedTo (view_of (plan_of drawing) (map plan_of timeline) reach undone) ∥₁ },
}
