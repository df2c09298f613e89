// Opening and changing a bundle.
ghost use Rattle.std.specs.Prelude.{◌≡◌};
ghost use Rattle.drawing.specs.Edits.{bare};
ghost use Rattle.bundle.specs.History.{begun};
ghost use Rattle.bundle.specs.Shown.{viewed, opened_view, Begins, Given, Answers};
ghost use Rattle.bundle.specs.declared.changes.Change.TheVariants.{Make, Undo, Redo};
ghost use Rattle.drawing.specs.declared.words.Edit.TheVariants.{Insert, Remove, Replace, SetGrid, SetChannel};

use crate::bundles::Bundle;
use crate::changes::Change;
use crate::timeline::{MOST_UNDOS, keep};
use drawing::{Drawing, Edit, Grid, Refusal, Wire};
use std::mem::swap;

impl Bundle {
    // A bundle of no wires and no history, or the first of 14, 15 and 16.
    pub fn open(grid: Grid, channel: u32) -> Result<Bundle, Refusal>
        ensures value { viewed result ≡ opened_view grid channel }
        ensures stands { Begins result (begun (bare grid channel)) }
    {
        let drawing = Drawing::open(grid, channel)?;
        Ok(Bundle::of_drawing(drawing))
    }

    // A bundle of a drawing, with no history.
    pub fn of_drawing(drawing: Drawing) -> Bundle
        ensures { Given drawing result }
    {
        Bundle {
            drawing,
            timeline: [drawing; MOST_UNDOS],
            reach: 0,
            undone: 0,
        }
    }

    // Makes a change, or refuses it and leaves the bundle as it was.
    pub fn change(&mut self, change: Change) -> Result<(), Refusal>
        ensures { Answers self.old self.new result change }
    {
        match change {
            Change::Make(edit) => self.edit(edit),
            Change::Undo => self.undo(),
            Change::Redo => self.redo(),
        }
    }

    // Inserts a wire at a place, at most at the end; those from there on move one place to the right.
    pub fn insert(&mut self, place: usize, wire: Wire) -> Result<(), Refusal>
        ensures { Answers self.old self.new result (Make (Insert place wire)) }
    {
        self.edit(Edit::Insert(place, wire))
    }

    // Takes the wire at a place out; those after it move one place to the left.
    pub fn remove(&mut self, place: usize) -> Result<(), Refusal>
        ensures { Answers self.old self.new result (Make (Remove place)) }
    {
        self.edit(Edit::Remove(place))
    }

    // Puts a wire in place of another.
    pub fn replace(&mut self, place: usize, wire: Wire) -> Result<(), Refusal>
        ensures { Answers self.old self.new result (Make (Replace place wire)) }
    {
        self.edit(Edit::Replace(place, wire))
    }

    // Sets the steps that widths and spaces may take.
    pub fn set_grid(&mut self, grid: Grid) -> Result<(), Refusal>
        ensures { Answers self.old self.new result (Make (SetGrid grid)) }
    {
        self.edit(Edit::SetGrid(grid))
    }

    // Sets the width of the channel.
    pub fn set_channel(&mut self, channel: u32) -> Result<(), Refusal>
        ensures { Answers self.old self.new result (Make (SetChannel channel)) }
    {
        self.edit(Edit::SetChannel(channel))
    }

    // Goes back to the drawing before the last standing edit.
    pub fn undo(&mut self) -> Result<(), Refusal>
        ensures { Answers self.old self.new result Undo }
    {
        if self.reach == 0 {
            return Err(Refusal::NothingToUndo);
        }
        self.reach -= 1;
        self.undone += 1;
        let timeline = &mut self.timeline;
        swap(&mut self.drawing, &mut timeline[self.reach]);
        Ok(())
    }

    // Goes on to the drawing after the edit that was undone last.
    pub fn redo(&mut self) -> Result<(), Refusal>
        ensures { Answers self.old self.new result Redo }
    {
        if self.undone == 0 {
            return Err(Refusal::NothingToRedo);
        }
        let timeline = &mut self.timeline;
        swap(&mut self.drawing, &mut timeline[self.reach]);
        self.reach += 1;
        self.undone -= 1;
        Ok(())
    }

    // Makes an edit of the drawing, and if it is not refused keeps the drawing before it.
    fn edit(&mut self, edit: Edit) -> Result<(), Refusal>
        ensures { Answers self.old self.new result (Make edit) }
    {
        let before = self.drawing;
        self.drawing.edit(edit)?;
        self.undone = 0;
        self.reach = keep(&mut self.timeline, self.reach, before);
        Ok(())
    }
}
