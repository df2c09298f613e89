// Opening and editing a drawing.
ghost use Rattle.std.specs.Prelude.{◌≡◌, ◌≤◌, length};
ghost use Rattle.drawing.specs.Edits.{opened};
ghost use Rattle.drawing.specs.Shown.{plan_of, planned, Edits};
ghost use Rattle.drawing.specs.declared.words.Edit.TheVariants.{Insert, Remove, Replace, SetGrid, SetChannel};

use crate::drawings::Drawing;
use crate::limits::{MOST_WIRES, bad_channel, bad_grid, too_narrow};
use crate::refusals::{Refusal, refuse_if};
use crate::shift::{put_in, take_out};
use crate::words::{Edit, Grid, Wire};

impl Drawing {
    // A drawing of no wires, or the first refusal.
    pub fn open(grid: Grid, channel: u32) -> Result<Drawing, Refusal>
        ensures { planned result ≡ opened grid channel }
    {
        refuse_if(bad_grid(grid), Refusal::BadGrid)?;
        refuse_if(bad_channel(channel), Refusal::BadChannel)?;
        refuse_if(too_narrow(grid, channel, 0), Refusal::TooNarrow)?;
        Ok(Drawing {
            grid,
            channel,
            wires: [Wire::default(); MOST_WIRES],
            count: 0,
        })
    }

    // Makes an edit, or refuses it and leaves the drawing as it was.
    pub fn edit(&mut self, edit: Edit) -> Result<(), Refusal>
        ensures { Edits self.old self.new result edit }
    {
        match edit {
            Edit::Insert(place, wire) => self.insert(place, wire),
            Edit::Remove(place) => self.remove(place),
            Edit::Replace(place, wire) => self.replace(place, wire),
            Edit::SetGrid(grid) => self.set_grid(grid),
            Edit::SetChannel(channel) => self.set_channel(channel),
        }
    }

    // Inserts a wire at a place, at most at the end; those from there on move one place to the right.
    pub fn insert(&mut self, place: usize, wire: Wire) -> Result<(), Refusal>
        ensures { Edits self.old self.new result (Insert place wire) }
    {
        refuse_if(place > self.count, Refusal::PlaceBeyondEnd)?;
        self.place_wire(place, wire)
    }

    // Adds a wire after the last.
    pub fn append(&mut self, wire: Wire) -> Result<(), Refusal>
        ensures { Edits self.old self.new result (Insert (length (plan_of self.old).wires) wire) }
    {
        self.place_wire(self.count, wire)
    }

    // Inserts a wire at a place that is there.
    fn place_wire(&mut self, place: usize, wire: Wire) -> Result<(), Refusal>
        requires { place ≤ length (plan_of self.old).wires }
        ensures { Edits self.old self.new result (Insert place wire) }
    {
        let above = wire.first_above_limit();
        refuse_if(above.is_some(), Refusal::NumberAboveLimit)?;
        refuse_if(self.count >= MOST_WIRES, Refusal::BundleFull)?;
        let narrow = too_narrow(self.grid, self.channel, self.count + 1);
        refuse_if(narrow, Refusal::TooNarrow)?;
        put_in(&mut self.wires, place, self.count, wire);
        self.count += 1;
        Ok(())
    }

    // Takes the wire at a place out; those after it move one place to the left.
    pub fn remove(&mut self, place: usize) -> Result<(), Refusal>
        ensures { Edits self.old self.new result (Remove place) }
    {
        refuse_if(place >= self.count, Refusal::PlaceBeyondEnd)?;
        take_out(&mut self.wires, place, self.count);
        self.count -= 1;
        Ok(())
    }

    // Puts a wire in place of another.
    pub fn replace(&mut self, place: usize, wire: Wire) -> Result<(), Refusal>
        ensures { Edits self.old self.new result (Replace place wire) }
    {
        refuse_if(place >= self.count, Refusal::PlaceBeyondEnd)?;
        let above = wire.first_above_limit();
        refuse_if(above.is_some(), Refusal::NumberAboveLimit)?;
        self.wires[place] = wire;
        Ok(())
    }

    // Sets the steps that widths and spaces may take.
    pub fn set_grid(&mut self, grid: Grid) -> Result<(), Refusal>
        ensures { Edits self.old self.new result (SetGrid grid) }
    {
        refuse_if(bad_grid(grid), Refusal::BadGrid)?;
        let narrow = too_narrow(grid, self.channel, self.count);
        refuse_if(narrow, Refusal::TooNarrow)?;
        self.grid = grid;
        Ok(())
    }

    // Sets the width of the channel.
    pub fn set_channel(&mut self, channel: u32) -> Result<(), Refusal>
        ensures { Edits self.old self.new result (SetChannel channel) }
    {
        refuse_if(bad_channel(channel), Refusal::BadChannel)?;
        let narrow = too_narrow(self.grid, channel, self.count);
        refuse_if(narrow, Refusal::TooNarrow)?;
        self.channel = channel;
        Ok(())
    }
}
