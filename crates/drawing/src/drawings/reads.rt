// Reading a drawing.
ghost use Rattle.std.specs.Prelude.{◌≡◌};
ghost use Rattle.drawing.specs.Shown.{plan_of};

use crate::drawings::Drawing;
use crate::words::{Grid, Wire};

impl Drawing {
    // The steps that widths and spaces may take.
    pub fn grid(&self) -> Grid
        ensures { result ≡ (plan_of self.now).grid }
    {
        self.grid
    }

    // The width of the channel.
    pub fn channel(&self) -> u32
        ensures { result ≡ (plan_of self.now).channel }
    {
        self.channel
    }

    // The wires from left to right.
    pub fn wires(&self) -> &[Wire]
        ensures { result.now ≡ (plan_of self.now).wires }
    {
        &self.wires[..self.count]
    }
}
