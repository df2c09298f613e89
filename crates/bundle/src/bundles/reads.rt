// Reading a bundle.
ghost use Rattle.std.specs.Prelude.{◌≡◌, length};
ghost use Rattle.drawing.specs.Shown.{plan_of};
ghost use Rattle.bundle.specs.History.{history_plan};
ghost use Rattle.bundle.specs.Stands.{OfHistory};
ghost use Rattle.bundle.specs.Shown.{view};

use crate::bundles::Bundle;
use drawing::{Drawing, Wire};

impl Bundle {
    // The drawing as it stands.
    pub fn drawing(&self) -> &Drawing
        ensures value { result.now ≡ self.now.drawing }
        ensures history { OfHistory (view self.now) (λ h. plan_of result.now ≡ history_plan h) }
    {
        &self.drawing
    }

    // The wires from left to right.
    pub fn wires(&self) -> &[Wire]
        ensures value { result.now ≡ (plan_of self.now.drawing).wires }
        ensures history { OfHistory (view self.now) (λ h. result.now ≡ (history_plan h).wires) }
    {
        self.drawing.wires()
    }

    // How many undos are accepted in a row.
    pub fn undos_left(&self) -> usize
        ensures value { result ≡ length (view self.now).earlier }
        ensures history { OfHistory (view self.now) (λ h. result ≡ h.reach) }
    {
        self.reach
    }

    // How many redos are accepted in a row.
    pub fn redos_left(&self) -> usize
        ensures value { result ≡ length (view self.now).later }
        ensures history { OfHistory (view self.now) (λ h. result ≡ length h.undone) }
    {
        self.undone
    }
}
