//! An allocation's wires, one after another as they lie.
ghost use Rattle.std.specs.Prelude.{◌≡◌, true};
ghost use Rattle.std.specs.Iterator.{YieldsFirst, item_count};
ghost use Rattle.drawing.specs.Lists.{all};
ghost use Rattle.pricing.specs.Allocations.{lay};
ghost use Rattle.pricing.specs.WirePrices.{priceable};

use crate::laid::LaidWire;
use drawing::Wire;

// What is left of an allocation's wires: the space before the next of them, and then a width and a space for each.
#[derive(Drop)]
pub(crate) struct Lays<'a> {
    pub(crate) left: u8,
    pub(crate) wires: &'a [Wire],
    pub(crate) widths: &'a [u8],
    pub(crate) spaces: &'a [u8],
    ghost ready: { all priceable (lay wires.now widths.now left spaces.now) ≡ true },
}

impl<'a> Iterator for Lays<'a> {
    type Item = LaidWire;

    ghost next_gives = { YieldsFirst (λ s. lay s.wires.now s.widths.now s.left s.spaces.now) };

    ghost remaining = { item_count (λ s. lay s.wires.now s.widths.now s.left s.spaces.now) };

    // The next wire, between the space before it and the one behind it.
    fn next(&mut self) -> Option<LaidWire> {
        let (wire, wires) = self.wires.split_first()?;
        let (width, widths) = self.widths.split_first()?;
        let (right, spaces) = self.spaces.split_first()?;
        let laid = LaidWire::new(*wire, self.left, *width, *right);
        *self = Lays {
            left: *right,
            wires,
            widths,
            spaces,
        };
        Some(laid)
    }
}
