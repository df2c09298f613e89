//! Wires as they lie between spaces, and what each costs.
ghost use Rattle.std.specs.Prelude.{◌≡◌, ◌<◌, ◌≤◌, true};
ghost use Rattle.pricing.specs.Allocations.{admits_laid};
ghost use Rattle.pricing.specs.WirePrices.{priceable};
ghost use Rattle.pricing.specs.WirePrices.{wire_delay, wire_power};

use drawing::Wire;
use measures::DelayMeasure;
use rules::RuleBook;
use std::marker::Model;

// A wire within its limits as it lies: its width, and the spaces at its sides, all three of them steps.
#[derive(Drop)]
pub struct LaidWire {
    wire: Wire,
    left: u8,
    width: u8,
    right: u8,
}

impl Model for LaidWire {
    ghost use Rattle.std.specs.Prelude.{◌≡◌, true};
    ghost use Rattle.pricing.specs.Allocations.{Laid};
    ghost use Rattle.pricing.specs.WirePrices.{priceable};

    ghost Value = { Laid };

    ghost view = { λ y. record { wire = y.wire; left = y.left; width = y.width; right = y.right } };

    ghost invariant = { λ y. priceable (record { wire = y.wire; left = y.left; width = y.width; right = y.right }) ≡ true };
}

impl LaidWire {
    // A wire of a width between two spaces.
    // Inner: whoever prices hands in wires of a drawing and steps of its grid
    pub fn new(wire: Wire, left: u8, width: u8, right: u8) -> LaidWire
        requires { priceable (record { wire = wire; left = left; width = width; right = right }) ≡ true }
        ensures { result ≡ record { wire = wire; left = left; width = width; right = right } }
    {
        LaidWire {
            wire,
            left,
            width,
            right,
        }
    }

    // Whether a book admits it.
    pub(crate) fn is_admitted<B: RuleBook>(&self, book: &B) -> bool
        ensures { result ≡ admits_laid (B.RuleBook.admits book.now) self.now }
    {
        book.allows(self.left, self.width, self.right)
    }

    // The delay, in 3600ths of the unit of the wire's coefficients.
    pub fn delay(&self) -> u32
        ensures exact { result ≡ wire_delay self.now }
        ensures small { result < 60000000 }
    {
        let width = self.width as u32;
        let per_width = 60 / width;
        let per_space = 60 / (self.left as u32) + 60 / (self.right as u32);
        let own = 3600 * (self.wire.a + self.wire.b * width);
        let narrow = 60 * self.wire.g * per_width;
        let beside = 60 * self.wire.d + self.wire.e * per_width;
        own + narrow + beside * per_space
    }

    // The power, in 60ths of the unit of the wire's coefficients.
    pub fn power(&self) -> u32
        ensures exact { result ≡ wire_power self.now }
        ensures small { result ≤ 480000 }
    {
        let sides = 60 / (self.left as u32) + 60 / (self.right as u32);
        60 * self.wire.k * (self.width as u32) + self.wire.h * sides
    }

    // What its delay is to a measure.
    pub fn value<M: DelayMeasure>(&self, measure: &M) -> M::Value
        ensures { result ≡ M.DelayMeasure.made measure.now (wire_delay self.now) self.now.wire.t }
    {
        measure.make(self.delay(), self.wire.t)
    }
}
