ghost use Rattle.std.specs.Prelude.{◌≡◌};
ghost use Rattle.sheets.specs.Faults.{layer_number, call_fault};

use drawing::refusals::Refusal;

// What refused: the reading of a field, the shape of a line, the drawing that the line would give, or a call on the drawing that was read.
#[derive(Debug, Clone, Copy, PartialEq, Eq)]
pub enum Layer {
    Field = 1,
    Line = 2,
    Bundle = 3,
    Call = 4,
}

// Why a sheet is refused, by which layer, and where: the line from 1, and the field from 1 or 0 for the whole line; of a call on the drawing
// that was read, line and field are 0.
// Kept: line and field are the two numbers that are printed, and the field of a whole line, and both of a call, are printed as 0.
#[derive(Clone, Copy, Debug, PartialEq, Eq)]
pub struct Fault {
    pub why: Refusal,
    pub layer: Layer,
    pub line: u32,
    pub field: u32,
}

impl Layer {
    // The number by which a layer is known.
    pub fn number(self) -> u8
        ensures { result ≡ layer_number self }
    {
        self as u8
    }
}

impl From<Layer> for u8 {
    ghost from_gives = { λ layer n. n ≡ layer_number layer };

    // The number by which a layer is known.
    fn from(layer: Layer) -> u8 {
        layer.number()
    }
}

impl From<Refusal> for Fault {
    ghost from_gives = { λ why fault. fault ≡ call_fault why };

    // A refusal of a call on the drawing that was read.
    fn from(why: Refusal) -> Fault {
        Fault {
            why,
            layer: Layer::Call,
            line: 0,
            field: 0,
        }
    }
}
