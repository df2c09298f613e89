// Why a call is refused.
ghost use Rattle.std.specs.Prelude.{◌≡◌, true, false, MatchResult};
ghost use Rattle.drawing.specs.Numbers.{number_of};

// Why a call is refused: each case has its number.
#[derive(Debug, Clone, Copy, PartialEq, Eq, Hash)]
pub enum Refusal {
    // The place is past the last wire, or for an insertion past the end.
    PlaceBeyondEnd = 11,
    // A number of the wire is above its limit.
    NumberAboveLimit = 12,
    // There are 24 wires already.
    BundleFull = 13,
    // A byte of the grid is no set of steps from 1 to 6.
    BadGrid = 14,
    // The channel is not from 1 to 300.
    BadChannel = 15,
    // The wires do not fit the channel at their least width.
    TooNarrow = 16,
    // No edit is in reach of undo.
    NothingToUndo = 17,
    // There is no undone edit to make again.
    NothingToRedo = 18,
    // A solve of no wires.
    NoWires = 19,
    // The widths are not one for each wire, or the spaces not one more.
    WrongCount = 21,
    // A width or a space is no step of the grid.
    StepOutsideGrid = 22,
    // The rule book bars a wire's left space, width and right space.
    TripleBarred = 23,
    // The widths and spaces together are wider than the channel.
    AboveChannel = 24,
    // The kept states of all stages outnumber the state slots.
    TooFewStates = 31,
    // The curve has more points than the point table or the strip has room for.
    TooFewPoints = 32,
    // A text buffer is too short.
    TextTooShort = 33,
    // No allocation is lawful.
    NothingFits = 41,
    // A field of a sheet is no number of 1 to 8 digits, or no run of rising digits 1 to 6, where one is due.
    BadField = 51,
    // A line of a sheet has the wrong count of fields, or lacks its line end.
    BadLine = 52,
    // The first field of a line is no word that is due there, a due line is missing, or bytes follow the end line.
    WordNotDue = 53,
    // The count of a sheet's end line is not the number of its wires.
    WrongEndCount = 54,
}

impl Refusal {
    // The number by which the refusal is known.
    pub fn number(self) -> u8
        ensures { result ≡ number_of self }
    {
        self as u8
    }
}

impl From<Refusal> for u8 {
    ghost from_gives = { λ why r. r ≡ number_of why };

    // The number by which the refusal is known.
    fn from(why: Refusal) -> u8 {
        why.number()
    }
}

// Refuses where the test says yes.
pub(crate) fn refuse_if(test: bool, why: Refusal) -> Result<(), Refusal>
    ensures { MatchResult result (λ _. test ≡ false) (λ given. (test ≡ true) × (given ≡ why)) }
{
    if test { Err(why) } else { Ok(()) }
}
