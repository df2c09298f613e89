// A sheet written line by line: a head, the wires and an end. Each call takes the sheet as it stands and gives it back one line longer, or
// refuses the line and gives it back as it was.
ghost use Rattle.std.specs.Prelude.{◌≡◌, ◌+◌, length};
ghost use Rattle.text.specs.Lines.{placed};
ghost use Rattle.writers.specs.Puts.{empty_reply, empty_lines, ended_len};
ghost use Rattle.sheets.specs.Texts.{head_text, wire_text, end_text};
ghost use Rattle.writers.specs.Writes.{head_reasons, wire_reasons, end_reasons, Adds};

use crate::line_texts::{end_line, head_line, wire_line};
use crate::states::{Ended, Headed, Refused, Unheaded};
use drawing::limits::{MOST_WIRES, bad_channel, bad_grid, too_narrow};
use drawing::refusals::Refusal;
use drawing::words::{Grid, Wire};

// Kept: the tests of a drawing's opening and edits stand here again, since a refused line hands the sheet back, which their `?` would not.

impl Unheaded {
    // A sheet at the front of a buffer.
    pub fn begin() -> Unheaded
        ensures { result.len ≡ 0 }
    {
        Unheaded { len: 0 }
    }

    // Adds the head line.
    pub fn head(
        self,
        text: &mut [u8],
        grid: Grid,
        channel: u32,
    ) -> Result<Headed, Refused<Unheaded>>
        ensures { Adds (head_reasons grid channel self.len (length text.old)) result self (λ h. (h.len ≡ self.len + length (head_text grid channel)) × (h.grid ≡ grid) × (h.channel ≡ channel) × (h.count ≡ 0)) (head_text grid channel) self.len text.old text.new }
    {
        if bad_grid(grid) {
            return Err(Refused::new(self, Refusal::BadGrid));
        }
        if bad_channel(channel) {
            return Err(Refused::new(self, Refusal::BadChannel));
        }
        if too_narrow(grid, channel, 0) {
            return Err(Refused::new(self, Refusal::TooNarrow));
        }
        let Some(len) = head_line(grid, channel).add(text, self.len) else {
            return Err(Refused::new(self, Refusal::TextTooShort));
        };
        Ok(Headed {
            len,
            grid,
            channel,
            count: 0,
        })
    }
}

impl Headed {
    // Adds the line of a wire.
    pub fn wire(self, text: &mut [u8], wire: &Wire) -> Result<Headed, Refused<Headed>>
        ensures { Adds (wire_reasons self.grid self.channel self.count wire.now self.len (length text.old)) result self (λ h. (h.len ≡ self.len + length (wire_text wire.now)) × (h.grid ≡ self.grid) × (h.channel ≡ self.channel) × (h.count ≡ self.count + 1)) (wire_text wire.now) self.len text.old text.new }
    {
        if wire.first_above_limit().is_some() {
            return Err(Refused::new(self, Refusal::NumberAboveLimit));
        }
        if self.count >= MOST_WIRES {
            return Err(Refused::new(self, Refusal::BundleFull));
        }
        if too_narrow(self.grid, self.channel, self.count + 1) {
            return Err(Refused::new(self, Refusal::TooNarrow));
        }
        let Some(len) = wire_line(wire).add(text, self.len) else {
            return Err(Refused::new(self, Refusal::TextTooShort));
        };
        Ok(Headed {
            len,
            grid: self.grid,
            channel: self.channel,
            count: self.count + 1,
        })
    }

    // Adds the end line.
    pub fn end(self, text: &mut [u8]) -> Result<Ended, Refused<Headed>>
        ensures { Adds (end_reasons self.count self.len (length text.old)) result self (λ e. e.len ≡ self.len + length (end_text self.count)) (end_text self.count) self.len text.old text.new }
    {
        let Some(len) = end_line(self.count as u32).add(text, self.len) else {
            return Err(Refused::new(self, Refusal::TextTooShort));
        };
        Ok(Ended { len })
    }

    // How many bytes the text has so far.
    pub fn len(&self) -> usize
        ensures { result ≡ self.now.len }
    {
        self.len
    }
}

impl Ended {
    // How many bytes the whole text has.
    pub fn len(&self) -> usize
        ensures { result ≡ self.now.len }
    {
        let Ended { len } = self;
        *len
    }
}

// Writes a sheet of no wires, line by line.
pub fn write_empty(text: &mut [u8], grid: Grid, channel: u32) -> Result<Ended, Refusal>
    ensures reply { ended_len result ≡ empty_reply grid channel (length text.old) }
    ensures holds { text.new ≡ placed text.old 0 (empty_lines grid channel (length text.old)) }
{
    let begun = Unheaded::begin();
    let headed = begun.head(text, grid, channel)?;
    let ended = headed.end(text)?;
    Ok(ended)
}
