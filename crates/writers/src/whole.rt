// A whole sheet written at once.
ghost use Rattle.std.specs.Prelude.{◌≡◌, ◌≤◌, length, replicate, if◌then◌else◌};
ghost use Rattle.std.specs.List.{flat_map};
ghost use Rattle.drawing.specs.Shown.{plan_of};
ghost use Rattle.sheets.specs.Trips.{ReadsBack};
ghost use Rattle.sheets.specs.Texts.{wire_text, sheet_text};
ghost use Rattle.writers.specs.Puts.{Puts};
ghost use Rattle.writers.specs.Writes.{whole_reply, whole_left};

use crate::line_texts::{end_line, head_line, wire_line};
use drawing::drawings::Drawing;
use drawing::refusals::Refusal;
use drawing::words::Wire;

// A guard of the buffer while a sheet is written: it leaves the buffer noughted, unless the writing was done.
// Kept: it is dropped on every way out, so it has to know by itself whether the writing was done.
struct Draft<'a> {
    text: &'a mut [u8],
    done: bool,
}

impl Drop for Draft<'_> {
    // Fills the buffer with noughts, unless the writing was done.
    fn drop(self)
        ensures { self.exit.0.now ≡ (if self.entry.done then self.entry.text.now else replicate (length self.entry.text.now) 0) }
    {
        if !self.done {
            self.text.fill(0);
        }
        let Draft { text: _, done: _ } = self;
    }
}

// Puts the line of each wire behind the first `at` bytes, and answers where they end; or stops where one does not fit.
fn put_wires(wires: &[Wire], text: &mut [u8], at: usize) -> Option<usize>
    requires { at ≤ length text.old }
    ensures { Puts result (flat_map wire_text wires.now) at text.old text.new }
{
    let mut end = at;
    for wire in wires {
        end = wire_line(wire).add(text, end)?;
    }
    Some(end)
}

// Puts a head, the wires and an end at the front, and answers where they end; or stops where one does not fit.
fn put_sheet(drawing: &Drawing, text: &mut [u8]) -> Option<usize>
    ensures { Puts result (sheet_text (plan_of drawing.now)) 0 text.old text.new }
{
    let wires = drawing.wires();
    let head = head_line(drawing.grid(), drawing.channel()).add(text, 0)?;
    let body = put_wires(wires, text, head)?;
    end_line(wires.len() as u32).add(text, body)
}

// Writes the whole sheet of a drawing at the front of the buffer and answers its length; or refuses, and leaves noughts. What is written is
// read as the same drawing.
pub fn write_sheet(drawing: &Drawing, text: &mut [u8]) -> Result<usize, Refusal>
    ensures reply { result ≡ whole_reply (sheet_text (plan_of drawing.now)) (length text.old) }
    ensures holds { text.new ≡ whole_left (sheet_text (plan_of drawing.now)) text.old }
    ensures back { ReadsBack (plan_of drawing.now) }
{
    let mut draft = Draft { text, done: false };
    let len = put_sheet(drawing, draft.text).ok_or(Refusal::TextTooShort)?;
    draft.done = true;
    Ok(len)
}
