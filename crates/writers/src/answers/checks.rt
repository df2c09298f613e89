// The answer to a sheet: the sheet again, or the line that names its first fault.
ghost use Rattle.std.specs.Prelude.{◌≡◌, ◌≤◌, length, take};
ghost use Rattle.drawing.specs.Shown.{plan_of};
ghost use Rattle.sheets.specs.Texts.{sheet_text, refused_text};
ghost use Rattle.writers.specs.Answers.{answer_bytes, checked_text};

use crate::answers::{Answer, LONGEST};
use crate::line_texts::refused_line;
use crate::whole::write_sheet;
use drawing::drawings::Drawing;
use sheets::faults::Fault;
use sheets::reading::read_sheet;
use text::lines::Line;

// How much of an input is read as a sheet.
pub const READ: usize = 4096;

impl Answer {
    // The bytes to print.
    pub fn text(&self) -> &[u8]
        ensures { result.now ≡ answer_bytes self.now }
    {
        &self.bytes[0..self.len]
    }

    // The text of a drawing's sheet.
    pub fn sheet(drawing: &Drawing) -> Answer
        ensures { answer_bytes result ≡ sheet_text (plan_of drawing.now) }
    {
        let mut bytes = [0; LONGEST];
        let len = write_sheet(drawing, &mut bytes).unwrap();
        Answer { bytes, len }
    }

    // One line.
    pub fn line(line: &Line) -> Answer
        ensures holds { answer_bytes result ≡ line.now }
        ensures most { length line.now ≤ 128 }
    {
        let mut bytes = [0; LONGEST];
        let end = line.add(&mut bytes, 0).unwrap();
        Answer { bytes, len: end }
    }

    // The line that names a fault.
    pub fn refusal(fault: Fault) -> Answer
        ensures { answer_bytes result ≡ refused_text fault }
    {
        Answer::line(&refused_line(fault))
    }
}

// What of an input is read as a sheet.
pub fn sheet_part(input: &[u8]) -> &[u8]
    ensures { result.now ≡ take 4096 input.now }
{
    &input[0..input.len().min(READ)]
}

// The answer to an input whose first 4,096 bytes are read as a sheet: the sheet again, or the line that names its first fault.
pub fn checked(input: &[u8]) -> Answer
    ensures { answer_bytes result ≡ checked_text (take 4096 input.now) }
{
    match read_sheet(sheet_part(input)) {
        Ok(drawing) => Answer::sheet(&drawing),
        Err(fault) => Answer::refusal(fault),
    }
}
