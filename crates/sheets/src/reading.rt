ghost use Rattle.std.specs.Prelude.{◌≡◌, ◌+◌, ◌≤◌, false, [], length, is_ok, IfOk, OnOk};
ghost use Rattle.drawing.specs.Shown.{plan_of, planned};
ghost use Rattle.text.specs.Cuts.{cut_first, cut_rest, line_count};
ghost use Rattle.sheets.specs.Faults.{head_field, wire_field, bundle_fault};
ghost use Rattle.sheets.specs.Reads.{head_line, body_line, read_body, read_sheet, ended, or_placed, inserted_last};
ghost use Rattle.sheets.specs.Trips.{Exactly, RunsAreSteps};
ghost use Rattle.sheets.specs.Places.{past, PastLine};
ghost use Rattle.sheets.specs.Walks.{wire_front, head_front, going_on};

use crate::faults::{Fault, Layer};
use crate::reader::Reader;
use drawing::drawings::Drawing;
use drawing::refusals::Refusal;
use drawing::words::{Grid, Wire};
use text::fields::is_word;

// What a line after the head says: a wire, or the end with its count of wires.
#[derive(Clone, Copy)]
pub(crate) enum Body {
    AWire(Wire),
    TheEnd(u32),
}

// The field of a head that a refusal names, or 0 for the whole line.
fn head_field_of(why: Refusal) -> u32
    ensures { result ≡ head_field why }
{
    match why {
        Refusal::BadChannel => 2,
        _ => 0,
    }
}

// The field of a wire line that a refusal names, or 0 for the whole line.
fn wire_field_of(wire: &Wire, why: Refusal) -> u32
    ensures { result ≡ wire_field wire.now why }
{
    match why {
        Refusal::NumberAboveLimit => wire.first_above_limit().unwrap_or(0) as u32 + 2,
        _ => 0,
    }
}

impl<'a> Reader<'a> {
    // The channel and the grid of a head, past its word.
    fn head_fields(&mut self) -> Result<(u32, Grid), Fault>
        ensures answer { result ≡ head_front self.old.line self.old.left }
        ensures stands { OnOk result (self.new ≡ past 3 self.old) }
    {
        let channel = self.next_number(2)?;
        let widths = self.next_run(3)?;
        let spaces = self.next_run(4)?;
        Ok((channel, Grid { widths, spaces }))
    }

    // The eight numbers of a wire, past its word.
    fn wire_fields(&mut self) -> Result<Wire, Fault>
        ensures answer { result ≡ wire_front self.old.line self.old.left }
        ensures stands { OnOk result (self.new ≡ past 8 self.old) }
    {
        Ok(Wire {
            a: self.next_number(2)?,
            b: self.next_number(3)?,
            g: self.next_number(4)?,
            d: self.next_number(5)?,
            e: self.next_number(6)?,
            k: self.next_number(7)?,
            h: self.next_number(8)?,
            t: self.next_number(9)?,
        })
    }

    // The head line and the drawing that it opens; the reader then stands at the line after it, and its line number is still that of the
    // head.
    fn head(&mut self) -> Result<Drawing, Fault>
        requires { self.old.line ≡ 1 }
        ensures answer { planned result ≡ head_line (line_count self.old.left) (cut_first 10 self.old.left) }
        ensures stands { OnOk result (PastLine self.old self.new) }
        ensures wireless { IfOk result (λ d. (plan_of d).wires ≡ []) }
    {
        let count = self.fields_in_line();
        let word = self.next_word();
        if !is_word(word, b"sheet") {
            return Err(self.fault(Refusal::WordNotDue, Layer::Line, 1));
        }
        if count != Some(4) {
            return Err(self.fault(Refusal::BadLine, Layer::Line, 0));
        }
        let (channel, grid) = self.head_fields()?;
        // Kept: of a closure that holds the reader and calls `fault` nothing is known, so it holds the line number.
        let line = self.line();
        Drawing::open(grid, channel).map_err(|why| Fault {
            why,
            layer: Layer::Bundle,
            line,
            field: head_field_of(why),
        })
    }

    // A line after the head; the reader then stands at the line after it, and its line number is still that of the line read.
    fn body_line(&mut self) -> Result<Body, Fault>
        ensures answer { result ≡ body_line self.old.line (line_count self.old.left) (cut_first 10 self.old.left) }
        ensures stands { OnOk result (PastLine self.old self.new) }
    {
        let count = self.fields_in_line();
        let word = self.next_word();
        if is_word(word, b"wire") {
            if count != Some(9) {
                return Err(self.fault(Refusal::BadLine, Layer::Line, 0));
            }
            return Ok(Body::AWire(self.wire_fields()?));
        }
        if is_word(word, b"end") {
            if count != Some(2) {
                return Err(self.fault(Refusal::BadLine, Layer::Line, 0));
            }
            return Ok(Body::TheEnd(self.next_number(2)?));
        }
        Err(self.fault(Refusal::WordNotDue, Layer::Line, 1))
    }

    // Adds a wire at the end of a drawing, or says where the line is at fault.
    fn take_wire(&self, drawing: &mut Drawing, wire: Wire) -> Result<(), Fault>
        ensures answer { going_on result (plan_of drawing.new) ≡ or_placed (inserted_last (plan_of drawing.old) wire) (λ why. bundle_fault self.now.line why (wire_field wire why)) }
        ensures refused { is_ok result ≡ false → drawing.new ≡ drawing.old }
    {
        // Kept: of a closure that holds the reader and calls `fault` nothing is known, so it holds the line number.
        let line = self.line();
        drawing.append(wire).map_err(|why| Fault {
            why,
            layer: Layer::Bundle,
            line,
            field: wire_field_of(&wire, why),
        })
    }

    // The end line's count has to be that of the wires, and nothing may follow.
    fn finish(&self, drawing: &Drawing, count: u32) -> Result<(), Fault>
        requires { self.now.line ≤ 26 }
        ensures { going_on result (plan_of drawing.now) ≡ ended self.now.line (plan_of drawing.now) count (cut_first 10 self.now.left) (cut_rest 10 self.now.left) }
    {
        if count as usize != drawing.wires().len() {
            return Err(self.fault(Refusal::WrongEndCount, Layer::Line, 0));
        }
        if !self.is_at_end() {
            let here = self.fault(Refusal::WordNotDue, Layer::Line, 1);
            return Err(Fault {
                line: here.line + 1,
                ..here
            });
        }
        Ok(())
    }

    // The lines after the head, onto the drawing that it opened.
    fn body(&mut self, opened: Drawing) -> Result<Drawing, Fault>
        requires { self.old.line ≡ length (plan_of opened).wires + 2 }
        ensures { planned result ≡ read_body self.old.line (plan_of opened) (cut_first 10 self.old.left) (cut_rest 10 self.old.left) }
    {
        let mut drawing = opened;
        'lines: loop {
            match self.body_line()? {
                Body::AWire(wire) => {
                    self.take_wire(&mut drawing, wire)?;
                    self.count_line();
                }
                Body::TheEnd(count) => {
                    self.finish(&drawing, count)?;
                    return Ok(drawing);
                }
            }
        }
    }
}

// Reads a whole sheet: the drawing that opening and inserts at its end make, or the sheet's first fault. Exactly the sheets that
// drawings write are accepted.
pub fn read_sheet(bytes: &[u8]) -> Result<Drawing, Fault>
    ensures answer { planned result ≡ read_sheet bytes.now }
    ensures exactly { Exactly result bytes.now }
{
    let mut reader = Reader::over(bytes);
    let drawing = reader.head()?;
    reader.count_line();
    reader.body(drawing)
}

// What a run of digits says of the grid: its digits are the steps that the grid's byte allows.
pub fn runs_are_steps()
    ensures { RunsAreSteps }
{}
