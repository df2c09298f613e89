ghost use Rattle.std.specs.Prelude.{◌≡◌, ℕ, ◌+◌, ◌<◌, ◌^◌, ◌==◌, ◌↔◌, List, [], length, Option, IsSome, Some};
ghost use Rattle.std.specs.Option.{unwrap_or, option_map};
ghost use Rattle.text.specs.Cuts.{field_of, line_count};
ghost use Rattle.text.specs.Numbers.{number_in};
ghost use Rattle.text.specs.Runs.{run_in};
ghost use Rattle.sheets.specs.Faults.{field_fault};
ghost use Rattle.sheets.specs.Places.{past};
ghost use Rattle.sheets.specs.Reads.{or_fault};
ghost use Rattle.sheets.specs.Walks.{number_front, run_front};

use crate::faults::{Fault, Layer};
use crate::reader::{Field, Reader};
use drawing::refusals::Refusal;
use text::fields::{field_len, number_in, run_in};

impl<'a> Field<'a> {
    // The part as a word.
    fn word(part: &'a [u8]) -> Option<Field<'a>>
        ensures { result ≡ Some (Field.Word part.entry) }
    {
        Some(Field::Word(part))
    }

    // The part as a number, if it is one.
    fn number(part: &'a [u8]) -> Option<Field<'a>>
        ensures { result ≡ option_map (λ n. Field.Number part.entry n) (number_in part.now) }
    {
        number_in(part).map(|n| Field::Number(part, n))
    }

    // The part as a run of steps, if it is one.
    // Kept beside `number`, and `next_run` beside `next_number`: each names a case of its own, and what they have in common is `next_field`.
    fn run(part: &'a [u8]) -> Option<Field<'a>>
        ensures { result ≡ option_map (λ n. Field.Run part.entry n) (run_in part.now) }
    {
        run_in(part).map(|n| Field::Run(part, n))
    }
}

impl<'a> Reader<'a> {
    // Stands at the front of a sheet.
    pub(crate) fn over(bytes: &'a [u8]) -> Reader<'a>
        ensures { result ≡ record { line = 1; left = bytes.now } }
    {
        Reader {
            bytes,
            line: 1,
            at: 0,
        }
    }

    // Whether no byte is left.
    pub(crate) fn is_at_end(&self) -> bool
        ensures { result ≡ (length self.now.left == 0) }
    {
        self.at == self.bytes.len()
    }

    // The number of the line that is read.
    pub(crate) fn line(&self) -> u32
        ensures { result ≡ self.now.line }
    {
        self.line
    }

    // Counts one line more.
    pub(crate) fn count_line(&mut self)
        requires { self.old.line + 1 < 2 ^ 32 }
        ensures { self.new ≡ record { line = self.old.line + 1; left = self.old.left } }
    {
        self.line += 1;
    }

    // A refusal of the line that is read, by its layer and at a field.
    pub(crate) fn fault(&self, why: Refusal, layer: Layer, field: u32) -> Fault
        ensures { result ≡ record { why = why; layer = layer; line = self.now.line; field = field } }
    {
        Fault {
            why,
            layer,
            line: self.line,
            field,
        }
    }

    // The bytes of the field that the reader stands at; it then stands past them and past the comma or the line end that ends them.
    fn next_part(&mut self) -> &'a [u8]
        ensures part { result.now ≡ field_of self.old.left }
        ensures stands { self.new ≡ past 1 self.old }
    {
        let from = self.at;
        let end = from + field_len(&self.bytes[from..]);
        self.at = if end < self.bytes.len() { end + 1 } else { end };
        &self.bytes[from..end]
    }

    // The field that the reader stands at, if it is what is due; accepted or refused, the reader then stands past it and past the byte
    // that ends it.
    fn next_field<F: FnOnce(&'a [u8]) -> Option<Field<'a>>>(
        &mut self,
        place: u32,
        read: F,
    ) -> Result<Field<'a>, Fault>
        requires { F.IsAlwaysCallable read }
        ensures answer { (part : _) × (due : Option Field) × (part.now ≡ field_of self.old.left) × F.post read part due × (result ≡ or_fault due (field_fault self.old.line place)) }
        ensures stands { self.new ≡ past 1 self.old }
    {
        let part = self.next_part();
        read(part).ok_or(self.fault(Refusal::BadField, Layer::Field, place))
    }

    // A word.
    pub(crate) fn next_word(&mut self) -> &'a [u8]
        ensures word { result.now ≡ field_of self.old.left }
        ensures stands { self.new ≡ past 1 self.old }
    {
        let Ok(Field::Word(part)) = self.next_field(1, Field::word) else {
            unreachable()
        };
        part
    }

    // A number, or the fault of its field.
    pub(crate) fn next_number(&mut self, place: u32) -> Result<u32, Fault>
        ensures answer { result ≡ number_front self.old.line place self.old.left }
        ensures stands { self.new ≡ past 1 self.old }
    {
        let Field::Number(_, n) = self.next_field(place, Field::number)? else {
            unreachable()
        };
        Ok(n)
    }

    // A run of steps, or the fault of its field.
    pub(crate) fn next_run(&mut self, place: u32) -> Result<u8, Fault>
        ensures answer { result ≡ run_front self.old.line place self.old.left }
        ensures stands { self.new ≡ past 1 self.old }
    {
        let Field::Run(_, n) = self.next_field(place, Field::run)? else {
            unreachable()
        };
        Ok(n)
    }

    // How many fields the line that the reader stands at has, or none where it lacks its line end.
    pub(crate) fn fields_in_line(&self) -> Option<usize>
        ensures count { unwrap_or result 0 ≡ line_count self.now.left }
        ensures ended { IsSome result ↔ (0 < line_count self.now.left) }
    {
        text::fields::fields_in_line(&self.bytes[self.at..])
    }
}
