ghost use Rattle.std.specs.Prelude.{◌≡◌, ◌+◌, ◌<◌, ◌≤◌, [], ◌∷◌, ◌++◌, length, Some, None, decimal};
ghost use Rattle.text.specs.Lines.{placed};
ghost use Rattle.text.specs.Runs.{run_text};

use arrayvec::ArrayVec;
use itoa::Buffer;
use std::marker::Model;

// One line while it is made, of 128 bytes at the most.
#[derive(Drop)]
pub struct Line {
    bytes: ArrayVec<u8, 128>,
}

// A line is its bytes so far.
impl Model for Line {
    ghost use Rattle.std.specs.Prelude.{ℕ, List};

    ghost Value = { List ℕ };

    ghost view = { λ l. l.bytes.items };
}

impl Line {
    // A line that holds nothing.
    pub fn new() -> Line
        ensures { result ≡ [] }
    {
        Line {
            bytes: ArrayVec::new(),
        }
    }

    // Adds bytes.
    // Inner: the writers of lines know that theirs fit.
    pub fn word(&mut self, s: &[u8])
        requires { length self.old + length s.now ≤ 128 }
        ensures { self.new ≡ self.old ++ s.now }
    {
        self.bytes.try_extend_from_slice(s).unwrap();
    }

    // Adds a comma and the decimal of n.
    // Inner: the writers of lines know that theirs fit.
    pub fn number(&mut self, n: u32)
        requires { length self.old + 11 ≤ 128 }
        ensures text { self.new ≡ self.old ++ (44 ∷ decimal n) }
        ensures most { length self.new ≤ length self.old + 11 }
    {
        self.bytes.push(b',');
        if n < 100 {
            self.few_digits(n);
        } else {
            self.word(Buffer::new().format(n).as_bytes());
        }
    }

    // Adds the decimal of a number below 100, which needs no buffer.
    fn few_digits(&mut self, n: u32)
        requires small { n < 100 }
        requires room { length self.old + 2 ≤ 128 }
        ensures text { self.new ≡ self.old ++ decimal n }
        ensures most { length self.new ≤ length self.old + 2 }
    {
        if n < 10 {
            self.bytes.push(b'0' + n as u8);
            return;
        }
        self.bytes.push(b'0' + (n / 10) as u8);
        self.bytes.push(b'0' + (n % 10) as u8);
    }

    // Adds a comma and the rising digits of the steps 1 to 6 that are in the set.
    // Inner: the writers of lines know that theirs fit.
    pub fn run(&mut self, set: u8)
        requires { length self.old + 7 ≤ 128 }
        ensures text { self.new ≡ self.old ++ (44 ∷ run_text set) }
        ensures most { length self.new ≤ length self.old + 7 }
    {
        self.bytes.push(b',');
        let mut rest = set;
        for digit in b'1'..=b'6' {
            if rest % 2 == 1 {
                self.bytes.push(digit);
            }
            rest /= 2;
        }
    }

    // Adds the line end.
    // Inner: the writers of lines know that theirs fit.
    pub fn close(&mut self)
        requires { length self.old < 128 }
        ensures { self.new ≡ self.old ++ (10 ∷ []) }
    {
        self.bytes.push(b'\n');
    }

    // What the line holds so far.
    pub fn text(&self) -> &[u8]
        ensures holds { result.now ≡ self.now }
        ensures most { length self.now ≤ 128 }
    {
        self.bytes.as_slice()
    }

    // Puts the whole line at `at` and answers where it ends, or does nothing where it does not fit.
    pub fn add(&self, text: &mut [u8], at: usize) -> Option<usize>
        ensures cases { elim result [ Some n ↦ (n ≡ at + length self.now) × (n ≤ length text.old) × (text.new ≡ placed text.old at self.now) | None ↦ (length text.old < at + length self.now) × (text.new ≡ text.old) ] }
        ensures most { length self.now ≤ 128 }
    {
        let bytes = self.text();
        let end = at.checked_add(bytes.len())?;
        if end > text.len() {
            return None;
        }
        text[at..end].copy_from_slice(bytes);
        Some(end)
    }
}
