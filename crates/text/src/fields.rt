ghost use Rattle.std.specs.Prelude.{◌≡◌, ◌<◌, ◌≤◌, ◌↔◌, true, min, length, take, IsSome};
ghost use Rattle.std.specs.Option.{unwrap_or};
ghost use Rattle.std.specs.Str.{bytes_eq};
ghost use Rattle.text.specs.Cuts.{cut_first, line_count};
ghost use Rattle.text.specs.Numbers.{all_digits, spelled_after, number_in};
ghost use Rattle.text.specs.Runs.{set_in, run_in};

use memchr::{memchr, memchr_iter};

// Whether every byte is a decimal digit.
pub fn all_digits(part: &[u8]) -> bool
    ensures { result ≡ all_digits part.now }
{
    part.iter().all(|b| b.is_ascii_digit())
}

// The number that at most 8 digits spell.
fn spelled(digits: &[u8]) -> u32
    requires digits { all_digits digits.now ≡ true }
    requires few { length digits.now ≤ 8 }
    ensures { result ≡ spelled_after 0 digits.now }
{
    digits.iter().fold(0u32, |n, c| {
        n.wrapping_mul(10)
            .wrapping_add(u32::from(c.saturating_sub(b'0')))
    })
}

// The number that a field is: 1 to 8 digits, with no leading nought but in 0 itself.
pub fn number_in(part: &[u8]) -> Option<u32>
    ensures { result ≡ number_in part.now }
{
    if part.is_empty() || part.len() > 8 || (part[0] == b'0' && part.len() > 1) {
        return None;
    }
    if !all_digits(part) {
        return None;
    }
    Some(spelled(part))
}

// The set of steps that a field is: strictly rising digits 1 to `top`, and 8 at most; none is the empty set.
pub fn set_in(top: u8, part: &[u8]) -> Option<u8>
    ensures { result ≡ set_in (min top 8) part.now }
{
    let last = top.min(8);
    let mut low: u8 = 0;
    let mut steps: u8 = 0;
    for b in part {
        if !(b'1' + low..=b'0' + last).contains(b) {
            return None;
        }
        low = *b - b'0';
        steps += 1 << (low - 1);
    }
    Some(steps)
}

// The set of steps that a field is: 1 to 6 strictly rising digits 1 to 6.
pub fn run_in(part: &[u8]) -> Option<u8>
    ensures { result ≡ run_in part.now }
{
    if part.is_empty() {
        return None;
    }
    set_in(6, part)
}

// How long the field at the front is: up to a comma, a line end or the end.
pub fn field_len(bytes: &[u8]) -> usize
    ensures len { result ≡ length (cut_first 44 (cut_first 10 bytes.now)) }
    ensures part { take result bytes.now ≡ cut_first 44 (cut_first 10 bytes.now) }
    ensures within { result ≤ length bytes.now }
{
    bytes
        .iter()
        .position(|b| *b == b',' || *b == b'\n')
        .unwrap_or(bytes.len())
}

// How many fields the line at the front has, or none where it lacks its line end.
pub fn fields_in_line(bytes: &[u8]) -> Option<usize>
    ensures count { unwrap_or result 0 ≡ line_count bytes.now }
    ensures ended { IsSome result ↔ (0 < line_count bytes.now) }
{
    let end = memchr(b'\n', bytes)?;
    Some(memchr_iter(b',', &bytes[..end]).count() + 1)
}

// Whether a field is this word.
pub fn is_word(part: &[u8], word: &[u8]) -> bool
    ensures { result ≡ bytes_eq part.now word.now }
{
    part == word
}
