// Hexadecimal frames, one a line: where a line ends, digits both ways by their number, the line that asks for a day, and the line of a
// reply.
#![tactic(auto)]

ghost use Rattle.std.specs.Prelude.{◌≡◌, [], ◌∷◌, ◌++◌, ◌+◌, ◌^◌, ◌≤◌, ◌<◌, length, position};
ghost use Rattle.rows.specs.Choice.{◌=?◌};
ghost use Rattle.rows.specs.Reply.{answer_said};
ghost use Rattle.rows.specs.Row.{over};
ghost use Rattle.months.specs.Month.{month_said};
ghost use Rattle.frames.specs.LineEnds.{line_end, line_length, rest_after};
ghost use Rattle.frames.specs.Digits.{digit_byte, digits_of, digit_of, digit_said, number_spelled};
ghost use Rattle.frames.specs.DayLine.{day_digits, day_asked};
ghost use Rattle.frames.specs.MonthLine.{shown, Fits, month_digits, month_line, refusal_line};

use months::Month;
use months::kinds::{leap_mark, month_number};
use rows::Refusal;

pub const LINE_END: u8 = 0x0A;

// How many digits a day has in a line.
pub const DAY_DIGITS: usize = 5;

// How many bytes the first line of the input has: those before the line end, or all.
#[tactic(auto, using(crate::proofs::LineEndLaws::length_found))]
pub fn line_len(input: &[u8]) -> usize
    ensures { result ≡ line_length input.now }
{
    first_line_end(input).unwrap_or(input.len())
}

// Where the first line end stands, if there is one.
fn first_line_end(input: &[u8]) -> Option<usize>
    ensures { result ≡ position (λ b. b =? line_end) input.now }
{
    input.iter().position(|b| *b == LINE_END)
}

// The rest of the input, after a line of n bytes and its line end. It is handed on as it stands.
#[tactic(auto, unfolding(crate::specs::LineEnds::rest_after))]
pub fn rest<'a>(input: &'a [u8], n: usize) -> &'a [u8]
    ensures { result.now ≡ rest_after n input.now }
{
    if n < input.len() {
        &input[n + 1..]
    } else {
        &input[..0]
    }
}

// The day that a line asks for. A line that is not exactly five digits is refused with 5.
#[tactic(auto, unfolding(crate::specs::DayLine::day_asked))]
pub fn day_asked(line: &[u8]) -> Result<u64, Refusal>
    ensures { answer_said result ≡ day_asked day_digits line.now }
{
    if line.len() != DAY_DIGITS {
        return Err(Refusal::BadLine);
    }
    number_spelled(line)
}

// A month's line, with w digits for its day; how many bytes it has. Each field has room in its digits, so that no place is lost.
pub fn put_month_line(m: Month, w: usize, out: &mut [u8]) -> usize
    requires { (month_digits w + 1 ≤ length out.old) × Fits w (shown (month_said m)) }
    ensures value { result ≡ month_digits w + 1 }
    ensures writes { out.new ≡ over (month_line w (shown (month_said m)) ++ (line_end ∷ [])) out.old }
{
    put_month_name(m, out);
    let end = 5 + w;
    put_digits(m.first, &mut out[5..end]);
    let n = end + 2;
    put_digits(m.length, &mut out[end..n]);
    out[n] = LINE_END;
    n + 1
}

// The five digits with which it starts: year, number and leap mark.
fn put_month_name(m: Month, out: &mut [u8])
    requires { (5 ≤ length out.old) × ((shown (month_said m)).year < 16 ^ 3) × ((shown (month_said m)).number < 16 ^ 1) × ((shown (month_said m)).mark < 16 ^ 1) }
    ensures { out.new ≡ over (digits_of 3 (shown (month_said m)).year ++ digits_of 1 (shown (month_said m)).number ++ digits_of 1 (shown (month_said m)).mark) out.old }
{
    let kind = m.kind;
    put_digits(m.year, &mut out[..3]);
    put_digits(month_number(kind), &mut out[3..4]);
    put_digits(leap_mark(kind), &mut out[4..5]);
}

// A refusal's line, whose number is one digit; how many bytes it has. Every digit has its line (`refusal_line`): so k is a number.
pub fn put_refusal_line(k: u64, out: &mut [u8]) -> usize
    requires { (3 ≤ length out.old) × (k < 16 ^ 1) }
    ensures value { result ≡ 3 }
    ensures writes { out.new ≡ over (refusal_line k ++ (line_end ∷ [])) out.old }
{
    put_digits(0xE, &mut out[..1]);
    put_digits(k, &mut out[1..2]);
    out[2] = LINE_END;
    3
}

// A number that has room in the row, as its digits. They are found from the last to the first.
fn put_digits(n: u64, out: &mut [u8])
    requires { n < 16 ^ length out.old }
    ensures { out.new ≡ digits_of (length out.old) n }
{
    let mut high = n;
    for i in (0..out.len()).rev() {
        out[i] = digit_byte(high % 16);
        high /= 16;
    }
}

#[tactic(auto, unfolding(crate::specs::Digits::digit_byte))]
fn digit_byte(v: u64) -> u8
    requires { v < 16 }
    ensures { result ≡ digit_byte v }
{
    let v = v as u8;
    if v < 10 { b'0' + v } else { b'A' + (v - 10) }
}

// The number that digits spell, few enough for 64 bits. A byte that is no digit is refused with 5. The library's digits and numbers of base 16
// may be in small letters too, or signed, and are written in small ones.
fn number_spelled(digits: &[u8]) -> Result<u64, Refusal>
    requires { length digits.now ≤ 15 }
    ensures { answer_said result ≡ number_spelled digits.now }
{
    let mut n: u64 = 0;
    for b in digits {
        n = n * 16 + digit_of(*b).ok_or(Refusal::BadLine)?;
    }
    Ok(n)
}

// What a byte is worth as a digit.
#[tactic(auto, unfolding(crate::specs::Digits::digit_of))]
fn digit_of(b: u8) -> Option<u64>
    ensures { digit_said result ≡ digit_of b }
{
    match b {
        b'0'..=b'9' => Some(u64::from(b - b'0')),
        b'A'..=b'F' => Some(u64::from(b - b'A') + 10),
        _ => None,
    }
}
