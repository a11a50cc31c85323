// Texts with holes: each % of a template stands for the next number, in decimal.
#![tactic(auto)]

ghost use Rattle.std.specs.Prelude.{◌≡◌, ◌≤◌, length};
ghost use Rattle.rows.specs.Reply.{answer_said};
ghost use Rattle.rows.specs.Row.{over, row_after};
ghost use Rattle.texts.specs.Text.{decimal, filled, most_digits, text_room, text_reply};

use itoa::Buffer;
use rows::Refusal;

pub const HOLE: u8 = b'%';

// How many digits a number has at most.
pub const MOST_DIGITS: usize = 20;

// The template with its numbers, from the row's start; how many bytes it has. A hole for which no number is left takes 0. A row with
// less than 20 bytes for each byte of the template is refused with 4.
#[tactic(auto, unfolding(crate::specs::Text::text_reply))]
pub fn write_text(template: &[u8], numbers: &[u64], row: &mut [u8]) -> Result<u64, Refusal>
    ensures value { answer_said result ≡ text_reply template.now numbers.now (length row.old) }
    ensures writes { row.new ≡ row_after (text_reply template.now numbers.now (length row.old)) (filled template.now numbers.now) row.old }
{
    if row.len() / MOST_DIGITS < template.len() {
        return Err(Refusal::ShortRow);
    }
    Ok(fill(template, numbers, row) as u64)
}

// The same, for a caller whose row has the room. The row is lent and counted by hand: with no heap a text is no String.
#[tactic(auto, using(rows::proofs::Row::over_is, crate::proofs::TextLaws::filled_none))]
#[inline]
pub fn fill(template: &[u8], numbers: &[u64], row: &mut [u8]) -> usize
    requires { text_room template.now ≤ length row.old }
    ensures value { result ≡ length (filled template.now numbers.now) }
    ensures writes { row.new ≡ over (filled template.now numbers.now) row.old }
{
    let mut used: usize = 0;
    let mut left = numbers.iter();
    for &b in template {
        if b == HOLE {
            used += put_number(left.next().copied().unwrap_or(0), &mut row[used..]);
        } else {
            row[used] = b;
            used += 1;
        }
    }
    used
}

// A number in decimal.
#[tactic(auto, using(crate::proofs::DecimalLaws::decimal_written, rows::proofs::Row::over_is))]
#[inline(never)]
fn put_number(n: u64, row: &mut [u8]) -> usize
    requires { most_digits ≤ length row.old }
    ensures within { result ≤ most_digits }
    ensures value { result ≡ length (decimal n) }
    ensures writes { row.new ≡ over (decimal n) row.old }
{
    let mut buffer = Buffer::new();
    let digits = buffer.format(n).as_bytes();
    row[..digits.len()].copy_from_slice(digits);
    digits.len()
}
