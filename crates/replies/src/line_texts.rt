// The line of each answer that is no list: a refusal, a number, a running time, a signed number, a month, a name, an hour, days to add.
#![tactic(auto, unfolding(crate::specs::LineText::item_at, crate::specs::LineText::items_of, crate::specs::LineText::refusal_text, crate::specs::LineText::numbers_text, crate::specs::LineText::days_text, crate::specs::LineText::signed_text, crate::specs::LineText::month_text, crate::specs::LineText::moment_text))]

ghost use Rattle.std.specs.Prelude.{◌≡◌, ◌≤◌, ◌++◌, length, take, drop};
ghost use Rattle.std.specs.Borrow.{sem, Lends, Array, u8};
ghost use Rattle.remainders.specs.Hours.{hour_found};
ghost use Rattle.remainders.specs.ExtraDays.{days_found};
ghost use Rattle.months.specs.Month.{month_said};
ghost use Rattle.texts.specs.Text.{filled, text_room};
ghost use Rattle.replies.specs.LineText.{FillsLine, refusal_text, number_text, name_text, hour_text, days_text, signed_text, month_text, moment_text, line_room};

use measure::Name;
use months::Month;
use remainders::Hour;
use texts::fill;

// The front of a row, with room for one line, so that no contract below asks for it.
pub(crate) type Line = [u8; 16_384];

pub(crate) fn front(row: &mut [u8]) -> &mut Line
    requires { line_room ≤ length row.old }
    ensures value { result.now ≡ take line_room row.old }
    ensures* writes_back { sem 𝓛 (Lends (Array u8 0) (Array u8 0) row.entry result (λ line. line ++ drop line_room row.old)) }
{
    row.first_chunk_mut().unwrap()
}

// A template's line.
#[tactic(auto, using(rows::proofs::Row::over_least))]
pub(crate) fn put(template: &[u8], numbers: &[u64], line: &mut Line) -> usize
    requires { text_room template.now ≤ line_room }
    ensures value { result ≡ length (filled template.now numbers.now) }
    ensures writes { FillsLine (filled template.now numbers.now) line.old line.new }
{
    fill(template, numbers, line)
}

// k is a number, since whoever tells of a refusal has one (`Numbered`).
pub(crate) fn put_refusal(k: u64, line: &mut Line) -> usize
    ensures value { result ≡ length (refusal_text k) }
    ensures writes { FillsLine (refusal_text k) line.old line.new }
{
    put(b"refused %\n", &[k], line)
}

pub(crate) fn put_number(n: u64, line: &mut Line) -> usize
    ensures value { result ≡ length (number_text n) }
    ensures writes { FillsLine (number_text n) line.old line.new }
{
    put(b"%\n", &[n], line)
}

// A running time with its day, its remainder and the day's name.
pub(crate) fn put_moment(t: u64, line: &mut Line) -> usize
    ensures value { result ≡ length (moment_text t) }
    ensures writes { FillsLine (moment_text t) line.old line.new }
{
    let day = measure::day_of(t);
    let name = measure::name_of(day);
    let remainder = measure::remainder_of(t);
    put(b"% % % %\n", &[t, day, remainder, name.name], line)
}

// A negative number has a sign before its magnitude.
pub(crate) fn put_signed(z: i64, line: &mut Line) -> usize
    ensures value { result ≡ length (signed_text z) }
    ensures writes { FillsLine (signed_text z) line.old line.new }
{
    let magnitude = signed::magnitude_of(z);
    if z < 0 {
        put(b"-%\n", &[magnitude], line)
    } else {
        put(b"%\n", &[magnitude], line)
    }
}

// Year, place and day of the month; first day and length; number and leap mark.
pub(crate) fn put_month(m: Month, line: &mut Line) -> usize
    ensures value { result ≡ length (month_text (month_said m)) }
    ensures writes { FillsLine (month_text (month_said m)) line.old line.new }
{
    let kind = m.kind;
    let number = months::kinds::month_number(kind);
    let mark = months::kinds::leap_mark(kind);
    put(
        b"% % % % % % %\n",
        &[m.year, m.place, m.day, m.first, m.length, number, mark],
        line,
    )
}

// A day's name, its stem and its branch.
pub(crate) fn put_name(n: Name, line: &mut Line) -> usize
    ensures value { result ≡ length (name_text n) }
    ensures writes { FillsLine (name_text n) line.old line.new }
{
    put(b"% % %\n", &[n.name, n.stem, n.branch], line)
}

pub(crate) fn put_hour(h: Hour, line: &mut Line) -> usize
    ensures value { result ≡ length (hour_text (hour_found h)) }
    ensures writes { FillsLine (hour_text (hour_found h)) line.old line.new }
{
    put(b"% %\n", &[h.double_hour, h.ke], line)
}

// The days to add, if there are any.
#[tactic(auto, unfolding(crate::specs::LineText::days_text, texts::specs::Text::filled, texts::specs::Text::piece, texts::specs::Text::numbers_taken))]
pub(crate) fn put_days(d: Option<u64>, line: &mut Line) -> usize
    ensures value { result ≡ length (days_text (days_found d)) }
    ensures writes { FillsLine (days_text (days_found d)) line.old line.new }
{
    match d {
        None => put(b"none\n", &[], line),
        Some(n) => put_number(n, line),
    }
}
