// What the viewer calls: the month of a day, and the list of a year as bytes.
#![tactic(auto)]

mod record_bytes;

ghost use Rattle.std.specs.Prelude.{◌≡◌, ◌<◌};
ghost use Rattle.measure.specs.Epoch.{shoushi};
ghost use Rattle.rows.specs.Reply.{answer, refused, number_of};
ghost use Rattle.rows.specs.Row.{row_after};
ghost use Rattle.month_law.specs.Calendar.{months_in};
ghost use Rattle.edition.specs.Edition.{calendar};
ghost use Rattle.months.specs.Month.{day_reply, month_said};
ghost use Rattle.lists.specs.Records.{records_of};
ghost use Rattle.lists.specs.Lists.{list_reply};
ghost use Rattle.viewer.specs.Bytes.{low_first_bytes};
ghost use Rattle.viewer.specs.Room.{room_in};
ghost use Rattle.viewer.specs.Told.{FitsDay, day_told, count_told};

use crate::record_bytes::{NUMBER_BYTES, put_numbers};
use lists::year_rows::RECORD_WIDTH;
use lists::{YEAR_NUMBERS, YEAR_ROOM};
use months::Month;
use rows::Refusal;

// A reply about a day. In a month, refused is 0; a refusal has its number there and 0 in every other field. No month has length 0.
// The viewer, which reads it, is in C: there the flag stands beside the month.
#[repr(C)]
#[derive(Clone, Copy, Default)]
pub struct Day {
    pub first: u32,
    pub year: u16,
    pub place: u8,
    pub day: u8,
    pub length: u8,
    pub number: u8,
    pub leap: u8,
    pub refused: u8,
}

// How many records were written. Where the question is refused, its number stands in refused and no record was written. It is read in C too.
#[repr(C)]
#[derive(Clone, Copy, Default)]
pub struct Count {
    pub refused: u32,
    pub records: u32,
}

// The month in which a day lies. A day outside the calendar is refused with 3.
pub fn lengadriu_day(d: u64) -> Day
    ensures { result ≡ day_told (day_reply shoushi d) }
{
    match months::month_of(d) {
        Ok(m) => month_told(m),
        Err(r) => Day::from(r),
    }
}

// The records of year n as bytes, from the row's start; how many there are. A year past the last is refused with 1, then a row without
// room for 13 records with 4.
#[tactic(auto, using(crate::proofs::YearReply::count_most, crate::proofs::YearReply::numbers_long, crate::proofs::YearReply::year_refused))]
pub fn lengadriu_year(row: &mut [u8], n: u64) -> Count
    ensures value { result ≡ count_told (list_reply shoushi n (room_in row.old)) }
    ensures writes { row.new ≡ row_after (list_reply shoushi n (room_in row.old)) (low_first_bytes (records_of (calendar shoushi) n (months_in (calendar shoushi) n))) row.old }
{
    let mut numbers = [0u64; YEAR_NUMBERS];
    match lists::list(n, &mut numbers) {
        Ok(records) => {
            if row.len() / RECORD_BYTES < YEAR_ROOM as usize {
                return Count::from(Refusal::ShortRow);
            }
            put_numbers(&numbers[..records as usize * RECORD_WIDTH], row);
            Count {
                refused: 0,
                records: records as u32,
            }
        }
        Err(r) => Count::from(r),
    }
}

const RECORD_BYTES: usize = RECORD_WIDTH * NUMBER_BYTES;

// Its numbers are shown to fit, which a `From` cannot ask.
fn month_told(m: Month) -> Day
    requires { FitsDay (month_said m) }
    ensures { result ≡ day_told (answer (month_said m)) }
{
    let kind = m.kind;
    Day {
        first: m.first as u32,
        year: m.year as u16,
        place: m.place as u8,
        day: m.day as u8,
        length: m.length as u8,
        number: months::kinds::month_number(kind) as u8,
        leap: months::kinds::leap_mark(kind) as u8,
        refused: 0,
    }
}

// A refusal's number, and 0 in every other field.
impl From<Refusal> for Day {
    ghost from_gives = { λ r told. told ≡ day_told (refused (number_of r)) };

    fn from(r: Refusal) -> Day {
        Day {
            refused: r as u8,
            ..Day::default()
        }
    }
}

impl From<Refusal> for Count {
    ghost from_gives = { λ r told. told ≡ count_told (refused (number_of r)) };

    fn from(r: Refusal) -> Count {
        Count {
            refused: r as u32,
            ..Count::default()
        }
    }
}
