// A year's list and a run of years, as month records in a lent row of structs.
#![tactic(auto)]

ghost use Rattle.std.specs.Prelude.{◌≡◌, ◌≤◌, length};
ghost use Rattle.rows.specs.Reply.{answer_said};
ghost use Rattle.rows.specs.Row.{row_after};
ghost use Rattle.measure.specs.Epoch.{shoushi};
ghost use Rattle.moons.specs.Lunation.{last_lunation};
ghost use Rattle.month_law.specs.Calendar.{months_in};
ghost use Rattle.edition.specs.Edition.{calendar};
ghost use Rattle.lists.specs.Records.{record_of, records_of};
ghost use Rattle.lists.specs.Lists.{run_of, list_reply, run_reply};
ghost use Rattle.records.specs.MonthRecords.{record_in, in_records};

use edition::first_day;
use lists::year_rows::RECORD_WIDTH;
use months::{Span, head_of};
use rows::Refusal;

// A month's record as a struct. The leap mark is 1 or 0: these are the four numbers of `record_at`.
#[derive(Clone, Copy)]
pub struct MonthRecord {
    pub first: u64,
    pub length: u64,
    pub number: u64,
    pub leap: u64,
}

impl From<[u64; RECORD_WIDTH]> for MonthRecord {
    ghost from_gives = { λ numbers month. month ≡ record_in numbers };

    #[tactic(auto, unfolding(crate::specs::MonthRecords::record_in))]
    fn from(numbers: [u64; RECORD_WIDTH]) -> Self {
        let [first, length, number, leap] = numbers;
        MonthRecord {
            first,
            length,
            number,
            leap,
        }
    }
}

// The records of year n from the row's start; how many there are. A year past the last is refused with 1, then a row that is too short
// with 4.
#[tactic(auto, using(lists::proofs::Asked::reply_of_one, lists::proofs::Asked::run_of_one))]
pub fn year_records(n: u64, row: &mut [MonthRecord]) -> Result<u64, Refusal>
    ensures { (answer_said result ≡ list_reply shoushi n (length row.old))
        × (row.new ≡ row_after (list_reply shoushi n (length row.old)) (in_records (records_of (calendar shoushi) n (months_in (calendar shoushi) n))) row.old) }
{
    run_records(n, 1, row)
}

// The records of so many years from n on, each list from where the one before it ended, so that they are those of the months from the
// first head on; how many there are. No years, a first year past the last or a run past it are refused with 1, then a row that is too
// short with 4.
// A month at a time: `lists::run` writes a year at a time, as a sheet asks it too, so neither is the other with its type changed.
pub fn run_records(n: u64, count: u64, row: &mut [MonthRecord]) -> Result<u64, Refusal>
    ensures { (answer_said result ≡ run_reply shoushi n count (length row.old))
        × (row.new ≡ row_after (run_reply shoushi n count (length row.old)) (in_records (run_of (calendar shoushi) n count)) row.old) }
{
    lists::run_asked(n, count, row.len() as u64)?;
    let start = head_of(n);
    let months = head_of(n + count) - start;
    for (i, slot) in row[..months as usize].iter_mut().enumerate() {
        *slot = record_of(start + i as u64);
    }
    Ok(months)
}

// The record of month l.
fn record_of(l: u64) -> MonthRecord
    requires { l ≤ last_lunation }
    ensures { result ≡ record_in (record_of (calendar shoushi) l) }
{
    let span = Span {
        lunation: l,
        first: first_day(l),
        next: first_day(l + 1),
    };
    MonthRecord::from(lists::year_rows::record_of(span))
}
