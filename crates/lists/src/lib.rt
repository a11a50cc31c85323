// A year's list and a run of years, as month records in a lent row of numbers.
#![tactic(auto)]

pub mod year_rows;

ghost use Rattle.std.specs.Prelude.{◌≡◌, suc, ◌+◌, ◌*◌, ◌/◌, ◌≤◌, length};
ghost use Rattle.rows.specs.Reply.{answer, answer_said};
ghost use Rattle.rows.specs.Row.{over, row_after};
ghost use Rattle.measure.specs.Units.{last_year};
ghost use Rattle.measure.specs.Epoch.{shoushi};
ghost use Rattle.month_law.specs.Calendar.{months_in};
ghost use Rattle.edition.specs.Edition.{calendar};
ghost use Rattle.lists.specs.Records.{record_width, year_room, records_of};
ghost use Rattle.lists.specs.Lists.{run_of, months_in_run, run_asked, list_reply, run_reply};

use crate::year_rows::{RECORD_WIDTH, write_year};
use measure::LAST_YEAR;
use months::head_span;
use rows::Refusal;

// How many records a row needs for each year.
pub const YEAR_ROOM: u64 = 13;

// And how many numbers these are.
pub const YEAR_NUMBERS: usize = YEAR_ROOM as usize * RECORD_WIDTH;

// The records of year n, from the row's start; how many there are. A year past the last is refused with 1, then a row that is too short
// with 4. This contract is of numbers, four to a month; `records` has structs.
#[tactic(auto, using(crate::proofs::Asked::reply_of_one, crate::proofs::Asked::run_of_one))]
pub fn list(n: u64, row: &mut [u64]) -> Result<u64, Refusal>
    ensures value { answer_said result ≡ list_reply shoushi n (length row.old / record_width) }
    ensures writes { row.new ≡ row_after (list_reply shoushi n (length row.old / record_width)) (records_of (calendar shoushi) n (months_in (calendar shoushi) n)) row.old }
{
    run(n, 1, row)
}

// The records of so many years from n on, each list from where the one before it ended; how many there are. A run of no years or past
// the last is refused with 1, then a row that is too short with 4.
pub fn run(n: u64, count: u64, row: &mut [u64]) -> Result<u64, Refusal>
    ensures value { answer_said result ≡ run_reply shoushi n count (length row.old / record_width) }
    ensures writes { row.new ≡ row_after (run_reply shoushi n count (length row.old / record_width)) (run_of (calendar shoushi) n count) row.old }
{
    run_asked(n, count, room(row))?;
    Ok(write_years(n, count, row))
}

// Whether a run is answered where a row has room for so many records: its years, or its refusal.
#[tactic(auto, unfolding(crate::specs::Lists::run_asked))]
pub fn run_asked(n: u64, count: u64, room: u64) -> Result<u64, Refusal>
    ensures { answer_said result ≡ run_asked n count room (answer count) }
{
    if count == 0 || LAST_YEAR < n || LAST_YEAR + 1 - n < count {
        return Err(Refusal::NoYear);
    }
    if room < YEAR_ROOM * count {
        return Err(Refusal::ShortRow);
    }
    Ok(count)
}

// How many records a row has room for.
fn room(row: &[u64]) -> u64
    ensures { result ≡ length row.now / record_width }
{
    (row.len() / RECORD_WIDTH) as u64
}

// Each list is written into the row from where the one before it ended, and hands on the next head, so that only the first is sought.
fn write_years(n: u64, count: u64, row: &mut [u64]) -> u64
    requires { (n + count ≤ suc last_year) × (year_room * count ≤ length row.old / record_width) }
    ensures value { result ≡ months_in_run (calendar shoushi) n count }
    ensures writes { row.new ≡ over (run_of (calendar shoushi) n count) row.old }
{
    let mut start = head_span(n);
    let mut months: u64 = 0;
    for year in n..n + count {
        let used = months as usize * RECORD_WIDTH;
        let end = write_year(year, start, &mut row[used..]);
        months += end.lunation - start.lunation;
        start = end;
    }
    months
}
