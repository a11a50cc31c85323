// The functions of `viewer`, exported to C: viewer/viewer.h declares them.
#![tactic(auto)]

ghost use Rattle.std.specs.Prelude.{◌≡◌};
ghost use Rattle.measure.specs.Epoch.{shoushi};
ghost use Rattle.rows.specs.Row.{row_after};
ghost use Rattle.month_law.specs.Calendar.{months_in};
ghost use Rattle.edition.specs.Edition.{calendar};
ghost use Rattle.months.specs.Month.{day_reply};
ghost use Rattle.lists.specs.Records.{records_of};
ghost use Rattle.lists.specs.Lists.{list_reply};
ghost use Rattle.viewer.specs.Bytes.{low_first_bytes};
ghost use Rattle.viewer.specs.Room.{room_in};
ghost use Rattle.viewer.specs.Told.{day_told, count_told};

use viewer::{Count, Day};

// The month in which a day lies. A day outside the calendar is refused with 3.
#[unsafe(no_mangle)]
pub extern "C" fn lengadriu_day(d: u64) -> Day
    ensures { result ≡ day_told (day_reply shoushi d) }
{
    viewer::lengadriu_day(d)
}

// The records of year n as bytes, from the row's start; how many there are. A year past the last is refused with 1, then a row without
// room for 13 records with 4.
#[unsafe(no_mangle)]
pub extern "C" fn lengadriu_year(row: &mut [u8], n: u64) -> Count
    ensures value { result ≡ count_told (list_reply shoushi n (room_in row.old)) }
    ensures writes { row.new ≡ row_after (list_reply shoushi n (room_in row.old)) (low_first_bytes (records_of (calendar shoushi) n (months_in (calendar shoushi) n))) row.old }
{
    viewer::lengadriu_year(row, n)
}
