// The list of one year, as month records in a lent row of numbers.
ghost use Rattle.std.specs.Prelude.{◌≡◌, suc, ◌/◌, ◌≤◌, length};
ghost use Rattle.rows.specs.Row.{over};
ghost use Rattle.measure.specs.Units.{last_year};
ghost use Rattle.measure.specs.Epoch.{shoushi};
ghost use Rattle.moons.specs.Lunation.{last_lunation};
ghost use Rattle.month_law.specs.Calendar.{head, months_in};
ghost use Rattle.edition.specs.Edition.{calendar};
ghost use Rattle.months.specs.Span.{span_of};
ghost use Rattle.lists.specs.Records.{record_width, year_room, record_of, records_of};

use edition::{first_day, middle_day};
use months::kinds::{leap_mark, month_number};
use months::{Span, kind_by, last_term};

// How many numbers a record has, and where each stands in it.
pub const RECORD_WIDTH: usize = 4;

pub const FIRST: usize = 0;

pub const LENGTH: usize = 1;

pub const NUMBER: usize = 2;

pub const MARK: usize = 3;

// The list of year n, from its head on: a month is of it where the one after begins no later than the next solstice. The first that is
// not is the next head, which is handed back. The year is a plain number and the row a slice, as this contract is public.
pub fn write_year(n: u64, start: Span, row: &mut [u64]) -> Span
    requires { (n ≤ last_year) × (start ≡ span_of (calendar shoushi) (head (calendar shoushi) n)) × (year_room ≤ length row.old / record_width) }
    ensures value { result ≡ span_of (calendar shoushi) (head (calendar shoushi) (suc n)) }
    ensures writes { row.new ≡ over (records_of (calendar shoushi) n (months_in (calendar shoushi) n)) row.old }
{
    let solstice = middle_day(12 * (n + 1));
    let mut span = start;
    let mut used: usize = 0;
    // No `for` says it: the solstice ends the list, and not a count of months.
    while span.next <= solstice {
        put_span(span, &mut row[used..]);
        span = span_after(span);
        used += RECORD_WIDTH;
    }
    span
}

// The next month: its first day is known, so that each month takes one true new moon.
fn span_after(span: Span) -> Span
    requires { (span ≡ span_of (calendar shoushi) span.lunation) × (span.lunation ≤ last_lunation) }
    ensures { result ≡ span_of (calendar shoushi) (suc span.lunation) }
{
    Span {
        lunation: span.lunation + 1,
        first: span.next,
        next: first_day(span.lunation + 2),
    }
}

// The record of a month: its kind goes by the last middle term before its end.
#[tactic(auto, using(months::proofs::Spans::first_before, edition::proofs::Edition::shoushi_lawful))]
pub fn record_of(span: Span) -> [u64; RECORD_WIDTH]
    requires { (span ≡ span_of (calendar shoushi) span.lunation) × (span.lunation ≤ last_lunation) }
    ensures { result ≡ record_of (calendar shoushi) span.lunation }
{
    let kind = kind_by(span.first, last_term(span.next));
    let mut record = [0; RECORD_WIDTH];
    record[FIRST] = span.first;
    record[LENGTH] = span.next - span.first;
    record[NUMBER] = month_number(kind);
    record[MARK] = leap_mark(kind);
    record
}

// It stands at the row's start.
#[tactic(auto, unfolding(rows::specs::Row::over, crate::specs::Records::record_of, crate::specs::Records::record_at))]
fn put_span(span: Span, row: &mut [u64])
    requires { (span ≡ span_of (calendar shoushi) span.lunation) × (span.lunation ≤ last_lunation) × (record_width ≤ length row.old) }
    ensures { row.new ≡ over (record_of (calendar shoushi) span.lunation) row.old }
{
    row[..RECORD_WIDTH].copy_from_slice(&record_of(span));
}
