// The head of a year and a day's month.
#![tactic(auto)]

pub mod dates;
pub mod kinds;

ghost use Rattle.std.specs.Prelude.{◌≡◌, suc, ◌+◌, ◌-◌, ◌*◌, ◌/◌, ◌≤◌, ◌<◌};
ghost use Rattle.rows.specs.Reply.{answer_said};
ghost use Rattle.measure.specs.Units.{last_year};
ghost use Rattle.measure.specs.Epoch.{shoushi};
ghost use Rattle.month_law.specs.Calendar.{month_of, head};
ghost use Rattle.edition.specs.Edition.{middle_day, calendar};
ghost use Rattle.months.specs.Head.{head_reply};
ghost use Rattle.months.specs.Kind.{kind_said};
ghost use Rattle.months.specs.Month.{earliest, latest, month_of_day, day_reply, month_said, month_answer_said};
ghost use Rattle.months.specs.Span.{span_of, kind_by, LastBefore};

use crate::kinds::Kind;
use edition::{MIDDLE_STEP, first_day, middle_day};
use measure::{DAY, LAST_YEAR, MONTH, SOLSTICE_EPOCH};
use moons::MEAN_START;
use rows::Refusal;

// The month of a day: places count from 0, days of a month from 1.
#[derive(Clone, Copy)]
pub struct Month {
    pub kind: Kind,
    pub year: u64,
    pub place: u64,
    pub day: u64,
    pub first: u64,
    pub length: u64,
}

const EARLIEST: u64 = 35;

const LATEST: u64 = 365_268;

// The lunation that heads year n. A year past the last is refused with 1.
#[tactic(auto, unfolding(crate::specs::Head::head_reply))]
pub fn head(n: u64) -> Result<u64, Refusal>
    ensures { answer_said result ≡ head_reply shoushi n }
{
    if LAST_YEAR < n {
        return Err(Refusal::NoYear);
    }
    Ok(head_of(n))
}

// The month in which a day lies. A day outside the calendar is refused with 3.
#[tactic(auto, unfolding(crate::specs::Month::day_reply))]
pub fn month_of(d: u64) -> Result<Month, Refusal>
    ensures { month_answer_said result ≡ day_reply shoushi d }
{
    if d < EARLIEST || LATEST < d {
        return Err(Refusal::NoDay);
    }
    Ok(month_in(span_of(d), d))
}

// A month by its lunation, with its first day and that of the next. `span_of` makes one of any calendar: so the clauses say of whose, and no
// field does.
#[derive(Clone, Copy)]
pub struct Span {
    pub lunation: u64,
    pub first: u64,
    pub next: u64,
}

// The month of day d. A true new moon is never as far as two days from its mean, so the lunation of the mean new moon before the
// day is the month's, or the one before or after it.
fn span_of(d: u64) -> Span
    requires { (earliest ≤ d) × (d ≤ latest + 30) }
    ensures { result ≡ span_of (calendar shoushi) (month_of (calendar shoushi) d) }
{
    let mean = (d * DAY - MEAN_START) / MONTH;
    let first = first_day(mean);
    if d < first {
        return Span {
            lunation: mean - 1,
            first: first_day(mean - 1),
            next: first,
        };
    }
    let next = first_day(mean + 1);
    if d < next {
        return Span {
            lunation: mean,
            first,
            next,
        };
    }
    Span {
        lunation: mean + 1,
        first: next,
        next: first_day(mean + 2),
    }
}

// The last middle term before a day.
#[tactic(auto, using(edition::proofs::Edition::middle_day_lem))]
pub fn last_term(next: u64) -> u64
    requires { (middle_day shoushi 0 < next) × (next ≤ latest + 60) }
    ensures { LastBefore (calendar shoushi) next result }
{
    (next * DAY - 1 - SOLSTICE_EPOCH) / MIDDLE_STEP
}

// The lunation that heads year n, a plain number, as this contract is public.
pub fn head_of(n: u64) -> u64
    requires { n ≤ suc last_year }
    ensures { result ≡ head (calendar shoushi) n }
{
    head_span(n).lunation
}

// The head of year n with its days. The year is a plain number here too.
#[tactic(auto, using(month_law::proofs::Months::head_is, crate::proofs::Reach::solstice_least, crate::proofs::Reach::solstice_most))]
pub fn head_span(n: u64) -> Span
    requires { n ≤ suc last_year }
    ensures { result ≡ span_of (calendar shoushi) (head (calendar shoushi) n) }
{
    span_of(middle_day(12 * n))
}

// A month by the day on which it begins and the last middle term before its end: it has that term's number, and is leap where that
// term lies before it.
#[tactic(auto, using(month_law::proofs::Numbers::rank_number))]
pub fn kind_by(first: u64, last: u64) -> Kind
    requires { last ≤ 12 * last_year + 24 }
    ensures { kind_said result ≡ kind_by (calendar shoushi) first last }
{
    let number = (last + 10) % 12 + 1;
    if middle_day(last) < first {
        Kind::Leap(number)
    } else {
        Kind::Ordinary(number)
    }
}

// The month of a span, with a day in it.
fn month_in(span: Span, d: u64) -> Month
    requires { (earliest ≤ d) × (d ≤ latest) × (span ≡ span_of (calendar shoushi) (month_of (calendar shoushi) d)) }
    ensures { month_said result ≡ month_of_day (calendar shoushi) d }
{
    let first = span.first;
    let next = span.next;
    let last = last_term(next);
    let year = last / 12;
    let kind = kind_by(first, last);
    Month {
        kind,
        year,
        place: span.lunation - head_of(year),
        day: d - first + 1,
        first,
        length: next - first,
    }
}
