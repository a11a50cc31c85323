// The way back: from a year, a place in its list and a day of that month to the running day.
ghost use Rattle.std.specs.Prelude.{◌≡◌};
ghost use Rattle.rows.specs.Reply.{answer_said};
ghost use Rattle.measure.specs.Epoch.{shoushi};
ghost use Rattle.months.specs.Month.{month_answer_said};
ghost use Rattle.months.specs.Date.{back_reply, has_date};

use crate::{Month, head_of, month_of};
use edition::first_day;
use measure::LAST_YEAR;
use rows::Refusal;

const MOST_MONTHS: u64 = 13;

const MOST_DAYS: u64 = 30;

// The running day of day m of the month at place p of year n. After the year, a place that its list does not have, or a
// day that the month does not have, is refused with 2. The day that these would give must be found again under them.
pub fn day_at(n: u64, p: u64, m: u64) -> Result<u64, Refusal>
    ensures { answer_said result ≡ back_reply shoushi n p m }
{
    if LAST_YEAR < n {
        return Err(Refusal::NoYear);
    }
    if MOST_MONTHS <= p || m == 0 || MOST_DAYS < m {
        return Err(Refusal::Outside);
    }
    let d = first_day(head_of(n) + p) + (m - 1);
    if has_date(month_of(d), n, p, m) {
        Ok(d)
    } else {
        Err(Refusal::Outside)
    }
}

// Whether a reply about a day gives it this year, place and day of the month.
fn has_date(reply: Result<Month, Refusal>, n: u64, p: u64, m: u64) -> bool
    ensures { result ≡ has_date (month_answer_said reply) n p m }
{
    let Ok(month) = reply else {
        return false;
    };
    month.year == n && month.place == p && month.day == m
}
