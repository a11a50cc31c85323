// What a remainder tells: the double-hour and the ke, and extra and vanishing days.
#![tactic(auto)]

ghost use Rattle.std.specs.Prelude.{◌≡◌};
ghost use Rattle.remainders.specs.Hours.{hour_reply, hour_said};
ghost use Rattle.remainders.specs.ExtraDays.{extra_reply, vanishing_reply, days_said};

use measure::{DAY, FEN, MONTH, TERM_STEP};
use rows::Refusal;

// A double-hour, with the whole ke in it.
#[derive(Clone, Copy, Debug, PartialEq, Eq)]
pub struct Hour {
    pub double_hour: u64,
    pub ke: u64,
}

const KE: u64 = 1_200 * FEN;

// The double-hour and the ke of a remainder. A day or more is outside.
#[tactic(auto, unfolding(crate::specs::Hours::hour_reply, crate::specs::Hours::double_hour, crate::specs::Hours::ke))]
pub fn double_hour(remainder: u64) -> Result<Hour, Refusal>
    ensures { hour_said result ≡ hour_reply remainder }
{
    if DAY <= remainder {
        return Err(Refusal::Outside);
    }
    let twelfths = remainder * 12;
    Ok(Hour {
        double_hour: twelfths / DAY,
        ke: twelfths % DAY / KE,
    })
}

const EXTRA_LIMIT: u64 = DAY - TERM_EXCESS;

const TERM_EXCESS: u64 = TERM_STEP - 15 * DAY;

const MONTH_DEFICIT: u64 = 30 * DAY - MONTH;

// How many days after its term an extra day falls, if there is one, where the term has this remainder. A day or more is outside.
#[tactic(auto, unfolding(crate::specs::ExtraDays::extra_reply, crate::specs::ExtraDays::extra_day))]
pub fn extra_day(remainder: u64) -> Result<Option<u64>, Refusal>
    ensures { days_said result ≡ extra_reply remainder }
{
    if DAY <= remainder {
        return Err(Refusal::Outside);
    }
    if remainder < EXTRA_LIMIT {
        return Ok(None);
    }
    Ok(Some((TERM_STEP - 15 * remainder) / TERM_EXCESS))
}

// And how many days after its mean new moon a vanishing day falls.
#[tactic(auto, unfolding(crate::specs::ExtraDays::vanishing_reply, crate::specs::ExtraDays::vanishing_day))]
pub fn vanishing_day(remainder: u64) -> Result<Option<u64>, Refusal>
    ensures { days_said result ≡ vanishing_reply remainder }
{
    if DAY <= remainder {
        return Err(Refusal::Outside);
    }
    if MONTH_DEFICIT < remainder {
        return Ok(None);
    }
    Ok(Some(30 * remainder / MONTH_DEFICIT))
}
