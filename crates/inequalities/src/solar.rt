// The solar inequality.
ghost use Rattle.std.specs.Prelude.{◌≡◌, ◌≤◌, ◌<◌};
ghost use Rattle.rows.specs.Reply.{answer_said};
ghost use Rattle.measure.specs.Units.{year, half_year};
ghost use Rattle.signed.specs.Signed.{integer, as_integer};
ghost use Rattle.inequalities.specs.Solar.{fast_at, slow_at, solar_at, solar, solar_at_reply, solar_half_said};

use crate::laws::{LAW_A, LAW_B, law_at};
use measure::HALF_YEAR;
use rows::Refusal;
use signed::{ahead, behind};

// Fast is positive, slow negative.
#[derive(Clone, Copy)]
pub enum SolarHalf {
    Fast,
    Slow,
}

// The solar inequality at a time in a half. The half year or more is refused with 2.
#[tactic(auto, unfolding(crate::specs::Solar::solar_at_reply))]
pub fn solar_at(half: SolarHalf, time: u64) -> Result<i64, Refusal>
    ensures { answer_said result ≡ as_integer (solar_at_reply (solar_half_said half) time) }
{
    if HALF_YEAR <= time {
        return Err(Refusal::Outside);
    }
    Ok(in_half(half, time))
}

// The solar inequality at a solar time: the slow half comes first.
#[tactic(auto, unfolding(crate::specs::Solar::solar))]
pub fn solar(time: u64) -> i64
    requires { time < year }
    ensures { result ≡ integer (solar time) }
{
    if time < HALF_YEAR {
        in_half(SolarHalf::Slow, time)
    } else {
        in_half(SolarHalf::Fast, time - HALF_YEAR)
    }
}

// Its magnitude with the sign of the half. A time in a half is a number: a type of its own would be made anew at each call.
#[tactic(auto, using(signed::proofs::Integers::held_as, crate::proofs::Sizes::fast_le, crate::proofs::Sizes::slow_le))]
fn in_half(half: SolarHalf, time: u64) -> i64
    requires { time ≤ half_year }
    ensures { result ≡ integer (solar_at (solar_half_said half) time) }
{
    match half {
        SolarHalf::Fast => ahead(fast(time)),
        SolarHalf::Slow => behind(slow(time)),
    }
}

const FAST_LIMIT: u64 = 8_890_922_500;

const SLOW_LIMIT: u64 = HALF_YEAR - FAST_LIMIT;

// The magnitude at a time in the fast half: by law A as far as the limit, then by law B from the end.
#[tactic(auto, unfolding(crate::specs::Solar::fast_at))]
fn fast(time: u64) -> u64
    requires { time ≤ half_year }
    ensures { result ≡ fast_at time }
{
    if time <= FAST_LIMIT {
        law_at(LAW_A, time)
    } else {
        law_at(LAW_B, HALF_YEAR - time)
    }
}

// And in the slow half. One function of both would take two laws and a limit; these are `fast_at` and `slow_at` as they stand.
#[tactic(auto, unfolding(crate::specs::Solar::slow_at))]
fn slow(time: u64) -> u64
    requires { time ≤ half_year }
    ensures { result ≡ slow_at time }
{
    if time <= SLOW_LIMIT {
        law_at(LAW_B, time)
    } else {
        law_at(LAW_A, HALF_YEAR - time)
    }
}
