// The lunar inequality.
ghost use Rattle.std.specs.Prelude.{◌≡◌, ◌≤◌, ◌<◌};
ghost use Rattle.rows.specs.Reply.{answer_said};
ghost use Rattle.measure.specs.Units.{anomalistic_month, anomalistic_half};
ghost use Rattle.signed.specs.Signed.{integer, as_integer};
ghost use Rattle.inequalities.specs.Limits.{limits, lunar_half_said};
ghost use Rattle.inequalities.specs.Lunar.{lunar_magnitude, lunar_at, lunar, lunar_at_reply};

use crate::laws::{LAW_MOON, law_at};
use crate::limits::{LunarHalf, MIDDLE};
use measure::{ANOMALISTIC_HALF, DAY};
use rows::Refusal;
use signed::{ahead, behind};

// The lunar inequality at a time in a half. Half the anomalistic month or more is refused with 2.
#[tactic(auto, unfolding(crate::specs::Lunar::lunar_at_reply))]
pub fn lunar_at(half: LunarHalf, time: u64) -> Result<i64, Refusal>
    ensures { answer_said result ≡ as_integer (lunar_at_reply (lunar_half_said half) time) }
{
    if ANOMALISTIC_HALF <= time {
        return Err(Refusal::Outside);
    }
    Ok(in_half(half, time))
}

// The lunar inequality at an anomaly, a plain number, as this contract is public: the quick half comes first.
#[tactic(auto, unfolding(crate::specs::Lunar::lunar))]
pub fn lunar(anomaly: u64) -> i64
    requires { anomaly < anomalistic_month }
    ensures { result ≡ integer (lunar anomaly) }
{
    if anomaly < ANOMALISTIC_HALF {
        in_half(LunarHalf::Quick, anomaly)
    } else {
        in_half(LunarHalf::Tardy, anomaly - ANOMALISTIC_HALF)
    }
}

// Its magnitude with the sign of the half. A time in a half is a number: a type of its own would be made anew at each call.
#[tactic(auto, using(signed::proofs::Integers::held_as, crate::proofs::Sizes::magnitude_le))]
fn in_half(half: LunarHalf, time: u64) -> i64
    requires { time ≤ anomalistic_half }
    ensures { result ≡ integer (lunar_at (lunar_half_said half) time) }
{
    match half {
        LunarHalf::Quick => ahead(magnitude(time)),
        LunarHalf::Tardy => behind(magnitude(time)),
    }
}

// The magnitude of the lunar inequality at a time in either half.
#[tactic(auto, using(crate::proofs::NearerEnd::nearer_le, crate::proofs::NearerEnd::magnitude_nearer))]
fn magnitude(time: u64) -> u64
    requires { time ≤ anomalistic_half }
    ensures { result ≡ lunar_magnitude (limits time) }
{
    law_at(
        LAW_MOON,
        crate::limits::from_nearer_end(crate::limits::in_time(time), MIDDLE * DAY),
    )
}
