// Mean and true moons: a lunation and its quarter, with both inequalities and the correction.
#![tactic(auto)]

ghost use Rattle.std.specs.Prelude.{◌≡◌, ℕ, ◌<◌};
ghost use Rattle.rows.specs.Reply.{number_of, reply_of, answer_said};
ghost use Rattle.measure.specs.Units.{year, anomalistic_month};
ghost use Rattle.measure.specs.Epoch.{shoushi};
ghost use Rattle.signed.specs.Signed.{integer, as_integer};
ghost use Rattle.moons.specs.Lunation.{of_quarter, Counted, mean, mean_reply, solar_time, anomaly};
ghost use Rattle.moons.specs.TrueMoon.{correction, correction_of, true_moon, solar_reply, lunar_reply, motion_reply, correction_reply, true_reply};

use measure::{
    ANOMALISTIC_MONTH, ANOMALY_EPOCH, HALF_YEAR, LEAP_EPOCH, MONTH, QUARTER_STEP, SOLSTICE_EPOCH,
    YEAR,
};
use rows::Refusal;

pub const LAST_LUNATION: u64 = 12_367;

const LAST_QUARTER: u64 = 3;

// Each question below is about quarter q of lunation l, and refused with 2 where one of them is past its last.

// The mean moon's running time.
#[tactic(auto, unfolding(crate::specs::Lunation::mean_reply))]
pub fn mean(l: u64, q: u64) -> Result<u64, Refusal>
    ensures { answer_said result ≡ mean_reply shoushi l q }
{
    Ok(Quarter::asked(l, q)?.mean())
}

// The solar inequality.
#[tactic(auto, using(rows::proofs::Refused::handed_on, signed::proofs::Integers::held_as, crate::proofs::Times::solar_time_lt, crate::proofs::Admitted::asked_as), unfolding(crate::specs::TrueMoon::solar_reply))]
pub fn solar(l: u64, q: u64) -> Result<i64, Refusal>
    ensures { answer_said result ≡ as_integer (solar_reply shoushi l q) }
{
    Ok(inequalities::solar::solar(Quarter::asked(l, q)?.solar_time()))
}

// The lunar inequality.
#[tactic(auto, using(rows::proofs::Refused::handed_on, signed::proofs::Integers::held_as, crate::proofs::Times::anomaly_lt, crate::proofs::Admitted::asked_as), unfolding(crate::specs::TrueMoon::lunar_reply))]
pub fn lunar(l: u64, q: u64) -> Result<i64, Refusal>
    ensures { answer_said result ≡ as_integer (lunar_reply shoushi l q) }
{
    Ok(inequalities::lunar::lunar(Quarter::asked(l, q)?.anomaly()))
}

// The moon's motion.
#[tactic(auto, using(rows::proofs::Refused::handed_on, crate::proofs::Times::anomaly_lt, crate::proofs::Admitted::asked_as), unfolding(crate::specs::TrueMoon::motion_reply))]
pub fn motion(l: u64, q: u64) -> Result<u64, Refusal>
    ensures { answer_said result ≡ motion_reply shoushi l q }
{
    Ok(inequalities::motions::motion(Quarter::asked(l, q)?.anomaly()))
}

// The correction.
#[tactic(auto, unfolding(crate::specs::TrueMoon::correction_reply))]
pub fn correction(l: u64, q: u64) -> Result<i64, Refusal>
    ensures { answer_said result ≡ as_integer (correction_reply shoushi l q) }
{
    Ok(Quarter::asked(l, q)?.correction())
}

// The true moon's running time.
#[tactic(auto, unfolding(crate::specs::TrueMoon::true_reply))]
pub fn true_moon(l: u64, q: u64) -> Result<u64, Refusal>
    ensures { answer_said result ≡ true_reply shoushi l q }
{
    Ok(Quarter::asked(l, q)?.true_time())
}

// The true moon's running time, for a caller that counts lunations itself. No question of the calendar's.
pub fn true_time(l: u64, q: u64) -> u64
    requires { Counted l q }
    ensures { result ≡ true_moon shoushi l q }
{
    Quarter { l, q }.true_time()
}

// The mean new moon of lunation 0.
pub const MEAN_START: u64 = SOLSTICE_EPOCH - LEAP_EPOCH;

const SOLAR_START: u64 = HALF_YEAR - LEAP_EPOCH;

const ANOMALY_START: u64 = (ANOMALY_EPOCH + 2 * ANOMALISTIC_MONTH - LEAP_EPOCH) % ANOMALISTIC_MONTH;

const ANOMALY_ADVANCE: u64 = MONTH - ANOMALISTIC_MONTH;

// Quarter q of lunation l, where both are counted.
#[derive(Clone, Copy)]
struct Quarter {
    l: u64,
    q: u64,
    ghost counted: { Counted l q },
}

impl Quarter {
    fn asked(l: u64, q: u64) -> Result<Quarter, Refusal>
        ensures { reply_of {B = ℕ × ℕ} (λ at. (at.l, at.q)) number_of result ≡ of_quarter l q (l, q) }
    {
        if LAST_LUNATION < l || LAST_QUARTER < q {
            return Err(Refusal::Outside);
        }
        Ok(Quarter { l, q })
    }

    #[tactic(auto, unfolding(crate::specs::Lunation::mean))]
    fn mean(self) -> u64
        ensures { result ≡ mean shoushi self.l self.q }
    {
        MEAN_START + self.l * MONTH + self.q * QUARTER_STEP
    }

    // The time in the solar year, which the slow half begins.
    #[tactic(auto, unfolding(crate::specs::Lunation::solar_time))]
    fn solar_time(self) -> u64
        ensures { result ≡ solar_time shoushi self.l self.q }
    {
        (SOLAR_START + self.l * MONTH + self.q * QUARTER_STEP) % YEAR
    }

    // The time in the anomalistic month, which the quick half begins.
    #[tactic(auto, unfolding(crate::specs::Lunation::anomaly))]
    fn anomaly(self) -> u64
        ensures { result ≡ anomaly shoushi self.l self.q }
    {
        (ANOMALY_START + self.l * ANOMALY_ADVANCE + self.q * QUARTER_STEP) % ANOMALISTIC_MONTH
    }

    #[tactic(auto, using(signed::proofs::Integers::held_as, crate::proofs::Times::solar_time_lt, crate::proofs::Times::anomaly_lt), unfolding(crate::specs::TrueMoon::correction_of))]
    fn correction(self) -> i64
        ensures { result ≡ integer (correction_of shoushi self.l self.q) }
    {
        correction_at(self.solar_time(), self.anomaly())
    }

    fn true_time(self) -> u64
        ensures { result ≡ true_moon shoushi self.l self.q }
    {
        (self.mean() as i64 + self.correction()) as u64
    }
}

const CORRECTION_FACTOR: i64 = 8_200_000;

// The correction at a solar time and an anomaly. A quotient of signed numbers drops its rest toward 0.
fn correction_at(time: u64, anomaly: u64) -> i64
    requires { (time < year) × (anomaly < anomalistic_month) }
    ensures { result ≡ integer (correction time anomaly) }
{
    let ahead = inequalities::solar::solar(time) - inequalities::lunar::lunar(anomaly);
    ahead * CORRECTION_FACTOR / inequalities::motions::motion(anomaly) as i64
}
