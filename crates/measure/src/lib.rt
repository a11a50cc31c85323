// Units and constants, the running day count and its names.
#![tactic(auto)]

ghost use Rattle.std.specs.Prelude.{◌≡◌, ◌*◌, ◌/◌, ◌≤◌, ◌<◌};
ghost use Rattle.measure.specs.Units.{day};
ghost use Rattle.measure.specs.Days.{day_of, remainder_of, name_of};

// All times are in wei.
pub const MIAO: u64 = 100;

pub const FEN: u64 = 100 * MIAO;

pub const DAY: u64 = 10_000 * FEN;

pub const YEAR: u64 = 36_524_250_000;

pub const HALF_YEAR: u64 = YEAR / 2;

// Terms in a year.
pub const TERMS: u64 = 24;

pub const TERM_STEP: u64 = YEAR / TERMS;

pub const PENTAD_STEP: u64 = TERM_STEP / 3;

pub const EARTH_STEP: u64 = TERM_STEP / 5;

pub const MONTH: u64 = 2_953_059_300;

pub const QUARTER_STEP: u64 = MONTH / 4;

pub const ANOMALISTIC_MONTH: u64 = 2_755_460_000;

pub const ANOMALISTIC_HALF: u64 = ANOMALISTIC_MONTH / 2;

// The epoch.
pub const SOLSTICE_EPOCH: u64 = 5_506_000_000;

pub const LEAP_EPOCH: u64 = 2_018_500_000;

pub const ANOMALY_EPOCH: u64 = 1_319_040_000;

pub const LAST_YEAR: u64 = 999;

// The day of a running time.
pub fn day_of(time: u64) -> u64
    ensures { result ≡ day_of time }
{
    time / DAY
}

// What a running time has over its day.
pub fn remainder_of(time: u64) -> u64
    ensures { result ≡ remainder_of time }
{
    time % DAY
}

// A day's name among the sixty, with its stem and its branch, each counted from 0.
#[derive(Clone, Copy)]
pub struct Name {
    pub name: u64,
    pub stem: u64,
    pub branch: u64,
}

// The name of any running day.
pub fn name_of(day: u64) -> Name
    ensures { result ≡ name_of day }
{
    Name {
        name: day % 60,
        stem: day % 10,
        branch: day % 12,
    }
}

// The whole part of a × t / day, where the product itself may have more than 64 bits. For the crates above: no question of the
// calendar's, and each caller shows that its numbers are in range.
#[tactic(auto, using(crate::proofs::Product::split))]
pub fn over_day(a: u64, t: u64) -> u64
    requires { (a ≤ 1_800 * day) × (t < day * day) }
    ensures { result ≡ a * t / day }
{
    a * (t / DAY) + a * (t % DAY) / DAY
}
