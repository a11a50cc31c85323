// Limits of the lunar inequality: 84 reach the middle of a half, and 168 its end.
ghost use Rattle.std.specs.Prelude.{◌≡◌, ◌*◌, ◌≤◌};
ghost use Rattle.measure.specs.Units.{day, anomalistic_half};
ghost use Rattle.inequalities.specs.Limits.{limits, whole_limit, from_nearer_end};

use measure::DAY;

// Quick is positive, tardy negative. Not the sun's halves under other names: no half of one is asked of the other.
#[derive(Clone, Copy)]
pub enum LunarHalf {
    Quick,
    Tardy,
}

pub const MIDDLE: u64 = 84;

pub const END: u64 = 2 * MIDDLE;

// The limits in a time, counted in as many parts as a day has. The time is a number, as in `solar` and `lunar`.
pub(crate) fn in_time(time: u64) -> u64
    requires { time ≤ anomalistic_half }
    ensures { result ≡ limits time }
{
    time * 122 / 10
}

// The whole limit at a time in a half: the last one holds what is past the end.
pub(crate) fn whole(time: u64) -> u64
    requires { time ≤ anomalistic_half }
    ensures { result ≡ whole_limit time }
{
    (in_time(time) / DAY).min(END - 1)
}

// What is past the middle counts from the end, and past the end there is nothing.
#[tactic(auto, unfolding(crate::specs::Limits::from_nearer_end))]
pub(crate) fn from_nearer_end(n: u64, middle: u64) -> u64
    requires { middle ≤ day * day }
    ensures { result ≡ from_nearer_end n middle }
{
    if n <= middle {
        n
    } else if n < 2 * middle {
        2 * middle - n
    } else {
        0
    }
}
