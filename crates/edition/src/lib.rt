// The calendar of an epoch: the first days of its months and the days of its middle terms. That it is lawful is proved in proofs/.
#![tactic(auto)]

ghost use Rattle.std.specs.Prelude.{◌≡◌, ◌+◌, ◌*◌, ◌≤◌};
ghost use Rattle.measure.specs.Units.{last_year};
ghost use Rattle.measure.specs.Epoch.{shoushi};
ghost use Rattle.moons.specs.Lunation.{last_lunation};
ghost use Rattle.edition.specs.Edition.{first_day, middle_day};

use measure::{SOLSTICE_EPOCH, TERM_STEP};

// The first day of month l.
#[tactic(auto, unfolding(crate::specs::Edition::first_day))]
pub fn first_day(l: u64) -> u64
    requires { l ≤ last_lunation + 3 }
    ensures { result ≡ first_day shoushi l }
{
    measure::day_of(moons::true_time(l, 0))
}

pub const MIDDLE_STEP: u64 = 2 * TERM_STEP;

// The day of middle term j, counted on over the years.
#[tactic(auto, using(crate::proofs::Edition::middle_day_lem))]
pub fn middle_day(j: u64) -> u64
    requires { j ≤ 12 * last_year + 24 }
    ensures { result ≡ middle_day shoushi j }
{
    measure::day_of(SOLSTICE_EPOCH + j * MIDDLE_STEP)
}
