// The three laws, and how a law is evaluated.
ghost use Rattle.std.specs.Prelude.{◌≡◌};
ghost use Rattle.inequalities.specs.Law.{law};
ghost use Rattle.inequalities.specs.Evaluation.{law_said, Evaluated};

use measure::over_day;

#[derive(Clone, Copy)]
pub struct Coefficients {
    pub first: u64,
    pub second: u64,
    pub third: u64,
}

// Of the sun.
pub const LAW_A: Coefficients = Coefficients {
    first: 5_133_200,
    second: 24_600,
    third: 31,
};

pub const LAW_B: Coefficients = Coefficients {
    first: 4_870_600,
    second: 22_100,
    third: 27,
};

// Of the moon.
pub const LAW_MOON: Coefficients = Coefficients {
    first: 11_110_000,
    second: 28_100,
    third: 325,
};

const FINE: u64 = 10_000;

// A law at a time, or at limits counted in as many parts. The rest is dropped at each quotient.
#[tactic(auto, unfolding(crate::specs::Law::law, crate::specs::Law::taken))]
pub(crate) fn law_at(c: Coefficients, t: u64) -> u64
    requires { Evaluated (law_said c) t }
    ensures { result ≡ law (law_said c) t }
{
    let growth = over_day(c.third * FINE, t);
    let taken = over_day(c.second * FINE + growth, t);
    over_day(c.first * FINE - taken, t) / FINE
}
