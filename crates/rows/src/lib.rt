// What every question shares: the refusals with their numbers.
#![tactic(auto)]

ghost use Rattle.std.specs.Prelude.{◌≡◌, ℕ};
ghost use Rattle.rows.specs.Reply.{number_of};

// Why a question is refused, with the number by which it is told.
#[derive(Clone, Copy, Debug, PartialEq, Eq)]
pub enum Refusal {
    NoYear = 1,
    Outside = 2,
    NoDay = 3,
    ShortRow = 4,
    BadLine = 5,
}

// What has a refusal's number: a refusal, or the bare number of one.
pub trait Numbered: Copy {
    ghost number: { Self → ℕ };

    fn number(self) -> u64
        ensures { result ≡ number self };
}

impl Numbered for Refusal {
    ghost number = { number_of };

    fn number(self) -> u64 {
        self as u64
    }
}

impl Numbered for u64 {
    ghost number = { λ n. n };

    fn number(self) -> u64 {
        self
    }
}
