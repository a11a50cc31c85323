// The kind of a month, its number and its leap mark.
ghost use Rattle.std.specs.Prelude.{◌≡◌};
ghost use Rattle.months.specs.Kind.{kind_said, number_in, mark_in};

// A month is ordinary or leap, with its number inside.
#[derive(Clone, Copy)]
pub enum Kind {
    Ordinary(u64),
    Leap(u64),
}

// The number of a month, ordinary or leap.
pub fn month_number(kind: Kind) -> u64
    ensures { result ≡ number_in (kind_said kind) }
{
    match kind {
        Kind::Ordinary(number) => number,
        Kind::Leap(repeated) => repeated,
    }
}

// A month's leap mark: 1 where it is leap, else 0. A number, since records and lines hold it so (`mark_in`).
pub fn leap_mark(kind: Kind) -> u64
    ensures { result ≡ mark_in (kind_said kind) }
{
    match kind {
        Kind::Ordinary(_) => 0,
        Kind::Leap(_) => 1,
    }
}
