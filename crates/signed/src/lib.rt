// Numbers with a sign: what is ahead less what is behind.
#![tactic(auto)]

ghost use Rattle.std.specs.Prelude.{◌≡◌, nat_abs, ◌*◌, ◌≤◌};
ghost use Rattle.measure.specs.Units.{day};
ghost use Rattle.signed.specs.Signed.{ahead_by, behind_by, integer};

// A positive number, and a negative one.
#[tactic(auto, using(crate::proofs::Integers::integer_ahead))]
pub fn ahead(magnitude: u64) -> i64
    requires { magnitude ≤ day * day }
    ensures { result ≡ integer (ahead_by magnitude) }
{
    magnitude as i64
}

#[tactic(auto, using(crate::proofs::Integers::integer_behind, crate::proofs::Integers::held, crate::proofs::Integers::opposite, crate::proofs::Integers::opposite_mag))]
pub fn behind(magnitude: u64) -> i64
    requires { magnitude ≤ day * day }
    ensures { result ≡ integer (behind_by magnitude) }
{
    -(magnitude as i64)
}

// How large a signed number is, without its sign.
pub fn magnitude_of(number: i64) -> u64
    ensures { result ≡ nat_abs number }
{
    number.unsigned_abs()
}
