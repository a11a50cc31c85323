// A number in decimal digits.
ghost use Rattle.std.specs.Prelude.{◌≡◌};
ghost use Rattle.words.specs.Number.{digit_of, number_of};

// The number that s writes: 1 to 20 digits, and below 2 ^ 64. The library's `parse` takes a sign and any count of digits too.
#[tactic(auto, using(crate::proofs::Digits::digits_more, crate::proofs::Digits::value_more, crate::proofs::Digits::empty, crate::proofs::Digits::long, crate::proofs::Digits::no_digit, crate::proofs::Digits::large, crate::proofs::Digits::whole))]
pub fn number_in(s: &[u8]) -> Option<u64>
    ensures { result ≡ number_of s.now }
{
    if s.is_empty() || s.len() > 20 {
        return None;
    }
    let mut v: u64 = 0;
    for b in s {
        let d = digit_of(*b)?;
        v = v.checked_mul(10)?.checked_add(d)?;
    }
    Some(v)
}

// The digit that a byte writes.
fn digit_of(b: u8) -> Option<u64>
    ensures { result ≡ digit_of b }
{
    match b {
        b'0'..=b'9' => Some(u64::from(b - b'0')),
        _ => None,
    }
}
