// A row of numbers as bytes: each has 32 bits, with its low byte first.
ghost use Rattle.std.specs.Prelude.{◌≡◌, ◌*◌, ◌≤◌, length};
ghost use Rattle.rows.specs.Row.{over};
ghost use Rattle.viewer.specs.Bytes.{number_bytes, low_first, low_first_bytes};

pub const NUMBER_BYTES: usize = 4;

// The numbers as bytes, from the row's start.
#[tactic(auto, using(crate::proofs::ByteLaws::bytes_none, crate::proofs::ByteLaws::bytes_grow))]
pub(crate) fn put_numbers(numbers: &[u64], row: &mut [u8])
    requires { number_bytes * length numbers.now ≤ length row.old }
    ensures { row.new ≡ over (low_first_bytes numbers.now) row.old }
{
    for (i, n) in numbers.iter().enumerate() {
        put_low_first(*n, &mut row[i * NUMBER_BYTES..]);
    }
}

// A number of 32 bits, low byte first, at the row's start.
#[tactic(auto, unfolding(rows::specs::Row::over, crate::specs::Bytes::low_first))]
fn put_low_first(n: u64, row: &mut [u8])
    requires { number_bytes ≤ length row.old }
    ensures { row.new ≡ over (low_first n) row.old }
{
    row[..NUMBER_BYTES].copy_from_slice(&n.to_le_bytes()[..NUMBER_BYTES]);
}
