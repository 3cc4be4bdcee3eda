// Pairs of principals in bytes: 4 for each, two for the stronger and two for the weaker.
ghost use Rattle.std.specs.Prelude.{◌≡◌, ◌+◌, ◌≤◌, take};
ghost use Rattle.std.proofs.Common.{rules};
ghost use Rattle.from_c.specs.Pairs.{pair_bytes, pairs_at_most, pair_at, pair_numbers};

use crate::numbers::number_or_zero;
use crate::row::{InARow, front_of};
use front::Front;

// How many pairs are lent on at the most: one more than are taken, so that too many stay too many.
pub const PAIRS_AT_MOST: usize = 129;

// The pairs that the bytes say, each as one number, as many of them as are lent on.
#[tactic(auto, unfolding(crate::specs::Pairs::pair_numbers))]
pub(crate) fn pair_numbers(bytes: &[u8]) -> Front<u32, PAIRS_AT_MOST>
    ensures { result ≡ take pairs_at_most (pair_numbers bytes.now) }
{
    front_of(bytes, 0)
}

// A pair is one number: the stronger principal times 65,536, and the weaker. Where the bytes end before, a principal is 0.
impl InARow for u32 {
    ghost BYTES = { pair_bytes };

    const BYTES: usize = 4;

    ghost value_at = { pair_at };

    ghost takes_some = { Prim.search rules };

    fn at(bytes: &[u8], at: usize) -> u32 {
        number_or_zero::<2>(bytes, at) as u32 * 65_536 + number_or_zero::<2>(bytes, at + 2) as u32
    }
}
