// Numbers and terms of a fixed width, at a place of some bytes. Where the bytes end before, they are zeros.
ghost use Rattle.std.specs.Prelude.{◌≡◌, ◌-◌, ◌^◌, ◌≤◌, ◌<◌};
ghost use Rattle.procap.specs.Bytes.{number_that_fits};
ghost use Rattle.from_c.specs.Numbers.{or_zero, wide_term};

use procap::bytes::number_at;
use procap::fact::Term;

// The number of N bytes; of more than eight it is a zero.
#[tactic(auto, unfolding(crate::specs::Numbers::or_zero))]
pub(crate) fn number_or_zero<const N: usize>(bytes: &[u8], at: usize) -> u64
    ensures value { result ≡ or_zero (number_that_fits bytes.now N at) }
    ensures bound { result ≤ 256 ^ N - 1 }
{
    number_at::<N>(bytes, at).map_or(0, |(number, _)| number)
}

// The term of nine bytes: its kind, and the number that it holds.
pub(crate) fn term_at(bytes: &[u8], at: usize) -> Term
    requires { at < usize.MAX }
    ensures { result ≡ wide_term bytes.now at }
{
    Term::of_numbers(
        number_or_zero::<1>(bytes, at),
        number_or_zero::<8>(bytes, at + 1),
    )
}
