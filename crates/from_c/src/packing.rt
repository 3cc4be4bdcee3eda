// An answer as one number, and what a caller takes out of it.
ghost use Rattle.std.specs.Prelude.{◌≡◌};
ghost use Rattle.from_c.specs.Packing.{packed, number_in, length_in};

use procap::answer::Answer;

// How many lengths there are: 16 bits.
const LENGTHS: u64 = 65_536;
// How many places there are: 32 bits.
const PLACES: u64 = 4_294_967_296;

// An answer with a length, as one number: the number, the length in 16 bits, the place in 32 bits.
#[tactic(auto, using(procap::proofs::AnswerNumbers::numbers_are_small))]
pub(crate) fn as_number(answer: Answer, length: usize) -> u64
    ensures { result ≡ packed answer length }
{
    let place = answer.place();
    (answer.number() * LENGTHS + length as u64 % LENGTHS) * PLACES + place as u64 % PLACES
}

// The answer's number.
pub fn number_in(handed: u64) -> u64
    ensures { result ≡ number_in handed }
{
    handed / PLACES / LENGTHS
}

// The length of what was written.
pub fn length_in(handed: u64) -> usize
    ensures { result ≡ length_in handed }
{
    (handed / PLACES % LENGTHS) as usize
}
