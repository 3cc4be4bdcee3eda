// The strengths that pairs give, left in numbers.
ghost use Rattle.strength.specs.InNumbers.{FindsStrengths};

use crate::MOST_PAIRS;
use crate::table::Strengths;

// Finds the strengths that the pairs give, unless these are too many.
#[tactic(auto, unfolding(crate::specs::InNumbers::FindsStrengths))]
pub fn find_strengths(pairs: &[u32], strengths: &mut [u64])
    ensures { FindsStrengths pairs.now strengths.old strengths.new }
{
    if MOST_PAIRS < pairs.len() {
        return;
    }
    let mut found = Strengths::none();
    found.find(pairs);
    found.put_in(strengths);
}
