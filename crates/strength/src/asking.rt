// Whether a principal is at least as strong as another, by strengths that are numbers.
ghost use Rattle.strength.specs.InNumbers.{TellsStrength};

use crate::lists::place_in;
use crate::marks::has_mark;
use crate::{MARKS_AT, STRENGTH_NUMBERS, WEAKERS_AT};

// Whether a principal is at least as strong as another: it is the same one, or both are found and their mark is set.
pub fn as_strong(strengths: &[u64], principal: u64, other: u64) -> bool
    ensures { TellsStrength strengths.now principal other result }
{
    if principal == other {
        return true;
    }
    if strengths.len() != STRENGTH_NUMBERS {
        return false;
    }
    let Some(row) = place_in(&strengths[0..WEAKERS_AT], principal) else {
        return false;
    };
    let Some(column) = place_in(&strengths[WEAKERS_AT..MARKS_AT], other) else {
        return false;
    };
    let word = strengths[MARKS_AT + row * 2 + column / 64];
    has_mark(u128::from(word), column % 64)
}
