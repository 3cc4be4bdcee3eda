// Names of principals as numbers: in rising order, behind their count.
ghost use Rattle.std.specs.Prelude.{◌<◌, ◌≤◌, ◌≡◌, IfSome, length};
ghost use Rattle.bl.specs.Strength.{most_pairs};
ghost use Rattle.strength.specs.Places.{PlacedIn};
ghost use Rattle.strength.specs.InNumbers.{Ordered, names};

use crate::MOST_PAIRS;
use rising::below;

// How many numbers a list of names takes.
const NAMES_NUMBERS: usize = 129;

// The names of a counted list; of one that has another length or more than 128 names there are none.
pub(crate) fn names_in(numbers: &[u64]) -> &[u64]
    ensures few { length result.now ≤ most_pairs }
    ensures names { Ordered numbers.now → result.now ≡ names numbers.now }
{
    if numbers.len() != NAMES_NUMBERS {
        return &[];
    }
    let count = numbers[0] as usize;
    if MOST_PAIRS < count {
        return &[];
    }
    &numbers[1..count + 1]
}

// Where a name stands in a counted list, if it does.
pub(crate) fn place_in(numbers: &[u64], name: u64) -> Option<usize>
    ensures within { IfSome result (λ place. place < most_pairs) }
    ensures place { Ordered numbers.now → PlacedIn (names numbers.now) name result }
{
    let standing = names_in(numbers);
    let place = below(standing, standing.len(), name);
    if place < standing.len() && standing[place] == name {
        Some(place)
    } else {
        None
    }
}
