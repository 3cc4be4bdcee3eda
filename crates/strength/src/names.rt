// Names of principals in rising order, at most as many as pairs are taken.
ghost use Rattle.std.specs.Prelude.{◌≤◌, take};
ghost use Rattle.rising.specs.Rising.{Rising};
ghost use Rattle.rising.proofs.RisingLaws.{rising_prop};
ghost use Rattle.bl.specs.Strength.{most_pairs};

use crate::MOST_PAIRS;
use crate::lists::names_in;
use rising::{below, put};

// Names in rising order: the first `count` of the numbers.
#[derive(Drop)]
pub(crate) struct Names {
    pub(crate) count: usize,
    numbers: [u64; MOST_PAIRS],
    ghost few: { count ≤ most_pairs },
    ghost rising: { Rising (take count numbers) } by { rising_prop (take count numbers) },
}

impl Names {
    ghost use Rattle.std.specs.Prelude.{◌≡◌, ◌+◌, ◌<◌, length};
    ghost use Rattle.procap.specs.Lists.{In};
    ghost use Rattle.rising.specs.Rising.{insert};
    ghost use Rattle.strength.specs.Strengths.{names};
    ghost use Rattle.strength.specs.Places.{PlacedIn};
    ghost use Rattle.strength.specs.InNumbers.{names_numbers, HasNames, counted};

    // No names.
    #[tactic(auto, unfolding(rising::specs::Rising::Rising, procap::specs::Lists::All))]
    pub(crate) fn none() -> Names
        ensures { result.count ≡ 0 }
    {
        Names {
            count: 0,
            numbers: [0; MOST_PAIRS],
        }
    }

    // The names of a counted list, where it is in order.
    pub(crate) fn of_numbers(numbers: &[u64]) -> Names
        ensures { HasNames numbers.now result }
    {
        let mut found = Names::none();
        for name in names_in(numbers) {
            found.put_name(*name);
        }
        found
    }

    // Leaves the names in numbers, behind their count.
    pub(crate) fn put_in(&self, numbers: &mut [u64])
        requires { length numbers.old ≡ names_numbers }
        ensures { numbers.new ≡ counted self.now }
    {
        numbers[0] = self.count as u64;
        numbers[1..].copy_from_slice(&self.numbers);
    }

    // Leaves no name.
    pub(crate) fn clear(&mut self)
        ensures { self.new.count ≡ 0 }
    {
        self.count = 0;
    }

    // Where a name stands, if it does.
    pub(crate) fn place_of(&self, name: u64) -> Option<usize>
        ensures { PlacedIn (names self.now) name result }
    {
        let place = below(&self.numbers, self.count, name);
        if place < self.count && self.numbers[place] == name {
            Some(place)
        } else {
            None
        }
    }

    // Where a name stands that is there.
    pub(crate) fn known_place_of(&self, name: u64) -> usize
        requires { In name (names self.now) }
        ensures { PlacedIn (names self.now) name (Some result) }
    {
        below(&self.numbers, self.count, name)
    }

    // Puts a name in its place, unless it stands there.
    pub(crate) fn put_name(&mut self, name: u64)
        requires { self.old.count < most_pairs }
        ensures put { names self.new ≡ insert name (names self.old) }
        ensures count { self.new.count ≤ self.old.count + 1 }
    {
        self.count = put(&mut self.numbers, self.count, name);
    }
}
