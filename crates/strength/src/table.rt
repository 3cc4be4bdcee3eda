// The strengths that pairs give: the names are put first, and then a mark for each two, with the pairs taken from the last to the first.
ghost use Rattle.std.specs.Prelude.{◌≡◌, ◌≤◌, ◌↔◌, [], IsSome, length};
ghost use Rattle.procap.specs.Lists.{In};
ghost use Rattle.procap.specs.Tells.{Tells};
ghost use Rattle.bl.specs.Strength.{pair_of, pairs_of, most_pairs};
ghost use Rattle.strength.specs.Strengths.{names, Unmarked, Nameless, MarkedAbove, StrengthsOf, TellsStrength};
ghost use Rattle.strength.specs.Finding.{FindsStrengths};
ghost use Rattle.strength.specs.InNumbers.{strength_numbers, numbers_of, TakesNumbers, PutsStrengths};
ghost use Rattle.strength.specs.Taking.{Stands, Standing, Reaches, Gains, OnePairMore};

use crate::marks::{gain_rows, has_mark, put_rows, rows_of};
use crate::names::Names;
use crate::{MARKS_AT, MOST_PAIRS, STRENGTH_NUMBERS, WEAKERS_AT};

// Who stands above somebody and who stands below, and for each two of them a mark: a row for each stronger one, and in it a bit for
// each weaker one.
#[derive(Drop)]
pub struct Strengths {
    strongers: Names,
    weakers: Names,
    marks: [u128; MOST_PAIRS],
}

// Whether a principal is at least as strong as another: it is the same one, or is marked above it in the strengths that are lent.
pub fn as_strong(strengths: Option<&Strengths>, principal: u64, other: u64) -> bool
    ensures { TellsStrength strengths.entry principal other result }
{
    if principal == other {
        return true;
    }
    match strengths {
        Some(found) => found.marked_above(principal, other),
        None => false,
    }
}

// The stronger one of a pair.
fn stronger_of(pair: u32) -> u64
    ensures { result ≡ (pair_of pair).stronger }
{
    u64::from(pair / 65_536)
}

// The weaker one of a pair.
fn weaker_of(pair: u32) -> u64
    ensures { result ≡ (pair_of pair).weaker }
{
    u64::from(pair % 65_536)
}

impl Strengths {
    // Finds the strengths that the pairs give, unless these are too many.
    // What is lent is filled, since a result of 4,112 bytes is copied, and the stack is as much deeper.
    pub fn find(&mut self, pairs: &[u32])
        ensures { FindsStrengths pairs.now self.old self.new }
    {
        if pairs.len() <= MOST_PAIRS {
            self.put_names(pairs);
            self.take_pairs(pairs);
        }
    }

    // No names and no marks.
    pub fn none() -> Strengths
        ensures marks { Unmarked result }
        ensures names { Nameless result }
    {
        Strengths {
            strongers: Names::none(),
            weakers: Names::none(),
            marks: [0; MOST_PAIRS],
        }
    }

    // The strengths that numbers hold, where these are as many as strengths take.
    pub fn of_numbers(numbers: &[u64]) -> Option<Strengths>
        ensures size { IsSome result ↔ (length numbers.now ≡ strength_numbers) }
        ensures taken { TakesNumbers numbers.now result }
    {
        if numbers.len() != STRENGTH_NUMBERS {
            return None;
        }
        Some(Strengths {
            strongers: Names::of_numbers(&numbers[0..WEAKERS_AT]),
            weakers: Names::of_numbers(&numbers[WEAKERS_AT..MARKS_AT]),
            marks: rows_of(&numbers[MARKS_AT..]),
        })
    }

    // Leaves the strengths in numbers, where these are as many as strengths take.
    pub fn put_in(&self, numbers: &mut [u64])
        ensures put { length numbers.old ≡ strength_numbers → numbers.new ≡ numbers_of self.now }
        ensures left { (length numbers.old ≡ strength_numbers → ⊥) → numbers.new ≡ numbers.old }
        ensures strengths { PutsStrengths self.now numbers.old numbers.new }
    {
        if numbers.len() == STRENGTH_NUMBERS {
            let (lists, marks) = numbers.split_at_mut(MARKS_AT);
            let (above, under) = lists.split_at_mut(WEAKERS_AT);
            self.strongers.put_in(above);
            self.weakers.put_in(under);
            put_rows(&self.marks, marks);
        }
    }

    // Puts the names of both sides of the pairs, in place of any that stand there.
    fn put_names(&mut self, pairs: &[u32])
        requires { length pairs.now ≤ most_pairs }
        ensures named { Standing pairs.now self.new }
        ensures marks { self.new.marks ≡ self.old.marks }
    {
        self.strongers.clear();
        self.weakers.clear();
        for pair in pairs {
            self.strongers.put_name(stronger_of(*pair));
            self.weakers.put_name(weaker_of(*pair));
        }
    }

    // Takes the pairs, from the last to the first.
    fn take_pairs(&mut self, pairs: &[u32])
        requires { Standing pairs.now self.old }
        ensures { StrengthsOf self.old [] → StrengthsOf self.new (pairs_of pairs.now) }
    {
        for pair in pairs.iter().rev() {
            self.take_pair(*pair);
        }
    }

    // Takes one pair more: whoever is as strong as its stronger one is then as strong as whomever its weaker one is as strong as.
    fn take_pair(&mut self, pair: u32)
        requires { Stands pair self.old }
        ensures { OnePairMore pair self.old self.new }
    {
        let gained = self.reached_from(weaker_of(pair));
        self.gain(stronger_of(pair), gained);
    }

    // The marks of whomever a weaker one of a pair is as strong as: its own, and those in its row, if it has one.
    fn reached_from(&self, weaker: u64) -> u128
        requires { In weaker (names self.now.weakers) }
        ensures { Reaches self.now weaker result }
    {
        let own = 1u128 << self.weakers.known_place_of(weaker);
        match self.strongers.place_of(weaker) {
            Some(row) => own | self.marks[row],
            None => own,
        }
    }

    // A stronger one of a pair, and whoever is marked above it, gain marks.
    fn gain(&mut self, stronger: u64, gained: u128)
        requires { In stronger (names self.old.strongers) }
        ensures { Gains self.old self.new stronger gained }
    {
        let own = self.strongers.known_place_of(stronger);
        if let Some(column) = self.weakers.place_of(stronger) {
            gain_rows(&mut self.marks[..self.strongers.count], column, gained);
        }
        self.marks[own] |= gained;
    }

    // Whether a principal is marked above another: both are found, and their mark is set.
    fn marked_above(&self, principal: u64, other: u64) -> bool
        ensures { Tells result (MarkedAbove self.now principal other) }
    {
        let Some(row) = self.strongers.place_of(principal) else {
            return false;
        };
        let Some(column) = self.weakers.place_of(other) else {
            return false;
        };
        has_mark(self.marks[row], column)
    }
}
