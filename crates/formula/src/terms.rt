// The terms put in for the binders passed, and what stands in a formula where a term may.
ghost use Rattle.std.specs.Prelude.{◌≡◌};
ghost use Rattle.bl.specs.Trees.{bound};
ghost use Rattle.formula.specs.PutIn.{no_terms, terms_with, terms_of, FewTerms, place_of, fill_place};

use procap::fact::Term;

// How deep a formula may be: every tag on a path is a level.
pub const MOST_FORMULA_LEVELS: u64 = 16;
// How many binders may stand around a place.
pub const MOST_BINDERS: usize = 8;
// How many numbers their terms take: one each.
pub const TERMS_NUMBERS: usize = MOST_BINDERS;

// The terms put in for the binders passed, the latest last: one number each.
// No invariant bounds the count: a row that judging is lent keeps these numbers in fixed memory, and may hold any.
#[derive(Clone, Copy)]
pub struct Terms {
    pub count: usize,
    pub numbers: [u64; TERMS_NUMBERS],
}

// What stands where a term may: a term, or a variable that no term was put in for.
#[derive(Clone, Copy)]
pub enum Place {
    Fixed(Term),
    Bound(u64),
}

impl Terms {
    // No terms.
    pub fn none() -> Terms
        ensures { result ≡ no_terms }
    {
        Terms {
            count: 0,
            numbers: [0u64; TERMS_NUMBERS],
        }
    }

    // The terms with one more put in, one that bytes can hold. Where there is no room, they stay as they are.
    pub fn with(self, term: Term) -> Terms
        ensures { result ≡ terms_with self term }
    {
        let count = self.count;
        if MOST_BINDERS <= count {
            return self;
        }
        let mut numbers = self.numbers;
        numbers[count] = term.number();
        Terms {
            count: count + 1,
            numbers,
        }
    }

    // What stands for a variable under so many binders that no term was put in for.
    pub(crate) fn look_up(self, under: usize, variable: usize) -> Place
        ensures { FewTerms self → place_of result ≡ fill_place under (terms_of self) (bound variable) }
    {
        if variable < under {
            return Place::Bound(variable as u64);
        }
        let back = variable - under;
        if self.count <= back {
            return Place::Bound(variable as u64);
        }
        let index = self.count - back - 1;
        if MOST_BINDERS <= index {
            return Place::Bound(variable as u64);
        }
        Place::Fixed(Term::of_number(self.numbers[index]))
    }
}
