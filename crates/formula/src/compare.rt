// Whether two formulas are the same: left to right as their bytes stand, times by asking both orders.
ghost use Rattle.std.specs.Prelude.{◌≡◌, ℕ};
ghost use Rattle.bl.specs.Trees.{fixed};
ghost use Rattle.bl.specs.Questions.{misfit, need_equal};
ghost use Rattle.bl.specs.Walk.{same_place};
ghost use Rattle.formula.specs.PutIn.{place_of};
ghost use Rattle.ledger.specs.Books.{Leads};
ghost use Rattle.formula.specs.Comparing.{LeadsTo, ended, PlacesOf, HeadsOf, FormulasOf, BodiesOf, RestsOf, TaggedOf};
ghost use Rattle.formula.specs.PartPromises.{ComparesOver, PastTags};

use crate::parts::{FormulaAt, head_at, is_a, place_if_any, tag_at};
use crate::terms::{MOST_BINDERS, Place};
use bl::FormulaTag;
use ledger::{Ledger, ask_order};
use procap::bytes::past;
use procap::fact::Term;

// What a comparison comes to: the ledger, and where both formulas end.
#[derive(Clone, Copy)]
pub struct Compared {
    pub ledger: Ledger,
    pub left_next: usize,
    pub right_next: usize,
}

// A formula to compare, and the bytes that it stands in.
#[derive(Clone, Copy)]
pub struct LentFormula<'a> {
    pub bytes: &'a [u8],
    pub formula: FormulaAt,
}

// Two formulas to compare, and the offset of the step that asks.
#[derive(Clone, Copy)]
struct Pair<'a> {
    left: LentFormula<'a>,
    right: LentFormula<'a>,
    offset: usize,
}

// Where two parts of them stand, under so many binders that no term was put in for.
#[derive(Clone, Copy)]
struct Spot {
    left: usize,
    right: usize,
    under: usize,
}

// Whether the left formula is the right one; both may stand under so many binders that no term was put in for.
pub fn same(
    left: LentFormula<'_>,
    right: LentFormula<'_>,
    under: usize,
    offset: usize,
    ledger: Ledger,
    levels: u64,
) -> Compared
    ensures { ComparesOver left.entry right.entry under offset ledger levels result }
{
    let spot = Spot {
        left: left.formula.at,
        right: right.formula.at,
        under,
    };
    let pair = Pair {
        left,
        right,
        offset,
    };
    pair.same_formulas(spot, ledger, levels)
}

impl Pair<'_> {
    // Whether the formulas at a spot, of at most so many levels, are the same.
    #[cycle(same_after_same_body_same_formulas_same_tagged)]
    fn same_formulas(&self, spot: Spot, ledger: Ledger, levels: u64) -> Compared
        ensures { FormulasOf self.now spot ledger levels result }
    {
        if levels == 0 {
            return different(ledger, self.offset);
        }
        let Some(tag) = tag_at(self.left.bytes, spot.left) else {
            return different(ledger, self.offset);
        };
        if !is_a(self.right.bytes, spot.right, tag) {
            return different(ledger, self.offset);
        }
        self.same_tagged(tag, spot, ledger, levels - 1)
    }

    // Whether two formulas of this tag are the same, part by part.
    #[cycle(same_after_same_body_same_formulas_same_tagged)]
    fn same_tagged(&self, tag: FormulaTag, spot: Spot, ledger: Ledger, levels: u64) -> Compared
        ensures { TaggedOf self.now tag spot ledger levels result }
    {
        let parts = self.past_tags(spot);
        match tag {
            FormulaTag::TopTag | FormulaTag::FalsityTag => equal(ledger, parts),
            FormulaTag::AndTag | FormulaTag::ImpliesTag | FormulaTag::OrTag => {
                let one = self.same_formulas(parts, ledger, levels);
                self.same_after(one, spot.under, levels)
            }
            FormulaTag::AllNamesTag | FormulaTag::AllTimesTag => {
                self.same_body(parts, ledger, levels)
            }
            FormulaTag::SaysTag => {
                let who = self.same_places(1, parts, ledger);
                self.same_after(who, spot.under, levels)
            }
            FormulaTag::AtTag => {
                let ends = self.same_places(2, parts, ledger);
                self.same_after(ends, spot.under, levels)
            }
            FormulaTag::AtomTag | FormulaTag::FactTag => self.same_heads(parts, ledger),
            FormulaTag::OrderTag => self.same_places(2, parts, ledger),
        }
    }

    // The spot after the tags at a spot.
    fn past_tags(&self, spot: Spot) -> Spot
        ensures { PastTags self.now spot result }
    {
        Spot {
            left: past(self.left.bytes, spot.left),
            right: past(self.right.bytes, spot.right),
            under: spot.under,
        }
    }

    // Whether the formulas under a binder are the same; a ninth binder stands nowhere.
    #[cycle(same_after_same_body_same_formulas_same_tagged)]
    fn same_body(&self, spot: Spot, ledger: Ledger, levels: u64) -> Compared
        ensures { BodiesOf self.now spot ledger levels result }
    {
        if MOST_BINDERS <= spot.under {
            return different(ledger, self.offset);
        }
        let body = Spot {
            left: spot.left,
            right: spot.right,
            under: spot.under + 1,
        };
        self.same_formulas(body, ledger, levels)
    }

    // What was compared before, and then the formulas that stand after it.
    #[cycle(same_after_same_body_same_formulas_same_tagged)]
    fn same_after(&self, before: Compared, under: usize, levels: u64) -> Compared
        ensures { RestsOf self.now before under levels result }
    {
        if !before.ledger.goes_on() {
            return before;
        }
        let rest = Spot {
            left: before.left_next,
            right: before.right_next,
            under,
        };
        self.same_formulas(rest, before.ledger, levels)
    }

    // Whether two predicates, counts and then the places are the same.
    fn same_heads(&self, spot: Spot, ledger: Ledger) -> Compared
        ensures { HeadsOf self.now spot ledger result }
    {
        let Some(one) = head_at(self.left.bytes, spot.left) else {
            return different(ledger, self.offset);
        };
        let Some(other) = head_at(self.right.bytes, spot.right) else {
            return different(ledger, self.offset);
        };
        if one.predicate != other.predicate {
            return different(ledger, self.offset);
        }
        if one.count != other.count {
            return different(ledger, self.offset);
        }
        let places = Spot {
            left: one.next,
            right: other.next,
            under: spot.under,
        };
        self.same_places(one.count, places, ledger)
    }

    // Whether so many places, one after another, are the same.
    fn same_places(&self, count: usize, spot: Spot, ledger: Ledger) -> Compared
        ensures { PlacesOf self.now count spot ledger result }
    {
        let left_terms = self.left.formula.terms;
        let right_terms = self.right.formula.terms;
        let mut now = ledger;
        let mut next = spot;
        for _ in 0..count {
            let one = place_if_any(self.left.bytes, next.left, left_terms, next.under);
            let Some((one, left)) = one else {
                return different(now, self.offset);
            };
            let other = place_if_any(self.right.bytes, next.right, right_terms, next.under);
            let Some((other, right)) = other else {
                return different(now, self.offset);
            };
            now = same_place(now, self.offset, one, other);
            next = Spot {
                left,
                right,
                under: next.under,
            };
        }
        equal(now, next)
    }
}

// The formulas are the same, and end at a spot.
fn equal(ledger: Ledger, spot: Spot) -> Compared
    ensures { result ≡ ended ledger spot }
{
    Compared {
        ledger,
        left_next: spot.left,
        right_next: spot.right,
    }
}

// The formulas differ.
fn different(ledger: Ledger, offset: usize) -> Compared
    ensures { (e e' : ℕ) → LeadsTo ledger (misfit offset) result e e' }
{
    Compared {
        ledger: ledger.misfit(offset),
        left_next: 0,
        right_next: 0,
    }
}

// Whether a name, a time or a variable is the other.
fn same_place(ledger: Ledger, offset: usize, one: Place, other: Place) -> Ledger
    ensures { Leads ledger (same_place offset (place_of one) (place_of other)) result }
{
    match one {
        Place::Bound(variable) => match other {
            Place::Bound(another) => same_number(ledger, offset, variable, another),
            Place::Fixed(_) => ledger.misfit(offset),
        },
        Place::Fixed(term) => match other {
            Place::Bound(_) => ledger.misfit(offset),
            Place::Fixed(another) => same_term(ledger, offset, term, another),
        },
    }
}

// Whether two numbers are equal.
fn same_number(ledger: Ledger, offset: usize, one: u64, other: u64) -> Ledger
    ensures { Leads ledger (need_equal offset one other) result }
{
    if one == other {
        ledger
    } else {
        ledger.misfit(offset)
    }
}

// Whether a name or a time is the other: a time by asking both orders.
fn same_term(ledger: Ledger, offset: usize, one: Term, other: Term) -> Ledger
    ensures { Leads ledger (same_place offset (fixed one) (fixed other)) result }
{
    match one {
        Term::Name(name) => match other {
            Term::Name(another) => same_number(ledger, offset, name as u64, another as u64),
            Term::When(_) => ledger.misfit(offset),
        },
        Term::When(time) => match other {
            Term::Name(_) => ledger.misfit(offset),
            Term::When(another) => {
                let asked = ask_order(ledger, offset, time, another);
                ask_order(asked, offset, another, time)
            }
        },
    }
}
