// Formulas as they stand in bytes, taken apart: their tags, what stands where a term may, and where a formula ends.
ghost use Rattle.std.specs.Prelude.{◌≡◌, ◌≤◌, IfSome};
ghost use Rattle.procap.specs.Tells.{Tells};
ghost use Rattle.procap.specs.Facts.{most_terms};
ghost use Rattle.formula.specs.Meaning.{tag_of, PlaceReads, PlaceEnds, PlaceReadsIfAny, PlaceEndsIfAny, HeadReads, FormulaEnds, FormulaEndsIfAny};
ghost use Rattle.formula.specs.PartPromises.{front_on_ctime, FixedReads, VariableReads, FactSpelled, HeadSpelled, PlacesEnd, HeadEnds};

use crate::terms::{Place, Terms};
use bl::FormulaTag;
use procap::bytes::{number_at, past, term_by};
use procap::fact::{Argument, Fact, MOST_TERMS, Term};
use procap::tag::TermTag;
use procap::time::Time;

// A formula as it stands in bytes: where it begins, and the terms put in for the binders passed.
#[derive(Clone, Copy)]
pub struct FormulaAt {
    pub at: usize,
    pub terms: Terms,
}

// A formula on an interval.
#[derive(Clone, Copy)]
pub struct Judgement {
    pub formula: FormulaAt,
    pub from: Time,
    pub to: Time,
}

impl Judgement {
    // The formula at the front of its bytes with no terms put in, on [ctime,ctime].
    pub fn front_on_ctime() -> Judgement
        ensures { result ≡ front_on_ctime }
    {
        Judgement {
            formula: FormulaAt {
                at: 0,
                terms: Terms::none(),
            },
            from: Time::ctime(),
            to: Time::ctime(),
        }
    }
}

// What stands where a term may, and the place after it.
#[derive(Clone, Copy)]
pub struct PlaceRead {
    pub place: Place,
    pub next: usize,
}

// The tag of the formula at a place, if there is one; past the end there is none.
pub fn tag_at(bytes: &[u8], at: usize) -> Option<FormulaTag>
    ensures { result ≡ tag_of bytes.now at }
{
    FormulaTag::try_from(*bytes.get(at)?).ok()
}

// Whether the formula at a place has this tag.
pub fn is_a(bytes: &[u8], at: usize, wanted: FormulaTag) -> bool
    ensures { Tells result (tag_of bytes.now at ≡ Some wanted) }
{
    tag_at(bytes, at) == Some(wanted)
}

// What stands at a place where a term may, with the terms put in, and the place after it; where nothing is read, the variable 0 and the
// same place, which say nothing.
pub fn place_at(bytes: &[u8], at: usize, terms: Terms, under: usize) -> PlaceRead
    ensures place { PlaceReads bytes.now at terms under result.place }
    ensures next { PlaceEnds bytes.now at result.next }
{
    let (place, next) = place_if_any(bytes, at, terms, under).unwrap_or((Place::Bound(0), at));
    PlaceRead { place, next }
}

// The same, if something is read there.
pub fn place_if_any(bytes: &[u8], at: usize, terms: Terms, under: usize) -> Option<(Place, usize)>
    ensures { PlaceReadsIfAny bytes.now at terms under result }
{
    let (byte, after) = number_at::<1>(bytes, at)?;
    let tag = TermTag::try_from(byte as u8).ok()?;
    match tag {
        TermTag::NameTag
        | TermTag::MomentTag
        | TermTag::MinusInfinityTag
        | TermTag::PlusInfinityTag => fixed_by(bytes, tag, after),
        TermTag::VariableTag => variable_at(bytes, after, terms, under),
        TermTag::CtimeTag => None,
    }
}

// The term that a tag announces, after the tag.
fn fixed_by(bytes: &[u8], tag: TermTag, at: usize) -> Option<(Place, usize)>
    ensures { FixedReads bytes tag at result }
{
    let (term, next) = term_by(bytes, tag, at)?;
    Some((Place::Fixed(term), next))
}

// The variable at a place, or what was put in for it.
fn variable_at(bytes: &[u8], at: usize, terms: Terms, under: usize) -> Option<(Place, usize)>
    ensures { VariableReads bytes at terms under result }
{
    let (variable, next) = number_at::<1>(bytes, at)?;
    Some((terms.look_up(under, variable as usize), next))
}

// The predicate at a place, the count after it, and where the terms begin.
#[derive(Clone, Copy)]
pub struct Head {
    pub predicate: u16,
    pub count: usize,
    pub next: usize,
}

// The predicate and the count of an atom or a fact, from the place after its tag.
pub(crate) fn head_at(bytes: &[u8], at: usize) -> Option<Head>
    ensures { HeadReads bytes.now at result }
{
    let (predicate, after_predicate) = number_at::<2>(bytes, at)?;
    let (count, next) = number_at::<1>(bytes, after_predicate)?;
    Some(Head {
        predicate: predicate as u16,
        count: count as usize,
        next,
    })
}

// The fact that a formula is, if no variable is left in it.
pub fn fact_at(bytes: &[u8], formula: FormulaAt) -> Option<Fact>
    ensures spells { FactSpelled bytes formula result }
    ensures few { IfSome result (λ f. f.count ≤ most_terms) }
{
    let head = head_at(bytes, past(bytes, formula.at))?;
    if MOST_TERMS < head.count {
        return None;
    }
    fact_with(bytes, head, formula.terms)
}

// The fact of a predicate and the places behind it, if no variable is left in them.
fn fact_with(bytes: &[u8], head: Head, terms: Terms) -> Option<Fact>
    requires { head.count ≤ most_terms }
    ensures spells { HeadSpelled bytes head terms result }
    ensures few { IfSome result (λ f. f.count ≤ most_terms) }
{
    let zero = Argument {
        term: Term::Name(0),
    };
    let mut arguments = [zero; MOST_TERMS];
    let mut next = head.next;
    for i in 0..head.count {
        let (place, after) = place_if_any(bytes, next, terms, 0)?;
        let Place::Fixed(term) = place else {
            return None;
        };
        arguments[i] = Argument { term };
        next = after;
    }
    Some(Fact {
        predicate: head.predicate,
        count: head.count,
        arguments,
    })
}

// Where what stands at a place ends.
pub(crate) fn past_place(bytes: &[u8], at: usize) -> Option<usize>
    ensures { PlaceEndsIfAny bytes.now at result }
{
    let (_, next) = place_if_any(bytes, at, Terms::none(), 0)?;
    Some(next)
}

// Where so many of them end, one after another.
fn past_places(bytes: &[u8], at: usize, count: usize) -> Option<usize>
    ensures { PlacesEnd bytes at count result }
{
    let mut next = at;
    for _ in 0..count {
        next = past_place(bytes, next)?;
    }
    Some(next)
}

// Where an atom or a fact ends, from the place after its tag.
fn past_head(bytes: &[u8], at: usize) -> Option<usize>
    ensures { HeadEnds bytes at result }
{
    let head = head_at(bytes, at)?;
    past_places(bytes, head.next, head.count)
}

// Where a formula of at most so many levels ends; where none is read, the same place.
pub fn past_formula(bytes: &[u8], at: usize, left: u64) -> usize
    ensures { FormulaEnds bytes.now left at result }
{
    past_formula_if_any(bytes, at, left).unwrap_or(at)
}

// The same, if a formula is read there. (`ends::formula_end` asks of each place its sort besides, of bytes that may be no
// formula; here they are one, and no binders are carried along.)
pub fn past_formula_if_any(bytes: &[u8], at: usize, left: u64) -> Option<usize>
    ensures { FormulaEndsIfAny bytes.now left at result }
{
    if left == 0 {
        return None;
    }
    let lower = left - 1;
    let after = past(bytes, at);
    match tag_at(bytes, at)? {
        FormulaTag::TopTag | FormulaTag::FalsityTag => Some(after),
        FormulaTag::AndTag | FormulaTag::ImpliesTag | FormulaTag::OrTag => {
            let middle = past_formula_if_any(bytes, after, lower)?;
            past_formula_if_any(bytes, middle, lower)
        }
        FormulaTag::AllNamesTag | FormulaTag::AllTimesTag => past_formula_if_any(
            bytes, after, lower,
        ),
        FormulaTag::SaysTag => {
            let who = past_place(bytes, after)?;
            past_formula_if_any(bytes, who, lower)
        }
        FormulaTag::AtTag => {
            let from = past_place(bytes, after)?;
            let to = past_place(bytes, from)?;
            past_formula_if_any(bytes, to, lower)
        }
        FormulaTag::AtomTag | FormulaTag::FactTag => past_head(bytes, after),
        FormulaTag::OrderTag => {
            let one = past_place(bytes, after)?;
            past_place(bytes, one)
        }
    }
}
