// Whether a part holds one formula: where the formula at a place ends, by recursion on the level left.
ghost use Rattle.std.specs.Prelude.{◌≡◌, List};
ghost use Rattle.procap.specs.Tells.{Tells};
ghost use Rattle.procap.specs.Bytes.{many, predicate_and};
ghost use Rattle.bl.specs.declared.Sort.{Sort};
ghost use Rattle.bl.specs.Trees.{Formula};
ghost use Rattle.bl.specs.Formulas.{fixed_by, place_by, argument, place, formula, formula_in};
ghost use Rattle.formula.specs.Ends.{Ends, PlaceEnds, two_times};
ghost use Rattle.formula.specs.PartPromises.{BodyEnds, SidesEnd};

use crate::binders::Binders;
use crate::parts::tag_at;
use crate::terms::MOST_FORMULA_LEVELS;
use bl::{FormulaTag, Sort};
use procap::bytes::{number_at, past, term_by};
use procap::fact::{MOST_TERMS, Term};
use procap::tag::TermTag;

// Whether the part holds one formula that fills it.
pub fn holds_formula(part: &[u8]) -> bool
    ensures { Tells result ((A : Formula) × (formula_in part.now ≡ Some A)) }
{
    formula_end(part, &Binders::none(), 0, MOST_FORMULA_LEVELS) == Some(part.len())
}

// Where the formula at a place ends that has at most `left` levels.
#[cycle(body_end_formula_end_sides_end)]
fn formula_end(part: &[u8], binders: &Binders, at: usize, left: u64) -> Option<usize>
    ensures { Ends (formula part.now left binders.now at) result }
{
    if left == 0 {
        return None;
    }
    let below = left - 1;
    let after = past(part, at);
    match tag_at(part, at)? {
        FormulaTag::TopTag | FormulaTag::FalsityTag => Some(after),
        FormulaTag::AndTag | FormulaTag::ImpliesTag | FormulaTag::OrTag => {
            sides_end(part, binders, after, below)
        }
        FormulaTag::AllNamesTag => body_end(part, binders, Sort::Names, after, below),
        FormulaTag::AllTimesTag => body_end(part, binders, Sort::Times, after, below),
        FormulaTag::SaysTag => {
            let who = place_end(part, binders, Sort::Names, after)?;
            formula_end(part, binders, who, below)
        }
        FormulaTag::AtTag => {
            let interval = two_times_end(part, binders, after)?;
            formula_end(part, binders, interval, below)
        }
        FormulaTag::AtomTag | FormulaTag::FactTag => arguments_end(part, binders, after),
        FormulaTag::OrderTag => two_times_end(part, binders, after),
    }
}

// Where the two sides of a formula end, one after the other.
#[cycle(body_end_formula_end_sides_end)]
fn sides_end(part: &[u8], binders: &Binders, at: usize, left: u64) -> Option<usize>
    ensures { SidesEnd part binders.now at left result }
{
    let middle = formula_end(part, binders, at, left)?;
    formula_end(part, binders, middle, left)
}

// Where the formula under one binder more ends, if that is no ninth.
#[cycle(body_end_formula_end_sides_end)]
fn body_end(part: &[u8], binders: &Binders, sort: Sort, at: usize, left: u64) -> Option<usize>
    ensures { BodyEnds part binders.now sort at left result }
{
    let inside = binders.with(sort)?;
    formula_end(part, &inside, at, left)
}

// Where two times end, one after the other.
fn two_times_end(part: &[u8], binders: &Binders, at: usize) -> Option<usize>
    ensures { Ends (two_times part.now binders.now at) result }
{
    let middle = place_end(part, binders, Sort::Times, at)?;
    place_end(part, binders, Sort::Times, middle)
}

// Where a place of this sort ends.
fn place_end(part: &[u8], binders: &Binders, wanted: Sort, at: usize) -> Option<usize>
    ensures { Ends (place part.now wanted binders.now at) result }
{
    let (sort, next) = argument_end(part, binders, at)?;
    if sort == wanted { Some(next) } else { None }
}

// Where a predicate and its arguments end.
fn arguments_end(part: &[u8], binders: &Binders, at: usize) -> Option<usize>
    ensures { Ends (predicate_and part.now (argument part.now binders.now) at) result }
{
    let (_, after_predicate) = number_at::<2>(part, at)?;
    let (count, after_count) = number_at::<1>(part, after_predicate)?;
    let terms = count as usize;
    if MOST_TERMS < terms {
        return None;
    }
    many_end(part, binders, terms, after_count)
}

// Where so many arguments end, one after the other.
fn many_end(part: &[u8], binders: &Binders, count: usize, at: usize) -> Option<usize>
    ensures { Ends (many (argument part.now binders.now) count at) result }
{
    let mut next = at;
    for _ in 0..count {
        (_, next) = argument_end(part, binders, next)?;
    }
    Some(next)
}

// Where an argument ends, and of which sort it is.
fn argument_end(part: &[u8], binders: &Binders, at: usize) -> Option<(Sort, usize)>
    ensures { PlaceEnds binders.now (argument part.now binders.now at) result }
{
    let (byte, after) = number_at::<1>(part, at)?;
    let tag = TermTag::try_from(byte as u8).ok()?;
    match tag {
        TermTag::NameTag
        | TermTag::MomentTag
        | TermTag::MinusInfinityTag
        | TermTag::PlusInfinityTag => fixed_end(part, tag, after),
        TermTag::VariableTag => variable_end(part, binders, after),
        TermTag::CtimeTag => None,
    }
}

// Where the term of a tag ends, and of which sort it is.
fn fixed_end(part: &[u8], tag: TermTag, at: usize) -> Option<(Sort, usize)>
    ensures { (sorts : List Sort) → PlaceEnds sorts (fixed_by part.now tag at) result }
{
    let (term, next) = term_by(part, tag, at)?;
    match term {
        Term::Name(_) => Some((Sort::Names, next)),
        Term::When(_) => Some((Sort::Times, next)),
    }
}

// Where a variable ends, and the sort of its binder.
fn variable_end(part: &[u8], binders: &Binders, at: usize) -> Option<(Sort, usize)>
    ensures { PlaceEnds binders.now (place_by part.now binders.now TermTag.VariableTag at) result }
{
    let (index, next) = number_at::<1>(part, at)?;
    let sort = binders.sort(index as usize)?;
    Some((sort, next))
}
