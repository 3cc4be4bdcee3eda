// The state of the machine: whether its bytes are well formed, whether a fact stands in it, and which fact stands at a place.
#![tactic(auto)]

ghost use Rattle.std.specs.Prelude.{◌≡◌, ◌≤◌, None, option_map};
ghost use Rattle.procap.specs.Tells.{Tells};
ghost use Rattle.procap.specs.Facts.{spelled, most_terms};
ghost use Rattle.procap.specs.Bytes.{many};
ghost use Rattle.procap.specs.Reading.{FactReads, with_predicate};
ghost use Rattle.procap.specs.States.{settled, settled_term, fact, stated};
ghost use Rattle.state.specs.Standing.{WellFormed, Stands, Finds};

use procap::bytes::{number_at, term_by};
use procap::fact::{Argument, Fact, MOST_TERMS, Term};
use procap::tag::TermTag;

// How many bytes a state has at the most.
pub const MOST_STATE_BYTES: usize = 4_096;

// Whether the bytes are a state. A pass that looks for any fact tells so, here for the one of zeros. (One that took a closure would be no
// plainer: its contract would have to say what the closure answers of each fact.)
pub fn well_formed(state: &[u8]) -> bool
    ensures { Tells result (WellFormed state.now) }
{
    find(state, Fact::none()).is_some()
}

// Whether the fact stands in the state. In bytes that are no state none does.
pub fn stands_in(state: &[u8], wanted: Fact) -> bool
    ensures { Tells result (Stands state.now (spelled wanted)) }
{
    find(state, wanted).unwrap_or(false)
}

// Whether the fact stands in the whole state; nothing of bytes that are no state. (Each fact tells where the next begins, so the loop
// counts nothing that a `for` could count.)
fn find(state: &[u8], wanted: Fact) -> Option<bool>
    ensures { Finds (stated state.now) (spelled wanted) result }
{
    if MOST_STATE_BYTES < state.len() {
        return None;
    }
    let mut found = false;
    let mut at: usize = 0;
    while at < state.len() {
        let (fact, next) = fact_at(state, at)?;
        if fact.same(wanted) {
            found = true;
        }
        at = next;
    }
    Some(found)
}

// The fact at a place of the state, and the place after it.
pub fn fact_at(state: &[u8], at: usize) -> Option<(Fact, usize)>
    ensures { FactReads (fact state.now at) result }
{
    let (predicate, after_predicate) = number_at::<2>(state, at)?;
    let (count, after_count) = number_at::<1>(state, after_predicate)?;
    let terms = count as usize;
    if MOST_TERMS < terms {
        return None;
    }
    let mut next = after_count;
    let fact = fact_with(state, predicate as u16, terms, &mut next)?;
    Some((fact, next))
}

// The fact of a predicate and the terms at a place of the state. The place is lent, and moves behind the terms; where one is missing it
// stays.
fn fact_with(state: &[u8], predicate: u16, terms: usize, at: &mut usize) -> Option<Fact>
    requires { terms ≤ most_terms }
    ensures reads { FactReads (with_predicate predicate (many (settled_term state.now) terms at.old)) (option_map (λ f. (f, at.new)) result) }
    ensures stays { result ≡ None → at.new ≡ at.old }
{
    let zero = Argument {
        term: Term::Name(0),
    };
    let mut arguments = [zero; MOST_TERMS];
    let mut next = *at;
    for argument in &mut arguments[..terms] {
        (argument.term, next) = settled_term_at(state, next)?;
    }
    *at = next;
    Some(Fact {
        predicate,
        count: terms,
        arguments,
    })
}

// The term at a place of the state: a name, a moment or an infinity.
fn settled_term_at(state: &[u8], at: usize) -> Option<(Term, usize)>
    ensures { result ≡ settled_term state.now at }
{
    let tag = TermTag::try_from(*state.get(at)?).ok()?;
    if !is_settled(tag) {
        return None; // a ctime, or a variable
    }
    term_by(state, tag, at + 1)
}

// Whether a state may hold a term of this tag.
#[tactic(auto, unfolding(procap::specs::States::settled))]
fn is_settled(tag: TermTag) -> bool
    ensures { result ≡ settled tag }
{
    match tag {
        TermTag::NameTag
        | TermTag::MomentTag
        | TermTag::MinusInfinityTag
        | TermTag::PlusInfinityTag => true,
        TermTag::CtimeTag | TermTag::VariableTag => false,
    }
}
