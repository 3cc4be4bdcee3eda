// Whether a fact holds in a state: a pass that ends at the fact that is asked. One with another predicate is passed by its width, unread.
ghost use Rattle.std.specs.Prelude.{◌≡◌, List, ℕ, ◌+◌, ◌≤◌, Some};
ghost use Rattle.procap.specs.Tells.{Tells};
ghost use Rattle.procap.specs.Facts.{Spelled, spelled};
ghost use Rattle.procap.specs.Procaps.{HoldsAt};
ghost use Rattle.procap.specs.States.{settled_term, fact, stated};
ghost use Rattle.door.specs.Holding.{StandsAt};

use procap::bytes::number_at;
use procap::fact::{Fact, Term};
use procap::tag::TermTag;
use state::fact_at;

// Whether the fact, with the moment put for ctime, stands in a state. Of bytes that are no state the answer says nothing. Facts have
// several lengths, so the loop goes from place to place.
pub(crate) fn holds_at(state: &[u8], wanted: Fact, moment: u64) -> bool
    ensures { (σ : List Spelled) → stated state.now ≡ Some σ → Tells result (HoldsAt moment σ (spelled wanted)) }
{
    let mut at: usize = 0;
    while let Some((predicate, after_predicate)) = number_at::<2>(state, at) {
        if predicate as u16 == wanted.predicate && stands_at(state, at, wanted, moment) {
            return true;
        }
        at = past_terms(state, after_predicate);
    }
    false
}

// Whether the fact at a place of the state is this one, with the moment put for ctime.
fn stands_at(state: &[u8], at: usize, wanted: Fact, moment: u64) -> bool
    ensures { StandsAt state.now at wanted moment result }
{
    let Some((fact, _)) = fact_at(state, at) else {
        return false;
    };
    wanted.same_at(moment, fact)
}

// Where a fact ends, from the place after its predicate.
fn past_terms(state: &[u8], at: usize) -> usize
    ensures ends { (f : Spelled) (start e : ℕ) → start + 2 ≡ at → fact state.now start ≡ Some (f, e) → result ≡ e }
    ensures onwards { at ≤ result }
{
    let Some((count, after_count)) = number_at::<1>(state, at) else {
        return at;
    };
    let mut next = after_count;
    for _ in 0..count {
        next = past_term(state, next);
    }
    next
}

// Where the term at a place of the state ends.
fn past_term(state: &[u8], at: usize) -> usize
    ensures ends { (t : Term) (e : ℕ) → settled_term state.now at ≡ Some (t, e) → result ≡ e }
    ensures onwards { at ≤ result }
{
    let Some(byte) = state.get(at) else {
        return at;
    };
    let Ok(tag) = TermTag::try_from(*byte) else {
        return at + 1;
    };
    match tag {
        TermTag::NameTag => at + 3,
        TermTag::MomentTag => at + 6,
        TermTag::MinusInfinityTag
        | TermTag::PlusInfinityTag
        | TermTag::CtimeTag
        | TermTag::VariableTag => at + 1,
    }
}
