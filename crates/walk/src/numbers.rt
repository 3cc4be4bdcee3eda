// The same walk over plain numbers that a caller lends: strengths, and the list of facts.
ghost use Rattle.walk.specs.WalkCalls.{KeepsRows};
ghost use Rattle.walk.specs.Numbers.{sources, Checks};

use crate::{Goal, Here};
use ledger::facts::FactList;
use ledger::numbers::Counted;
use strength::table::Strengths;

// What is lent all through a walk, with the strengths in numbers.
#[derive(Clone, Copy)]
pub struct Sources<'a> {
    pub buffer: &'a [u8],
    pub proof: &'a [u8],
    pub state: &'a [u8],
    pub certificates: &'a [u64],
    pub strengths: &'a [u64],
    pub ends: &'a [u16],
}

// What a step that checks leaves: the ledger with its count, and where it ends. Where the ledger has stopped, the end says nothing.
#[derive(Clone, Copy)]
pub struct Checked {
    pub counted: Counted,
    pub next: usize,
}

// Whether the step at a place, of at most so many levels, checks the goal; so many facts are listed in the numbers.
pub fn check(
    lent: &Sources<'_>,
    facts: &mut [u64],
    count: usize,
    assumptions: &mut [u64],
    goal: &Goal<'_>,
    here: Here,
) -> Checked
    ensures walks { Checks (sources lent.now) facts count assumptions goal.now here result }
    ensures keeps { KeepsRows here assumptions }
{
    let found = Strengths::of_numbers(lent.strengths);
    let sources = crate::Sources {
        buffer: lent.buffer,
        proof: lent.proof,
        state: lent.state,
        certificates: lent.certificates,
        strengths: found.as_ref(),
        ends: lent.ends,
    };
    let mut list = FactList::of_numbers(facts, count);
    let checked = sources.check(&mut list, assumptions, goal, here);
    list.put_in(facts);
    Checked {
        counted: Counted {
            ledger: checked.ledger,
            count: list.count(),
        },
        next: checked.next,
    }
}
