// The same steps over plain numbers that a caller lends: strengths, and the list of facts; and the two sides of a conjunction.
ghost use Rattle.std.specs.Prelude.{◌≡◌};
ghost use Rattle.judging.specs.Judging.{first_side, second_side};
ghost use Rattle.judging.specs.StepPromises.{Continues};
ghost use Rattle.judging.specs.Numbers.{UsesLocal, UsesCertificate, UsesLocalInNumbers, UsesCertificateInNumbers, ContinuesInNumbers, MeetsFact};

use crate::judge;
use crate::judge::{Inferred, Scope, Side, conjunct};
use formula::parts::Judgement;
use ledger::Ledger;
use ledger::facts::FactList;
use ledger::numbers::Counted;
use strength::table::Strengths;

// 20: an assumption as it stands, by strengths in numbers.
pub fn local(
    proof: &[u8],
    assumptions: &[u64],
    strengths: &[u64],
    scope: Scope,
    offset: usize,
    ledger: Ledger,
) -> Inferred
    ensures listed { UsesLocal proof.now assumptions.now strengths.now scope offset ledger result }
    ensures counted { UsesLocalInNumbers proof.now assumptions.now strengths.now scope offset ledger result }
{
    let found = Strengths::of_numbers(strengths);
    judge::local(proof, assumptions, found.as_ref(), scope, offset, ledger)
}

// 21: a certificate, by strengths in numbers.
pub fn certificate(
    proof: &[u8],
    certificates: &[u64],
    strengths: &[u64],
    scope: Scope,
    offset: usize,
    ledger: Ledger,
) -> Inferred
    ensures listed { UsesCertificate proof.now certificates.now strengths.now scope offset ledger result }
    ensures counted { UsesCertificateInNumbers proof.now certificates.now strengths.now scope offset ledger result }
{
    let found = Strengths::of_numbers(strengths);
    judge::certificate(proof, certificates, found.as_ref(), scope, offset, ledger)
}

// 23: the first side of the conjunction that was inferred.
pub fn first(buffer: &[u8], offset: usize, inferred: Inferred) -> Inferred
    ensures listed { Continues buffer.now inferred (first_side offset) result }
    ensures counted { ContinuesInNumbers buffer.now inferred (first_side offset) result }
{
    conjunct(buffer, offset, Side::First, inferred)
}

// 24: the second side of the conjunction that was inferred.
pub fn second(buffer: &[u8], offset: usize, inferred: Inferred) -> Inferred
    ensures listed { Continues buffer.now inferred (second_side offset) result }
    ensures counted { ContinuesInNumbers buffer.now inferred (second_side offset) result }
{
    conjunct(buffer, offset, Side::Second, inferred)
}

// 2C: the goal must be a state fact, and hold; the list of facts is numbers, and counted beside the ledger.
pub fn state_fact(
    bytes: &[u8],
    state: &[u8],
    facts: &mut [u64],
    offset: usize,
    goal: Judgement,
    counted: Counted,
) -> Counted
    ensures { MeetsFact bytes.now state.now facts.old offset goal counted result facts.new }
{
    let mut list = FactList::of_numbers(facts, counted.count);
    let ledger = judge::state_fact(bytes, state, &mut list, offset, goal, counted.ledger);
    list.put_in(facts);
    Counted {
        ledger,
        count: list.count(),
    }
}
