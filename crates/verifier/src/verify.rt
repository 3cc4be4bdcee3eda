// Verify, and the direct check.
ghost use Rattle.std.specs.Prelude.{◌≡◌, ◌≤◌, length};
ghost use Rattle.procap.specs.Outcome.{answer_of, procap_handed};
ghost use Rattle.bl.specs.Rules.{goal};
ghost use Rattle.bl.specs.Calls.{issue};
ghost use Rattle.ledger.specs.Books.{book, Sound, kept_of};
ghost use Rattle.formula.specs.PutIn.{no_terms};
ghost use Rattle.formula.specs.Meaning.{Means};
ghost use Rattle.judging.specs.RowsOf.{all_numbers};
ghost use Rattle.steps.specs.Ends.{most_ends};
ghost use Rattle.verifier.specs.Verifying.{WalkedOver, WalkedBy, CaseRead, verified_over, directly_over};

use crate::certificates::take_records;
use bl::Certificate;
use formula::parts::Judgement;
use judging::judge::Scope;
use judging::rows::ALL_NUMBERS;
use ledger::facts::FactList;
use ledger::{Ledger, Reading};
use procap::answer::Answer;
use procap::procap::{Procap, Request};
use procap::time::LATEST_SECOND;
use steps::ends::MOST_ENDS;
use steps::{MOST_PROOF_LEVELS, well_formed};
use strength::MOST_PAIRS;
use strength::table::Strengths;
use walk::{Goal, Here, Sources};

// How many bytes the goal of a request takes.
pub const GOAL_BYTES: usize = 17;

// What verify answers, and the procap that it hands over. It is no Result: a refusal hands over the empty procap, too.
#[derive(Clone, Copy)]
pub struct Verified {
    pub answer: Answer,
    pub procap: Procap,
}

// What is asked of a proof: whether it shows a request, at the office or at a press.
#[derive(Clone, Copy)]
struct Asked {
    pub request: Request,
    pub reading: Reading,
}

// Whether the proof shows the request from the certificates and the pairs, and the procap for it. Each number of the pairs is
// one: the stronger principal times 65,536, and the weaker.
#[tactic(auto, unfolding(procap::specs::Outcome::answer_of, procap::specs::Outcome::procap_handed))]
pub fn verify(
    request: Request,
    certificates: &[Certificate],
    buffer: &[u8],
    pairs: &[u32],
    proof: &[u8],
) -> Verified
    ensures answer { result.answer ≡ answer_of (verified_over request certificates.now buffer pairs proof) }
    ensures procap { result.procap ≡ procap_handed (verified_over request certificates.now buffer pairs proof) }
{
    match procap_for(request, certificates, buffer, pairs, proof) {
        Ok(procap) => Verified {
            answer: Answer::Granted,
            procap,
        },
        Err(answer) => Verified {
            answer,
            procap: Procap::empty(),
        },
    }
}

// The procap for what the proof shows, or the answer that refuses it.
fn procap_for<'a>(
    request: Request,
    certificates: &[Certificate],
    buffer: &'a [u8],
    pairs: &[u32],
    proof: &'a [u8],
) -> Result<Procap, Answer>
    ensures { result ≡ verified_over request certificates.now buffer pairs proof }
{
    let mut rows = [0u64; ALL_NUMBERS];
    let mut ends = [0u16; MOST_ENDS];
    read_case(certificates, buffer, pairs, proof, &mut rows, &mut ends)?;
    let mut facts = FactList::none();
    let asked = Asked {
        request,
        reading: Reading::Office,
    };
    let at_office = Sources {
        buffer,
        proof,
        state: b"",
        certificates: &rows,
        strengths: None,
        ends: &ends,
    };
    let ledger = walked(asked, pairs, at_office, &mut facts);
    ledger.stop()?;
    issued(request, ledger, &facts)
}

// The procap of what is kept, unless no moment is left.
fn issued(request: Request, ledger: Ledger, facts: &FactList) -> Result<Procap, Answer>
    ensures { Sound (book ledger facts.now) → result ≡ issue request (kept_of (book ledger facts.now)) }
{
    if ledger.to < ledger.from {
        return Err(Answer::NoMomentLeft);
    }
    Ok(facts.procap(request, ledger))
}

// Whether the proof, checked at a moment in a state, is accepted there.
#[tactic(auto, unfolding(procap::specs::Outcome::answer_of))]
pub fn direct(
    request: Request,
    certificates: &[Certificate],
    buffer: &[u8],
    pairs: &[u32],
    proof: &[u8],
    moment: u64,
    state: &[u8],
) -> Answer
    ensures { result ≡ answer_of (directly_over request certificates.now buffer pairs proof moment state) }
{
    match accepted(request, certificates, buffer, pairs, proof, moment, state) {
        Ok(()) => Answer::Granted,
        Err(answer) => answer,
    }
}

// Whether the proof is accepted there, or the answer that refuses it.
fn accepted<'a>(
    request: Request,
    certificates: &[Certificate],
    buffer: &'a [u8],
    pairs: &[u32],
    proof: &'a [u8],
    moment: u64,
    state: &'a [u8],
) -> Result<(), Answer>
    ensures { result ≡ directly_over request certificates.now buffer pairs proof moment state }
{
    let mut rows = [0u64; ALL_NUMBERS];
    let mut ends = [0u16; MOST_ENDS];
    read_case(certificates, buffer, pairs, proof, &mut rows, &mut ends)?;
    if LATEST_SECOND < moment {
        return Err(Answer::MomentAboveLatest);
    }
    if !state::well_formed(state) {
        return Err(Answer::StateMalformed);
    }
    let mut facts = FactList::none();
    let asked = Asked {
        request,
        reading: Reading::Press(moment),
    };
    let at_press = Sources {
        buffer,
        proof,
        state,
        certificates: &rows,
        strengths: None,
        ends: &ends,
    };
    let ledger = walked(asked, pairs, at_press, &mut facts);
    ledger.stop()
}

// Reads the certificates, the pairs and the proof, and in this order refuses what is malformed. The rows are then those of the
// certificates, and the table has where the second part of each 26 ends.
fn read_case(
    certificates: &[Certificate],
    buffer: &[u8],
    pairs: &[u32],
    proof: &[u8],
    rows: &mut [u64],
    ends: &mut [u16],
) -> Result<(), Answer>
    requires rows { length rows.old ≡ all_numbers }
    requires ends { most_ends ≤ length ends.old }
    ensures { CaseRead certificates.now buffer.now pairs.now proof.now rows.new ends.new result }
{
    take_records(certificates, buffer, rows)?;
    if MOST_PAIRS < pairs.len() {
        return Err(Answer::TooManyPairs);
    }
    if !well_formed(proof, certificates.len(), ends) {
        return Err(Answer::ProofMalformed);
    }
    Ok(())
}

// The ledger at the end of the walk for what is asked, by the strengths that the pairs give, in place of those lent. They are found
// once; with no pair there is nothing to find.
fn walked(asked: Asked, pairs: &[u32], sources: Sources<'_, '_, '_>, facts: &mut FactList) -> Ledger
    ensures { WalkedOver asked pairs sources.entry facts result }
{
    if pairs.is_empty() {
        let without = Sources {
            strengths: None,
            ..sources
        };
        return walked_by(asked, &without, facts);
    }
    let mut strengths = Strengths::none();
    strengths.find(pairs);
    let with = Sources {
        strengths: Some(&strengths),
        ..sources
    };
    walked_by(asked, &with, facts)
}

// The same, by the strengths that are lent.
fn walked_by(asked: Asked, sources: &Sources<'_, '_, '_>, facts: &mut FactList) -> Ledger
    ensures { WalkedBy asked sources.now facts result }
{
    let bytes = goal_of(asked.request);
    let goal = Goal {
        bytes: &bytes,
        judgement: Judgement::front_on_ctime(),
    };
    let here = Here {
        scope: Scope::outermost(),
        at: 0,
        ledger: Ledger::begin(asked.reading),
        left: MOST_PROOF_LEVELS,
    };
    let mut assumptions = [0u64; ALL_NUMBERS];
    let checked = sources.check(facts, &mut assumptions, &goal, here);
    checked.ledger
}

// The goal of a request as a formula in bytes: 1 says 100(who, what, right).
fn goal_of(request: Request) -> [u8; GOAL_BYTES]
    ensures { Means result 0 (record { at = 0; terms = no_terms }) (goal request) }
{
    [
        0x15,
        0x00,
        0x00,
        0x01,
        0x17,
        0x00,
        0x64,
        0x03,
        0x00,
        (request.who / 256) as u8,
        (request.who % 256) as u8,
        0x00,
        (request.what / 256) as u8,
        (request.what % 256) as u8,
        0x00,
        (request.right / 256) as u8,
        (request.right % 256) as u8,
    ]
}
