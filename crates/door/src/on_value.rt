// The door on a procap value.
ghost use Rattle.std.specs.Prelude.{◌≡◌};
ghost use Rattle.procap.specs.Outcome.{answer_of};
ghost use Rattle.door.specs.Door.{opening, request_in};

use crate::decide::{RequestNumbers, answer_of, before_facts, first_missing};
use procap::answer::Answer;
use procap::procap::{Procap, Request};
use procap::writable::can_be_written;

// What the door answers to a press for the request, at a moment in a state. 12 comes first, for a value that cannot be written.
pub fn open(procap: Procap, request: Request, moment: u64, state: &[u8]) -> Answer
    ensures { result ≡ answer_of (opening procap request moment state.now) }
{
    let numbers = RequestNumbers {
        who: u64::from(request.who),
        what: u64::from(request.what),
        right: u64::from(request.right),
    };
    answer_of(opening(&procap, numbers, moment, state))
}

// What stops a press, or nothing.
fn opening(
    procap: &Procap,
    request: RequestNumbers,
    moment: u64,
    state: &[u8],
) -> Result<(), Answer>
    ensures { result ≡ opening procap.now (request_in request) moment state.now }
{
    if !can_be_written(*procap) {
        return Err(Answer::ProcapMalformed);
    }
    before_facts(
        procap.request,
        procap.from,
        procap.to,
        request,
        moment,
        state,
    )?;
    first_missing(procap.count, |i| procap.facts[i], moment, state)
}
