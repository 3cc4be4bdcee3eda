// The door on a procap text: the call of the desk firmware.
ghost use Rattle.std.specs.Prelude.{◌≡◌, ◌<◌};
ghost use Rattle.procap.specs.Procaps.{request_of};
ghost use Rattle.procap.specs.Answers.{place_of};
ghost use Rattle.procap.specs.Outcome.{answer_of};
ghost use Rattle.door.specs.Door.{opening_text, packed, request_in};

use crate::decide::{RequestNumbers, answer_of, before_facts, first_missing};
use procap::answer::Answer;
use text::facts::fact_on;
use text::reader::look_over;

// [D6, D7] What the door answers, as 256 times the number plus the place. 12 comes first, for bytes that are no text; a number that is no
// name is in no request.
pub fn procap_door(text: &[u8], who: u64, what: u64, right: u64, moment: u64, state: &[u8]) -> u64
    ensures { result ≡ packed (answer_of (opening_text text.now (request_of who what right) moment state.now)) }
{
    let request = RequestNumbers { who, what, right };
    as_number(answer_of(opening_text(text, request, moment, state)))
}

// What stops a press, or nothing: the facts are read again from their lines.
fn opening_text(
    text: &[u8],
    request: RequestNumbers,
    moment: u64,
    state: &[u8],
) -> Result<(), Answer>
    ensures { result ≡ opening_text text.now (request_in request) moment state.now }
{
    let seen = look_over(text).ok_or(Answer::ProcapMalformed)?;
    before_facts(seen.request, seen.from, seen.to, request, moment, state)?;
    let places = seen.lines.places();
    first_missing(places.len(), |i| fact_on(text, places[i]), moment, state)
}

// The answer as 256 times its number plus its place. The office's number (`from_c`) has a length and a place of 32 bits in it.
fn as_number(answer: Answer) -> u64
    requires { place_of answer < 256 }
    ensures { result ≡ packed answer }
{
    256 * answer.number() + answer.place() as u64
}
