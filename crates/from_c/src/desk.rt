// The desk's calls for C, beside the door on a text.
ghost use Rattle.std.specs.Prelude.{◌≡◌};
ghost use Rattle.procap.specs.Procaps.{request_of};
ghost use Rattle.procap.specs.Outcome.{answer_of};
ghost use Rattle.door.specs.Door.{opening_text};
ghost use Rattle.from_c.specs.Packing.{packed};
ghost use Rattle.from_c.specs.Calls.{value_opening_over, opened_of};

use crate::packing::as_number;
use crate::values::{VALUE_BYTES, value_of};
use door::on_value::open;
use procap::answer::Answer;
use procap::procap::Request;
use text::reader::read_text;

// What the door answers to a procap value, as one number: 12 for bytes that are no value.
pub fn desk_door_on_value(
    value: &[u8],
    who: u16,
    what: u16,
    right: u16,
    moment: u64,
    state: &[u8],
) -> u64
    ensures { result ≡ packed (answer_of (value_opening_over value who what right moment state)) 0 }
{
    if value.len() != VALUE_BYTES {
        return as_number(Answer::ProcapMalformed, 0);
    }
    let request = Request::of(who, what, right);
    as_number(open(value_of(value), request, moment, state), 0)
}

// How many of so many presses in a row go through, all of them with the same procap, at the same moment and in the same state. Its text is
// read once.
pub fn desk_presses(
    text: &[u8],
    who: u16,
    what: u16,
    right: u16,
    moment: u64,
    state: &[u8],
    presses: u64,
) -> u64
    ensures { result ≡ opened_of (opening_text text.now (request_of who what right) moment state.now) presses }
{
    let read = read_text(text);
    let Answer::Granted = read.answer else {
        return 0;
    };
    let request = Request::of(who, what, right);
    let mut opened: u64 = 0;
    for press in 0..presses {
        if let Answer::Granted = open(read.procap, request, moment, state) {
            opened += 1;
        }
    }
    opened
}
