// The office's calls for C.
ghost use Rattle.std.specs.Prelude.{◌≡◌, length};
ghost use Rattle.procap.specs.Outcome.{answer_of};
ghost use Rattle.text.specs.Calls.{buffer_left};
ghost use Rattle.cases.specs.Calls.{answering};
ghost use Rattle.from_c.specs.Packing.{packed, packed_text};
ghost use Rattle.from_c.specs.Calls.{verifying_over, checking_over, rewriting, value_writing_over};

use crate::packing::as_number;
use crate::pairs::pair_numbers;
use crate::records::records_in;
use crate::values::{VALUE_BYTES, value_of};
use cases::answering::answer_case;
use procap::answer::Answer;
use procap::procap::Request;
use text::reader::read_text;
use text::writer::write_text;
use verifier::verify::{direct, verify};

// Verifies, and puts the text of the procap at the front of the buffer that is lent for it: 13 where it is shorter. The answer comes as one
// number. These are C's own parameters.
pub fn office_verify(
    who: u16,
    what: u16,
    right: u16,
    records: &[u8],
    buffer: &[u8],
    pairs: &[u8],
    proof: &[u8],
    out: &mut [u8],
) -> u64
    ensures answer { result ≡ packed_text (verifying_over who what right records buffer pairs proof out) }
    ensures buffer { out.new ≡ buffer_left (verifying_over who what right records buffer pairs proof out) out.old }
{
    let request = Request::of(who, what, right);
    let records = records_in(records);
    let pairs = pair_numbers(pairs);
    let verified = verify(request, records.lent(), buffer, pairs.lent(), proof);
    let Answer::Granted = verified.answer else {
        return as_number(verified.answer, 0);
    };
    let written = write_text(verified.procap, out);
    as_number(written.answer, written.length)
}

// Checks the proof directly, at a moment in a state. The answer comes as one number. These are C's own parameters.
pub fn office_direct(
    who: u16,
    what: u16,
    right: u16,
    records: &[u8],
    buffer: &[u8],
    pairs: &[u8],
    proof: &[u8],
    moment: u64,
    state: &[u8],
) -> u64
    ensures { result ≡ packed (answer_of (checking_over who what right records buffer pairs proof moment state)) 0 }
{
    let request = Request::of(who, what, right);
    let records = records_in(records);
    let pairs = pair_numbers(pairs);
    let answer = direct(
        request,
        records.lent(),
        buffer,
        pairs.lent(),
        proof,
        moment,
        state,
    );
    as_number(answer, 0)
}

// Puts what the program prints for a case at the front of the buffer: 13 where it is shorter.
pub fn office_answer_case(input: &[u8], out: &mut [u8]) -> u64
    ensures answer { result ≡ packed_text (answering input.now (length out.old)) }
    ensures buffer { out.new ≡ buffer_left (answering input.now (length out.old)) out.old }
{
    let printed = answer_case(input, out);
    as_number(printed.answer, printed.length)
}

// Reads a text, and writes the procap that it says again: 12 for bytes that are no text, then 13.
pub fn office_rewrite(text: &[u8], out: &mut [u8]) -> u64
    ensures answer { result ≡ packed_text (rewriting text.now (length out.old)) }
    ensures buffer { out.new ≡ buffer_left (rewriting text.now (length out.old)) out.old }
{
    let read = read_text(text);
    let Answer::Granted = read.answer else {
        return as_number(read.answer, 0);
    };
    let rewritten = write_text(read.procap, out);
    as_number(rewritten.answer, rewritten.length)
}

// Writes the text of a value: 12 for bytes that are no value and for a value that cannot be written, then 13.
pub fn office_write(value: &[u8], out: &mut [u8]) -> u64
    ensures answer { result ≡ packed_text (value_writing_over value out) }
    ensures buffer { out.new ≡ buffer_left (value_writing_over value out) out.old }
{
    if value.len() != VALUE_BYTES {
        return as_number(Answer::ProcapMalformed, 0);
    }
    let written = write_text(value_of(value), out);
    as_number(written.answer, written.length)
}
