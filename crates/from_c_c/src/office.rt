// The office's calls for C: exported by name, each as C has its parameters. A static library exports only what stands in it.
ghost use Rattle.std.specs.Prelude.{◌≡◌, length};
ghost use Rattle.procap.specs.Outcome.{answer_of};
ghost use Rattle.text.specs.Calls.{buffer_left};
ghost use Rattle.cases.specs.Calls.{answering};
ghost use Rattle.from_c.specs.Packing.{packed, packed_text};
ghost use Rattle.from_c.specs.Calls.{verifying_over, checking_over, rewriting, value_writing_over};

// Verifies, and puts the text of the procap at the front of the buffer that is lent for it: 13 where it is shorter. The answer comes as one
// number.
#[unsafe(no_mangle)]
pub extern "C" fn office_verify(
    who: u16,
    what: u16,
    right: u16,
    records: &[u8],
    buffer: &[u8],
    pairs: &[u8],
    proof: &[u8],
    out: &mut [u8],
) -> u64
    ensures answer { result ≡ packed_text (verifying_over who what right records buffer pairs proof out) }
    ensures buffer { out.new ≡ buffer_left (verifying_over who what right records buffer pairs proof out) out.old }
{
    from_c::office::office_verify(who, what, right, records, buffer, pairs, proof, out)
}

// Checks the proof directly, at a moment in a state. The answer comes as one number.
#[unsafe(no_mangle)]
pub extern "C" fn office_direct(
    who: u16,
    what: u16,
    right: u16,
    records: &[u8],
    buffer: &[u8],
    pairs: &[u8],
    proof: &[u8],
    moment: u64,
    state: &[u8],
) -> u64
    ensures { result ≡ packed (answer_of (checking_over who what right records buffer pairs proof moment state)) 0 }
{
    from_c::office::office_direct(
        who, what, right, records, buffer, pairs, proof, moment, state,
    )
}

// Puts what the program prints for a case at the front of the buffer: 13 where it is shorter.
#[unsafe(no_mangle)]
pub extern "C" fn office_answer_case(input: &[u8], out: &mut [u8]) -> u64
    ensures answer { result ≡ packed_text (answering input.now (length out.old)) }
    ensures buffer { out.new ≡ buffer_left (answering input.now (length out.old)) out.old }
{
    from_c::office::office_answer_case(input, out)
}

// Reads a text, and writes the procap that it says again: 12 for bytes that are no text, then 13.
#[unsafe(no_mangle)]
pub extern "C" fn office_rewrite(text: &[u8], out: &mut [u8]) -> u64
    ensures answer { result ≡ packed_text (rewriting text.now (length out.old)) }
    ensures buffer { out.new ≡ buffer_left (rewriting text.now (length out.old)) out.old }
{
    from_c::office::office_rewrite(text, out)
}

// Writes the text of a value: 12 for bytes that are no value and for a value that cannot be written, then 13.
#[unsafe(no_mangle)]
pub extern "C" fn office_write(value: &[u8], out: &mut [u8]) -> u64
    ensures answer { result ≡ packed_text (value_writing_over value out) }
    ensures buffer { out.new ≡ buffer_left (value_writing_over value out) out.old }
{
    from_c::office::office_write(value, out)
}
