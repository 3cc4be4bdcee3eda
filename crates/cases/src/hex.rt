// Pairs of lower-case hex digits.
ghost use Rattle.cases.specs.Found.{DigitSays, DigitReads, PairReads};

// The byte that the two hex digits at a place say.
pub(crate) fn pair_at(input: &[u8], at: usize) -> Option<u8>
    ensures { PairReads input.now at result }
{
    let high = digit_at(input, at)?;
    let low = digit_at(input, at + 1)?;
    Some(high * 16 + low)
}

// The hex digit that stands at a place.
fn digit_at(input: &[u8], at: usize) -> Option<u8>
    ensures { DigitReads input.now at result }
{
    digit_of(*input.get(at)?)
}

// What a byte says as a hex digit.
fn digit_of(byte: u8) -> Option<u8>
    ensures { DigitSays byte result }
{
    match byte {
        b'0'..=b'9' => Some(byte - b'0'),
        b'a'..=b'f' => Some(10 + (byte - b'a')),
        _ => None,
    }
}
