// What stands in the lines of a text: given bytes, and numbers in their one spelling.
ghost use Rattle.std.specs.Prelude.{◌≡◌, ◌≤◌, option_map, IfSome};
ghost use Rattle.text.specs.Line.{literal, number_to, line_to};
ghost use Rattle.text.specs.Places.{DigitReads};

// The line that breaks the form of the lines that were to be read, by its number: the first is 1.
#[derive(Clone, Copy, PartialEq, Eq, Debug)]
pub struct BrokenLine(pub usize);

// The place after a word, where just its bytes stand.
pub fn after(text: &[u8], at: usize, word: &[u8]) -> Option<usize>
    ensures { result ≡ option_map (λ r. r.1) (literal text.now word.now at) }
{
    if text[at.min(text.len())..].starts_with(word) {
        Some(at + word.len())
    } else {
        None
    }
}

// The digit that stands at a place.
fn digit_at(text: &[u8], at: usize) -> Option<u64>
    ensures { DigitReads text.now at result }
{
    let byte = *text.get(at)?;
    if byte.is_ascii_digit() {
        Some(u64::from(byte - b'0'))
    } else {
        None
    }
}

// The number at a place, up to a limit and in its one spelling. (Digits are read one by one: where they end is handed back, and the
// library's `parse` would take the spellings `007` and `+7` too.)
pub fn number(text: &[u8], at: usize, limit: u64) -> Option<(u64, usize)>
    ensures reads { result ≡ number_to text.now limit at }
    ensures bound { IfSome result (λ r. r.0 ≤ limit) }
{
    let mut value = digit_at(text, at)?;
    if limit < value {
        return None;
    }
    let mut next = at + 1;
    while let Some(digit) = digit_at(text, next) {
        if value == 0 {
            return None;
        }
        value = value.checked_mul(10)?.checked_add(digit)?;
        if limit < value {
            return None;
        }
        next += 1;
    }
    Some((value, next))
}

// The line of a word and a number up to a limit.
pub fn line(text: &[u8], at: usize, word: &[u8], limit: u64) -> Option<(u64, usize)>
    ensures reads { result ≡ line_to text.now word.now limit at }
    ensures bound { IfSome result (λ r. r.0 ≤ limit) }
{
    let after_word = after(text, at, word)?;
    let (value, after_number) = number(text, after_word, limit)?;
    let next = after(text, after_number, b"\n")?;
    Some((value, next))
}
