// The lines of a case that hold a time.
ghost use Rattle.std.specs.Prelude.{◌≡◌};
ghost use Rattle.cases.specs.CaseLines.{case_time, time_line};

use procap::time::{LATEST_SECOND, Time};
use text::line::{after, number};

// The line of a word and a time.
pub(crate) fn time_line(input: &[u8], at: usize, word: &[u8]) -> Option<(Time, usize)>
    ensures { result ≡ time_line input.now word.now at }
{
    let after_word = after(input, at, word)?;
    let (time, after_time) = time_at(input, after_word)?;
    let next = after(input, after_time, b"\n")?;
    Some((time, next))
}

// The time at a place: an infinity by its sign, or a moment.
fn time_at(input: &[u8], at: usize) -> Option<(Time, usize)>
    ensures { result ≡ case_time input.now at }
{
    if let Some(after_minus) = after(input, at, b"-") {
        return Some((Time::MinusInfinity, after_minus));
    }
    if let Some(after_plus) = after(input, at, b"+") {
        return Some((Time::PlusInfinity, after_plus));
    }
    let (second, next) = number(input, at, LATEST_SECOND)?;
    Some((Time::Moment(second), next))
}
