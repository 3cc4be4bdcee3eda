// From a text to the procap that it says.
ghost use Rattle.std.specs.Prelude.{◌≡◌};
ghost use Rattle.procap.specs.Outcome.{answer_of, procap_handed};
ghost use Rattle.text.specs.Reader.{moment_lines};
ghost use Rattle.text.specs.Overviews.{overview_of};
ghost use Rattle.text.specs.Calls.{facts_to_the_end, reading};

use crate::fact_places::{Lines, facts_on, lines_at};
use crate::line::line;
use crate::request::request_at;
use procap::answer::Answer;
use procap::procap::{MOST_FACTS, Procap, Request, VERSION};
use procap::time::LATEST_SECOND;

// The answer of reading a text, and the procap that it says. No `Result`, since a read that is refused hands over the procap of zeros.
#[derive(Clone, Copy)]
pub struct ReadText {
    pub answer: Answer,
    pub procap: Procap,
}

// What is seen of a text: its request, its moments, and where the lines of its facts begin.
#[derive(Clone, Copy)]
pub struct Overview {
    pub request: Request,
    pub from: u64,
    pub to: u64,
    pub lines: Lines,
}

// The procap that the text says: 12 and the empty procap for what is not exactly a text.
pub fn read_text(text: &[u8]) -> ReadText
    ensures answer { result.answer ≡ answer_of (reading text.now) }
    ensures procap { result.procap ≡ procap_handed (reading text.now) }
{
    let Some(seen) = look_over(text) else {
        return ReadText {
            answer: Answer::ProcapMalformed,
            procap: Procap::empty(),
        };
    };
    let procap = Procap {
        version: VERSION,
        request: seen.request,
        from: seen.from,
        to: seen.to,
        count: seen.lines.count,
        facts: facts_on(text, seen.lines.places()),
    };
    ReadText {
        answer: Answer::Granted,
        procap,
    }
}

// What is seen of the bytes if they are a text: its request, its moments, and where the lines of its facts begin.
pub fn look_over(text: &[u8]) -> Option<Overview>
    ensures { result ≡ overview_of text.now (reading text.now) }
{
    let (version, after_version) = line(text, 0, b"procap=", VERSION as u64)?;
    if version == 0 {
        return None;
    }
    let (request, after_request) = request_at(text, after_version).ok()?;
    let ((from, to), after_moments) = moments_at(text, after_request)?;
    look_over_facts(text, request, from, to, after_moments)
}

// The same of a request, two moments and the facts from a place to the end of the text.
fn look_over_facts(text: &[u8], request: Request, from: u64, to: u64, at: usize) -> Option<Overview>
    ensures { result ≡ overview_of text.now (facts_to_the_end text.now request from to at) }
{
    let (count, after_count) = line(text, at, b"facts=", MOST_FACTS as u64)?;
    let (lines, end) = lines_at(text, after_count, count as usize)?;
    if end != text.len() {
        return None;
    }
    Some(Overview {
        request,
        from,
        to,
        lines,
    })
}

// The two lines of moments at a place, from <= to, and the place after them.
fn moments_at(text: &[u8], at: usize) -> Option<((u64, u64), usize)>
    ensures { result ≡ moment_lines text.now at }
{
    let (from, after_from) = line(text, at, b"from=", LATEST_SECOND)?;
    let (to, next) = line(text, after_from, b"to=", LATEST_SECOND)?;
    if to < from {
        return None;
    }
    Some(((from, to), next))
}
