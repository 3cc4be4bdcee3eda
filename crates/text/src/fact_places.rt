// Where the lines of facts stand in a text: each place is enough to read its fact again, so that no fact is carried along.
ghost use Rattle.std.specs.Prelude.{◌≡◌, ◌≤◌, length, take};
ghost use Rattle.procap.specs.Procaps.{most_facts};
ghost use Rattle.procap.specs.Bytes.{many};
ghost use Rattle.text.specs.Reader.{fact_line};
ghost use Rattle.text.specs.Places.{LinesReads, StandsBefore, SameLine, FactsOn};

use crate::facts::{fact_at, fact_on};
use procap::fact::Fact;
use procap::procap::MOST_FACTS;

// How many bytes the word takes with which every line of a fact begins.
const WORD_BYTES: usize = 5;

// Where the lines of facts begin: the first `count` places, and zeros past them.
#[derive(Clone, Copy)]
pub struct Lines {
    pub count: usize,
    pub places: [usize; MOST_FACTS],
}

impl Lines {
    // The places where the lines begin.
    pub fn places(&self) -> &[usize]
        ensures { result.now ≡ take self.now.count self.now.places }
    {
        &self.places[..self.count.min(MOST_FACTS)]
    }
}

// So many lines of facts at a place, no two of them alike: where each begins, and the place after them.
pub(crate) fn lines_at(text: &[u8], at: usize, count: usize) -> Option<(Lines, usize)>
    requires { count ≤ most_facts }
    ensures { LinesReads (many (fact_line text.now) count at) at count result }
{
    let mut places = [0usize; MOST_FACTS];
    let mut next = at;
    for i in 0..count {
        let (_, end) = fact_at(text, next)?;
        if stood_before(text, next, end, &places[..i]) {
            return None;
        }
        places[i] = next;
        next = end;
    }
    let lines = Lines { count, places };
    Some((lines, next))
}

// Whether the line of a fact, up to its end, stands at one of these places too.
fn stood_before(text: &[u8], at: usize, end: usize, places: &[usize]) -> bool
    ensures { StandsBefore text.now at end places.now result }
{
    for place in places {
        if same_line(text, at, end, *place) {
            return true;
        }
    }
    false
}

// Whether the line of a fact, up to its end, is the line at another place too: both begin with the same word, so what stands behind it is
// compared.
fn same_line(text: &[u8], at: usize, end: usize, other: usize) -> bool
    ensures { SameLine text.now at end other result }
{
    let Some(line) = text.get(at.saturating_add(WORD_BYTES)..end) else {
        return false;
    };
    let Some(rest) = text.get(other.saturating_add(WORD_BYTES)..) else {
        return false;
    };
    rest.starts_with(line)
}

// The facts on the lines at these places, with zeros past them.
pub(crate) fn facts_on(text: &[u8], places: &[usize]) -> [Fact; MOST_FACTS]
    requires { length places.now ≤ most_facts }
    ensures { FactsOn text.now places.now result }
{
    let mut facts = [Fact::none(); MOST_FACTS];
    for (i, place) in places.iter().enumerate() {
        facts[i] = fact_on(text, *place);
    }
    facts
}
