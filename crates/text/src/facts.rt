// The line of a fact.
ghost use Rattle.std.specs.Prelude.{◌≡◌, None};
ghost use Rattle.procap.specs.Facts.{most_terms, no_fact};
ghost use Rattle.procap.specs.Reading.{FactReads, with_predicate};
ghost use Rattle.text.specs.Places.{FactOn};
ghost use Rattle.text.specs.Reader.{«term», «terms», fact_line};

use crate::line::{after, number};
use procap::fact::{Argument, Fact, MOST_TERMS, Term};
use procap::time::{LATEST_SECOND, Time};
use procap::writable::LARGEST_NAME;

// The line of a fact at a place.
pub fn fact_at(text: &[u8], at: usize) -> Option<(Fact, usize)>
    ensures { FactReads (fact_line text.now at) result }
{
    let after_word = after(text, at, b"fact=")?;
    let (predicate, after_predicate) = number(text, after_word, LARGEST_NAME)?;
    fact_with(text, predicate as u16, after_predicate)
}

// The fact on the line at a place, or no fact where none stands there.
pub fn fact_on(text: &[u8], at: usize) -> Fact
    ensures read { FactOn text.now at result }
    ensures none { fact_line text.now at ≡ None → result ≡ no_fact }
{
    match fact_at(text, at) {
        Some((fact, _)) => fact,
        None => Fact::none(),
    }
}

// The fact of a predicate and the terms from a place up to the line's end.
fn fact_with(text: &[u8], predicate: u16, at: usize) -> Option<(Fact, usize)>
    ensures { FactReads (with_predicate predicate (terms text.now most_terms at)) result }
{
    let zero = Argument {
        term: Term::Name(0),
    };
    let mut arguments = [zero; MOST_TERMS];
    let mut next = at;
    let mut count: usize = 0;
    for argument in arguments.iter_mut() {
        let Some(after_space) = after(text, next, b" ") else {
            break;
        };
        let (term, after_term) = term_at(text, after_space)?;
        *argument = Argument { term };
        next = after_term;
        count += 1;
    }
    let line_end = after(text, next, b"\n")?;
    let fact = Fact {
        predicate,
        count,
        arguments,
    };
    Some((fact, line_end))
}

// The term at a place: a letter and a number, or a sign.
fn term_at(text: &[u8], at: usize) -> Option<(Term, usize)>
    ensures { result ≡ «term» text.now at }
{
    match *text.get(at)? {
        b'n' => {
            let (name, next) = number(text, at + 1, LARGEST_NAME)?;
            Some((Term::Name(name as u16), next))
        }
        b't' => {
            let (second, next) = number(text, at + 1, LATEST_SECOND)?;
            Some((Term::When(Time::Moment(second)), next))
        }
        b'-' => Some((Term::When(Time::MinusInfinity), at + 1)),
        b'+' => Some((Term::When(Time::PlusInfinity), at + 1)),
        b'c' => Some((Term::When(Time::Ctime), at + 1)),
        _ => None,
    }
}
