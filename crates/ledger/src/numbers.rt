// The list of facts as plain numbers that a caller lends: ten for each fact, 160 in all.
ghost use Rattle.std.specs.Prelude.{◌≡◌, ◌+◌, ◌*◌, ◌≤◌, ◌<◌, length};
ghost use Rattle.std.proofs.lemmas.List.Edits.{sets};
ghost use Rattle.procap.specs.Numbered.{kind_of, value_of, of_numbers};
ghost use Rattle.procap.specs.Procaps.{most_facts};
ghost use Rattle.ledger.specs.Numbers.{fact_numbers, list_numbers, argument_in, fact_in, numbers_of_fact, book, fact_asked, AsksFact, held_procap};

use crate::facts::FactList;
use crate::{FACT_NUMBERS, LIST_NUMBERS, Ledger, number_in};
use procap::fact::{Argument, Fact, Term};
use procap::procap::{Procap, Request};

// A ledger, and how many facts are listed in the numbers beside it.
#[derive(Clone, Copy)]
pub struct Counted {
    pub ledger: Ledger,
    pub count: usize,
}

// Does the fact hold?
pub fn ask_fact(
    state: &[u8],
    facts: &mut [u64],
    counted: Counted,
    offset: usize,
    fact: Fact,
) -> Counted
    ensures leads { AsksFact state facts counted offset fact result }
    ensures leaves { book result facts.new ≡ fact_asked state.now facts.old counted offset fact }
{
    let Counted { ledger, count } = counted;
    let mut list = FactList::of_numbers(facts, count);
    let asked = crate::ask_fact(state, &mut list, ledger, offset, fact);
    // The list has one fact more where it had room, and not the fact.
    if facts.len() == LIST_NUMBERS && count < list.count() {
        put_fact(facts, count, fact);
        return Counted {
            ledger: asked,
            count: count + 1,
        };
    }
    Counted {
        ledger: asked,
        count,
    }
}

// The procap for a request of what the ledger and the numbers keep; past the ledger's count it holds no facts.
pub fn procap_of(request: Request, counted: Counted, facts: &[u64]) -> Procap
    ensures { result ≡ held_procap request counted facts.now }
{
    Procap {
        count: counted.count,
        ..FactList::of_numbers(facts, counted.count).procap(request, counted.ledger)
    }
}

// The fact at an index of the list.
pub(crate) fn fact_in(facts: &[u64], index: usize) -> Fact
    requires { index < most_facts }
    ensures { result ≡ fact_in facts.now index }
{
    let start = index * FACT_NUMBERS;
    let first = argument_in(facts, start + 2);
    let second = argument_in(facts, start + 4);
    let third = argument_in(facts, start + 6);
    let fourth = argument_in(facts, start + 8);
    Fact {
        predicate: (number_in(facts, start) % 65_536) as u16,
        count: number_in(facts, start + 1) as usize,
        arguments: [first, second, third, fourth],
    }
}

// The term that two numbers of the list stand for.
fn argument_in(facts: &[u64], at: usize) -> Argument
    requires { at < list_numbers }
    ensures { result ≡ argument_in facts.now at }
{
    Argument {
        term: Term::of_numbers(number_in(facts, at), number_in(facts, at + 1)),
    }
}

// Puts the fact at an index of the list.
pub(crate) fn put_fact(facts: &mut [u64], index: usize, fact: Fact)
    requires room { length facts.old ≡ list_numbers }
    requires few { index < most_facts }
    ensures put { fact_in facts.new index ≡ fact }
    ensures stored { facts.new ≡ sets facts.old (index * fact_numbers) (numbers_of_fact fact) }
{
    put_numbers(facts, index * FACT_NUMBERS, &numbers_of(fact));
}

// Puts the numbers of a fact at a place of the list.
fn put_numbers(facts: &mut [u64], at: usize, numbers: &[u64; FACT_NUMBERS])
    requires { at + fact_numbers ≤ length facts.old }
    ensures { facts.new ≡ sets facts.old at numbers.now }
{
    facts[at..at + FACT_NUMBERS].copy_from_slice(numbers);
}

// The numbers that a fact is put as; read as the one fact of a list, they are the fact.
fn numbers_of(fact: Fact) -> [u64; FACT_NUMBERS]
    ensures all { length result ≡ fact_numbers }
    ensures numbers { result ≡ numbers_of_fact fact }
    ensures back { fact_in result 0 ≡ fact }
{
    let [first, second, third, fourth] = fact.arguments;
    let (first_kind, first_value) = numbers_of_term(first.term);
    let (second_kind, second_value) = numbers_of_term(second.term);
    let (third_kind, third_value) = numbers_of_term(third.term);
    let (fourth_kind, fourth_value) = numbers_of_term(fourth.term);
    [
        fact.predicate as u64,
        fact.count as u64,
        first_kind,
        first_value,
        second_kind,
        second_value,
        third_kind,
        third_value,
        fourth_kind,
        fourth_value,
    ]
}

// The two numbers that a term is put as; they stand for it.
fn numbers_of_term(term: Term) -> (u64, u64)
    ensures numbers { result ≡ (kind_of term, value_of term) }
    ensures back { of_numbers (kind_of term) (value_of term) ≡ term }
{
    (term.kind(), term.value())
}
