// Texts spelled into a buffer that is long enough for each of them.
ghost use Rattle.std.specs.Prelude.{ℕ, List, [], ◌≡◌, ◌++◌, ◌+◌, ◌≤◌, length, map, take};
ghost use Rattle.procap.specs.Facts.{spelled};
ghost use Rattle.procap.specs.Procaps.{most_facts, listed};
ghost use Rattle.text.specs.Numbers.{decimal};
ghost use Rattle.text.specs.Text.{line, term_text, terms_text, fact_text, facts_text, text_of, refusal_text};
ghost use Rattle.text.specs.Buffers.{most_text};

use crate::writer::MOST_TEXT;
use procap::answer::Answer;
use procap::fact::{Argument, Fact, Term};
use procap::procap::Procap;
use procap::time::Time;
use std::marker::Model;

// A text that is being spelled: the first `at` bytes. Each method spells something behind them, for which there must be room.
#[derive(Drop)]
pub(crate) struct Pen {
    text: [u8; MOST_TEXT],
    at: usize,
}

impl Model for Pen {
    ghost Value = { List ℕ };

    ghost view = { λ p. take p.at p.text };

    ghost invariant = { λ p. p.at ≤ most_text };
}

impl Pen {
    // Nothing is spelled yet.
    pub(crate) fn new() -> Pen
        ensures { result ≡ [] }
    {
        Pen {
            text: [0; MOST_TEXT],
            at: 0,
        }
    }

    // The text as far as it is spelled.
    pub(crate) fn text(&self) -> &[u8]
        ensures { result.now ≡ self.now }
    {
        &self.text[..self.at]
    }

    // Spells the text of a procap.
    #[tactic(auto, unfolding(crate::specs::Text::text_of))]
    pub(crate) fn procap(&mut self, procap: &Procap)
        requires few { procap.now.count ≤ most_facts }
        requires room { length self.old + length (text_of procap.now) ≤ most_text }
        ensures { self.new ≡ self.old ++ text_of procap.now }
    {
        self.line(b"procap=", procap.version as u64);
        self.line(b"who=", procap.request.who as u64);
        self.line(b"what=", procap.request.what as u64);
        self.line(b"right=", procap.request.right as u64);
        self.line(b"from=", procap.from);
        self.line(b"to=", procap.to);
        self.line(b"facts=", procap.count as u64);
        self.facts(&procap.facts[..procap.count]);
    }

    // Spells the two lines of a refusal.
    #[tactic(auto, unfolding(crate::specs::Text::refusal_text))]
    pub(crate) fn refusal(&mut self, answer: Answer)
        requires { length self.old + length (refusal_text answer) ≤ most_text }
        ensures { self.new ≡ self.old ++ refusal_text answer }
    {
        self.line(b"refused=", answer.number());
        self.line(b"place=", answer.place() as u64);
    }

    // Spells the lines of facts.
    fn facts(&mut self, facts: &[Fact])
        requires { length self.old + length (facts_text (map spelled facts.now)) ≤ most_text }
        ensures { self.new ≡ self.old ++ facts_text (map spelled facts.now) }
    {
        for fact in facts {
            self.fact(fact);
        }
    }

    // Spells the line of a fact.
    #[tactic(auto, unfolding(crate::specs::Text::fact_text, procap::specs::Facts::spelled))]
    fn fact(&mut self, fact: &Fact)
        requires { length self.old + length (fact_text (spelled fact.now)) ≤ most_text }
        ensures { self.new ≡ self.old ++ fact_text (spelled fact.now) }
    {
        self.marked(b"fact=", fact.predicate as u64);
        let arguments: &[Argument] = &fact.arguments;
        self.terms(&arguments[..fact.count.min(arguments.len())]);
        self.word(b"\n");
    }

    // Spells terms, each after a space.
    fn terms(&mut self, arguments: &[Argument])
        requires { length self.old + length (terms_text (map (λ a. a.term) arguments.now)) ≤ most_text }
        ensures { self.new ≡ self.old ++ terms_text (map (λ a. a.term) arguments.now) }
    {
        for argument in arguments {
            self.word(b" ");
            self.term(argument.term);
        }
    }

    // Spells a term.
    #[tactic(auto, unfolding(crate::specs::Text::term_text))]
    fn term(&mut self, term: Term)
        requires { length self.old + length (term_text term) ≤ most_text }
        ensures { self.new ≡ self.old ++ term_text term }
    {
        match term {
            Term::Name(name) => self.marked(b"n", name as u64),
            Term::When(Time::Moment(second)) => self.marked(b"t", second),
            Term::When(Time::MinusInfinity) => self.word(b"-"),
            Term::When(Time::PlusInfinity) => self.word(b"+"),
            Term::When(Time::Ctime) => self.word(b"c"),
        }
    }

    // Spells a line of a word and a number.
    #[tactic(auto, unfolding(crate::specs::Text::line))]
    fn line(&mut self, word: &[u8], number: u64)
        requires { length self.old + length (line word.now number) ≤ most_text }
        ensures { self.new ≡ self.old ++ line word.now number }
    {
        self.marked(word, number);
        self.word(b"\n");
    }

    // Spells a word and a number.
    fn marked(&mut self, word: &[u8], number: u64)
        requires { length self.old + length (word.now ++ decimal number) ≤ most_text }
        ensures { self.new ≡ self.old ++ word.now ++ decimal number }
    {
        self.word(word);
        self.number(number);
    }

    // Spells the digits of a number. `write!` would hand them over in pieces through a trait, and this is as plain.
    fn number(&mut self, number: u64)
        requires { length self.old + length (decimal number) ≤ most_text }
        ensures { self.new ≡ self.old ++ decimal number }
    {
        if number >= 10 {
            self.number(number / 10);
        }
        self.word(&[b'0' + (number % 10) as u8]);
    }

    // Spells the bytes of a word.
    fn word(&mut self, word: &[u8])
        requires { length self.old + length word.now ≤ most_text }
        ensures { self.new ≡ self.old ++ word.now }
    {
        let end = self.at + word.len();
        self.text[self.at..end].copy_from_slice(word);
        self.at = end;
    }
}
