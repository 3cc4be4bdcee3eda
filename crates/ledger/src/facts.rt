// The list of the facts that the office asks for.
ghost use Rattle.std.specs.Prelude.{◌≡◌, ◌<◌, ◌≤◌, ◌++◌, [], ◌∷◌, length, map, min};
ghost use Rattle.procap.specs.Lists.{In};
ghost use Rattle.procap.specs.Tells.{Tells};
ghost use Rattle.procap.specs.Facts.{spelled};
ghost use Rattle.procap.specs.Procaps.{most_facts};
ghost use Rattle.ledger.specs.Asking.{held_procap};
ghost use Rattle.ledger.specs.Numbers.{list_numbers, facts_listed, with_facts};

use crate::numbers::{fact_in, put_fact};
use crate::{LIST_NUMBERS, Ledger};
use procap::fact::Fact;
use procap::procap::{MOST_FACTS, Procap, Request, VERSION};
use std::marker::Model;

// The facts that are listed, in order: so many, at most 16, and no facts in the places past them.
#[derive(Clone, Copy)]
pub struct FactList {
    count: usize,
    facts: [Fact; MOST_FACTS],
}

impl Model for FactList {
    ghost use Rattle.std.specs.Prelude.{List, ◌≤◌, take, length};
    ghost use Rattle.std.proofs.Common.{sym};
    ghost use Rattle.procap.specs.Lists.{ZerosPast, pad};
    ghost use Rattle.procap.specs.Facts.{no_fact};
    ghost use Rattle.procap.specs.Procaps.{most_facts};
    ghost use Rattle.procap.specs.declared.fact.Fact.{Fact};
    ghost use Rattle.ledger.specs.Places.{first_stand};

    ghost Value = { List Fact };

    ghost view = { λ l. take l.count l.facts };

    ghost invariant = { λ l. (l.count ≤ most_facts) × ZerosPast most_facts no_fact l.count l.facts };

    ghost inverse = { λ fs. record { count = length fs; facts = pad most_facts no_fact fs } };

    ghost inverse_ok = { λ l h i. record {
      count = first_stand most_facts no_fact l.count l.facts h.0 h.1 i;
      facts = sym h.1 i;
    } };
}

impl FactList {
    // The list with no facts.
    pub fn none() -> FactList
        ensures { result ≡ [] }
    {
        FactList {
            count: 0,
            facts: [Fact::none(); MOST_FACTS],
        }
    }

    // The first facts that stand in numbers: so many, at most 16.
    pub fn of_numbers(facts: &[u64], count: usize) -> FactList
        ensures { result ≡ facts_listed facts.now (min most_facts count) }
    {
        let mut list = FactList::none();
        for index in 0..count.min(MOST_FACTS) {
            list.put(fact_in(facts, index));
        }
        list
    }

    // Puts the facts at the front of the numbers of a list, so that they read back; numbers of another length stay as they are.
    pub fn put_in(&self, facts: &mut [u64])
        ensures reads { length facts.old ≡ list_numbers → facts_listed facts.new (length self.now) ≡ self.now }
        ensures leaves { facts.new ≡ with_facts facts.old self.now }
    {
        if facts.len() != LIST_NUMBERS {
            return;
        }
        for index in 0..self.count {
            put_fact(facts, index, self.facts[index]);
        }
    }

    // How many facts are listed.
    pub fn count(&self) -> usize
        ensures counts { result ≡ length self.now }
        ensures few { result ≤ most_facts }
    {
        self.count // at most 16, by the invariant
    }

    // Whether there is room for one fact more.
    pub(crate) fn has_room(&self) -> bool
        ensures { Tells result (length self.now < most_facts) }
    {
        self.count < MOST_FACTS
    }

    // Whether the fact is listed.
    pub(crate) fn has(&self, fact: Fact) -> bool
        ensures { Tells result (In (spelled fact) (map spelled self.now)) }
    {
        self.facts[..self.count]
            .iter()
            .any(|listed| fact.same(*listed))
    }

    // The fact goes to the end of the list.
    pub(crate) fn put(&mut self, fact: Fact)
        requires { length self.old < most_facts }
        ensures { self.new ≡ self.old ++ fact ∷ [] }
    {
        self.facts[self.count] = fact;
        self.count += 1;
    }

    // The procap for a request of what the ledger and the list keep.
    pub fn procap(&self, request: Request, ledger: Ledger) -> Procap
        ensures { result ≡ held_procap request ledger self.now }
    {
        Procap {
            version: VERSION,
            request,
            from: ledger.from,
            to: ledger.to,
            count: self.count,
            facts: self.facts,
        }
    }
}
