// The ledger of a walk: what stopped it, how it is read, and what verify keeps; and the questions that a walk asks.
#![tactic(auto)]

ghost use Rattle.std.specs.Prelude.{◌≡◌, get_or};
ghost use Rattle.procap.specs.Tells.{Tells};
ghost use Rattle.ledger.specs.Books.{begun, opened, keeping, stop_of, GoesOn, book, stopped_by, misfitted};
ghost use Rattle.ledger.specs.Asking.{narrowed_by, order_asked, fact_listed, fact_asked, AsksFact};

use crate::facts::FactList;
use procap::answer::Answer;
use procap::fact::Fact;
use procap::order::{Decision, at_most, decide};
use procap::time::{LATEST_SECOND, Time};
use state::stands_in;

pub mod facts; // the list of the facts that the office asks for
pub mod numbers; // the same list as plain numbers that a caller lends

// How many numbers a listed fact takes: its predicate, its count, and two for each term.
pub const FACT_NUMBERS: usize = 10;
// How many numbers the list of facts takes.
pub const LIST_NUMBERS: usize = 160;

// How a walk is read: at the office with the clock open, or at a press at its moment.
#[derive(Clone, Copy)]
pub enum Reading {
    Office,
    Press(u64),
}

// What a walk has come to: the number and the place of the answer that stopped it, zeros while it goes on; 0 where it is read at the
// office, and else the moment of the press plus one; and the moments that are left.
// Plain numbers for the sake of speed: with a `Result<(), Answer>` and a `Reading` in their place, which proves, the longest proofs take
// 440 microseconds for 329, and thirty_implications 20.6 for 13.9; docs/PERFORMANCE.md has the bar, 1.5 times the Rust one.
#[derive(Clone, Copy)]
pub struct Ledger {
    pub number: u64,
    pub place: usize,
    pub press: u64,
    pub from: u64,
    pub to: u64,
}

impl Ledger {
    // The ledger at the start of a walk, at the office or at a press; a moment above the latest has stopped it.
    #[tactic(auto, unfolding(crate::specs::Books::begun))]
    pub fn begin(reading: Reading) -> Ledger
        ensures { result ≡ begun reading }
    {
        match reading {
            Reading::Office => Ledger::open(0),
            Reading::Press(moment) => {
                if LATEST_SECOND < moment {
                    return Ledger::open(0).stopped(Answer::MomentAboveLatest);
                }
                Ledger::open(moment + 1)
            }
        }
    }

    // A ledger with every moment left, read at the office, by 0, or at a press.
    fn open(press: u64) -> Ledger
        ensures { result ≡ opened press }
    {
        Ledger {
            number: 0,
            place: 0,
            press,
            from: 0,
            to: LATEST_SECOND,
        }
    }

    // Whether the walk goes on.
    pub fn goes_on(self) -> bool
        ensures { Tells result (GoesOn self) }
    {
        self.number == 0
    }

    // Whether the walk goes on, or the answer that stopped it.
    pub fn stop(self) -> Result<(), Answer>
        ensures { result ≡ stop_of self }
    {
        if self.number == 0 {
            return Ok(());
        }
        Err(Answer::of(self.number, self.place))
    }

    // The ledger, stopped by this answer unless it was before.
    fn stopped(self, answer: Answer) -> Ledger
        ensures { result ≡ stopped_by answer self }
    {
        if self.number != 0 {
            return self;
        }
        Ledger {
            number: answer.number(),
            place: answer.place(),
            ..self
        }
    }

    // The step at this offset does not fit.
    pub fn misfit(self, offset: usize) -> Ledger
        ensures { result ≡ misfitted self offset }
    {
        self.stopped(Answer::StepUnfit(offset))
    }

    // The ledger with what the office's decision about an order leaves of its moments.
    fn narrowed(self, offset: usize, decision: Decision) -> Ledger
        ensures { result ≡ narrowed_by self offset decision }
    {
        match decision {
            Decision::Holds => self,
            Decision::Fails => self.stopped(Answer::OrderFalse(offset)),
            Decision::RaisesFrom(second) => Ledger {
                from: self.from.max(second),
                ..self
            },
            Decision::LowersTo(second) => Ledger {
                to: self.to.min(second),
                ..self
            },
        }
    }
}

// Is left <= right?
pub fn ask_order(ledger: Ledger, offset: usize, left: Time, right: Time) -> Ledger
    ensures { result ≡ order_asked ledger offset left right }
{
    if !ledger.goes_on() {
        return ledger;
    }
    let press = ledger.press;
    if press == 0 {
        return ledger.narrowed(offset, decide(left, right));
    }
    if at_most(press - 1, left, right) {
        return ledger;
    }
    ledger.stopped(Answer::OrderFalse(offset))
}

// Does the fact hold?
pub fn ask_fact(
    state: &[u8],
    facts: &mut FactList,
    ledger: Ledger,
    offset: usize,
    fact: Fact,
) -> Ledger
    ensures leads { AsksFact state facts ledger offset fact result }
    ensures leaves { book result facts.new ≡ fact_asked state.now facts.old ledger offset fact }
{
    if !ledger.goes_on() {
        return ledger;
    }
    let press = ledger.press;
    if press == 0 {
        list_fact(facts, fact);
        return ledger;
    }
    if stands_in(state, fact.at_moment(press - 1)) {
        return ledger;
    }
    ledger.stopped(Answer::FactMissing(offset))
}

// The fact goes to the end of the office's list, unless it stands there.
fn list_fact(facts: &mut FactList, fact: Fact)
    ensures { facts.new ≡ fact_listed facts.old fact }
{
    // The walk of a proof that reads has room for each fact that it asks for (`HasRoom`): the test only keeps `put` within the list.
    if facts.has_room() && !facts.has(fact) {
        facts.put(fact);
    }
}

// A number of a list, 0 past its end.
pub fn number_in(numbers: &[u64], at: usize) -> u64
    ensures { result ≡ get_or numbers.now at 0 }
{
    numbers.get(at).copied().unwrap_or(0)
}
