// Certificate records in bytes: 36 for each.
ghost use Rattle.std.specs.Prelude.{◌≡◌, ◌+◌, ◌≤◌, take};
ghost use Rattle.std.proofs.Common.{rules};
ghost use Rattle.from_c.specs.Records.{record_bytes, lent_at_most, records_in, record_at, whole_record, no_record, time_of};

use crate::numbers::{number_or_zero, term_at};
use crate::row::{InARow, front_of};
use bl::Certificate;
use front::Front;
use procap::fact::Term;
use procap::time::Time;

// How many records are lent on at the most: one more than are taken, so that too many stay too many.
pub const LENT_AT_MOST: usize = 33;

// The records that the bytes say, as many of them as are lent on.
#[tactic(auto, unfolding(crate::specs::Records::records_in))]
pub(crate) fn records_in(bytes: &[u8]) -> Front<Certificate, LENT_AT_MOST>
    ensures { result ≡ take lent_at_most (records_in bytes.now) }
{
    front_of(bytes, no_record())
}

// The record at a place; an incomplete one is malformed.
impl InARow for Certificate {
    ghost BYTES = { record_bytes };

    const BYTES: usize = 36;

    ghost value_at = { record_at };

    ghost takes_some = { Prim.search rules };

    #[tactic(auto, unfolding(crate::specs::Records::record_at))]
    fn at(bytes: &[u8], at: usize) -> Certificate {
        match bytes.get(at..at + Self::BYTES) {
            Some(record) => whole_record(record),
            None => no_record(),
        }
    }
}

// The record that its own bytes are. They are handed over alone, so that the compiler knows how many they are once it puts the call in
// its place.
fn whole_record(bytes: &[u8]) -> Certificate
    ensures { result ≡ whole_record bytes.now 0 }
{
    Certificate {
        principal: number_or_zero::<2>(bytes, 0) as u16,
        from: time_of(term_at(bytes, 2)),
        to: time_of(term_at(bytes, 11)),
        start: number_or_zero::<8>(bytes, 20) as usize,
        length: number_or_zero::<8>(bytes, 28) as usize,
    }
}

// The time that a term is; a name is none, and counts as ctime, which no record may have.
#[tactic(auto, unfolding(crate::specs::Records::time_of))]
fn time_of(term: Term) -> Time
    ensures { result ≡ time_of term }
{
    match term {
        Term::When(time) => time,
        Term::Name(_) => Time::Ctime,
    }
}

// What stands for a record that is not all there: a malformed one.
fn no_record() -> Certificate
    ensures { result ≡ no_record }
{
    Certificate {
        principal: 0,
        from: Time::Ctime,
        to: Time::Ctime,
        start: 0,
        length: 0,
    }
}
