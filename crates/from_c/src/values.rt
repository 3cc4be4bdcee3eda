// Procap values in bytes, 648 for each: so a caller in C can hand over any value, also one that cannot be written.
ghost use Rattle.std.specs.Prelude.{◌≡◌, ◌+◌, ◌≤◌, length};
ghost use Rattle.std.proofs.Common.{rules};
ghost use Rattle.from_c.specs.Values.{value_bytes, term_bytes, fact_bytes, argument_at, fact_at, value_of};

use crate::numbers::{number_or_zero, term_at};
use crate::row::{InARow, put_in_a_row};
use procap::fact::{Argument, Fact, MOST_TERMS};
use procap::procap::{MOST_FACTS, Procap, Request};

// How many bytes a value takes.
pub(crate) const VALUE_BYTES: usize = 648;
// Where the facts of a value begin.
const FACTS_START: usize = 24;
// Where the terms of a fact begin.
const TERMS_START: usize = 3;

// The value that so many bytes are.
pub(crate) fn value_of(bytes: &[u8]) -> Procap
    requires { length bytes.now ≡ value_bytes }
    ensures { result ≡ value_of bytes.now }
{
    let mut facts = [Fact::none(); MOST_FACTS];
    put_in_a_row(bytes, FACTS_START, &mut facts);
    Procap {
        version: number_or_zero::<1>(bytes, 0) as u8,
        request: Request::of(
            number_or_zero::<2>(bytes, 1) as u16,
            number_or_zero::<2>(bytes, 3) as u16,
            number_or_zero::<2>(bytes, 5) as u16,
        ),
        from: number_or_zero::<8>(bytes, 7),
        to: number_or_zero::<8>(bytes, 15),
        count: number_or_zero::<1>(bytes, 23) as usize,
        facts,
    }
}

// The fact at a place.
impl InARow for Fact {
    ghost BYTES = { fact_bytes };

    const BYTES: usize = 39;

    ghost value_at = { fact_at };

    ghost takes_some = { Prim.search rules };

    fn at(bytes: &[u8], at: usize) -> Fact {
        let mut arguments = [Argument::NONE; MOST_TERMS];
        put_in_a_row(bytes, at + TERMS_START, &mut arguments);
        Fact {
            predicate: number_or_zero::<2>(bytes, at) as u16,
            count: number_or_zero::<1>(bytes, at + 2) as usize,
            arguments,
        }
    }
}

// The argument at a place.
impl InARow for Argument {
    ghost BYTES = { term_bytes };

    const BYTES: usize = 9;

    ghost value_at = { argument_at };

    ghost takes_some = { Prim.search rules };

    fn at(bytes: &[u8], at: usize) -> Argument {
        Argument {
            term: term_at(bytes, at),
        }
    }
}
