// What the steps of an "or" and of falsity make of a goal, or of what was inferred.
ghost use Rattle.std.specs.Prelude.{◌≡◌};
ghost use Rattle.judging.specs.Judging.{plain_side};
ghost use Rattle.judging.specs.StepPromises.{ChecksFalsity};

use crate::judge::{Checked, Inferred, Inside, Sides};
use crate::rows::Row;
use bl::FormulaTag;
use formula::parts::{FormulaAt, Judgement, is_a};
use procap::time::Time;

// The side of a formula that begins at a place, as a plain assumption on an interval.
pub fn side_on(judgement: Judgement, at: usize, from: Time, to: Time) -> Row
    ensures { result ≡ plain_side judgement at from to }
{
    Row {
        whose: None,
        judgement: Judgement {
            formula: FormulaAt {
                at,
                ..judgement.formula
            },
            from,
            to,
        },
    }
}

// 2E and 2F: the side of an "or" that begins at a place, on the same interval.
pub(crate) fn side_inside(judgement: Judgement, sides: Sides, at: usize) -> Inside
    ensures { result ≡ record { ledger = sides.ledger; row = plain_side judgement at judgement.from judgement.to } }
{
    Inside {
        ledger: sides.ledger,
        row: side_on(judgement, at, judgement.from, judgement.to),
    }
}

// 31: what was inferred must be falsity; where it has stopped, so has the whole.
pub fn from_falsity(buffer: &[u8], offset: usize, inferred: Inferred) -> Checked
    ensures { ChecksFalsity buffer.now offset inferred result }
{
    let ledger = inferred.ledger;
    let formula = inferred.judgement.formula;
    if !ledger.goes_on() {
        return Checked {
            ledger,
            next: offset,
        };
    }
    if !is_a(buffer, formula.at, FormulaTag::FalsityTag) {
        return Checked {
            ledger: ledger.misfit(offset),
            next: offset,
        };
    }
    Checked {
        ledger,
        next: inferred.next,
    }
}
