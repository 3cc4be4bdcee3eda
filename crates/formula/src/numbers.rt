// A formula on an interval whose two times are held in numbers, as a caller may have them.
ghost use Rattle.std.specs.Prelude.{◌≡◌};
ghost use Rattle.formula.specs.Numbers.{judgement_of, numbers_of_judgement};

use crate::parts::{FormulaAt, Judgement};
use procap::time::TimeNumbers;

// A formula on an interval, the two times of which are held in numbers; any two stand for a time.
#[derive(Clone, Copy)]
pub struct JudgementNumbers {
    pub formula: FormulaAt,
    pub from: TimeNumbers,
    pub to: TimeNumbers,
}

impl JudgementNumbers {
    // The judgement on the times that the numbers stand for.
    pub fn judgement(self) -> Judgement
        ensures { result ≡ judgement_of self }
    {
        Judgement {
            formula: self.formula,
            from: self.from.time(),
            to: self.to.time(),
        }
    }
}

impl Judgement {
    // The same with its times in numbers.
    pub fn numbers(self) -> JudgementNumbers
        ensures { result ≡ numbers_of_judgement self }
    {
        JudgementNumbers {
            formula: self.formula,
            from: self.from.numbers(),
            to: self.to.numbers(),
        }
    }
}
