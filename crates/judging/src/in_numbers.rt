// Judgements, rows and scopes whose times are held in numbers, handed on as they are; any two numbers stand for a time.
ghost use Rattle.std.specs.Prelude.{◌≡◌};
ghost use Rattle.judging.specs.RowNumbers.{rows_put};
ghost use Rattle.judging.specs.InNumbers.{part_of, plain_side, view_of_numbers, numbers_of_view, scope_of, numbers_of_scope, scope_inside, scope_with};

use crate::judge::{Scope, View};
use crate::rows::{MOST_ROWS, RowNumbers, put_row_numbers};
use formula::numbers::JudgementNumbers;
use formula::parts::FormulaAt;
use procap::time::{Time, TimeNumbers};

// In whose view a step stands, and on which interval: the kind 0 is nobody's view, where the rest says nothing, and any other a
// principal's.
#[derive(Clone, Copy)]
pub struct ViewNumbers {
    pub kind: u64,
    pub principal: u64,
    pub from: TimeNumbers,
    pub to: TimeNumbers,
}

// Where a step stands, with the times of its view in numbers.
#[derive(Clone, Copy)]
pub struct ScopeNumbers {
    pub count: usize,
    pub shut: usize,
    pub view: ViewNumbers,
}

impl ViewNumbers {
    // The view that the numbers stand for, if it is anybody's.
    #[tactic(auto, unfolding(crate::specs::InNumbers::view_of_numbers))]
    pub fn view(self) -> Option<View>
        ensures { result ≡ view_of_numbers self }
    {
        if self.kind == 0 {
            return None;
        }
        Some(View {
            principal: self.principal,
            from: self.from.time(),
            to: self.to.time(),
        })
    }

    // The numbers of a view; of nobody's they are the principal 0 on [ctime,ctime], which say nothing.
    pub fn of(view: Option<View>) -> ViewNumbers
        ensures { result ≡ numbers_of_view view }
    {
        match view {
            None => ViewNumbers {
                kind: 0,
                principal: 0,
                from: Time::ctime().numbers(),
                to: Time::ctime().numbers(),
            },
            Some(view) => ViewNumbers {
                kind: 1,
                principal: view.principal,
                from: view.from.numbers(),
                to: view.to.numbers(),
            },
        }
    }
}

impl ScopeNumbers {
    // The scope on the times that the numbers stand for.
    pub fn scope(self) -> Scope
        ensures { result ≡ scope_of self }
    {
        Scope {
            count: self.count,
            shut: self.shut,
            view: self.view.view(),
        }
    }

    // The scope inside of a shell, by the row that stands there: a claim's times are handed on to the view as they are.
    pub fn inside(self, row: RowNumbers) -> ScopeNumbers
        ensures { result ≡ scope_inside self row }
    {
        match row.whose {
            None => self,
            Some(principal) => ScopeNumbers {
                count: self.count,
                shut: self.count,
                view: ViewNumbers {
                    kind: 1,
                    principal,
                    from: row.judgement.from,
                    to: row.judgement.to,
                },
            },
        }
    }
}

impl Scope {
    // The same with the times of its view in numbers.
    pub fn numbers(self) -> ScopeNumbers
        ensures { result ≡ numbers_of_scope self }
    {
        ScopeNumbers {
            count: self.count,
            shut: self.shut,
            view: ViewNumbers::of(self.view),
        }
    }
}

// The part of a judgement that begins at another place, on the same two pairs of numbers.
pub fn part_at(judgement: JudgementNumbers, at: usize) -> JudgementNumbers
    ensures { result ≡ part_of judgement at }
{
    JudgementNumbers {
        formula: FormulaAt {
            at,
            ..judgement.formula
        },
        ..judgement
    }
}

// The side of a formula that begins at a place, as a plain assumption on an interval of two pairs of numbers.
pub fn side_on(
    judgement: JudgementNumbers,
    at: usize,
    from: TimeNumbers,
    to: TimeNumbers,
) -> RowNumbers
    ensures { result ≡ plain_side judgement at from to }
{
    RowNumbers {
        whose: None,
        judgement: JudgementNumbers {
            from,
            to,
            ..part_at(judgement, at)
        },
    }
}

// One assumption more: its row is put past those that are there. Where no row has room any more, the scope stays as it was.
#[tactic(auto, unfolding(crate::specs::InNumbers::scope_with))]
pub fn assume(assumptions: &mut [u64], scope: ScopeNumbers, row: RowNumbers) -> ScopeNumbers
    ensures rows { assumptions.new ≡ rows_put assumptions.old scope.count row }
    ensures scope { result ≡ scope_with scope }
{
    put_row_numbers(assumptions, scope.count, row);
    if MOST_ROWS <= scope.count {
        return scope;
    }
    ScopeNumbers {
        count: scope.count + 1,
        ..scope
    }
}
