// Assumptions and certificates as rows of numbers that are lent through the walk.
ghost use Rattle.std.specs.Prelude.{◌≡◌, [], ◌∷◌, ◌+◌, ◌≤◌, ◌<◌, length};
ghost use Rattle.std.proofs.lemmas.List.Edits.{sets};
ghost use Rattle.formula.specs.PutIn.{terms_numbers};
ghost use Rattle.judging.specs.RowsOf.{row_of, row_from, row_in, whose_in, time_in, numbers_in, most_rows};
ghost use Rattle.judging.specs.RowNumbers.{whose_kind, whose_value, numbers_of_row, rows_put, rows_with};

use formula::numbers::JudgementNumbers;
use formula::parts::{FormulaAt, Judgement};
use formula::terms::{TERMS_NUMBERS, Terms};
use ledger::number_in;
use procap::time::Time;

// How many rows there are at the most.
pub const MOST_ROWS: usize = 32;
// How many numbers a row takes.
pub const ROW_NUMBERS: usize = 16;
// How many numbers all rows take.
pub const ALL_NUMBERS: usize = 512;

// An assumption, or a certificate: a claim of a principal, or nobody's, which is a plain assumption.
#[derive(Clone, Copy)]
pub struct Row {
    pub whose: Option<u64>,
    pub judgement: Judgement,
}

// A row whose times are held in numbers; any two stand for a time.
#[derive(Clone, Copy)]
pub struct RowNumbers {
    pub whose: Option<u64>,
    pub judgement: JudgementNumbers,
}

impl RowNumbers {
    // The row on the times that the numbers stand for.
    pub fn row(self) -> Row
        ensures { result ≡ row_of self }
    {
        Row {
            whose: self.whose,
            judgement: self.judgement.judgement(),
        }
    }
}

impl Row {
    // The same with its times in numbers.
    pub fn numbers(self) -> RowNumbers
        ensures { result ≡ numbers_of_row self }
    {
        RowNumbers {
            whose: self.whose,
            judgement: self.judgement.numbers(),
        }
    }
}

// The time that two numbers of the rows stand for.
fn time_in(rows: &[u64], at: usize) -> Time
    requires { at < 1000 }
    ensures { result ≡ time_in rows.now at }
{
    Time::of_numbers(number_in(rows, at), number_in(rows, at + 1))
}

// As many numbers of the rows as terms take.
fn numbers_in(rows: &[u64], at: usize) -> [u64; TERMS_NUMBERS]
    requires { at < 1000 }
    ensures { result ≡ numbers_in rows.now at terms_numbers }
{
    let mut numbers = [0u64; TERMS_NUMBERS];
    for (i, number) in numbers.iter_mut().enumerate() {
        *number = number_in(rows, at + i);
    }
    numbers
}

// Whose a row is, from its first two numbers.
fn whose_in(rows: &[u64], at: usize) -> Option<u64>
    requires { at < 1000 }
    ensures { result ≡ whose_in rows.now at }
{
    if number_in(rows, at) == 0 {
        None
    } else {
        Some(number_in(rows, at + 1))
    }
}

// The row that sixteen numbers are, by its index.
fn row_from(rows: &[u64], index: usize) -> Row
    requires { index < most_rows }
    ensures { result ≡ row_from rows.now index }
{
    let start = index * ROW_NUMBERS;
    let terms = Terms {
        count: number_in(rows, start + 7) as usize,
        numbers: numbers_in(rows, start + 8),
    };
    let formula = FormulaAt {
        at: number_in(rows, start + 6) as usize,
        terms,
    };
    let judgement = Judgement {
        formula,
        from: time_in(rows, start + 2),
        to: time_in(rows, start + 4),
    };
    Row {
        whose: whose_in(rows, start),
        judgement,
    }
}

// The row at an index. Whether all rows are there is asked once, and then not for each number of the row.
pub(crate) fn row_at(rows: &[u64], index: usize) -> Row
    requires { index < most_rows }
    ensures { result ≡ row_in rows.now index }
{
    if rows.len() == ALL_NUMBERS {
        return row_from(rows, index);
    }
    Row {
        whose: None,
        judgement: Judgement::front_on_ctime(),
    }
}

// Puts two numbers.
fn put_two(rows: &mut [u64], at: usize, first: u64, second: u64)
    requires { at + 1 < length rows.old }
    ensures { rows.new ≡ sets rows.old at (first ∷ second ∷ []) }
{
    rows[at] = first;
    rows[at + 1] = second;
}

// Puts the numbers of terms.
fn put_numbers(rows: &mut [u64], at: usize, numbers: &[u64; TERMS_NUMBERS])
    requires { at + terms_numbers ≤ length rows.old }
    ensures { rows.new ≡ sets rows.old at numbers.now }
{
    rows[at..at + TERMS_NUMBERS].copy_from_slice(numbers);
}

// Puts a row at an index; where the rows are not all there, or have no such index, nothing.
pub fn put_row(rows: &mut [u64], index: usize, row: Row)
    ensures { rows.new ≡ rows_with rows.old index row }
{
    put_row_numbers(rows, index, row.numbers());
}

// The same of a row whose times are held in numbers, which are put as they are.
pub fn put_row_numbers(rows: &mut [u64], index: usize, row: RowNumbers)
    ensures { rows.new ≡ rows_put rows.old index row }
{
    if rows.len() != ALL_NUMBERS {
        return;
    }
    if MOST_ROWS <= index {
        return;
    }
    let start = index * ROW_NUMBERS;
    let JudgementNumbers { formula, from, to } = row.judgement;
    let FormulaAt { at, terms } = formula;
    put_two(
        rows,
        start,
        u64::from(row.whose.is_some()),
        row.whose.unwrap_or(0),
    );
    put_two(rows, start + 2, from.kind, from.second);
    put_two(rows, start + 4, to.kind, to.second);
    put_two(rows, start + 6, at as u64, terms.count as u64);
    put_numbers(rows, start + 8, &terms.numbers);
}
