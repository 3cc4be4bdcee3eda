// Rows of marks, a bit for each column.
ghost use Rattle.std.specs.Prelude.{◌+◌, ◌/◌, ◌%◌, ◌^◌, ◌<◌, ◌≡◌, length};
ghost use Rattle.procap.specs.Tells.{Tells};
ghost use Rattle.bl.specs.Strength.{most_pairs};
ghost use Rattle.strength.specs.Marks.{Bit, RowsGain};
ghost use Rattle.strength.specs.InNumbers.{mark_words, words};

use crate::MOST_PAIRS;

// Whether the mark of a column is set in a row.
pub(crate) fn has_mark(row: u128, column: usize) -> bool
    requires { column < most_pairs }
    ensures { Tells result (Bit row column) }
{
    (row >> column) % 2 == 1
}

// Each row gains marks that has the mark of a column.
pub(crate) fn gain_rows(rows: &mut [u128], column: usize, gained: u128)
    requires { column < most_pairs }
    ensures { RowsGain column gained rows.old rows.new }
{
    if column < 64 {
        gain_by_half::<0>(rows, column, gained);
    } else {
        gain_by_half::<64>(rows, column - 64, gained);
    }
}

// The same of a column in the half of a row that begins at a bit: to look at that half alone takes half the time.
fn gain_by_half<const FROM: usize>(rows: &mut [u128], place: usize, gained: u128)
    requires { (FROM < 128) × (place < 64) }
    ensures { RowsGain (FROM + place) gained rows.old rows.new }
{
    let mark = 1u64 << place;
    for row in rows.iter_mut() {
        let half = ((*row >> FROM) % (1 << 64)) as u64;
        if half & mark != 0 {
            *row |= gained;
        }
    }
}

// The row that two words make.
fn row_of(low: u64, high: u64) -> u128
    ensures low { result % 2 ^ 64 ≡ low }
    ensures high { result / 2 ^ 64 ≡ high }
{
    (u128::from(high) << 64) + u128::from(low)
}

// The rows that words make, two for each.
pub(crate) fn rows_of(numbers: &[u64]) -> [u128; MOST_PAIRS]
    requires { length numbers.now ≡ mark_words }
    ensures { words result ≡ numbers.now }
{
    let mut rows = [0; MOST_PAIRS];
    for row in 0..MOST_PAIRS {
        rows[row] = row_of(numbers[row * 2], numbers[row * 2 + 1]);
    }
    rows
}

// Leaves the rows in words, two for each.
pub(crate) fn put_rows(rows: &[u128; MOST_PAIRS], numbers: &mut [u64])
    requires { length numbers.old ≡ mark_words }
    ensures { numbers.new ≡ words rows.now }
{
    for (place, row) in rows.iter().enumerate() {
        numbers[place * 2] = (*row % (1 << 64)) as u64;
        numbers[place * 2 + 1] = (*row >> 64) as u64;
    }
}
