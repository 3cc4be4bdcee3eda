// Things that stand in a row of bytes, and those of them that are lent on.
ghost use Rattle.std.specs.Prelude.{◌≡◌, ℕ, ◌+◌, ◌*◌, ◌≤◌, List, length, take};
ghost use Rattle.from_c.specs.InARow.{in_a_row, how_many};

use front::Front;

// What stands in a row of bytes: so many bytes each, one after another.
pub trait InARow: Copy {
    ghost BYTES: { ℕ };
    // How many bytes each takes.
    const BYTES: usize;

    // What the bytes say at a place.
    ghost value_at: { List ℕ → ℕ → Self };

    // The one at a place of the bytes.
    fn at(bytes: &[u8], at: usize) -> Self
        requires { at + BYTES ≤ usize.MAX }
        ensures { result ≡ value_at bytes.now at };

    // Each takes some bytes.
    ghost takes_some: { 1 ≤ BYTES };
}

// Fills lent places with things that stand in a row from a place of the bytes on, one for each place.
// A loop, and no closure: what `T::at` requires must stand at the closure, and there a bound's member is refused.
pub(crate) fn put_in_a_row<T: InARow>(bytes: &[u8], start: usize, items: &mut [T])
    requires { start + T.BYTES * length items.old ≤ usize.MAX }
    ensures { items.new ≡ in_a_row (T.value_at bytes.now) T.BYTES (length items.old) start }
{
    for i in 0..items.len() {
        items[i] = T::at(bytes, start + T::BYTES * i);
    }
}

// The first of the things that the bytes say, no more of them than are lent on; an incomplete one at the end is one too.
pub(crate) fn front_of<T: InARow, const N: usize>(bytes: &[u8], none: T) -> Front<T, N>
    requires { T.BYTES * N ≤ usize.MAX }
    ensures { result ≡ take N (in_a_row (T.value_at bytes.now) T.BYTES (how_many T.BYTES (length bytes.now)) 0) }
{
    let count = bytes.len().div_ceil(T::BYTES).min(N);
    let mut items = [none; N];
    put_in_a_row(bytes, 0, &mut items[..count]);
    Front::of(items, count)
}
