// Things put one after another into fixed memory.
#![tactic(auto)]

ghost use Rattle.std.specs.Prelude.{◌≡◌, ◌<◌, ◌≤◌, List, [], ◌∷◌, ◌++◌, length, take};

use std::marker::Model;

// The front of an array: so many of its items, and room for more behind them.
#[derive(Drop)]
pub struct Front<T, const N: usize> {
    items: [T; N],
    count: usize,
}

// Clauses see the items at the front.
impl<T, const N: usize> Model for Front<T, N> {
    ghost Value = { List T };

    ghost view = { λ front. take front.count front.items };

    ghost invariant = { λ front. front.count ≤ N };
}

impl<T: Copy, const N: usize> Front<T, N> {
    // No items; behind them the array has `none`.
    pub fn new(none: T) -> Self
        ensures { result ≡ [] }
    {
        Front {
            items: [none; N],
            count: 0,
        }
    }

    // The first `count` of these, or all of them.
    pub fn of(items: [T; N], count: usize) -> Self
        ensures { result ≡ take count items }
    {
        Front {
            items,
            count: count.min(N),
        }
    }

    // Puts one more behind them, where there is room.
    pub fn push(&mut self, item: T)
        ensures room { length self.old < N → self.new ≡ self.old ++ item ∷ [] }
        ensures full { N ≤ length self.old → self.new ≡ self.old }
    {
        if self.count < N {
            self.items[self.count] = item;
            self.count += 1;
        }
    }

    // All of them.
    pub fn lent(&self) -> &[T]
        ensures { result.now ≡ self.now }
    {
        &self.items[..self.count]
    }
}
