// Sequences: lists of at most N items, which lie in the value itself and are copied with it. (The kit's `ArrayVec` does not copy.)

#![tactic(auto)]

ghost use Rattle.std.specs.Prelude.{◌≡◌, ◌+◌, ◌≤◌, ◌<◌, [], ◌∷◌, ◌++◌, length, take, drop, reverse};
ghost use Rattle.sequence.specs.Items.{written};

use std::marker::Model;

// The first `count` of the cells.
#[derive(Clone, Copy)]
pub struct Sequence<T, const N: usize> {
    cells: [T; N],
    count: usize,
}

impl<T, const N: usize> Model for Sequence<T, N> {
    ghost use Rattle.std.specs.Prelude.{◌≡◌, ◌≤◌, ◌++◌, length, take, drop};
    ghost use Rattle.std.proofs.Common.{arith, take-append-drop, length-take-le};
    ghost use Rattle.sequence.specs.Items.{Items};

    ghost Value = { Items T };

    ghost view = { λ s. record { items = take s.count s.cells; spare = drop s.count s.cells } };

    ghost invariant = { λ s. (s.count ≤ N) × (length s.cells ≡ N) };

    ghost inverse = { λ s. record { cells = s.items ++ s.spare; count = length s.items } };

    ghost inverse_ok = { λ s h i. record {
      cells = take-append-drop s.count s.cells i;
      count = length-take-le s.count s.cells (omega (arith, h.0, h.1)) i;
    } };
}

impl<T: Default, const N: usize> Sequence<T, N> {
    // No item.
    pub fn new() -> Self
        ensures { result.items ≡ [] }
    {
        Sequence {
            cells: Default::default(),
            count: 0,
        }
    }
}

impl<T: Copy, const N: usize> Sequence<T, N> {
    // The first `count` of the cells.
    pub fn of(cells: [T; N], count: usize) -> Self
        requires { count ≤ N }
        ensures { result.items ≡ take count cells }
    {
        Sequence { cells, count }
    }

    // The number of items.
    pub fn len(&self) -> usize
        ensures value { result ≡ length self.now.items }
        ensures fits { result ≤ N }
    {
        self.as_slice().len()
    }

    // The items.
    pub fn as_slice(&self) -> &[T]
        ensures value { result.now ≡ self.now.items }
        ensures fits { length result.now ≤ N }
    {
        &self.cells[..self.count]
    }

    // Adds an item.
    pub fn push(&mut self, item: T)
        requires { length self.old.items < N }
        ensures items { self.new.items ≡ self.old.items ++ item ∷ [] }
        ensures len { length self.new.items ≡ length self.old.items + 1 }
    {
        let n = self.count;
        self.cells[n] = item;
        self.count = n + 1;
    }

    // Puts items in the cells from a place on, and takes the first `count` cells for the items.
    pub fn put(&mut self, at: usize, more: &[T], count: usize)
        requires { (at + length more.now ≤ N) × (count ≤ N) }
        ensures { self.new.items ≡ take count (written self.old at more.now) }
    {
        let cells = &mut self.cells[..];
        cells[at..at + more.len()].copy_from_slice(more);
        self.count = count;
    }

    // Adds items.
    pub fn extend_from_slice(&mut self, more: &[T])
        requires { length self.old.items + length more.now ≤ N }
        ensures items { self.new.items ≡ self.old.items ++ more.now }
        ensures len { length self.new.items ≡ length self.old.items + length more.now }
    {
        let n = self.count;
        self.put(n, more, n + more.len());
    }

    // Turns the order of the items.
    pub fn reverse(&mut self)
        ensures { self.new.items ≡ reverse self.old.items }
    {
        let n = self.count;
        self.cells[..n].reverse();
    }
}
