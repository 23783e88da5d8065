// The order in which events are shown: always next the smallest whose predecessors are out.

ghost use Rattle.std.specs.Prelude.{◌≡◌, ◌≤◌, length};
ghost use Rattle.relation.specs.Rel.{inverse, smallest};
ghost use Rattle.relation.specs.Bits.{bit, edge};
ghost use Rattle.relation.specs.Order.{order, ready};

use crate::grid::Grid;
use crate::row::Row;
use crate::{Events, grid, row};

// The events of s in that order; those that come out are all of them where g has no ring.
pub fn order(g: Grid, s: Row) -> Events
    ensures bounded { length result.items ≤ 64 }
    ensures ordered { result.items ≡ order 64 (edge g) (bit s) }
{
    let before = grid::inverse(g);
    let mut left = s;
    let mut events = Events::new();
    while let Some(k) = next_of(&before, left) {
        events.push(k as u8);
        let rest = row::without(left, k);
        left = rest;
    }
    events
}

// The smallest of the events left that none of them precedes, where there is one.
fn next_of(before: &Grid, left: Row) -> Option<usize>
    ensures { result ≡ smallest (ready (inverse (edge before.now)) (bit left)) }
{
    for k in row::members(left) {
        if row::is_empty(row::and(before[k], left)) {
            return Some(k);
        }
    }
    None
}
