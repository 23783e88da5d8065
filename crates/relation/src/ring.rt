// Shortest rings: the number of steps is tried from the fewest up.
// A ring's steps are edges of g; its closing step, from the last event back to the first, is an edge of e.

ghost use Rattle.std.specs.Prelude.{◌≡◌, true, ℕ, ◌<◌, ◌≤◌, length, IfSome, IfNone};
ghost use Rattle.relation.specs.Bits.{edge};
ghost use Rattle.relation.specs.Rel.{compose, nodes};
ghost use Rattle.relation.specs.Ring.{RingOrNone, power, Shortest, NoneBelow, Levels, StepsBack, Way, Turned, SmallestAt};

use crate::grid::Grid;
use crate::{Events, grid, row};

// Where a ring starts, and how many steps of g it has.
#[derive(Clone, Copy)]
pub struct Start {
    pub steps: usize,
    pub event: usize,
}

// The fewest steps of g that an edge of e closes, and the smallest event that they start from; none where there is no ring.
pub fn shortest(g: Grid, e: Grid) -> Option<Start>
    ensures found { IfSome result (λ s. Shortest (edge g) (edge e) s.steps s.event) }
    ensures none { IfNone result (NoneBelow 64 (edge g) (edge e)) }
{
    let back = grid::inverse(e);
    let mut p = grid::identity(row::all());
    for steps in 0..64 {
        if let Some(event) = row::first(grid::returning(p, back)) {
            return Some(Start { steps, event });
        }
        let next = grid::then(p, g);
        p = next;
    }
    None
}

// Row k holds the events that g reaches from s in exactly k steps.
pub fn levels(g: Grid, s: usize) -> Grid
    requires { s < 64 }
    ensures { (k : ℕ) → k < 64 → edge result k ≡ power k (edge g) s }
{
    let mut h = grid::empty();
    let mut x = row::with(row::none(), s);
    for k in 0..64 {
        h[k] = x;
        let next = grid::image(x, g);
        x = next;
    }
    h
}

// The events of n steps back from x, which is the last: from each level to the one before it, by an edge of b.
pub fn steps_back(h: Grid, b: Grid, n: usize, x: usize) -> Events
    requires { (n < 64) × (x < 64) × (edge h n x ≡ true) × Levels (edge h) (edge b) }
    ensures { StepsBack (edge h) (edge b) n x result.items }
{
    let mut events = Events::new();
    events.push(x as u8);
    let mut y = x;
    for k in (0..n).rev() {
        y = row::first(row::and(h[k], b[y])).unwrap();
        events.push(y as u8);
    }
    events.reverse();
    events
}

// The events of n steps of g from s that an edge of e closes.
pub fn way(g: Grid, e: Grid, s: usize, n: usize) -> Events
    requires { (s < 64) × (n < 64) × (compose nodes (power n (edge g)) (edge e) s s ≡ true) }
    ensures { Way (edge g) (edge e) s n result.items }
{
    let h = levels(g, s);
    let x = row::first(row::and(h[n], grid::column(e, s))).unwrap();
    steps_back(h, grid::inverse(g), n, x)
}

// The place of the smallest event.
pub fn smallest_at(events: &[u8]) -> usize
    requires { 0 < length events.now }
    ensures { SmallestAt events.now (length events.now) result }
{
    let mut m = 0;
    for k in 1..events.len() {
        if events[k] < events[m] {
            m = k;
        }
    }
    m
}

// The events of a way, turned so that the smallest is the first.
pub fn turned(way: Events) -> Events
    requires { 0 < length way.items }
    ensures { Turned way.items result.items }
{
    let events = way.as_slice();
    let m = smallest_at(events);
    let mut ring = Events::new();
    ring.extend_from_slice(&events[m..]);
    ring.extend_from_slice(&events[..m]);
    ring
}

// A shortest ring, or no event where there is none.
pub fn ring(g: Grid, e: Grid) -> Events
    ensures bounded { length result.items ≤ 64 }
    ensures ring { RingOrNone (edge g) (edge e) result.items }
{
    let Some(Start { steps, event }) = shortest(g, e) else {
        return Events::new();
    };
    turned(way(g, e, event, steps))
}
