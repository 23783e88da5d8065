// What rules 1, 2 and 4 forbid, which every model has alike.

ghost use Rattle.std.specs.Prelude.{◌≡◌};
ghost use Rattle.relation.specs.Rel.{nodes};
ghost use Rattle.relation.specs.Bits.{bit, edge};
ghost use Rattle.models.specs.Graph.{Base};
ghost use Rattle.models.specs.Term.{eval, frₑ, coₑ};
ghost use Rattle.models.specs.Rules as models;
ghost use Rattle.verdict.specs.Base.{base_of};
ghost use Rattle.verdict.specs.Shown.{FirstPair};

use crate::base;
use relation::grid::Grid;
use relation::row::Row;
use relation::{grid, row};

// A pair of a relation.
#[derive(Clone, Copy)]
pub struct Pair {
    pub first: usize,
    pub second: usize,
}

// Rule 1: the reads without rf.
pub fn unread(base: &base::Base) -> Row
    ensures { bit result ≡ models.unread nodes (base_of base.now) }
{
    row::minus(base.reads, grid::image(row::all(), base.rf))
}

// Rule 2: the first two writes of a location that co does not order.
pub fn unordered(base: &base::Base) -> Option<Pair>
    ensures { FirstPair (models.unordered nodes (base_of base.now)) result }
{
    // Two writes need no order where they are one, or where co orders them.
    let settled = grid::optional(grid::or(base.co, grid::inverse(base.co)), base.writes);
    let mut found = None;
    'pairs: for first in row::members(base.writes) {
        let peers = row::and(base.writes, base.loc[first]);
        for second in row::members(peers) {
            if !row::has(settled[first], second) {
                found = Some(Pair { first, second });
                break 'pairs;
            }
        }
    }
    found
}

// Rule 4: the rmw pairs that are also fre then coe.
pub fn broken_pairs(rmw: Grid, fre: Grid, coe: Grid) -> Grid
    ensures { (B : Base) → edge rmw ≡ B.rmw → edge fre ≡ eval nodes frₑ B → edge «coe» ≡ eval nodes coₑ B
        → edge result ≡ eval nodes models.broken_pair B }
{
    grid::and(rmw, grid::then(fre, coe))
}

// The first pair of a relation.
pub fn first_pair(g: Grid) -> Option<Pair>
    ensures { FirstPair (edge g) result }
{
    let first = row::first(grid::image(row::all(), grid::inverse(g)))?;
    let second = row::first(g[first])?;
    Some(Pair { first, second })
}
