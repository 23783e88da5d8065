// The clauses of a relation as grids, and the steps of a ring with the numbers of their clauses.

#![tactic(auto)]

ghost use Rattle.std.specs.Prelude.{◌≡◌, List, map, ◌<◌, ◌≤◌, length};
ghost use Rattle.relation.specs.Bits.{edge};
ghost use Rattle.models.specs.Graph.{Base};
ghost use Rattle.models.specs.Armv8.{sc_per_loc_clauses};
ghost use Rattle.models.specs.Clause.{Clause, number_from, unions};
ghost use Rattle.verdict.specs.Base.{base_of};
ghost use Rattle.clause.specs.Steps.{ring, steps_of, Held, StepsBy};

use relation::grid;
use relation::grid::Grid;
use sequence::Sequence;
use verdict::{Rule, Verdict, base};

// The steps of a ring: two events and the number of a clause.
pub type Steps = Sequence<[u8; 3], 64>;

// The union of the clauses.
pub fn union(clauses: &[Grid]) -> Grid
    ensures { edge result ≡ unions (map edge clauses.now) }
{
    let mut all = grid::empty();
    for clause in clauses {
        let more = grid::or(all, *clause);
        all = more;
    }
    all
}

// Whether the relation holds from a to b, which may be any numbers.
fn holds(g: Grid, a: u8, b: u8) -> bool
    ensures { result ≡ edge g a b }
{
    a < 64 && b < 64 && grid::has(g, a as usize, b as usize)
}

// The number of the first clause that relates a and b, from 1 on, and 0 where none does.
fn number(clauses: &[Grid], a: u8, b: u8) -> u8
    requires { length clauses.now < 256 }
    ensures { result ≡ number_from 1 (map edge clauses.now) a b }
{
    for n in 0..clauses.len() {
        if holds(clauses[n], a, b) {
            return (n + 1) as u8;
        }
    }
    0
}

// The steps of a ring, with the numbers of their clauses.
fn steps(ring: &[u8], clauses: &[Grid]) -> Steps
    requires { (length ring.now ≤ 64) × (length clauses.now < 256) }
    ensures { result.items ≡ steps_of (number_from 1 (map edge clauses.now)) ring.now }
{
    let mut steps = Steps::new();
    for k in 0..ring.len() {
        let a = ring[k];
        let b = if k + 1 < ring.len() {
            ring[k + 1]
        } else {
            ring[0]
        };
        steps.push([a, b, number(clauses, a, b)]);
    }
    steps
}

// The ring that a verdict shows: the events of a broken rule 3 or 5, and none otherwise.
pub fn ring_of(verdict: &Verdict) -> &[u8]
    ensures ring { result.now ≡ ring verdict.now }
    ensures bounded { length result.now ≤ 64 }
{
    let Err(broken) = verdict else {
        return &[];
    };
    match broken.rule {
        Rule::Coherence | Rule::Acyclicity => broken.events.as_slice(),
        Rule::Reads | Rule::Writes | Rule::Atomicity => &[],
    }
}

// The steps of the ring that a verdict shows, explained by the clauses of the rule that is broken.
pub fn explained(verdict: &Verdict, clauses: &[Grid]) -> Steps
    requires { length clauses.now < 256 }
    ensures { (cs : List Clause) (B : Base) → Held cs B clauses.now → StepsBy cs B verdict.now result.items }
{
    steps(ring_of(verdict), clauses)
}

// The clauses of SC-per-location, which is rule 3 of ARMv8 and of x86-TSO: po-loc, rf, fr, co
pub fn per_location(base: &base::Base) -> [Grid; 4]
    ensures { Held sc_per_loc_clauses (base_of base.now) result }
{
    [base.poloc(), base.rf, base.fr(), base.co]
}
