// Checks the rules in order, and shows the first broken one (01, "What is shown").

ghost use Rattle.std.specs.Prelude.{◌≡◌, [], ◌∷◌, ◌<◌, ◌≤◌, length};
ghost use Rattle.relation.specs.Rel.{Rel, diagonal, nodes};
ghost use Rattle.relation.specs.Bits.{bit, edge};
ghost use Rattle.relation.specs.Ring.{RingOrNone};
ghost use Rattle.models.specs.Graph.{Base};
ghost use Rattle.models.specs.Term.{eval, frₑ, coₑ};
ghost use Rattle.models.specs.Rules.{Model};
ghost use Rattle.verdict.specs.Base.{base_of};
ghost use Rattle.verdict.specs.Shown.{Hold, Tried, Around, Shown};

use crate::rules::{Pair, broken_pairs, first_pair, unordered, unread};
use crate::{Broken, Rule, Verdict, base};
use relation::grid::Grid;
use relation::row::Row;
use relation::{Events, grid, order, ring, row};

// One event of a broken rule.
fn broken_event(rule: Rule, k: usize) -> Broken
    requires { k < 64 }
    ensures { (result.rule ≡ rule) × (result.events.items ≡ k ∷ []) }
{
    let mut events = Events::new();
    events.push(k as u8);
    Broken { rule, events }
}

// A pair of a broken rule.
fn broken_pair(rule: Rule, pair: Pair) -> Broken
    requires { (pair.first < 64) × (pair.second < 64) }
    ensures { (result.rule ≡ rule) × (result.events.items ≡ pair.first ∷ pair.second ∷ []) }
{
    let mut events = Events::new();
    events.push(pair.first as u8);
    events.push(pair.second as u8);
    Broken { rule, events }
}

// A shortest ring of a broken rule.
fn broken_ring(rule: Rule, steps: Grid, closing: Grid) -> Broken
    ensures rule { result.rule ≡ rule }
    ensures bounded { length result.events.items ≤ 64 }
    ensures ring { RingOrNone (edge steps) (edge closing) result.events.items }
{
    Broken {
        rule,
        events: ring::ring(steps, closing),
    }
}

// Rules 1 and 2: every read has rf, and co orders any two writes of a location.
pub fn completeness(base: &base::Base) -> Result<(), Broken>
    ensures { (M : Model) (steps closing : Rel) → Tried 2 steps closing M (base_of base.now) result }
{
    if let Some(read) = row::first(unread(base)) {
        return Err(broken_event(Rule::Reads, read));
    }
    if let Some(writes) = unordered(base) {
        return Err(broken_pair(Rule::Writes, writes));
    }
    Ok(())
}

// Rule 3, from the events that it forbids, its ring's steps and closing step.
pub fn coherence(incoherent: Row, steps: Grid, closing: Grid) -> Result<(), Broken>
    ensures { (M : Model) (B : Base) (s c : Rel) → Hold 2 M B → bit incoherent ≡ diagonal (eval nodes M.coherent B)
        → edge steps ≡ s → edge closing ≡ c → Around M B s c → Tried 3 s c M B result }
{
    if row::is_empty(incoherent) {
        return Ok(());
    }
    Err(broken_ring(Rule::Coherence, steps, closing))
}

// Rule 4: no rmw pair is also fre then coe.
pub fn atomicity(rmw: Grid, fre: Grid, coe: Grid) -> Result<(), Broken>
    ensures { (M : Model) (B : Base) (s c : Rel) → Hold 3 M B → edge rmw ≡ B.rmw → edge fre ≡ eval nodes frₑ B
        → edge «coe» ≡ eval nodes coₑ B → Tried 4 s c M B result }
{
    let pairs = broken_pairs(rmw, fre, coe);
    if let Some(pair) = first_pair(pairs) {
        return Err(broken_pair(Rule::Atomicity, pair));
    }
    Ok(())
}

// Rule 5, from its relation and all events, which are shown in the order of the relation where the rule holds too.
pub fn acyclicity(before: Grid, all: Row) -> Verdict
    ensures { (M : Model) (B : Base) (s c : Rel) → Hold 4 M B → edge before ≡ eval nodes M.order B → bit all ≡ B.E
        → Shown s c M B result }
{
    let reached = grid::closure(before);
    if row::is_empty(grid::diagonal(reached)) {
        return Ok(order::order(before, all));
    }
    Err(broken_ring(Rule::Acyclicity, before, before))
}
