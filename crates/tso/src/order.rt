// The relation of rule 5 of x86-TSO, line by line of its definition.

ghost use Rattle.std.specs.Prelude.{◌≡◌};
ghost use Rattle.relation.specs.Rel.{identity, nodes};
ghost use Rattle.relation.specs.Bits.{bit, edge};
ghost use Rattle.models.specs.Term.{eval};
ghost use Rattle.models.specs.Term as term;
ghost use Rattle.models.specs.Tso as tso;
ghost use Rattle.verdict.specs.Base.{base_of};
ghost use Rattle.clause.specs.Steps.{Held};

use relation::grid::Grid;
use relation::row::Row;
use relation::{grid, row};
use verdict::base::Base;

// The clauses of ppo: [R] ; po ; ([R] ∪ [W]), [W] ; po ; [W]
fn ppo(b: &Base) -> [Grid; 2]
    ensures { Held tso.ppo_clauses (base_of b.now) result }
{
    let accesses = row::or(b.reads, b.writes);
    [
        grid::from(b.reads, grid::into(b.po, accesses)),
        grid::from(b.writes, grid::into(b.po, b.writes)),
    ]
}

// The set of full = [Fsc] ∪ [dom(rmw)] ∪ [codom(rmw)]
fn full(b: &Base) -> Row
    ensures { identity (bit result) ≡ eval nodes tso.full (base_of b.now) }
{
    let reads = grid::image(b.events, grid::inverse(b.rmw));
    row::or(row::or(b.fsc, reads), grid::image(b.events, b.rmw))
}

// The set of node = [R] ∪ [W] ∪ [Fsc]
fn node(b: &Base) -> Row
    ensures { identity (bit result) ≡ eval nodes tso.node (base_of b.now) }
{
    row::or(row::or(b.reads, b.writes), b.fsc)
}

// The clauses of fenced: node ; po ; full, full ; po ; node
fn fenced(b: &Base) -> [Grid; 2]
    ensures { Held tso.fenced_clauses (base_of b.now) result }
{
    let node = node(b);
    let full = full(b);
    [
        grid::from(node, grid::into(b.po, full)),
        grid::from(full, grid::into(b.po, node)),
    ]
}

// The clauses of tso: those of ppo and fenced, rfe, co, fr.
pub fn clauses(b: &Base, fr: Grid) -> [Grid; 7]
    ensures { edge fr ≡ eval nodes term.fr (base_of b.now) → Held tso.tso_clauses (base_of b.now) result }
{
    let ppo = ppo(b);
    let fenced = fenced(b);
    [ppo[0], ppo[1], fenced[0], fenced[1], b.rfe(), b.co, fr]
}
