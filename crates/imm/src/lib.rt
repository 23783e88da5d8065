// The IMM verdict over the base of an execution graph: the rules of `models` and what is shown of them.

#![tactic(auto)]

mod ar;
mod hb;
pub mod why;

ghost use Rattle.verdict.specs.Base.{base_of};
ghost use Rattle.imm.specs.Judged.{Judged};

use relation::{grid, row};
use verdict::base::Base;
use verdict::{Verdict, shown};

// The verdict, and what is shown of it.
pub fn judge(b: &Base) -> Verdict
    ensures { Judged (base_of b.now) result }
{
    // Rules 1 and 2.
    shown::completeness(b)?;
    // Rule 3 forbids hb ; eco? from an event to itself. Its ring is of steps of hb, and may be closed by eco between two events.
    let fr = b.fr();
    let steps = hb::steps(b);
    let hb = grid::closure(steps);
    let eco = hb::eco(b, fr);
    let returning = grid::returning(hb, grid::inverse(grid::optional(eco, b.events)));
    let closing = grid::or(steps, grid::minus(eco, grid::identity(row::all())));
    shown::coherence(returning, steps, closing)?;
    // Rule 4.
    shown::atomicity(b.rmw, grid::minus(fr, b.po), b.coe())?;
    // Rule 5: ar = rfe ∪ bob ∪ ppo ∪ detour ∪ psc ∪ [Wstrong] ; po ; [W]
    let ar = clause::union(&ar::clauses(b, hb, eco));
    shown::acyclicity(ar, b.events)
}
