// The clauses by which the steps of a ring under rule 5 are explained.

ghost use Rattle.models.specs.Why.{tso_rings};
ghost use Rattle.verdict.specs.Base.{base_of};
ghost use Rattle.clause.specs.Steps.{Held};

use crate::order;
use relation::grid::Grid;
use verdict::base::Base;

// Rule 5: those of tso.
pub fn order(b: &Base) -> [Grid; 7]
    ensures { Held tso_rings.rule5 (base_of b.now) result }
{
    order::clauses(b, b.fr())
}
