// The clauses by which the steps of a ring under rule 5 are explained.

ghost use Rattle.models.specs.Why.{armv8_rings};
ghost use Rattle.verdict.specs.Base.{base_of};
ghost use Rattle.clause.specs.Steps.{Held};

use crate::ob;
use relation::grid;
use relation::grid::Grid;
use verdict::base::Base;

// Rule 5: those of ob.
pub fn order(b: &Base) -> [Grid; 14]
    ensures { Held armv8_rings.rule5 (base_of b.now) result }
{
    ob::clauses(b, grid::minus(b.fr(), b.po))
}
