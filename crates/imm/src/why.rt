// The clauses by which the steps of a ring are explained.

ghost use Rattle.models.specs.Why.{imm_rings};
ghost use Rattle.verdict.specs.Base.{base_of};
ghost use Rattle.clause.specs.Steps.{Held};

use crate::{ar, hb};
use relation::grid;
use relation::grid::Grid;
use verdict::base::Base;

// Rule 3: po and sw, and for the closing step those of eco.
pub fn coherence(b: &Base) -> [Grid; 7]
    ensures { Held imm_rings.rule3 (base_of b.now) result }
{
    let fr = b.fr();
    [
        b.po,
        hb::sw(b),
        b.rf,
        b.co,
        grid::then(b.co, b.rf),
        fr,
        grid::then(fr, b.rf),
    ]
}

// Rule 5: those of ar.
pub fn order(b: &Base) -> [Grid; 10]
    ensures { Held imm_rings.rule5 (base_of b.now) result }
{
    let hb = grid::closure(hb::steps(b));
    let eco = hb::eco(b, b.fr());
    ar::clauses(b, hb, eco)
}
