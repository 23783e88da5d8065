// Rules 1 to 4 of the models whose rule 3 is SC-per-location: ARMv8 and x86-TSO.

ghost use Rattle.std.specs.Prelude.{◌≡◌};
ghost use Rattle.relation.specs.Rel.{nodes};
ghost use Rattle.relation.specs.Bits.{edge};
ghost use Rattle.models.specs.Term.{Term, eval};
ghost use Rattle.models.specs.Term as term;
ghost use Rattle.verdict.specs.Base.{base_of};
ghost use Rattle.verdict.specs.PerLocation.{TriedPerLocation};

use crate::Broken;
use crate::base::Base;
use crate::shown::{atomicity, coherence, completeness};
use relation::grid;
use relation::grid::Grid;

// Rules 1 to 4, whatever the relation of rule 5 is.
pub fn tried(base: &Base, fr: Grid) -> Result<(), Broken>
    ensures { edge fr ≡ eval nodes term.fr (base_of base.now) → (t : Term) → TriedPerLocation t (base_of base.now) result }
{
    // Rules 1 and 2.
    completeness(base)?;
    // Rule 3: po-loc ∪ rf ∪ fr ∪ co has no ring.
    let steps = grid::or(grid::or(grid::or(base.poloc(), base.rf), fr), base.co);
    coherence(grid::diagonal(grid::closure(steps)), steps, steps)?;
    // Rule 4.
    atomicity(base.rmw, grid::minus(fr, base.po), base.coe())
}
