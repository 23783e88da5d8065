// The ARMv8 verdict over the base of an execution graph: the rules of `models` and what is shown of them.

#![tactic(auto)]

mod ob;
pub mod why;

ghost use Rattle.verdict.specs.Base.{base_of};
ghost use Rattle.armv8.specs.Judged.{Judged};

use relation::grid;
use verdict::base::Base;
use verdict::{Verdict, per_location, shown};

// The verdict, and what is shown of it.
pub fn judge(b: &Base) -> Verdict
    ensures { Judged (base_of b.now) result }
{
    let fr = b.fr();
    // Rules 1 to 4.
    per_location::tried(b, fr)?;
    // Rule 5: ob = obs ∪ dob ∪ aob ∪ bob
    let ob = clause::union(&ob::clauses(b, grid::minus(fr, b.po)));
    shown::acyclicity(ob, b.events)
}
