// The x86-TSO verdict over the base of an execution graph: the rules of `models` and what is shown of them.

#![tactic(auto)]

mod order;
pub mod why;

ghost use Rattle.verdict.specs.Base.{base_of};
ghost use Rattle.tso.specs.Judged.{Judged};

use verdict::base::Base;
use verdict::{Verdict, per_location, shown};

// The verdict, and what is shown of it.
pub fn judge(b: &Base) -> Verdict
    ensures { Judged (base_of b.now) result }
{
    let fr = b.fr();
    // Rules 1 to 4.
    per_location::tried(b, fr)?;
    // Rule 5: tso = ppo ∪ fenced ∪ rfe ∪ co ∪ fr
    let tso = clause::union(&order::clauses(b, fr));
    shown::acyclicity(tso, b.events)
}
