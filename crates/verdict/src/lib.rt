// What the verdicts of all memory models share: their answer, the base of an execution graph, what the rules forbid that every model has, and
// the checks of the rules, in order, with what is shown of the first broken one.
// The rules are those of `models`. Nothing here knows a model; `per_location` serves every one whose rule 3 is SC-per-location.

#![tactic(auto)]

pub mod base;
pub mod per_location;
pub mod rules;
pub mod shown;

ghost use Rattle.std.specs.Prelude.{◌≡◌};

use relation::Events;

// The rules, by what each asks for, in their order: 1, rf of every read; 2, co of every two writes of a location; 3, coherence;
// 4, atomicity; 5, acyclicity.
#[derive(Clone, Copy, Debug, PartialEq, Eq, Hash)]
pub enum Rule {
    Reads,
    Writes,
    Coherence,
    Atomicity,
    Acyclicity,
}

impl Rule {
    ghost use Rattle.verdict.specs.Verdict.{number};

    // The number by which it is answered and printed.
    pub fn number(self) -> u8
        ensures { result ≡ number self }
    {
        match self {
            Rule::Reads => 1,
            Rule::Writes => 2,
            Rule::Coherence => 3,
            Rule::Atomicity => 4,
            Rule::Acyclicity => 5,
        }
    }
}

// The first broken rule, and the events that break it.
#[derive(Clone, Copy)]
pub struct Broken {
    pub rule: Rule,
    pub events: Events,
}

// Allowed, with all events in the order that is shown, or broken.
pub type Verdict = Result<Events, Broken>;

ghost use Rattle.verdict.specs.Verdict.{rule_of};

// The number of the broken rule, and 0 where none is.
pub fn rule_of(verdict: &Verdict) -> u8
    ensures { result ≡ rule_of verdict.now }
{
    match verdict {
        Ok(_) => 0,
        Err(broken) => broken.rule.number(),
    }
}
