// The line of a step of a ring: the model's word, the two events, the name of the clause.

ghost use Rattle.std.specs.Prelude.{◌≡◌, ◌≤◌, length};
ghost use Rattle.models.specs.Why.{clauses_of};
ghost use Rattle.lines.specs.Lines.{model_word};
ghost use Rattle.verdicts.specs.ByModel.{clauses_for};
ghost use Rattle.explanation.specs.StepLine.{Names, name_of, step_line};

use lines::{Model, Text, put_number, put_word, word};

// The names of the clauses of IMM's rule 3.
const IMM_STEPS: [&str; 7] = ["po", "sw", "rf", "co", "co;rf", "fr", "fr;rf"];

// The names of the clauses of IMM's rule 5.
const AR: [&str; 10] = [
    "rfe",
    "po;[Wrel]",
    "[Racq];po",
    "po;[F]",
    "[F];po",
    "[Wrel];po-loc;[W]",
    "ppo",
    "detour",
    "psc",
    "[Wstrong];po;[W]",
];

// The names of the clauses of SC-per-location, which is rule 3 of ARMv8 and of x86-TSO.
const PER_LOCATION: [&str; 4] = ["po-loc", "rf", "fr", "co"];

// The names of the clauses of ARMv8's rule 5.
const OB: [&str; 14] = [
    "rfe",
    "fre",
    "coe",
    "(addr|data);rfi?",
    "(ctrl|data);[W];coi?",
    "addr;po;[W]",
    "(ctrl|addr;po);[Fisb];po;[R]",
    "rmw",
    "[codom(rmw)];rfi;[Racq]",
    "po;[Fsy];po",
    "[R];po;[Fld];po",
    "[Racq];po",
    "po;[Wrel];coi?",
    "[Wrel];po;[Racq]",
];

// The names of the clauses of x86-TSO's rule 5.
const TSO: [&str; 7] = [
    "[R];po;([R]|[W])",
    "[W];po;[W]",
    "node;po;full",
    "full;po;node",
    "rfe",
    "co",
    "fr",
];

// The names of the clauses of a model's rule 3, in their order.
#[tactic(auto, unfolding(crate::specs::StepLine::bytes_from))]
fn coherence_names(model: Model) -> &'static [&'static str]
    ensures { Names (clauses_for model).rule3 result.now }
{
    match model {
        Model::Source => &IMM_STEPS,
        Model::Chip => &PER_LOCATION,
        Model::Tso => &PER_LOCATION,
    }
}

// The names of the clauses of a model's rule 5, in their order.
#[tactic(auto, unfolding(crate::specs::StepLine::bytes_from))]
fn order_names(model: Model) -> &'static [&'static str]
    ensures { Names (clauses_for model).rule5 result.now }
{
    match model {
        Model::Source => &AR,
        Model::Chip => &OB,
        Model::Tso => &TSO,
    }
}

// The names of the clauses of a model's rule by its number, in their order: those of 3, coherence, and of 5, acyclicity; the other rules have
// none.
fn names(model: Model, rule: u8) -> &'static [&'static str]
    ensures { Names (clauses_of (clauses_for model) rule) result.now }
{
    match rule {
        3 => coherence_names(model),
        5 => order_names(model),
        _ => &[],
    }
}

// The name of a clause of a model's rule by its number, from 1 on; no byte for a number that no clause has.
fn name(model: Model, rule: u8, n: u8) -> &'static [u8]
    ensures name { result.now ≡ name_of (clauses_of (clauses_for model) rule) n }
    ensures short { length result.now ≤ 28 }
{
    let names = names(model, rule);
    let n = n as usize;
    if n == 0 || names.len() < n {
        return b"";
    }
    names[n - 1].as_bytes()
}

// The line of a step of a ring under a rule of a model by its number, which may be any.
pub fn line(model: Model, rule: u8, step: [u8; 3]) -> Text
    ensures line { result.items ≡ step_line (model_word model) (clauses_of (clauses_for model) rule) step }
    ensures short { length result.items ≤ 44 }
{
    let mut text = Text::new();
    put_word(&mut text, word(model));
    put_number(&mut text, step[0]);
    put_number(&mut text, step[1]);
    put_word(&mut text, b" ");
    put_word(&mut text, name(model, rule, step[2]));
    text.push(b'\n');
    text
}
