// The verdict of each model on a file's bytes, and the steps of the ring that it shows: one function for all models, by the model.

#![tactic(auto)]

ghost use Rattle.std.specs.Prelude.{◌≡◌};
ghost use Rattle.models.specs.Armv8.{sc_per_loc_clauses};
ghost use Rattle.models.specs.Why.{clauses_of, imm_rings, armv8_rings, tso_rings};
ghost use Rattle.layout.specs.Decode.{decode};
ghost use Rattle.recording.specs.Load.{LoadsAs, cause_for};
ghost use Rattle.refusal.specs.Refusal.{number_of};
ghost use Rattle.verdict.specs.Base.{base_of};
ghost use Rattle.verdict.specs.Verdict.{rule_of};
ghost use Rattle.clause.specs.Steps.{ring, StepsBy, Explained};
ghost use Rattle.execution.specs.OnFile.{OnRecording, OnFile};
ghost use Rattle.verdicts.specs.ByModel.{side_for, model_for, clauses_for, JudgedFor};

use clause::Steps;
use layout::kind;
use lines::Model;
use recording::causes;
use refusal::Refusal;
use verdict::base::Base;
use verdict::{Rule, Verdict};

// The side of the files that a model judges.
fn side(model: Model) -> bool
    ensures { result ≡ side_for model }
{
    match model {
        Model::Source | Model::Tso => kind::SOURCE,
        Model::Chip => kind::CHIP,
    }
}

// Whether a file loads and is of the model's side: refused as loading does, and with 11 where it is of the other side.
pub fn loads_as(model: Model, file: &[u8]) -> Result<(), Refusal>
    ensures { number_of result ≡ cause_for (side_for model) file.now }
{
    causes::loads_as(file, side(model))
}

// The verdict over the base of an execution graph, and what is shown of it.
fn judge(model: Model, base: &Base) -> Verdict
    ensures { JudgedFor model (base_of base.now) result }
{
    match model {
        Model::Source => imm::judge(base),
        Model::Chip => armv8::judge(base),
        Model::Tso => tso::judge(base),
    }
}

// The steps by the clauses of IMM's coherence. A call of its own, as those by the other clauses are: so the arrays of grids of one relation
// alone stand on the stack.
#[inline(never)]
fn imm_coherence(base: &Base, verdict: &Verdict) -> Steps
    ensures { StepsBy imm_rings.rule3 (base_of base.now) verdict.now result.items }
{
    clause::explained(verdict, &imm::why::coherence(base))
}

// The steps by the clauses of SC-per-location, the coherence of ARMv8 and of x86-TSO.
#[inline(never)]
fn per_location(base: &Base, verdict: &Verdict) -> Steps
    ensures { StepsBy sc_per_loc_clauses (base_of base.now) verdict.now result.items }
{
    clause::explained(verdict, &clause::per_location(base))
}

// The steps by the clauses of ar.
#[inline(never)]
fn imm_order(base: &Base, verdict: &Verdict) -> Steps
    ensures { StepsBy imm_rings.rule5 (base_of base.now) verdict.now result.items }
{
    clause::explained(verdict, &imm::why::order(base))
}

// The steps by the clauses of ob.
#[inline(never)]
fn armv8_order(base: &Base, verdict: &Verdict) -> Steps
    ensures { StepsBy armv8_rings.rule5 (base_of base.now) verdict.now result.items }
{
    clause::explained(verdict, &armv8::why::order(base))
}

// The steps by the clauses of the order of x86-TSO.
#[inline(never)]
fn tso_order(base: &Base, verdict: &Verdict) -> Steps
    ensures { StepsBy tso_rings.rule5 (base_of base.now) verdict.now result.items }
{
    clause::explained(verdict, &tso::why::order(base))
}

// The steps of the ring of a broken rule 3.
fn coherence_steps(model: Model, base: &Base, verdict: &Verdict) -> Steps
    ensures { StepsBy (clauses_for model).rule3 (base_of base.now) verdict.now result.items }
{
    match model {
        Model::Source => imm_coherence(base, verdict),
        Model::Chip | Model::Tso => per_location(base, verdict),
    }
}

// The steps of the ring of a broken rule 5.
fn order_steps(model: Model, base: &Base, verdict: &Verdict) -> Steps
    ensures { StepsBy (clauses_for model).rule5 (base_of base.now) verdict.now result.items }
{
    match model {
        Model::Source => imm_order(base, verdict),
        Model::Chip => armv8_order(base, verdict),
        Model::Tso => tso_order(base, verdict),
    }
}

// The verdict on a recording of the model's side, and what is shown of it: refused with 1 to 10 or 13 as loading does, with 11 where it is of
// the other side.
pub fn verdict(model: Model, file: &[u8]) -> Result<Verdict, Refusal>
    ensures { OnFile (side_for model) (model_for model) (JudgedFor model) file.now result }
{
    loads_as(model, file)?;
    Ok(loaded(model, file))
}

// The verdict on a recording of the model's side that loads, and what is shown of it.
pub fn loaded(model: Model, file: &[u8]) -> Verdict
    requires { LoadsAs (side_for model) file.now }
    ensures { OnRecording (model_for model) (JudgedFor model) (decode file.now) result }
{
    judge(model, &execution::base(file))
}

// The steps of the ring that the verdict on a recording of the model's side shows, each with the number of its clause.
// A call of its own, so that its arrays of grids stand on no stack while the verdict is found.
#[inline(never)]
pub fn explained(model: Model, file: &[u8], verdict: &Verdict) -> Steps
    requires { LoadsAs (side_for model) file.now × OnRecording (model_for model) (JudgedFor model) (decode file.now) verdict.now }
    ensures { Explained (clauses_of (clauses_for model) (rule_of verdict.now)) (decode file.now) (ring verdict.now) result.items }
{
    // The base is made once for both rules, and not where no ring is shown.
    if clause::ring_of(verdict).is_empty() {
        return Steps::new();
    }
    let base = execution::base(file);
    match verdict {
        Ok(_) => Steps::new(),
        Err(broken) => match broken.rule {
            Rule::Coherence => coherence_steps(model, &base, verdict),
            Rule::Acyclicity => order_steps(model, &base, verdict),
            Rule::Reads | Rule::Writes | Rule::Atomicity => Steps::new(),
        },
    }
}
