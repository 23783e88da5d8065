// The clause behind each step of a ring, as bytes: two events and the number of the clause.

ghost use Rattle.std.specs.Prelude.{◌≡◌, List, [], ℕ, ◌≤◌, length};
ghost use Rattle.verdicts.specs.ByModel.{side_for, model_for, clauses_for, JudgedFor};
ghost use Rattle.probe.specs.Calls.{Stored, bytes_of, Explains, cause_for_none};

use crate::{answered, coded};
use lines::Model;
use recording::causes;
use refusal::Refusal;
use sequence::Sequence;

// The bytes of the steps of a ring, three of each.
fn flat(steps: &[[u8; 3]]) -> Sequence<u8, 192>
    requires { length steps.now ≤ 64 }
    ensures { result.items ≡ bytes_of steps.now }
{
    let mut bytes = Sequence::new();
    for step in steps {
        bytes.push(step[0]);
        bytes.push(step[1]);
        bytes.push(step[2]);
    }
    bytes
}

// Of a number that no model has: refused as loading does, and with 11 where the file loads.
pub fn of_none(file: &[u8]) -> u64
    ensures { (out : List ℕ) → Stored (cause_for_none file.now) 0 [] out result out }
{
    let Err(refusal) = causes::load(file) else {
        return coded(Refusal::OtherSide.number(), 0, 0);
    };
    coded(refusal.number(), 0, 0)
}

// Of the verdict of a model.
pub fn of_model(model: Model, file: &[u8], out: &mut [u8]) -> u64
    ensures { Explains (side_for model) (model_for model) (clauses_for model) (JudgedFor model) file.now out.old result out.new }
{
    let judged = verdicts::verdict(model, file);
    let Ok(verdict) = &judged else {
        return coded(refusal::number_of(&judged), 0, 0);
    };
    let steps = flat(verdicts::explained(model, file, verdict).as_slice());
    answered(
        verdict::rule_of(verdict),
        output::fill(out, steps.as_slice()),
    )
}
