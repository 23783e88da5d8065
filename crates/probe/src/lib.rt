// The probe's library: the calls that it offers to firmware, on numbers and slices, with C names and no condition on their arguments.
// Every answer has one coding, `coded` of specs/Calls.antt.

#![tactic(auto)]

mod why;

ghost use Rattle.std.specs.Prelude.{◌≡◌, List, ℕ, ◌≤◌, IfOk};
ghost use Rattle.layout.specs.Layout.{source, chip};
ghost use Rattle.recording.specs.Causes.{refusal};
ghost use Rattle.recording.specs.Load.{cause_for};
ghost use Rattle.models.specs.Rules.{IMM, ARMv8, TSO};
ghost use Rattle.imm.specs.Judged as imm;
ghost use Rattle.armv8.specs.Judged as armv8;
ghost use Rattle.tso.specs.Judged as tso;
ghost use Rattle.verdict.specs.Verdict.{rule_of, events};
ghost use Rattle.output.specs.Output.{Fills};
ghost use Rattle.translation.specs.Translation.{translation};
ghost use Rattle.printout.specs.Page.{page};
ghost use Rattle.verdicts.specs.ByModel.{side_for, model_for, JudgedFor};
ghost use Rattle.probe.specs.Calls.{coded, Stored, Reported, Reports, Printed, ModelOf, Why};

use lines::Model;
use recording::causes;
use refusal::Refusal;
use verdict::Verdict;

// An answer: the number of the refusal, that of the broken rule, and how many bytes were written.
fn coded(cause: u8, rule: u8, written: usize) -> u64
    requires { written ≤ 1458 }
    ensures { result ≡ coded cause rule written }
{
    (cause as u64) + 256 * (rule as u64) + 65536 * (written as u64)
}

// Loads a file: 0 where it loads, and else the number of the first cause of refusal that applies, 1 to 10 or 13.
#[unsafe(no_mangle)]
pub extern "C" fn probe_load(file: &[u8]) -> u64
    ensures { result ≡ coded (refusal file.now) 0 0 }
{
    coded(refusal::number_of(&causes::load(file)), 0, 0)
}

// The answer of a call that fills an output: its refusal, or the number of the broken rule and the length written.
fn answered(rule: u8, filled: Result<usize, Refusal>) -> u64
    requires { IfOk filled (λ n. n ≤ 1458) }
    ensures { (k : ℕ) (bytes out left : List ℕ) → Fills k bytes out filled left → Stored k rule bytes out result left }
{
    match filled {
        Ok(n) => coded(0, rule, n),
        Err(refusal) => coded(refusal.number(), 0, 0),
    }
}

// Puts the events that a verdict shows at the start of the output.
fn shown(verdict: &Verdict, out: &mut [u8]) -> u64
    ensures { Stored 0 (rule_of verdict.now) (events verdict.now) out.old result out.new }
{
    match verdict {
        Ok(events) => answered(0, output::fill(out, events.as_slice())),
        Err(broken) => {
            let rule = broken.rule.number();
            answered(rule, output::fill(out, broken.events.as_slice()))
        }
    }
}

// The same of an answer that may be a refusal, which is answered by its number.
fn reported(verdict: &Result<Verdict, Refusal>, out: &mut [u8]) -> u64
    ensures { Reported verdict.now out.old result out.new }
{
    match verdict {
        Ok(verdict) => shown(verdict, out),
        Err(cause) => coded(cause.number(), 0, 0),
    }
}

// Puts the events that the verdict of a model on a file shows at the start of the output.
fn judged(model: Model, file: &[u8], out: &mut [u8]) -> u64
    ensures { Reports (side_for model) (model_for model) (JudgedFor model) file.now out.old result out.new }
{
    reported(&verdicts::verdict(model, file), out)
}

// The IMM verdict on a source file; the events that are shown of it, at most 64, fill the output's start. Refused with a number, 1 to 13,
// the output stays as it was.
#[unsafe(no_mangle)]
pub extern "C" fn probe_imm(file: &[u8], out: &mut [u8]) -> u64
    ensures { Reports source IMM imm.Judged file.now out.old result out.new }
{
    judged(Model::Source, file, out)
}

// The ARMv8 verdict on a chip file; the events that are shown of it, at most 64, fill the output's start. Refused with a number, 1 to 13,
// the output stays as it was.
#[unsafe(no_mangle)]
pub extern "C" fn probe_armv8(file: &[u8], out: &mut [u8]) -> u64
    ensures { Reports chip ARMv8 armv8.Judged file.now out.old result out.new }
{
    judged(Model::Chip, file, out)
}

// The x86-TSO verdict on a source file; the events that are shown of it, at most 64, fill the output's start. Refused with a number, 1 to 13,
// the output stays as it was.
#[unsafe(no_mangle)]
pub extern "C" fn probe_tso(file: &[u8], out: &mut [u8]) -> u64
    ensures { Reports source TSO tso.Judged file.now out.old result out.new }
{
    judged(Model::Tso, file, out)
}

// Writes the translation of a source file, at most 1320 bytes, to the start of the output. Refused with a number, 1 to 13, the output
// stays as it was.
#[unsafe(no_mangle)]
pub extern "C" fn probe_translate(file: &[u8], out: &mut [u8]) -> u64
    ensures { Stored (cause_for source file.now) 0 (translation file.now) out.old result out.new }
{
    answered(0, translation::translate(file, out))
}

// Writes the page of a file, on which the events of the ring have a star, at most 1458 bytes, to the start of the output. The ring is any
// list of numbers: one that no event has, and one that comes again, do nothing. Refused with a number, 1 to 10, 13 or 12, the output stays as
// it was.
#[unsafe(no_mangle)]
pub extern "C" fn probe_page(file: &[u8], ring: &[u8], out: &mut [u8]) -> u64
    ensures { Stored (refusal file.now) 0 (page file.now ring.now) out.old result out.new }
{
    answered(0, printout::page(file, ring, out))
}

// Writes the lines that the judge prints of a file, at most 960 bytes, to the start of the output. Refused with 12 where the output is
// shorter than the lines, and then it stays as it was.
#[unsafe(no_mangle)]
pub extern "C" fn probe_judge(file: &[u8], out: &mut [u8]) -> u64
    ensures { Printed file.now out.old result out.new }
{
    let lines = judgement::printed(file);
    answered(0, output::fill(out, lines.as_slice()))
}

// The model of a number: 1 IMM, 2 ARMv8, 3 x86-TSO.
fn model_of(number: u64) -> Option<Model>
    ensures { ModelOf number result }
{
    match number {
        1 => Some(Model::Source),
        2 => Some(Model::Chip),
        3 => Some(Model::Tso),
        _ => None,
    }
}

// The clause behind each step of the ring that the verdict of a model shows, 1 IMM, 2 ARMv8, 3 x86-TSO: at most 192 bytes. Refused with a
// number, 1 to 13, the output stays as it was.
#[unsafe(no_mangle)]
pub extern "C" fn probe_why(file: &[u8], model: u64, out: &mut [u8]) -> u64
    ensures { Why model file.now out.old result out.new }
{
    match model_of(model) {
        Some(model) => why::of_model(model, file, out),
        None => why::of_none(file),
    }
}
