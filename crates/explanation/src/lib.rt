// What the program why prints of a file: the judge's lines, and under each line with a ring a line a step.

#![tactic(auto)]

pub mod step;

ghost use Rattle.std.specs.Prelude.{◌≡◌, List, ◌++◌, ℕ, ◌+◌, ◌*◌, ◌≤◌, length};
ghost use Rattle.models.specs.Why.{clauses_of};
ghost use Rattle.layout.specs.Layout.{source};
ghost use Rattle.recording.specs.Load.{LoadsAs};
ghost use Rattle.recording.specs.Input.{ReadOf};
ghost use Rattle.verdict.specs.Verdict.{rule_of};
ghost use Rattle.lines.specs.Lines.{model_word};
ghost use Rattle.verdicts.specs.ByModel.{clauses_for};
ghost use Rattle.explanation.specs.StepLine.{step_lines};
ghost use Rattle.judgement.specs.Judgement.{line_for};
ghost use Rattle.explanation.specs.Why.{SourceWhy, PrintsWhy};

use judgement::{line, of_source, translated};
use lines::Model;
use recording::{INPUT, causes};
use sequence::Sequence;
use verdict::Verdict;

// Room for the lines of a file: three of at most 320 bytes, and under each 64 of at most 44.
pub const MOST: usize = 9408;

// The lines of a file.
pub type Explanation = Sequence<u8, MOST>;

// Adds the lines of the steps of the ring of a broken rule by its number, at most 44 bytes each.
fn put_steps(text: &mut Explanation, model: Model, rule: u8, steps: &[[u8; 3]])
    requires { length text.old.items + 44 * length steps.now ≤ 9408 }
    ensures put { text.new.items
        ≡ text.old.items ++ step_lines (model_word model) (clauses_of (clauses_for model) rule) steps.now }
    ensures short { length text.new.items ≤ length text.old.items + 44 * length steps.now }
{
    for step in steps {
        let line = step::line(model, rule, *step);
        text.extend_from_slice(line.as_slice());
    }
}

// Adds the line of the verdict of a model, and those of the steps of its ring.
fn reason(text: &mut Explanation, model: Model, verdict: &Verdict, steps: &[[u8; 3]])
    requires { (length text.old.items + 3136 ≤ 9408) × (length steps.now ≤ 64) }
    ensures put { text.new.items ≡ text.old.items ++ (line_for (model_word model) verdict.now
        ++ step_lines (model_word model) (clauses_of (clauses_for model) (rule_of verdict.now)) steps.now) }
    ensures short { length text.new.items ≤ length text.old.items + 3136 }
{
    lines::add(text, &line(model, verdict));
    put_steps(text, model, verdict::rule_of(verdict), steps);
}

// What is printed of a source file that loads.
fn printed_source(file: &[u8]) -> Explanation
    requires { LoadsAs source file.now }
    ensures { SourceWhy file.now result.items }
{
    let judged = of_source(file);
    let chip_file = translated(file);
    let source = verdicts::explained(Model::Source, file, &judged.source);
    let chip = verdicts::explained(Model::Chip, chip_file.as_slice(), &judged.chip);
    let tso = verdicts::explained(Model::Tso, file, &judged.tso);
    let mut text = Explanation::new();
    reason(&mut text, Model::Source, &judged.source, source.as_slice());
    reason(&mut text, Model::Chip, &judged.chip, chip.as_slice());
    reason(&mut text, Model::Tso, &judged.tso, tso.as_slice());
    text
}

// What is printed of a file.
pub fn printed(file: &[u8]) -> Explanation
    ensures { PrintsWhy file.now result.items }
{
    let loaded = causes::load(file);
    let Ok(header) = loaded else {
        let mut text = Explanation::new();
        lines::add(&mut text, &lines::refused(refusal::number_of(&loaded)));
        return text;
    };
    if header.source {
        return printed_source(file);
    }
    let verdict = verdicts::loaded(Model::Chip, file);
    let steps = verdicts::explained(Model::Chip, file, &verdict);
    let mut text = Explanation::new();
    reason(&mut text, Model::Chip, &verdict, steps.as_slice());
    text
}

// What is printed of an input, of which the first n bytes of `start` were read.
pub fn of_input(start: [u8; INPUT], n: usize) -> Explanation
    requires { n ≤ 1413 }
    ensures { (input : List ℕ) → ReadOf input start n → PrintsWhy input result.items }
{
    printed(&start[..n])
}
