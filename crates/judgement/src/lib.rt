// The judgement of a file as a whole: the verdicts of all models, the lines that the judge prints, and the page.

#![tactic(auto)]

pub mod page;

ghost use Rattle.std.specs.Prelude.{◌≡◌, List, ℕ, ◌≤◌};
ghost use Rattle.layout.specs.Layout.{source};
ghost use Rattle.recording.specs.Load.{LoadsAs};
ghost use Rattle.recording.specs.Input.{ReadOf};
ghost use Rattle.verdict.specs.Verdict.{rule_of};
ghost use Rattle.translation.specs.Translation.{translation};
ghost use Rattle.lines.specs.Lines.{model_word};
ghost use Rattle.judgement.specs.Judgement.{OnSource, OnChip, OnTso, line_for, Prints};

use lines::{Model, Text};
use recording::{INPUT, causes};
use sequence::Sequence;
use verdict::Verdict;

// The verdicts on a source file: of IMM, of ARMv8 on its translation, and of x86-TSO.
#[derive(Clone, Copy)]
pub struct Verdicts {
    pub source: Verdict,
    pub chip: Verdict,
    pub tso: Verdict,
}

// Room for the lines of a file: three, of at most 320 bytes each.
pub const MOST: usize = 960;

// The lines of a file.
pub type Lines = Sequence<u8, MOST>;

// The translation of a source file that loads.
pub type Translation = Sequence<u8, 1320>;

// The translation of a source file that loads, which has at most 1320 bytes.
pub fn translated(file: &[u8]) -> Translation
    requires { LoadsAs source file.now }
    ensures { result.items ≡ translation file.now }
{
    let mut bytes = [0u8; 1320];
    let n = translation::written(file, &mut bytes).unwrap();
    Translation::of(bytes, n)
}

// The verdict on the translation of a source file that loads, and what is shown of it. A translation loads.
pub fn chip(file: &[u8]) -> Verdict
    requires { LoadsAs source file.now }
    ensures { OnChip (translation file.now) result }
{
    verdicts::loaded(Model::Chip, translated(file).as_slice())
}

// The verdicts on a source file that loads. Where its translation is allowed, so is the source (demand 3), and where x86-TSO allows the source,
// so does IMM.
pub fn of_source(file: &[u8]) -> Verdicts
    requires { LoadsAs source file.now }
    ensures source { OnSource file.now result.source }
    ensures chip { OnChip (translation file.now) result.chip }
    ensures tso { OnTso file.now result.tso }
    ensures sound { rule_of result.chip ≡ 0 → rule_of result.source ≡ 0 }
    ensures tso_sound { rule_of result.tso ≡ 0 → rule_of result.source ≡ 0 }
{
    let base = execution::base(file);
    Verdicts {
        source: imm::judge(&base),
        chip: chip(file),
        tso: tso::judge(&base),
    }
}

// The line of a model's verdict.
pub fn line(model: Model, verdict: &Verdict) -> Text
    ensures { result.items ≡ line_for (model_word model) verdict.now }
{
    match verdict {
        Ok(events) => lines::line(model, None, events.as_slice()),
        Err(broken) => lines::line(model, Some(broken.rule.number()), broken.events.as_slice()),
    }
}

// The lines that the judge prints of a file.
pub fn printed(file: &[u8]) -> Lines
    ensures { Prints file.now result.items }
{
    let mut text = Lines::new();
    let loaded = causes::load(file);
    let Ok(header) = loaded else {
        lines::add(&mut text, &lines::refused(refusal::number_of(&loaded)));
        return text;
    };
    let source = header.source;
    if source {
        let verdicts = of_source(file);
        lines::add(&mut text, &line(Model::Source, &verdicts.source));
        lines::add(&mut text, &line(Model::Chip, &verdicts.chip));
        lines::add(&mut text, &line(Model::Tso, &verdicts.tso));
        return text;
    }
    let verdict = verdicts::loaded(Model::Chip, file);
    lines::add(&mut text, &line(Model::Chip, &verdict));
    text
}

// The lines that the judge prints of an input, of which the first n bytes of `start` were read.
pub fn of_input(start: [u8; INPUT], n: usize) -> Lines
    requires { n ≤ 1413 }
    ensures { (input : List ℕ) → ReadOf input start n → Prints input result.items }
{
    printed(&start[..n])
}
