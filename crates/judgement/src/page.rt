// What the program page prints of a file: its page with the ring of its own verdict, or the line of its refusal.

ghost use Rattle.std.specs.Prelude.{◌≡◌, List, ℕ, ◌≤◌};
ghost use Rattle.recording.specs.Causes.{refusal};
ghost use Rattle.recording.specs.Input.{ReadOf};
ghost use Rattle.printout.specs.Page.{page};
ghost use Rattle.judgement.specs.Judgement.{ring_of, PrintsPage};

use lines::Model;
use printout::MOST;
use recording::{INPUT, causes};
use sequence::Sequence;
use verdict::Verdict;

// A page: 18 lines of 81 bytes.
pub type Page = Sequence<u8, 1458>;

// The ring of the page that is printed: the events of a broken verdict, and none of an allowed one.
fn ring_of(verdict: &Verdict) -> &[u8]
    ensures { result.now ≡ ring_of verdict.now }
{
    match verdict {
        Ok(_) => &[],
        Err(broken) => broken.events.as_slice(),
    }
}

// The page of a file that loads, with the ring of a verdict.
fn starred(file: &[u8], verdict: &Verdict) -> Page
    requires { refusal file.now ≡ 0 }
    ensures { result.items ≡ page file.now (ring_of verdict.now) }
{
    let mut bytes = [0u8; MOST];
    let n = printout::written(file, ring_of(verdict), &mut bytes).unwrap();
    Page::of(bytes, n)
}

// What is printed of a file.
pub fn printed(file: &[u8]) -> Page
    ensures { PrintsPage file.now result.items }
{
    let loaded = causes::load(file);
    let Ok(header) = loaded else {
        let mut page = Page::new();
        lines::add(&mut page, &lines::refused(refusal::number_of(&loaded)));
        return page;
    };
    if header.source {
        return starred(file, &verdicts::loaded(Model::Source, file));
    }
    starred(file, &verdicts::loaded(Model::Chip, file))
}

// What is printed of an input, of which the first n bytes of `start` were read.
pub fn of_input(start: [u8; INPUT], n: usize) -> Page
    requires { n ≤ 1413 }
    ensures { (input : List ℕ) → ReadOf input start n → PrintsPage input result.items }
{
    printed(&start[..n])
}
