// The translation of a source recording to a chip recording, byte by byte.

#![tactic(auto)]

pub mod event;
pub mod link;
pub mod write;

ghost use Rattle.std.specs.Prelude.{List, ℕ, ◌≤◌};
ghost use Rattle.layout.specs.Layout.{source};
ghost use Rattle.recording.specs.Load.{LoadsAs, cause_for};
ghost use Rattle.recording.specs.Input.{ReadOf};
ghost use Rattle.output.specs.Output.{Fills};
ghost use Rattle.translation.specs.Translation.{translation};

use layout::kind;
use recording::{INPUT, causes};
use refusal::Refusal;

// Writes the translation of a file to the start of the output. Refused with 1 to 10 or 13 as loading does, with 11 where the file is of
// kind 2, with 12 where the output is shorter than the translation; a refusal leaves the output as it was.
pub fn translate(file: &[u8], out: &mut [u8]) -> Result<usize, Refusal>
    ensures { Fills (cause_for source file.now) (translation file.now) out.old result out.new }
{
    causes::loads_as(file, kind::SOURCE)?;
    written(file, out)
}

// The same of a source file that loads: refused with 12 where the output is shorter than the translation, else written.
pub fn written(file: &[u8], out: &mut [u8]) -> Result<usize, Refusal>
    requires { LoadsAs source file.now }
    ensures { Fills (cause_for source file.now) (translation file.now) out.old result out.new }
{
    let ctrl = link::ctrl(file);
    let n = event::new_events(file);
    let ends = link::ends(file, ctrl, n);
    let m = ends[n] as usize;
    let start = 8 + 8 * n;
    let length = start + 4 * m;
    if out.len() < length {
        return Err(Refusal::NoRoom);
    }
    let header = write::header(file, n, m);
    output::put(out, 0, &header);
    write::write_events(out, file, ends, n);
    write::write_links(&mut out[start..], file, ctrl, ends, n);
    Ok(length)
}

// The same of an input, of which the first n bytes of `start` were read.
pub fn of_input(start: [u8; INPUT], n: usize, out: &mut [u8]) -> Result<usize, Refusal>
    requires { n ≤ 1413 }
    ensures { (input : List ℕ) → ReadOf input start n → Fills (cause_for source input) (translation input) out.old result out.new }
{
    translate(&start[..n], out)
}
