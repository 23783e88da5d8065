// The printed page of a recording: a block of columns for each thread, and a line for each event in the order of its chain.

#![tactic(auto)]

pub mod block;
pub mod table;
pub mod write;

ghost use Rattle.std.specs.Prelude.{◌≡◌};
ghost use Rattle.recording.specs.Causes.{refusal};
ghost use Rattle.output.specs.Output.{Fills};
ghost use Rattle.printout.specs.Page.{page};

use reading::thread;
use recording::causes;
use refusal::Refusal;

// A page has at most so many bytes: 18 lines.
pub const MOST: usize = 18 * write::LINE;

// Writes the page of a file, on which the events of the ring have a star, to the start of the output. Refused with 1 to 10 or 13 as loading
// does, with 12 where the output is shorter than the page; a refusal leaves the output as it was.
pub fn page(file: &[u8], ring: &[u8], out: &mut [u8]) -> Result<usize, Refusal>
    ensures { Fills (refusal file.now) (page file.now ring.now) out.old result out.new }
{
    causes::load(file)?;
    written(file, ring, out)
}

// The same of a file that loads: refused with 12 where the output is shorter than the page, else written.
pub fn written(file: &[u8], ring: &[u8], out: &mut [u8]) -> Result<usize, Refusal>
    requires { refusal file.now ≡ 0 }
    ensures { Fills (refusal file.now) (page file.now ring.now) out.old result out.new }
{
    let n = table::longest(file);
    let length = write::LINE * n;
    if out.len() < length {
        return Err(Refusal::NoRoom);
    }
    let stars = block::members(ring);
    let starts = table::starts(file);
    let events = thread::line(file);
    write::lines(out, file, stars, events.as_slice(), starts, n);
    Ok(length)
}
