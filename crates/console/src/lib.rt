// What the programs share: reading an input, and printing. An input that cannot be read or an output that cannot be written is an error,
// with which the program ends: it says so on standard error.

#![tactic(auto)]

ghost use Rattle.std.specs.Prelude.{◌≤◌, IfOk};

use anyhow::{Context, Result};
use lines::Text;
use recording::INPUT;
use std::io::{Read, Write};

// Reads an input into the array, until the input ends or the array is full; answers how many bytes were read.
// A loop by hand: std's `read_exact` does not say how many bytes there were where the input ends before the array is full, and `read_to_end`
// reads into a Vec.
pub fn read<R: Read>(from: &mut R, start: &mut [u8; INPUT]) -> Result<usize>
    ensures { IfOk result (λ n. n ≤ 1413) }
{
    let mut n = 0;
    while n < INPUT {
        let more = from
            .read(&mut start[n..])
            .context("the input cannot be read")?;
        if more == 0 {
            break;
        }
        n += more;
    }
    Ok(n)
}

// Writes bytes, all of them.
pub fn write<W: Write>(to: &mut W, bytes: &[u8]) -> Result<()> {
    to.write_all(bytes).context("the output cannot be written")
}

// Writes a text, as `write` does.
pub fn print<W: Write>(to: &mut W, text: &Text) -> Result<()> {
    write(to, text.as_slice())
}
