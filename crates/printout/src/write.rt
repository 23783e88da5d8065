// Writing the lines of a page.

ghost use Rattle.std.specs.Prelude.{◌≡◌, List, ℕ, ◌+◌, ◌*◌, ◌≤◌, ◌<◌, length};
ghost use Rattle.layout.specs.Layout.{threads};
ghost use Rattle.layout.specs.Chains.{thread};
ghost use Rattle.layout.specs.Decode.{decode};
ghost use Rattle.recording.specs.Causes.{refusal};
ghost use Rattle.output.specs.Output.{placed};
ghost use Rattle.printout.specs.Page.{block_at, line, lines, thread_lists, line_size};
ghost use Rattle.printout.specs.Table.{Members, Table};

use crate::block;
use crate::block::WIDTH;
use crate::table::{BLOCKS, STARTS};
use relation::row::Row;

// The bytes of a line: its blocks and a line feed.
pub const LINE: usize = WIDTH * BLOCKS + 1;

// The block of thread t in line k, from 0.
fn block_at(
    file: &[u8],
    stars: Row,
    at: &[u8],
    starts: [u8; STARTS],
    t: usize,
    k: usize,
) -> [u8; WIDTH]
    requires { (refusal file.now ≡ 0) × Table file.now at.now starts × (t < threads) × (k < 18) }
    ensures { (ring : List ℕ) → Members ring stars → result ≡ block_at (decode file.now) ring k (thread file.now t) }
{
    let i = starts[t] as usize + k;
    if starts[t + 1] as usize <= i {
        return [b' '; WIDTH];
    }
    block::block(file, stars, at[i] as usize)
}

// Writes line k behind those before it.
fn line(out: &mut [u8], file: &[u8], stars: Row, at: &[u8], starts: [u8; STARTS], k: usize)
    requires { (refusal file.now ≡ 0) × Table file.now at.now starts × (k < 18) × (line_size threads * (k + 1) ≤ length out.old) }
    ensures long { length out.new ≡ length out.old }
    ensures line { (ring : List ℕ) → Members ring stars → out.new ≡ placed out.old (line_size threads * k) (line (decode file.now) ring k (thread_lists file.now threads)) }
{
    for t in 0..BLOCKS {
        let block = block_at(file, stars, at, starts, t, k);
        output::put(out, LINE * k + WIDTH * t, &block);
    }
    output::put(out, LINE * k + WIDTH * BLOCKS, b"\n");
}

// Writes the first n lines.
pub fn lines(out: &mut [u8], file: &[u8], stars: Row, at: &[u8], starts: [u8; STARTS], n: usize)
    requires { (refusal file.now ≡ 0) × Table file.now at.now starts × (n ≤ 18) × (line_size threads * n ≤ length out.old) }
    ensures { (ring : List ℕ) → Members ring stars → out.new ≡ placed out.old 0 (lines (decode file.now) ring n (thread_lists file.now threads)) }
{
    for k in 0..n {
        line(out, file, stars, at, starts, k);
    }
}
