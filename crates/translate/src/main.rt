// The program translate: reads a source recording from standard input and writes the bytes of its translation to standard output.
// Refused, it writes nothing there, and the line of the refusal to standard error.

#![tactic(auto)]

use anyhow::Result;
use recording::INPUT;

fn main(rt: HostRuntime) -> Result<()> {
    let mut start = [0u8; INPUT];
    let n = console::read(&mut rt.stdin(), &mut start)?;
    let mut bytes = [0u8; 1320];
    match translation::of_input(start, n, &mut bytes) {
        Err(refusal) => console::print(&mut rt.stderr(), &lines::refused(refusal.number())),
        Ok(m) => console::write(&mut rt.stdout(), &bytes[..m]),
    }
}
