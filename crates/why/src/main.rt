// The program why: reads one recording from standard input and prints the lines of the judge, and under each line with a ring a line a step.

#![tactic(auto)]

use anyhow::Result;
use recording::INPUT;

fn main(rt: HostRuntime) -> Result<()> {
    let mut start = [0u8; INPUT];
    let n = console::read(&mut rt.stdin(), &mut start)?;
    let text = explanation::of_input(start, n);
    console::write(&mut rt.stdout(), text.as_slice())
}
