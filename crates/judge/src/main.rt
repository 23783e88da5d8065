// The program judge: reads one recording from standard input and prints its lines.

#![tactic(auto)]

use anyhow::Result;
use recording::INPUT;

fn main(rt: HostRuntime) -> Result<()> {
    let mut start = [0u8; INPUT];
    let n = console::read(&mut rt.stdin(), &mut start)?;
    let lines = judgement::of_input(start, n);
    console::write(&mut rt.stdout(), lines.as_slice())
}
