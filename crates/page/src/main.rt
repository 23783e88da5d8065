// The program page: reads one recording from standard input and prints its page with the ring of its verdict, or the line of its refusal.

#![tactic(auto)]

use anyhow::Result;
use recording::INPUT;

fn main(rt: HostRuntime) -> Result<()> {
    let mut start = [0u8; INPUT];
    let n = console::read(&mut rt.stdin(), &mut start)?;
    let page = judgement::page::of_input(start, n);
    console::write(&mut rt.stdout(), page.as_slice())
}
