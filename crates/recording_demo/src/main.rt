// Tries the conditions of the links into each event of a few small recordings and prints what they answer, a line an event.

#![tactic(auto)]

use layout::field;
use reading::graph;
use recording::{causes, links};
use std::io;

// The recordings, each with what it is: a line for the header and for each record.
const TRIES: [(&str, &[u8]); 7] = [
    (
        "a read of 1 from a write of 1",
        &[
            1, 2, 1, 1, 1, 2, 0, 0, //
            0, 2, 0, 0, 0, 1, 0, 0, //
            0, 1, 0, 0, 0, 1, 0, 1, //
            0, 1, 1, 0,
        ],
    ),
    (
        "a read of 2 from it",
        &[
            1, 2, 1, 1, 1, 2, 0, 0, //
            0, 2, 0, 0, 0, 1, 0, 0, //
            0, 1, 0, 0, 0, 2, 0, 1, //
            0, 1, 1, 0,
        ],
    ),
    (
        "a read of 1 with a data link behind the rf link",
        &[
            1, 2, 1, 2, 1, 2, 0, 0, //
            0, 2, 0, 0, 0, 1, 0, 0, //
            0, 1, 0, 0, 0, 1, 0, 1, //
            2, 1, 1, 0, //
            0, 4, 1, 0,
        ],
    ),
    (
        "and before it",
        &[
            1, 2, 1, 2, 1, 2, 0, 0, //
            0, 2, 0, 0, 0, 1, 0, 0, //
            0, 1, 0, 0, 0, 1, 0, 2, //
            0, 1, 1, 0, //
            1, 4, 1, 0,
        ],
    ),
    (
        "a write with a data link from the read before it",
        &[
            1, 3, 1, 1, 1, 3, 0, 0, //
            2, 1, 0, 0, 0, 0, 0, 0, //
            0, 2, 0, 0, 0, 1, 0, 1, //
            0, 1, 0, 0, 0, 0, 0, 0, //
            0, 4, 1, 0,
        ],
    ),
    (
        "and another from a read of another thread",
        &[
            1, 3, 1, 2, 1, 3, 0, 0, //
            2, 1, 0, 0, 0, 0, 0, 0, //
            0, 2, 0, 0, 0, 1, 0, 1, //
            0, 1, 0, 0, 0, 0, 0, 0, //
            2, 4, 1, 0, //
            0, 4, 3, 0,
        ],
    ),
    (
        "a read of 1 from two writes of 1",
        &[
            1, 3, 1, 2, 1, 2, 3, 0, //
            0, 2, 0, 0, 0, 1, 0, 0, //
            0, 1, 0, 0, 0, 1, 0, 1, //
            0, 2, 0, 0, 0, 1, 0, 0, //
            2, 1, 1, 0, //
            0, 1, 3, 0,
        ],
    ),
];

// Of each event: its number, whether each of the links into it is sound, and whether it also has one rf source.
fn show(rt: &impl Print, file: &[u8]) -> io::Result<()> {
    let Ok(()) = causes::header_refusal(file) else {
        return println!(rt; "refused");
    };
    let Ok(()) = causes::record_refusal(file) else {
        return println!(rt; "refused");
    };
    let po = graph::program_order(file);
    for b in 1..=field::events(file) {
        let each = links::each_sound(file, &po, b);
        let into = links::sound_into(file, &po, b);
        println!(rt; "{b} {each} {into}")?;
    }
    Ok(())
}

fn main(rt: HostRuntime) -> io::Result<()> {
    for (what, file) in TRIES {
        println!(rt; "{what}")?;
        show(&rt, file)?;
    }
    Ok(())
}
