// Recordings: loading a file exactly when no cause of refusal applies.

#![tactic(auto)]

pub mod causes;
pub mod legal;
pub mod links;

// What the header says: whether it is a source recording, N event records, L locations, M link records.
#[derive(Clone, Copy)]
pub struct Header {
    pub source: bool,
    pub events: usize,
    pub locations: usize,
    pub links: usize,
}

// A program reads at most so many bytes of its input: one more than the longest file that loads has (specs/Input.antt).
pub const INPUT: usize = 1413;
