// What a file whose limits, length and chains are right holds: its threads, sets of events, links and relations, as rows and grids.

#![tactic(auto)]

pub mod graph;
pub mod links;
pub mod sets;
pub mod thread;
