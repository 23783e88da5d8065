// Relations on at most 64 events as grids of bits: sets, the algebra of relations, closure, rings and orders.
// Every contract equates what the result holds with definitions of specs/.

#![tactic(auto)]

pub mod grid;
pub mod order;
pub mod ring;
pub mod row;

use sequence::Sequence;

// A list of event numbers.
pub type Events = Sequence<u8, 64>;
