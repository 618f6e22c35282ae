// Queues in slots that are used in turn: what is put or taken touches one slot, however many there are.
#![tactic(auto)]

mod ring;
mod turns;

pub use ring::Ring;
