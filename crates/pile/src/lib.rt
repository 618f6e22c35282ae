// Queues in records that stand in no particular order, each with its end and its queue number.
#![tactic(auto)]

mod records;
mod store;
mod upkeep;

pub use records::Record;
pub use store::Pile;
