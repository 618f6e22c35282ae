// Octets as hex text, both ways.
#![tactic(auto)]

mod digit;
pub mod octets;
mod stage;
pub mod text;
