// Messages and refusals as lines of text.
#![tactic(auto)]

pub mod description;
pub mod line;
