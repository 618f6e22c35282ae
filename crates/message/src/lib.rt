// What SCCP messages of protocol classes 2 and 3 say, and the one fault type of the whole stack.
#![tactic(auto)]

pub mod content;
pub mod fault;
pub mod kind;
