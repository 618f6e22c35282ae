// Tests of text that is no message.
#![tactic(auto)]

#[cfg(test)]
mod text;
