// Tests of the routes: one table of calls, and the same answers from all.
#![tactic(auto)]

#[cfg(test)]
mod table;
#[cfg(test)]
mod tests;
