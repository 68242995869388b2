// Examples of tables with their sums done by hand.
#![tactic(auto)]

#[cfg(test)]
mod tables;
