// Examples with their sums done by hand.
#![tactic(auto)]

#[cfg(test)]
mod lines;
#[cfg(test)]
mod places;
