// Tests of the three stores at their boundaries, with every expected value worked out by hand.

#![tactic(auto)]

#[cfg(test)]
mod records;
#[cfg(test)]
mod renumberings;
#[cfg(test)]
mod stores;
