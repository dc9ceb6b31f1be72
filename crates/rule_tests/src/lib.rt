// Tests of the rules, step by step, with every expected record worked out by hand.

#![tactic(auto)]

#[cfg(test)]
mod agents;
#[cfg(test)]
mod ladder;
#[cfg(test)]
mod majority;
#[cfg(test)]
mod read_write;
