// Tests of the plan decoder on small files, with every verdict worked out by hand.

#![tactic(auto)]

#[cfg(test)]
mod files;
#[cfg(test)]
mod tests;
