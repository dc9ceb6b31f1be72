// Tests of the rig through its calls, with every expected value worked out by hand.

#![tactic(auto)]

#[cfg(test)]
mod calls;
#[cfg(test)]
mod limits;
#[cfg(test)]
mod lines;
#[cfg(test)]
mod loads;
#[cfg(test)]
mod rigs;
#[cfg(test)]
mod rounds;
