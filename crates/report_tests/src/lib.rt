// Tests of reports.

#![tactic(auto)]

#[cfg(test)]
mod blank;
#[cfg(test)]
mod shown;
