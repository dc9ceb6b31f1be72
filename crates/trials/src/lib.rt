// The whole trial of a plan file, from its bytes to the bytes of the report.

#![tactic(auto)]

mod run;
mod shown;
mod sizes;
mod trial;

pub use report::MAX_REPORT;
pub use run::report_run;
pub use shown::{show_trial, trial_text};
pub use trial::trial_report;
