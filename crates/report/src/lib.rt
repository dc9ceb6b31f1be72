// The report of a rig, or the line of a refusal, as text in a caller's buffer.

#![tactic(auto)]

mod copying;
mod examples;
mod lines;
mod refusing;
mod reporting;
mod sheet;

pub use examples::{report_after_two_requests, report_of_blank};
pub use refusing::refusal_line;
pub use reporting::report;
pub use sheet::MAX_REPORT;
