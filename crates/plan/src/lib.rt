// Plan files: taken apart, judged, and answered as a typed plan.

#![tactic(auto)]

mod answers;
mod bytes;
mod checks;
mod decode;
mod draft;
mod event;
mod events;
mod header;
mod plan;
mod rule;

pub use event::Event;
pub use events::Events;
pub use header::MAX_FILE;
pub use plan::Plan;
pub use rule::{PublishedRule, UnknownRule, rule_asked};
