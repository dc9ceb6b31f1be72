// A plan and its twin.
use plan::Plan;

#[derive(Clone, Copy)]
pub struct Twins<'a> {
    pub plan: Plan<'a>,
    pub twin: Plan<'a>,
}
