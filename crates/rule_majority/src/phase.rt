// The phases of the rule: the cells are taken, read, given back, and watched until all are empty.
#[derive(Clone, Copy, PartialEq, Eq, Debug)]
pub enum MajorityPhase {
    Take,
    Scan,
    Give,
    Wait,
}
