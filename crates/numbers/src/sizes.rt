// How many agents share how many cells.

// Numbers as they are asked for: whether a rig takes them is judged where they are used.
#[derive(Clone, Copy, PartialEq, Eq, Debug)]
pub struct Sizes {
    pub agents: usize,
    pub cells: usize,
}
