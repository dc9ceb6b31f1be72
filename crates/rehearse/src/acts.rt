// What is rehearsed under each rule.
use model::Round;
use numbers::sizes::Sizes;
use std::alloc::{AllocError, Global};

// The files of a plan, of its twin and of the rounds of a stand-off, and the stand-off's sizes.
#[derive(Clone, Copy)]
pub struct Act {
    pub plan: &'static str,
    pub twin: &'static str,
    pub rounds: &'static str,
    pub sizes: Sizes,
}

pub const READ_WRITE: Act = Act {
    plan: "read_write.plan",
    twin: "read_write.twin",
    rounds: "read_write.rounds",
    sizes: Sizes {
        agents: 2,
        cells: 4,
    },
};

pub const MAJORITY: Act = Act {
    plan: "majority.plan",
    twin: "majority.twin",
    rounds: "majority.rounds",
    sizes: Sizes {
        agents: 3,
        cells: 9,
    },
};

pub const LADDER: Act = Act {
    plan: "ladder.plan",
    twin: "ladder.twin",
    rounds: "ladder.rounds",
    sizes: Sizes {
        agents: 9,
        cells: 10,
    },
};

// The rounds that letters stand for. Letters that stand for no round are passed over, as the end of a line is.
pub fn rounds_of(heap: Global, letters: &[u8]) -> Result<Vec<Round>, AllocError> {
    letters
        .iter()
        .filter_map(|letter| Round::try_from(*letter).ok())
        .collect(heap)
}
