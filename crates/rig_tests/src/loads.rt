// Loads: each refusal while later ones hold too, and that a refused load leaves the rig as it was.
use crate::lines::{Call, Line};
use crate::rigs::{blank_follows, taken};
use mark_table::MarkTable;
use std::test::Fail;

// Over four cells, of which two are taken: agents, cells, no factor in common, the number of cells, the first taken cell.
const REFUSED_STANDOFFS: &[Line] = &[
    Line::Gives(Call::Standoff(1, 1), Err((4, 0, 0))),
    Line::Gives(Call::Standoff(17, 65), Err((4, 0, 0))),
    Line::Gives(Call::Standoff(2, 1), Err((5, 0, 0))),
    Line::Gives(Call::Standoff(16, 65), Err((5, 0, 0))),
    // These have no factor in common.
    Line::Gives(Call::Standoff(2, 65), Err((5, 0, 0))),
    Line::Gives(Call::Standoff(2, 3), Err((24, 0, 0))),
    Line::Gives(Call::Standoff(4, 25), Err((24, 0, 0))),
    Line::Gives(Call::Standoff(2, 2), Err((19, 0, 0))),
    Line::Gives(Call::Standoff(16, 64), Err((19, 0, 0))),
    Line::Gives(Call::Standoff(2, 4), Err((21, 2, 0))),
    Line::Gives(Call::Standoff(16, 4), Err((21, 2, 0))),
    Line::Sizes(0, 0, 0),
];

// Over four cells, of which two are taken: a bad file, and a plan for three cells.
const REFUSED_PLANS: &[Line] = &[
    Line::Gives(Call::ShortPlan, Err((1, 0, 0))),
    Line::Gives(Call::Plan, Err((19, 0, 0))),
    Line::Sizes(0, 0, 0),
];

// A rig whose loads were refused takes another one; a loaded rig refuses every load before it looks at it.
const LOADED: &[Line] = &[
    Line::Gives(Call::ShortPlan, Err((1, 0, 0))),
    Line::Gives(Call::Standoff(2, 3), Err((24, 0, 0))),
    Line::Gives(Call::Plan, Ok(())),
    Line::Gives(Call::Plan, Err((22, 0, 0))),
    Line::Gives(Call::ShortPlan, Err((22, 0, 0))),
    Line::Gives(Call::Standoff(1, 1), Err((22, 0, 0))),
    Line::Gives(Call::Standoff(2, 65), Err((22, 0, 0))),
    Line::Gives(Call::Standoff(2, 3), Err((22, 0, 0))),
    Line::Gives(Call::Standoff(2, 4), Err((22, 0, 0))),
    Line::Sizes(2, 3, 0),
];

// The most of both.
const LARGEST: &[Line] = &[
    Line::Gives(Call::Standoff(16, 64), Ok(())),
    Line::Gives(Call::Plan, Err((22, 0, 0))),
    Line::Gives(Call::ShortPlan, Err((22, 0, 0))),
    Line::Gives(Call::Standoff(17, 64), Err((22, 0, 0))),
    Line::Sizes(16, 64, 0),
];

#[test]
fn refused_standoffs(rt: HostRuntime) -> Result<(), Fail> {
    blank_follows(rt.alloc(), taken(4), REFUSED_STANDOFFS)
}

#[test]
fn refused_plans(rt: HostRuntime) -> Result<(), Fail> {
    blank_follows(rt.alloc(), taken(4), REFUSED_PLANS)?;
    blank_follows(
        rt.alloc(),
        taken(3),
        &[Line::Gives(Call::Plan, Err((21, 2, 0)))],
    )
}

#[test]
fn loaded_rigs(rt: HostRuntime) -> Result<(), Fail> {
    blank_follows(rt.alloc(), MarkTable::new(3), LOADED)?;
    blank_follows(rt.alloc(), MarkTable::new(64), LARGEST)
}
