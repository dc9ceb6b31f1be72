// Each refusal on both sides of its boundary, and in files where a later one would hold too.
use crate::files::{Edit, LOOSE, TIGHT, edited, padded, sized};
use plan::{Event, Plan};
use refusal::Layer;
use std::alloc::Global;
use std::fmt::Debug;
use std::test::Fail;
use test_checks::{check_eq, verdict};

// Accepted, or the number and the places of the refusal.
type Verdict = Result<(), (u8, usize, usize)>;

// The decoder gives this verdict, and a refusal comes from the layer that its number belongs to.
fn gives(file: &[u8], rule: u8, expected: Verdict) -> Result<(), Fail> {
    let answer = Plan::decode(file, rule).map(|_| ());
    if let Err(refusal) = answer {
        let layer = if refusal.number() < 7 {
            Layer::File
        } else {
            Layer::Plan
        };
        check_eq(refusal.layer(), layer)?;
    }
    check_eq(verdict(answer), expected)
}

// Each edit of a file gives its verdict.
fn edits_give<const N: usize>(
    base: [u8; N],
    rule: u8,
    cases: &[(&[Edit], Verdict)],
) -> Result<(), Fail> {
    for (edits, expected) in cases {
        gives(&edited(base, edits), rule, *expected)?;
    }
    Ok(())
}

// A file of each number of agents and of cells gives its verdict.
fn sizes_give(heap: Global, cases: &[(u8, u8, Verdict)]) -> Result<(), Fail> {
    for (agents, cells, expected) in cases {
        gives(&sized(heap, *agents, *cells)?, 1, *expected)?;
    }
    Ok(())
}

// Each argument gets its answer.
fn answers_are<A: Copy + Drop, B: Copy + PartialEq + Debug + Drop, F: Fn(A) -> B>(
    answer: F,
    cases: &[(A, B)],
) -> Result<(), Fail>
    requires { F.IsAlwaysCallable answer }
{
    for (argument, expected) in cases {
        check_eq(answer(*argument), *expected)?;
    }
    Ok(())
}

// Just these events come, in this order.
fn events_come(plan: &Plan<'_>, expected: &[Event]) -> Result<(), Fail> {
    let mut events = plan.events();
    for event in expected {
        check_eq(events.next(), Some(*event))?;
    }
    check_eq(events.next(), None)
}

#[test]
fn lengths(rt: HostRuntime) -> Result<(), Fail> {
    gives(&[], 1, Err((1, 0, 0)))?;
    gives(&TIGHT[..11], 1, Err((1, 0, 0)))?;
    gives(&TIGHT[..12], 1, Err((7, 1, 0)))?;
    gives(&TIGHT[..38], 1, Err((7, 3, 0)))?;
    let other_version = edited(TIGHT, &[(0, 2)]);
    gives(&other_version[..11], 1, Err((1, 0, 0)))?;
    gives(&other_version[..12], 1, Err((2, 0, 0)))?;
    let longest = padded(rt.alloc(), &TIGHT, 65_535)?;
    gives(&longest, 1, Ok(()))?;
    let too_long = padded(rt.alloc(), &other_version, 65_536)?;
    gives(&too_long, 1, Err((1, 0, 0)))
}

#[test]
fn versions_and_rules() -> Result<(), Fail> {
    gives(&TIGHT, 2, Err((3, 0, 0)))?;
    gives(&LOOSE, 3, Ok(()))?;
    edits_give(
        TIGHT,
        1,
        &[
            (&[], Ok(())),
            (&[(0, 0)], Err((2, 0, 0))),
            (&[(0, 2)], Err((2, 0, 0))),
            (&[(0, 2), (1, 2)], Err((2, 0, 0))),
            (&[(1, 0)], Err((3, 0, 0))),
            (&[(1, 2)], Err((3, 0, 0))),
            (&[(1, 2), (2, 1)], Err((3, 0, 0))),
        ],
    )
}

#[test]
fn sizes(rt: HostRuntime) -> Result<(), Fail> {
    sizes_give(
        rt.alloc(),
        &[
            (0, 5, Err((4, 0, 0))),
            (1, 5, Err((4, 0, 0))),
            (2, 5, Ok(())),
            (16, 17, Ok(())),
            (17, 19, Err((4, 0, 0))),
            (255, 2, Err((4, 0, 0))),
            // Too few and too many of both.
            (1, 1, Err((4, 0, 0))),
            (17, 65, Err((4, 0, 0))),
            (3, 0, Err((5, 0, 0))),
            (3, 1, Err((5, 0, 0))),
            (2, 2, Err((6, 2, 0))),
            (2, 3, Ok(())),
            (2, 63, Ok(())),
            (2, 64, Err((6, 2, 0))),
            (3, 65, Err((5, 0, 0))),
            // Five is a factor too.
            (5, 65, Err((5, 0, 0))),
            (3, 4, Err((6, 2, 0))),
            (3, 5, Ok(())),
            (3, 9, Err((6, 3, 0))),
            (3, 25, Ok(())),
            (4, 25, Ok(())),
            (5, 25, Err((6, 5, 0))),
            (6, 49, Ok(())),
            (7, 49, Err((6, 7, 0))),
            (12, 13, Ok(())),
            (13, 13, Err((6, 13, 0))),
            // The smallest of two and of three factors.
            (16, 39, Err((6, 3, 0))),
            (16, 30, Err((6, 2, 0))),
            (16, 61, Ok(())),
        ],
    )
}

#[test]
fn sizes_come_before_parts() -> Result<(), Fail> {
    edits_give(
        TIGHT,
        1,
        &[
            (&[(2, 17), (5, 11)], Err((4, 0, 0))),
            (&[(3, 65), (5, 11)], Err((5, 0, 0))),
            (&[(3, 9), (5, 11)], Err((6, 3, 0))),
        ],
    )
}

#[test]
fn parts_inside() -> Result<(), Fail> {
    edits_give(
        TIGHT,
        1,
        &[
            (&[(5, 11)], Err((7, 1, 0))),
            (&[(5, 34)], Err((7, 1, 0))),
            (&[(4, 1)], Err((7, 1, 0))),
            (&[(7, 11)], Err((7, 2, 0))),
            (&[(7, 25)], Err((7, 2, 0))),
            (&[(9, 11)], Err((7, 3, 0))),
            (&[(9, 34)], Err((7, 3, 0))),
            (&[(11, 4)], Err((7, 3, 0))),
            (&[(10, 1)], Err((7, 3, 0))),
            (&[(8, 255), (9, 255), (10, 255), (11, 255)], Err((7, 3, 0))),
            // One byte less is inside, and then shared.
            (&[(5, 33)], Err((8, 1, 3))),
            (&[(7, 24)], Err((8, 2, 3))),
            // The first part that is outside.
            (&[(5, 11), (7, 25), (9, 11)], Err((7, 1, 0))),
            (&[(7, 25), (9, 11)], Err((7, 2, 0))),
            // Shared bytes and a zero identity wait.
            (&[(7, 12), (9, 34)], Err((7, 3, 0))),
            (&[(9, 34), (13, 0)], Err((7, 3, 0))),
        ],
    )
}

#[test]
fn parts_apart() -> Result<(), Fail> {
    edits_give(
        TIGHT,
        1,
        &[
            (&[(7, 17)], Err((8, 1, 2))),
            (&[(5, 13)], Err((8, 1, 2))),
            (&[(9, 32)], Err((8, 2, 3))),
            // Identities and tables both share with the events; then all with all.
            (&[(9, 17)], Err((8, 1, 3))),
            (&[(7, 12), (9, 12)], Err((8, 1, 2))),
            // A zero identity, entry or kind waits.
            (&[(7, 17), (13, 0)], Err((8, 1, 2))),
            (&[(9, 20), (18, 0)], Err((8, 2, 3))),
            (&[(9, 32), (33, 0)], Err((8, 2, 3))),
        ],
    )?;
    // Parts that touch are apart: what is refused there is what they hold.
    edits_give(
        LOOSE,
        3,
        &[
            (&[(5, 35)], Ok(())),
            (&[(5, 34)], Err((8, 1, 3))),
            (&[(5, 39)], Ok(())),
            (&[(5, 40)], Err((7, 1, 0))),
            (&[(7, 14)], Err((10, 1, 5))),
            (&[(7, 15)], Err((8, 2, 3))),
            (&[(9, 28)], Err((11, 1, 0))),
            (&[(9, 27)], Err((8, 2, 3))),
            (&[(9, 31)], Err((11, 3, 0))),
            (&[(9, 32)], Err((8, 1, 3))),
        ],
    )
}

#[test]
fn no_events() -> Result<(), Fail> {
    edits_give(
        TIGHT,
        1,
        &[
            (&[(11, 0)], Ok(())),
            (&[(11, 0), (9, 12)], Ok(())),
            (&[(11, 0), (9, 15)], Ok(())),
            (&[(11, 0), (9, 20)], Ok(())),
            (&[(11, 0), (9, 39)], Ok(())),
            (&[(11, 0), (9, 40)], Err((7, 3, 0))),
            (&[(11, 0), (9, 11)], Err((7, 3, 0))),
            (&[(11, 0), (9, 0)], Err((7, 3, 0))),
            // One event is enough to share a byte.
            (&[(11, 1), (9, 15)], Err((8, 1, 3))),
            (&[(11, 1), (9, 20)], Err((8, 2, 3))),
        ],
    )
}

#[test]
fn identities() -> Result<(), Fail> {
    edits_give(
        TIGHT,
        1,
        &[
            (&[(13, 0)], Err((9, 1, 0))),
            (&[(13, 1)], Ok(())),
            (&[(14, 0)], Err((9, 2, 0))),
            (&[(16, 0), (17, 0)], Err((9, 3, 0))),
            // Seven again, the later one named; 263 has its low byte only.
            (&[(14, 0), (15, 7)], Err((9, 2, 0))),
            (&[(16, 0), (17, 7)], Err((9, 3, 0))),
            (&[(15, 7)], Ok(())),
            (&[(12, 255), (13, 255)], Err((9, 3, 0))),
            // The first agent at fault.
            (&[(13, 0), (14, 0)], Err((9, 1, 0))),
            (&[(14, 0), (15, 7), (16, 0), (17, 0)], Err((9, 2, 0))),
            // A zero entry waits.
            (&[(16, 0), (17, 0), (18, 0)], Err((9, 3, 0))),
        ],
    )
}

#[test]
fn tables() -> Result<(), Fail> {
    edits_give(
        TIGHT,
        1,
        &[
            (&[(18, 0)], Err((10, 1, 1))),
            (&[(18, 6)], Err((10, 1, 1))),
            (&[(18, 255)], Err((10, 1, 1))),
            (&[(32, 0)], Err((10, 3, 5))),
            (&[(32, 6)], Err((10, 3, 5))),
            (&[(18, 2), (19, 1)], Ok(())),
            // Repeats: the later one is named, whichever was edited.
            (&[(19, 1)], Err((10, 1, 2))),
            (&[(22, 1)], Err((10, 1, 5))),
            (&[(18, 5)], Err((10, 1, 5))),
            (&[(27, 2)], Err((10, 2, 5))),
            // Agents first, then local names.
            (&[(22, 1), (23, 0)], Err((10, 1, 5))),
            (&[(28, 4), (30, 0)], Err((10, 3, 2))),
            // An unknown kind waits.
            (&[(32, 6), (33, 0)], Err((10, 3, 5))),
        ],
    )
}

#[test]
fn events() -> Result<(), Fail> {
    edits_give(
        TIGHT,
        1,
        &[
            (&[(33, 0)], Err((11, 1, 0))),
            (&[(33, 3)], Ok(())),
            (&[(33, 4)], Err((11, 1, 0))),
            (&[(34, 0)], Err((11, 1, 0))),
            (&[(34, 3)], Ok(())),
            (&[(34, 4)], Err((11, 1, 0))),
            (&[(37, 4)], Err((11, 3, 0))),
            (&[(38, 4)], Err((11, 3, 0))),
            (&[(36, 0), (37, 0)], Err((11, 2, 0))),
            // Of two events the third's bytes are in no part.
            (&[(11, 2), (37, 4)], Ok(())),
        ],
    )
}

#[test]
fn answers() -> Result<(), Fail> {
    let plan = Plan::decode(&TIGHT, 1)?;
    check_eq((plan.rule(), plan.agents(), plan.cells()), (1, 3, 5))?;
    answers_are(
        |agent| plan.identity(agent),
        &[
            (0, None),
            (1, Some(7)),
            (2, Some(256)),
            (3, Some(65_535)),
            (4, None),
        ],
    )?;
    answers_are(
        |(agent, name)| plan.table_entry(agent, name),
        &[
            ((0, 1), None),
            ((1, 0), None),
            ((1, 1), Some(1)),
            ((1, 5), Some(5)),
            ((1, 6), None),
            ((2, 1), Some(5)),
            ((3, 4), Some(5)),
            ((3, 5), Some(3)),
            ((3, 6), None),
            ((4, 1), None),
        ],
    )?;
    events_of(&plan)
}

// The events of the first file, by number and in their order.
fn events_of(plan: &Plan<'_>) -> Result<(), Fail> {
    check_eq(plan.event_count(), 3)?;
    answers_are(
        |index| plan.event(index),
        &[
            (0, None),
            (1, Some(Event::Request(1))),
            (2, Some(Event::Step(3))),
            (3, Some(Event::Leave(2))),
            (4, None),
        ],
    )?;
    events_come(plan, &[Event::Request(1), Event::Step(3), Event::Leave(2)])
}

#[test]
fn answers_from_any_order() -> Result<(), Fail> {
    let plan = Plan::decode(&LOOSE, 3)?;
    check_eq((plan.rule(), plan.agents(), plan.cells()), (3, 3, 5))?;
    answers_are(
        |agent| plan.identity(agent),
        &[(1, Some(258)), (2, Some(3)), (3, Some(772))],
    )?;
    answers_are(
        |(agent, name)| plan.table_entry(agent, name),
        &[((1, 1), Some(3)), ((2, 3), Some(1)), ((3, 5), Some(5))],
    )?;
    answers_are(
        |index| plan.event(index),
        &[
            (1, Some(Event::Step(3))),
            (2, Some(Event::Leave(2))),
            (3, Some(Event::Request(1))),
        ],
    )
}

// A plan beside bytes that are lent to be changed.
#[derive(Drop)]
struct Desk<'a> {
    plan: Plan<'a>,
    page: &'a mut [u8],
}

// Hands a desk on. Were there a ghost field in `Plan`, the checker would refuse this `Option`.
fn kept<'a>(desk: Desk<'a>) -> Option<Desk<'a>> {
    Some(desk)
}

// The rule of the first file goes on a page that lies beside its plan.
fn rule_on_page(plan: Plan<'_>) -> Result<(), Fail> {
    let mut page = [7, 9];
    let desk = Desk {
        plan,
        page: &mut page,
    };
    if let Some(Desk { plan, page }) = kept(desk) {
        page.fill(plan.rule());
    }
    check_eq(page, [1, 1])
}

#[test]
fn a_plan_beside_lent_bytes() -> Result<(), Fail> {
    let plan = Plan::decode(&TIGHT, 1)?;
    rule_on_page(plan)
}
