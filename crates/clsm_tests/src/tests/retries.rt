//! A put whose times a reader cancels, one after the other: its cells pile up in the list.
use super::act::{Act, Answer, LET_GO, Step, Turn, WAIT};
use super::case::{Case, MANY_CELLS, NONE, PLAIN, check};
use super::gate::{ALL, AT_DECIDE, Hold, NOBODY};
use std::test::*;

/// Counts all steps of seat 1.
const ITS_STEPS: Hold = Hold {
    seat: 1,
    kind: None,
    passed: ALL,
    turn: NOBODY,
};

const KEY: u64 = 5;

/// The time of the put, behind the first one's and 32 that were cancelled.
const LAST: u64 = 33;

/// A try makes fewer steps: those of a put, and a walk past nine cells. A walk past all that were
/// lost would make over 80.
const FEW: u64 = 45;

/// What is repeated 32 times, and what ends it.
macro_rules! repeated {
    ($($step:expr),*; $($last:expr),*) => {
        &[
            $($step),*, $($step),*, $($step),*, $($step),*, $($step),*, $($step),*, $($step),*, $($step),*,
            $($step),*, $($step),*, $($step),*, $($step),*, $($step),*, $($step),*, $($step),*, $($step),*,
            $($step),*, $($step),*, $($step),*, $($step),*, $($step),*, $($step),*, $($step),*, $($step),*,
            $($step),*, $($step),*, $($step),*, $($step),*, $($step),*, $($step),*, $($step),*, $($step),*,
            $($last),*
        ]
    };
}

/// The put is held before it decides, a reader cancels its time, and it tries again. At last its
/// time is not cancelled.
const CANCEL: &[Step] = repeated!(
    WAIT,
    (Act::Second(Turn::Steps), Answer::Fewer(FEW)),
    (Act::ReadAll, Answer::Done),
    (Act::First(Turn::LetPass), Answer::Held(true));
    WAIT,
    LET_GO
);

const CASES: &[Case] = &[Case {
    name: "a put goes on from its lost cell",
    config: MANY_CELLS,
    gates: [AT_DECIDE, ITS_STEPS],
    phases: &[
        &[&[(Act::Put(KEY, 50), Answer::At(0))]],
        &[NONE, &[(Act::Put(KEY, 51), Answer::At(LAST))], CANCEL],
        &[&[(Act::Get(KEY), Answer::Got(LAST + 1, 51))]],
    ],
    ..PLAIN
}];

#[test]
fn a_put_goes_on_from_its_lost_cell(rt: HostRuntime) -> Result<(), Fail> {
    for case in CASES {
        check(&rt, rt.alloc(), case);
    }
    Ok(())
}
