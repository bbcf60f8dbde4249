//! A seat is held at a step of its call while others make theirs.
use super::act::{
    Act, Answer, BUSY, END, END_TOO, LET_END, LET_END_TOO, LET_GO, LET_GO_TOO, OVERTAKEN, RACED,
    Step, Turn, WAIT, WAIT_TOO,
};
use super::case::{Case, FOUR_CELLS, NONE, PLAIN, Phase, check};
use super::gate::{Hold, NOBODY, NOWHERE, OPEN};
use clsm_law::Word;
use clsm_store::Config;
use clsm_words::Kind;
use std::alloc::Global;
use std::process::Abort;
use std::sync::Wait;
use std::test::*;
use std::thread::Threads;

const KEY: u64 = 1;

/// The merger's number, behind those of three callers.
const MERGER: u64 = 3;

const PUT: Act = Act::Put(KEY, 11);

const PUT_TOO: Act = Act::Put(KEY, 12);

const TRY: Act = Act::TryPut(KEY, 11);

const GET: Act = Act::Get(KEY);

const LOOK: Kind = Kind::Look(Word::Clock);

const IMPATIENT: Config = Config {
    patience: 0,
    ..FOUR_CELLS
};

/// Seat 1 is held before its first step of each of these kinds in its call until the call of seat 2
/// is answered; then it gets.
struct Row {
    kinds: &'static [Kind],
    phases: &'static [Phase],
}

/// What seat 2 does meanwhile.
const PUT_AT_0: &[Step] = &[WAIT, (PUT_TOO, Answer::At(0)), LET_GO];

const PUT_AT_1: &[Step] = &[WAIT, (PUT_TOO, Answer::At(1)), LET_GO];

const TRY_AT_1: &[Step] = &[WAIT, (Act::TryPut(KEY, 12), Answer::At(1)), LET_GO];

const NONE_AT_1: &[Step] = &[WAIT, (GET, Answer::None(1)), LET_GO];

/// The call of seat 1, and its get.
const PUT_FIRST: &[Step] = &[(PUT, Answer::At(0)), (GET, Answer::Got(2, 12))];

const PUT_LAST: &[Step] = &[(PUT, Answer::At(1)), (GET, Answer::Got(2, 11))];

const TRY_FIRST: &[Step] = &[(TRY, Answer::At(0)), (GET, Answer::Got(2, 12))];

const TRY_OVERTAKEN: &[Step] = &[(TRY, OVERTAKEN), (GET, Answer::None(1))];

const TRY_NOT_DRAWN: &[Step] = &[(TRY, RACED), (GET, Answer::Got(1, 12))];

const TRY_NOT_LINKED: &[Step] = &[(TRY, RACED), (GET, Answer::Got(2, 12))];

const GOT: &[Step] = &[(GET, Answer::Got(1, 12)), (GET, Answer::Got(1, 12))];

const GOT_NONE: &[Step] = &[(GET, Answer::None(0)), (GET, Answer::Got(1, 12))];

/// The row in which seat 1 is held at these steps of the first acts, while seat 2 plays the others.
macro_rules! row {
    ($kinds:expr, $held:expr, $beside:expr) => {
        Row {
            kinds: $kinds,
            phases: &[&[NONE, $held, $beside]],
        }
    };
}

/// Rows at a new store.
const NEW: &[Row] = &[
    // writers overlap, and one that is held holds up no other
    row!(TO_DECIDE, PUT_FIRST, PUT_AT_1),
    row!(&[Kind::Decide], PUT_FIRST, TRY_AT_1),
    row!(&[Kind::Decide], TRY_FIRST, PUT_AT_1),
    // a reader overtakes it
    row!(&[Kind::Decide], PUT_LAST, NONE_AT_1),
    row!(&[Kind::Decide], TRY_OVERTAKEN, NONE_AT_1),
    // another seat is faster
    row!(&[Kind::Draw], PUT_LAST, PUT_AT_0),
    row!(&[Kind::Draw], TRY_NOT_DRAWN, PUT_AT_0),
    row!(&[Kind::Link, Kind::Insert], TRY_NOT_LINKED, PUT_AT_1),
    // a read is at the clock that it found
    row!(&[LOOK], GOT, PUT_AT_0),
    row!(&[Kind::RaiseFront, Kind::Unpin], GOT_NONE, PUT_AT_0),
];

const TO_DECIDE: &[Kind] = &[Kind::Link, Kind::Insert, Kind::Decide];

const OLD: &[Step] = &[(Act::Put(KEY, 10), Answer::At(0))];

const OLD_AT_1: &[Step] = &[WAIT, (GET, Answer::Got(1, 10)), LET_GO];

const OLD_AT_2: &[Step] = &[WAIT, (GET, Answer::Got(2, 10)), LET_GO];

const NEW_AT_2: &[Step] = &[WAIT, (GET, Answer::Got(2, 11)), LET_GO];

/// A put whose first time was cancelled.
const PUT_AGAIN: &[Step] = &[(PUT, Answer::At(2)), (GET, Answer::Got(3, 11))];

const TO_WRITE: &[Kind] = &[
    Kind::Fill,
    Kind::Link,
    Kind::FillOrder,
    Kind::Insert,
    Kind::Decide,
];

/// Rows at a store whose key has a value: a writer is held before each kind of its steps, and a
/// reader does not wait for it.
const WRITTEN: &[Row] = &[
    Row {
        kinds: &[Kind::EnterShared, Kind::Draw],
        phases: &[&[OLD], &[NONE, PUT_LAST, OLD_AT_1]],
    },
    Row {
        kinds: TO_WRITE,
        phases: &[&[OLD], &[NONE, PUT_AGAIN, OLD_AT_2]],
    },
    Row {
        kinds: &[Kind::LeaveShared],
        phases: &[&[OLD], &[NONE, PUT_LAST, NEW_AT_2]],
    },
];

/// Plays the row at a store of these sizes, once for each kind.
fn check_row<R: Abort + Threads + Wait + Sync>(rt: &R, alloc: Global, config: Config, row: &Row) {
    for kind in row.kinds {
        let hold = Hold {
            kind: Some(*kind),
            ..AT_CLOCK
        };
        let case = Case {
            name: "a seat is held while another calls",
            config,
            gates: [hold, NOWHERE],
            phases: row.phases,
            ..PLAIN
        };
        check(rt, alloc, &case);
    }
}

#[test]
fn a_seat_is_held_while_another_calls(rt: HostRuntime) -> Result<(), Fail> {
    for row in NEW {
        check_row(&rt, rt.alloc(), FOUR_CELLS, row);
    }
    for row in WRITTEN {
        check_row(&rt, rt.alloc(), IMPATIENT, row);
    }
    Ok(())
}

/// The merger's acts beside a reader that keeps its component until its call is answered.
const KEPT: &[Step] = &[
    WAIT,
    (Act::Freeze, Answer::Frozen(0)),
    (Act::Merge, Answer::Merged(1)),
    (Act::Reclaim, Answer::Pinned(1)),
    LET_END,
    (Act::Reclaim, Answer::Clean),
];

const AT_CLOCK: Hold = Hold {
    seat: 1,
    kind: Some(LOOK),
    passed: 0,
    turn: NOBODY,
};

pub(super) const CASES: &[Case] = &[
    Case {
        name: "a writer that is held before its first fill holds up no merge",
        config: IMPATIENT,
        gates: [
            Hold {
                kind: Some(Kind::Fill),
                ..AT_CLOCK
            },
            NOWHERE,
        ],
        phases: &[
            &[&[
                (Act::Put(KEY, 10), Answer::At(0)),
                (Act::Freeze, Answer::Frozen(0)),
            ]],
            &[
                &[
                    WAIT,
                    (Act::Merge, Answer::Merged(1)),
                    (Act::Reclaim, Answer::Clean),
                    (GET, Answer::Got(5, 10)),
                    LET_GO,
                ],
                &[
                    (Act::Put(KEY, 11), Answer::At(5)),
                    (GET, Answer::Got(6, 11)),
                ],
            ],
        ],
        ..PLAIN
    },
    Case {
        name: "a merge passes a cell whose time was cancelled",
        config: IMPATIENT,
        gates: [
            Hold {
                kind: Some(Kind::Decide),
                ..AT_CLOCK
            },
            NOWHERE,
        ],
        phases: &[
            &[
                NONE,
                &[(PUT, Answer::At(1))],
                &[WAIT, (GET, Answer::None(1)), LET_GO],
            ],
            &[&[
                (PUT_TOO, Answer::At(2)),
                (Act::Put(3, 30), Answer::At(3)),
                (Act::Freeze, Answer::Frozen(0)),
                (Act::Merge, Answer::Merged(1)),
                (Act::Reclaim, Answer::Clean),
                (GET, Answer::Got(4, 12)),
                (Act::Get(3), Answer::Got(4, 30)),
                (Act::Scan(0), Answer::Rows(4, 2)),
            ]],
        ],
        ..PLAIN
    },
    Case {
        name: "a reader that is held in a get keeps its component",
        gates: [AT_CLOCK, NOWHERE],
        phases: &[&[OLD], &[KEPT, &[(GET, Answer::Got(4, 10)), END]]],
        ..PLAIN
    },
    Case {
        name: "a reader that is held in a scan keeps its component",
        gates: [AT_CLOCK, NOWHERE],
        phases: &[&[OLD], &[KEPT, &[(Act::Scan(0), Answer::Rows(4, 1)), END]]],
        ..PLAIN
    },
    Case {
        name: "two held readers are named one after the other",
        gates: [
            AT_CLOCK,
            Hold {
                seat: 2,
                ..AT_CLOCK
            },
        ],
        phases: &[
            &[OLD],
            &[
                &[
                    WAIT,
                    WAIT_TOO,
                    (Act::Freeze, Answer::Frozen(0)),
                    (Act::Merge, Answer::Merged(1)),
                    (Act::Reclaim, Answer::Pinned(1)),
                    LET_END,
                    (Act::Reclaim, Answer::Pinned(2)),
                    LET_END_TOO,
                    (Act::Reclaim, Answer::Clean),
                ],
                &[(GET, Answer::Got(4, 10)), END],
                &[(GET, Answer::Got(4, 10)), END_TOO],
            ],
        ],
        ..PLAIN
    },
    Case {
        name: "a reader that is held in a second get, under its new pin, keeps nothing retired",
        gates: [
            AT_CLOCK,
            Hold {
                turn: OPEN,
                ..AT_CLOCK
            },
        ],
        phases: &[
            &[OLD],
            &[
                &[
                    WAIT,
                    (Act::Freeze, Answer::Frozen(0)),
                    (Act::Merge, Answer::Merged(1)),
                    (Act::Reclaim, Answer::Pinned(1)),
                    LET_END,
                    WAIT_TOO,
                    (Act::Reclaim, Answer::Clean),
                    LET_END_TOO,
                ],
                &[
                    (GET, Answer::Got(4, 10)),
                    END,
                    (Act::Second(Turn::Watch), Answer::Done),
                    (GET, Answer::Got(4, 10)),
                    END_TOO,
                ],
            ],
        ],
        ..PLAIN
    },
    // Seat 1 is held between its look at the lock and its exchange, until seat 2 is about to draw
    // in its own hold; there seat 2 is held until the try of seat 1 is answered.
    Case {
        name: "a try is busy where another seat enters first",
        gates: [
            Hold {
                kind: Some(Kind::EnterShared),
                ..AT_CLOCK
            },
            Hold {
                seat: 2,
                kind: Some(Kind::Draw),
                ..AT_CLOCK
            },
        ],
        phases: &[&[
            &[WAIT_TOO, LET_END, LET_GO_TOO],
            &[(TRY, BUSY), END],
            &[WAIT, (PUT_TOO, Answer::At(0))],
        ]],
        ..PLAIN
    },
    Case {
        name: "a try is busy while an epoch is frozen",
        gates: [
            Hold {
                seat: MERGER,
                kind: Some(Kind::ExtendLimit),
                ..AT_CLOCK
            },
            NOWHERE,
        ],
        phases: &[&[
            &[(Act::Freeze, Answer::Frozen(0))],
            &[WAIT, (TRY, BUSY), LET_GO],
        ]],
        ..PLAIN
    },
];
