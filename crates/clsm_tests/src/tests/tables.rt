//! Tables of cases, one for each thing that is looked at.
use super::act::{Act, Answer, LET_GO, Step, Turn, WAIT};
use super::case::{Case, FOUR_CELLS, NONE, PLAIN, Phase, alone, check};
use super::drawn::Mix;
use super::gate::{ALL, ALL_STEPS, AT_DECIDE, Hold, NOBODY, NOWHERE, OPEN};
use super::{batches, conditions, held, hot, many};
use clsm_law::Word;
use clsm_store::Config;
use clsm_words::Kind;
use std::test::*;

/// A write of one word makes 13 steps without its search, one of eight words 20, and a removal 12.
/// Before its first fill each looks at its chain's head, its own state and the two hints that say
/// how keys are parted. The first one finds nothing by hints: it looks at one on each of five
/// levels and at the list's head, fills a link, exchanges one, and leaves two hints that say how
/// keys are parted, one in its bucket and one in the map, of which it looks at the last two first.
/// The others look at the hint of their bucket and, before the first fill and again when they
/// search, at the state and the key of the cell that it names; then at the link behind it, fill and
/// exchange one, and leave the hint of their bucket, at which they look first.
const STEPS: &[Step] = &[
    (Act::Put(7, 70), Answer::At(0)),
    (Act::First(Turn::Steps), Answer::Count(31)),
    (Act::PutEight(7), Answer::At(1)),
    (Act::First(Turn::Steps), Answer::Count(34)),
    (Act::Remove(7), Answer::At(2)),
    (Act::First(Turn::Steps), Answer::Count(26)),
];

/// A read-modify-write removes an even value, and keeps one that can be divided by five.
const CHANGES: &[Step] = &[
    (Act::Put(7, 72), Answer::At(0)),
    (Act::Change(7), Answer::At(1)),
    (Act::Get(7), Answer::None(2)),
    (Act::Put(7, 75), Answer::At(2)),
    (Act::Change(7), Answer::Got(3, 75)),
    (Act::Get(7), Answer::Got(3, 75)),
];

/// Level 1 has room for four entries, and five keys have a value: the fourth merge is refused, and
/// again where it is tried again.
const MERGES: &[Step] = &[
    (Act::Put(0, 10), Answer::At(0)),
    (Act::Put(1, 11), Answer::At(1)),
    (Act::Put(2, 12), Answer::At(2)),
    (Act::Put(3, 13), Answer::At(3)),
    (Act::Put(4, 14), Answer::Full(4)),
    (Act::Freeze, Answer::Frozen(0)),
    (Act::Merge, Answer::Merged(1)),
    (Act::Reclaim, Answer::Clean),
    (Act::Put(4, 14), Answer::At(4)),
    (Act::Freeze, Answer::Frozen(1)),
    (Act::Merge, Answer::Merged(2)),
    (Act::Reclaim, Answer::Clean),
    (Act::Freeze, Answer::Frozen(2)),
    (Act::Merge, Answer::Merged(3)),
    (Act::Reclaim, Answer::Clean),
    (Act::Freeze, Answer::Frozen(3)),
    (Act::Merge, Answer::RunFull),
    (Act::Merge, Answer::RunFull),
];

/// A scan and a page leave their seat at rest, also where they are refused memory, which happens
/// under `rt try --test --fail-alloc N`: a sweep is stopped by nobody.
const SCANS: &[Step] = &[
    (Act::Put(7, 70), Answer::At(0)),
    (Act::Sweep, Answer::Clean),
    (Act::Put(8, 80), Answer::At(4)),
    (Act::Scan(0), Answer::Rows(5, 2)),
    (Act::Sweep, Answer::Clean),
    (Act::Scan(0), Answer::Rows(8, 2)),
    (Act::Page(0, 1), Answer::Page(8, 1, Some(8))),
    (Act::Sweep, Answer::Clean),
    (Act::Page(0, 1), Answer::Page(12, 1, Some(8))),
];

/// Pages in turn are as many as the rows fill, but one where there are none, and with a `max` of 0
/// each has one row. Under a snapshot they are those of its map, and so is a count. Removed keys
/// are not counted, and the greatest key is.
const COUNTS: &[Step] = &[
    (Act::Count(0), Answer::Keys(0, 0)),
    (Act::Pages(0, 2), Answer::Count(1)),
    (Act::Put(7, 70), Answer::At(0)),
    (Act::PutEight(8), Answer::At(1)),
    (Act::Put(9, 90), Answer::At(2)),
    (Act::Snapshot, Answer::At(3)),
    (Act::Remove(7), Answer::At(3)),
    (Act::Sweep, Answer::Clean),
    (Act::Put(u64::MAX, 1), Answer::At(4)),
    (Act::Count(0), Answer::Keys(3, 3)),
    (Act::Pages(0, 1), Answer::Count(3)),
    (Act::Pages(0, 2), Answer::Count(2)),
    (Act::Close, Answer::At(3)),
    (Act::Count(0), Answer::Keys(5, 3)),
    (Act::Count(8), Answer::Keys(5, 3)),
    (Act::Count(9), Answer::Keys(5, 2)),
    (Act::Count(10), Answer::Keys(5, 1)),
    (Act::Count(u64::MAX), Answer::Keys(5, 1)),
    (Act::Pages(8, 0), Answer::Count(3)),
    (Act::Pages(9, 2), Answer::Count(1)),
];

/// A visit has the rows of a scan. Under a snapshot it reads the snapshot's map, but a scan of the
/// present does not.
const VISITS: &[Step] = &[
    (Act::Visit(0), Answer::Rows(0, 0)),
    (Act::ScanNow(0), Answer::Rows(0, 0)),
    (Act::Put(7, 70), Answer::At(0)),
    (Act::PutEight(8), Answer::At(1)),
    (Act::Snapshot, Answer::At(2)),
    (Act::Remove(7), Answer::At(2)),
    (Act::Sweep, Answer::Clean),
    (Act::Put(9, 90), Answer::At(4)),
    (Act::Put(u64::MAX, 1), Answer::At(5)),
    (Act::Visit(0), Answer::Rows(2, 2)),
    (Act::Visit(8), Answer::Rows(2, 1)),
    (Act::ScanNow(0), Answer::Rows(6, 3)),
    (Act::ScanNow(8), Answer::Rows(6, 3)),
    (Act::Get(7), Answer::None(6)),
    (Act::GetAt(7), Answer::Got(2, 70)),
    (Act::Close, Answer::At(2)),
    (Act::Visit(0), Answer::Rows(6, 3)),
    (Act::Visit(u64::MAX), Answer::Rows(6, 1)),
    (Act::ScanNow(10), Answer::Rows(6, 1)),
];

/// An epoch has four timestamps. A sweep waits below so many of them, and where more are asked for
/// than there are it waits for all; an epoch that is frozen already, or a component that is
/// retired, is swept in any case. A caller finds fewer timestamps left after each write, and all
/// four again after a freeze.
const USES: &[Step] = &[
    (Act::Room, Answer::Count(4)),
    (Act::SweepIfUsed(1), Answer::Waited),
    (Act::Put(7, 70), Answer::At(0)),
    (Act::Room, Answer::Count(3)),
    (Act::SweepIfUsed(2), Answer::Waited),
    (Act::Put(8, 80), Answer::At(1)),
    (Act::Room, Answer::Count(2)),
    (Act::SweepIfUsed(2), Answer::Clean),
    (Act::Room, Answer::Count(4)),
    (Act::SweepIfUsed(1), Answer::Waited),
    (Act::SweepIfUsed(0), Answer::Clean),
    (Act::BatchTwo(1, 10), Answer::At(8)),
    (Act::Put(3, 30), Answer::At(10)),
    (Act::SweepIfUsed(4), Answer::Waited),
    (Act::Put(4, 40), Answer::At(11)),
    (Act::Room, Answer::Count(0)),
    (Act::Put(5, 50), Answer::Full(12)),
    (Act::SweepIfUsed(u64::MAX), Answer::Clean),
    (Act::Room, Answer::Count(4)),
    (Act::Freeze, Answer::Frozen(3)),
    (Act::SweepIfUsed(4), Answer::Clean),
    (Act::Freeze, Answer::Frozen(4)),
    (Act::Merge, Answer::Merged(5)),
    (Act::SweepIfUsed(4), Answer::Clean),
    (Act::SweepIfUsed(4), Answer::Waited),
];

const SMALL_RUN: Config = Config {
    run: 4,
    ..FOUR_CELLS
};

const ALONE: &[Case] = &[
    Case {
        gates: [ALL_STEPS, NOWHERE],
        ..alone!("each write makes its steps", STEPS)
    },
    alone!("read-modify-writes remove and keep", CHANGES),
    Case {
        config: SMALL_RUN,
        ..alone!("merges are counted, until a run is full", MERGES)
    },
    alone!(
        "a sweep waits until enough of an epoch is used, and the room of an epoch is told",
        USES
    ),
    alone!("a scan and a page leave their seat at rest", SCANS),
    alone!("pages are read in turn, and keys are counted", COUNTS),
    alone!(
        "keys are visited, and the present is scanned under a snapshot",
        VISITS
    ),
];

/// The looks of seat 2 at the state of the first time are counted.
const LOOKED_AT: Hold = Hold {
    seat: 2,
    kind: Some(Kind::Look(Word::State(0))),
    passed: ALL,
    turn: NOBODY,
};

const OVERTAKEN: &[Step] = &[(Act::Put(7, 70), Answer::At(1))];

const FINDS_NONE: Step = (Act::Get(8), Answer::None(1));

const LOOKS_NO_MORE: Step = (Act::Second(Turn::Steps), Answer::Count(0));

/// The case of this name in which seat 2, with so much patience, looks so many times at the time
/// that seat 1 is about to decide.
macro_rules! overtaking {
    ($name:expr, $patience:expr, $looks:expr) => {
        Case {
            name: $name,
            config: Config {
                patience: $patience,
                ..FOUR_CELLS
            },
            gates: [AT_DECIDE, LOOKED_AT],
            phases: &[&[NONE, OVERTAKEN, &[
                WAIT,
                FINDS_NONE,
                (Act::Second(Turn::Steps), Answer::Count($looks)),
                FINDS_NONE,
                LOOKS_NO_MORE,
                LET_GO,
            ]]],
            ..PLAIN
        }
    };
}

/// A reader looks once at an undecided time, and as often again as its patience says. Then it
/// cancels the time, and looks at it no more.
const LOOKS: &[Case] = &[
    overtaking!("a reader with no patience looks once", 0, 1),
    overtaking!("a reader with a patience of eight looks nine times", 8, 9),
    overtaking!("a reader with all patience looks 65 times", 64, 65),
    Case {
        name: "a reader looks once at a decided time",
        gates: [NOWHERE, LOOKED_AT],
        phases: &[
            &[&[(Act::Put(7, 70), Answer::At(0))]],
            &[
                NONE,
                NONE,
                &[
                    (Act::Get(8), Answer::None(1)),
                    (Act::Second(Turn::Steps), Answer::Count(1)),
                ],
            ],
        ],
        ..PLAIN
    },
];

const GREAT: Config = Config {
    cells: 65_536,
    seats: 4,
    shards: 4,
    run: 64,
    patience: 64,
};

const UNCHANGING: &[Step] = &[(Act::Calls(Mix::Unchanging, 8, 1_000), Answer::Done)];

const CHANGING: &[Step] = &[(Act::Calls(Mix::Changing, 8, 1_000), Answer::Done)];

const READS: &[Step] = &[(Act::ReadAll, Answer::Done)];

const THREADS: &[Case] = &[
    // A read cancels at most three times, so all calls need fewer times than there are cells.
    Case {
        name: "four threads write and read, and no call is refused",
        config: Config {
            patience: 2,
            ..GREAT
        },
        phases: &[&[UNCHANGING, UNCHANGING, UNCHANGING, UNCHANGING], &[READS]],
        ..PLAIN
    },
    Case {
        name: "four threads make calls of all kinds",
        config: GREAT,
        phases: &[&[CHANGING, CHANGING, CHANGING, CHANGING], &[READS]],
        ..PLAIN
    },
    // An open snapshot keeps every later version, so runs have room for all writes. Level 1 is
    // written by each fourth merge, so each of its places by each eighth.
    Case {
        name: "four threads make calls of all kinds beside merges",
        config: Config {
            cells: 64,
            seats: 5,
            shards: 2,
            run: 8_192,
            patience: 64,
        },
        phases: &[
            &[
                &[(Act::Sweeps(104), Answer::Count(104))],
                CHANGING,
                CHANGING,
                CHANGING,
                CHANGING,
            ],
            &[READS],
        ],
        ..PLAIN
    },
];

const LARGE: Config = Config {
    cells: 2_048,
    run: 8_192,
    ..GREAT
};

const FEW_KEYS: &[Step] = &[(Act::Calls(Mix::Puts, 64, 500), Answer::Done)];

const MANY_KEYS: &[Step] = &[(Act::Calls(Mix::Puts, 1_000_000, 500), Answer::Done)];

const SWEPT: &[Step] = &[(Act::ReadAll, Answer::Done), (Act::Sweep, Answer::Clean)];

/// What four threads put at once is found by the chains, which gets walk, and by the ordered lists,
/// which scans walk.
const ORDERED: &[Case] = &[
    Case {
        name: "few keys stand in chains and lists alike",
        config: LARGE,
        rounds: 2,
        round: &[&[FEW_KEYS, FEW_KEYS, FEW_KEYS, FEW_KEYS], &[SWEPT]],
        ..PLAIN
    },
    // The third epoch takes the cells of the first, whose hints are still there.
    Case {
        name: "many keys stand in chains and lists alike",
        config: LARGE,
        rounds: 3,
        round: &[&[MANY_KEYS, MANY_KEYS, MANY_KEYS, MANY_KEYS], &[SWEPT]],
        ..PLAIN
    },
];

#[test]
fn cases_are_answered(rt: HostRuntime) -> Result<(), Fail> {
    for cases in [
        ALONE,
        batches::CASES,
        conditions::CASES,
        held::CASES,
        hot::CASES,
        many::CASES,
        LOOKS,
        THREADS,
        ORDERED,
    ] {
        for case in cases {
            check(&rt, rt.alloc(), case);
        }
    }
    Ok(())
}

/// The number of the merger, behind those of three callers.
const MERGER: u64 = 3;

/// The steps of a merge of four cells that are all written.
const MERGE_STEPS: u64 = 78;

const SNAPSHOT_PHASES: &[Phase] = &[
    &[&[
        (Act::Put(0, 10), Answer::At(0)),
        (Act::Put(1, 11), Answer::At(1)),
        (Act::Put(2, 12), Answer::At(2)),
        (Act::Remove(2), Answer::At(3)),
        (Act::Freeze, Answer::Frozen(0)),
        (Act::Put(0, 20), Answer::At(4)),
        (Act::First(Turn::Watch), Answer::Done),
        (Act::Second(Turn::Watch), Answer::Done),
    ]],
    &[
        &[
            (Act::Merge, Answer::Merged(1)),
            (Act::Second(Turn::Steps), Answer::Count(MERGE_STEPS)),
        ],
        &[WAIT, (Act::Snapshot, Answer::At(5)), LET_GO],
    ],
];

/// A removal and a sweep; then key 0 reads as its second value, key 1 as its first, key 2 was
/// removed, and key 3 was not put.
const SNAPSHOT_ROUND: &[Phase] = &[
    &[&[
        (Act::Sweep, Answer::Clean),
        (Act::Calls(Mix::Puts, 4, 1), Answer::Done),
    ]],
    &[
        &[],
        &[
            (Act::GetAt(0), Answer::Got(5, 20)),
            (Act::GetAt(1), Answer::Got(5, 11)),
            (Act::GetAt(2), Answer::None(5)),
            (Act::GetAt(3), Answer::None(5)),
        ],
    ],
];

/// A snapshot that is opened before each step of a running merge reads the same through 20 later
/// ones; five of them are into level 1.
#[test]
fn a_snapshot_opened_before_each_step_of_a_merge(rt: HostRuntime) -> Result<(), Fail> {
    for place in 0..MERGE_STEPS {
        let before_step = Hold {
            seat: MERGER,
            kind: None,
            passed: place,
            turn: OPEN,
        };
        let counted = Hold {
            seat: MERGER,
            kind: None,
            passed: ALL,
            turn: OPEN,
        };
        let case = Case {
            name: "a snapshot is opened before a step of a merge",
            gates: [before_step, counted],
            phases: SNAPSHOT_PHASES,
            rounds: 21,
            round: SNAPSHOT_ROUND,
            ..PLAIN
        };
        check(&rt, rt.alloc(), &case);
    }
    Ok(())
}
