//! Batches: what one call writes at once is seen as a whole or not at all.
use super::act::{
    Act, Answer, BUSY, END, LET_END, LET_GO, LET_GO_TOO, Step, WAIT, WAIT_TOO, Write,
};
use super::case::{Case, FOUR_CELLS, NONE, PLAIN, Phase, alone, check};
use super::gate::{AT_DECIDE, Hold, NOWHERE};
use clsm_store::{BatchError, Config, Kind};
use std::test::*;

const EMPTY: Answer = Answer::Unbatched(BatchError::Empty);

const TOO_LONG: Answer = Answer::Unbatched(BatchError::TooLong);

const KEEP: Answer = Answer::Unbatched(BatchError::Keep);

/// One more caller than the acts of a case need, and an audit of so many.
const FOUR_SEATS: Config = Config {
    seats: 4,
    ..FOUR_CELLS
};

/// The merger's number, behind those of four callers.
const MERGER: u64 = 4;

const OLD: &[Step] = &[
    (Act::Put(7, 70), Answer::At(0)),
    (Act::Put(9, 90), Answer::At(1)),
];

/// Key 7 is written, key 8 is new, and key 9 is removed. The epoch has four cells.
const TWO: &[Write] = &[Write::Word(7, 71), Write::Remove(9)];

/// Seat 1 is held before the commit of its batch.
const AT_COMMIT: Hold = Hold {
    kind: Some(Kind::Commit),
    ..AT_DECIDE
};

/// The merger is held before its second try to hold the lock alone.
const MERGER_WAITS: Hold = Hold {
    seat: MERGER,
    kind: Some(Kind::EnterExclusive),
    passed: 1,
    ..AT_DECIDE
};

/// And so is seat 2.
const SECOND_WAITS: Hold = Hold {
    seat: 2,
    ..MERGER_WAITS
};

const HELD: &[Step] = &[
    (Act::Batch(TWO), Answer::At(2)),
    END,
    (Act::Get(7), Answer::Got(4, 71)),
];

/// While the batch is held, seat 2 reads the map before it, opens a snapshot there and is kept from
/// the lock; after it, seat 2 sees all of it, and its snapshot none.
const BESIDE: &[Step] = &[
    WAIT,
    (Act::Get(7), Answer::Got(2, 70)),
    (Act::Get(9), Answer::Got(2, 90)),
    (Act::Scan(0), Answer::Rows(2, 2)),
    (Act::Page(0, 1), Answer::Page(2, 1, Some(9))),
    (Act::TryPut(5, 50), BUSY),
    (Act::TryBatch(TWO), BUSY),
    (Act::Snapshot, Answer::At(2)),
    (Act::GetAt(7), Answer::Got(2, 70)),
    (Act::Scan(0), Answer::Rows(2, 2)),
    LET_END,
    (Act::GetAt(7), Answer::Got(2, 70)),
    (Act::GetAt(9), Answer::Got(2, 90)),
    (Act::Page(0, 5), Answer::Page(2, 2, None)),
    (Act::Close, Answer::At(2)),
    (Act::Get(7), Answer::Got(4, 71)),
    (Act::Get(9), Answer::None(4)),
    (Act::Scan(0), Answer::Rows(4, 1)),
];

/// Steps of a batch in its hold, up to its commit, and how many of the kind it makes before.
const STEPS: &[(Kind, u64)] = &[
    (Kind::Fill, 0),
    (Kind::Link, 0),
    (Kind::FillOrder, 0),
    (Kind::Insert, 0),
    (Kind::Decide, 0),
    (Kind::Fill, 4),
    (Kind::Insert, 1),
    (Kind::Decide, 1),
    (Kind::Commit, 0),
];

const COMMITTED: &[Phase] = &[&[OLD], &[NONE, HELD, BESIDE]];

#[test]
fn a_batch_is_seen_once_it_is_committed(rt: HostRuntime) -> Result<(), Fail> {
    for (kind, passed) in STEPS {
        let hold = Hold {
            kind: Some(*kind),
            passed: *passed,
            ..AT_COMMIT
        };
        let case = Case {
            name: "a batch is held before its commit",
            gates: [hold, NOWHERE],
            phases: COMMITTED,
            ..PLAIN
        };
        check(&rt, rt.alloc(), &case);
    }
    Ok(())
}

/// The epoch is full with it, and the next takes no member more.
const WHOLE: &[Write] = &[
    Write::Word(1, 11),
    Write::Eight(2),
    Write::Word(1, 12),
    Write::Remove(3),
];

const THREE: &[Write] = &[Write::Word(1, 21), Write::Word(2, 22), Write::Word(3, 23)];

const FIVE: &[Write] = &[
    Write::Word(1, 1),
    Write::Word(2, 2),
    Write::Word(3, 3),
    Write::Word(4, 4),
    Write::Keep(5),
];

const LENGTHS: &[Step] = &[
    (Act::Batch(&[]), EMPTY),
    (Act::Batch(FIVE), TOO_LONG),
    (Act::Batch(&[Write::Word(1, 10), Write::Keep(2)]), KEEP),
    (Act::Get(1), Answer::None(0)),
    (Act::Batch(WHOLE), Answer::At(0)),
    (Act::Get(1), Answer::Got(4, 12)),
    (Act::Get(2), Answer::Got(4, 1)),
    (Act::Scan(0), Answer::Rows(4, 2)),
    (Act::Batch(&[Write::Word(1, 10)]), Answer::Full(4)),
    (Act::Batch(&[]), EMPTY),
    (Act::Batch(FIVE), TOO_LONG),
    (Act::Batch(&[Write::Keep(1)]), KEEP),
    (Act::Sweep, Answer::Clean),
    (Act::Get(1), Answer::Got(4, 12)),
    (Act::Put(3, 30), Answer::At(4)),
    // three cells are left
    (Act::Batch(WHOLE), Answer::Full(5)),
    (Act::Get(3), Answer::Got(5, 30)),
    (Act::Batch(THREE), Answer::At(5)),
    (Act::Scan(0), Answer::Rows(8, 3)),
    (Act::Get(3), Answer::Got(8, 23)),
];

/// The same by tries.
const TRIES: &[Step] = &[
    (Act::TryBatch(&[]), EMPTY),
    (Act::TryBatch(FIVE), TOO_LONG),
    (Act::TryBatch(&[Write::Keep(2)]), KEEP),
    (Act::TryBatch(WHOLE), Answer::At(0)),
    (Act::Get(1), Answer::Got(4, 12)),
    (Act::Scan(0), Answer::Rows(4, 2)),
    (Act::TryBatch(&[Write::Word(1, 10)]), Answer::Full(4)),
    (Act::Sweep, Answer::Clean),
    (Act::Put(3, 30), Answer::At(4)),
    (Act::TryBatch(WHOLE), Answer::Full(5)),
    (Act::TryBatch(THREE), Answer::At(5)),
    (Act::Get(3), Answer::Got(8, 23)),
];

/// The last of several members of one key is what readers see, and each has its time: a merge and
/// a snapshot keep them apart.
const ONE_KEY: &[Step] = &[
    (
        Act::Batch(&[Write::Word(7, 1), Write::Remove(7), Write::Word(7, 3)]),
        Answer::At(0),
    ),
    (Act::Get(7), Answer::Got(3, 3)),
    (Act::Snapshot, Answer::At(3)),
    (Act::Sweep, Answer::Clean),
    (
        Act::Batch(&[Write::Word(7, 4), Write::Remove(7)]),
        Answer::At(4),
    ),
    (Act::Get(7), Answer::None(6)),
    (Act::GetAt(7), Answer::Got(3, 3)),
];

const EIGHT_WORDS: &[Step] = &[
    (
        Act::Batch(&[Write::Eight(7), Write::Eight(8)]),
        Answer::At(0),
    ),
    (Act::Get(7), Answer::Got(2, 1)),
    (Act::Scan(0), Answer::Rows(2, 2)),
    (
        Act::Batch(&[Write::Eight(8), Write::Word(7, 5)]),
        Answer::At(2),
    ),
    (Act::Get(8), Answer::Got(4, 1)),
    (Act::Sweep, Answer::Clean),
    (Act::Get(8), Answer::Got(4, 1)),
    (Act::Get(7), Answer::Got(4, 5)),
];

const REMOVALS: &[Step] = &[
    (Act::Put(7, 70), Answer::At(0)),
    (
        Act::Batch(&[Write::Remove(7), Write::Remove(8)]),
        Answer::At(1),
    ),
    (Act::Get(7), Answer::None(3)),
    (Act::Get(8), Answer::None(3)),
    (Act::Scan(0), Answer::Rows(3, 0)),
    (Act::Sweep, Answer::Clean),
    (Act::Scan(0), Answer::Rows(4, 0)),
    (Act::Batch(&[Write::Remove(8)]), Answer::At(4)),
    (Act::Scan(0), Answer::Rows(5, 0)),
];

/// The snapshot stands between two batches, and reads the first one alone through eight merges, two
/// of them into level 1.
const OLDER: &[Phase] = &[&[&[
    (
        Act::Batch(&[Write::Word(7, 70), Write::Word(8, 80)]),
        Answer::At(0),
    ),
    (Act::Snapshot, Answer::At(2)),
    (
        Act::Batch(&[Write::Remove(7), Write::Word(9, 90)]),
        Answer::At(2),
    ),
]]];

const OLDER_ROUND: &[Phase] = &[
    &[&[
        (Act::Sweep, Answer::Clean),
        (Act::GetAt(7), Answer::Got(2, 70)),
        (Act::GetAt(8), Answer::Got(2, 80)),
        (Act::GetAt(9), Answer::None(2)),
        (Act::Scan(0), Answer::Rows(2, 2)),
    ]],
    &[NONE, &[(Act::ReadAll, Answer::Done)]],
];

/// The batch is held, and the other is held before its second try of the lock: the first one found
/// the batch's hold. Both are let go then.
const BOTH_WAIT: &[Step] = &[
    WAIT,
    WAIT_TOO,
    (Act::Get(7), Answer::None(0)),
    (Act::TryPut(5, 50), BUSY),
    LET_GO,
    LET_GO_TOO,
];

const FREEZE_WAITS: &[Phase] = &[
    &[
        &[WAIT, (Act::Freeze, Answer::Frozen(0))],
        &[(Act::Batch(TWO), Answer::At(0))],
        BOTH_WAIT,
    ],
    &[&[
        (Act::Merge, Answer::Merged(1)),
        (Act::Get(7), Answer::Got(4, 71)),
        (Act::Batch(TWO), Answer::At(4)),
    ]],
];

const BATCH_WAITS: &[Phase] = &[
    &[
        NONE,
        &[(Act::Batch(TWO), Answer::At(0))],
        &[WAIT, (Act::Batch(OTHER_TWO), Answer::At(2))],
        BOTH_WAIT,
    ],
    &[&[
        (Act::Get(7), Answer::Got(4, 72)),
        (Act::Get(9), Answer::Got(4, 92)),
    ]],
];

const OTHER_TWO: &[Write] = &[Write::Word(9, 92), Write::Word(7, 72)];

pub(super) const CASES: &[Case] = &[
    alone!(
        "batches of each length, and those that are refused",
        LENGTHS
    ),
    alone!("batches that never wait, and those that are refused", TRIES),
    alone!("a batch of one key", ONE_KEY),
    alone!("batches of eight words", EIGHT_WORDS),
    alone!("batches of removals", REMOVALS),
    Case {
        name: "a snapshot that is older than a batch, through merges",
        phases: OLDER,
        rounds: 8,
        round: OLDER_ROUND,
        ..PLAIN
    },
    Case {
        name: "a freeze waits for a batch",
        config: FOUR_SEATS,
        gates: [AT_COMMIT, MERGER_WAITS],
        phases: FREEZE_WAITS,
        ..PLAIN
    },
    Case {
        name: "a batch waits for another",
        config: FOUR_SEATS,
        gates: [AT_COMMIT, SECOND_WAITS],
        phases: BATCH_WAITS,
        ..PLAIN
    },
];
