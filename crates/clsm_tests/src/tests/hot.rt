//! Few keys that are written often: each has many versions in one epoch.
use super::act::{Act, Answer, OVERTAKEN, Step, Turn, WAIT};
use super::case::{Case, MANY_CELLS, NONE, PLAIN};
use super::drawn::Mix;
use super::gate::{ALL, ALL_STEPS, AT_DECIDE, NOWHERE};
use clsm_store::Config;

/// Four keys take 64 words in turn, so a key's newest word below a time that is a multiple of four
/// is this time less four, and the key.
const WRITES: &[Step] = &[
    (Act::PutInTurn(4, 2, 32), Answer::Done),
    (Act::Snapshot, Answer::At(32)),
    (Act::PutInTurn(4, 32, 64), Answer::Done),
    (Act::Put(0, 64), Answer::Full(64)),
];

/// Reads under the snapshot, and then of all.
const READS: &[Step] = &[
    (Act::GetAt(0), Answer::Got(32, 28)),
    (Act::GetAt(3), Answer::Got(32, 31)),
    (Act::GetAt(4), Answer::None(32)),
    (Act::Scan(0), Answer::Rows(32, 4)),
    (Act::Scan(1), Answer::Rows(32, 3)),
    (Act::Page(1, 2), Answer::Page(32, 2, Some(3))),
    (Act::Close, Answer::At(32)),
    (Act::Get(0), Answer::Got(64, 60)),
    (Act::Get(3), Answer::Got(64, 63)),
    (Act::Get(4), Answer::None(64)),
    (Act::Scan(0), Answer::Rows(64, 4)),
    (Act::Page(1, 2), Answer::Page(64, 2, Some(3))),
];

/// Reads under a snapshot below which two keys of the four have a word.
const EARLY_READS: &[Step] = &[
    (Act::GetAt(0), Answer::Got(2, 0)),
    (Act::GetAt(1), Answer::Got(2, 1)),
    (Act::GetAt(2), Answer::None(2)),
    (Act::GetAt(3), Answer::None(2)),
    (Act::Scan(0), Answer::Rows(2, 2)),
    (Act::Scan(2), Answer::Rows(2, 0)),
    (Act::Page(0, 1), Answer::Page(2, 1, Some(1))),
    (Act::Page(1, 1), Answer::Page(2, 1, None)),
];

/// The second epoch has few versions of each key, and the first one is still in memory.
const LATER: &[Step] = &[
    (Act::Freeze, Answer::Frozen(0)),
    (Act::PutInTurn(4, 64, 66), Answer::Done),
    (Act::Get(1), Answer::Got(66, 65)),
    (Act::Get(2), Answer::Got(66, 62)),
    (Act::ReadAll, Answer::Done),
];

const READ_AGAIN: &[Step] = &[(Act::ReadAll, Answer::Done)];

/// Four keys have 1,000 versions each. The first get settles the times since the snapshot.
const COUNTED: &[Step] = &[
    (Act::PutInTurn(4, 0, 2_000), Answer::Done),
    (Act::Snapshot, Answer::At(2_000)),
    (Act::PutInTurn(4, 2_000, 4_000), Answer::Done),
    (Act::First(Turn::Steps), Answer::Fewer(ALL)),
    (Act::GetAt(1), Answer::Got(2_000, 1_997)),
    (Act::First(Turn::Steps), Answer::Fewer(200)),
    (Act::Scan(0), Answer::Rows(2_000, 4)),
    (Act::First(Turn::Steps), Answer::Fewer(800)),
    (Act::Close, Answer::At(2_000)),
    (Act::Get(1), Answer::Got(4_000, 3_997)),
    (Act::First(Turn::Steps), Answer::Fewer(2_100)),
    (Act::Get(1), Answer::Got(4_000, 3_997)),
    (Act::First(Turn::Steps), Answer::Fewer(40)),
    (Act::Scan(0), Answer::Rows(4_000, 4)),
    (Act::First(Turn::Steps), Answer::Fewer(200)),
];

/// One put at a key of eight.
const ONE: Step = (Act::Calls(Mix::Puts, 8, 1), Answer::Done);

pub(super) const CASES: &[Case] = &[
    Case {
        name: "few keys have many versions",
        config: MANY_CELLS,
        phases: &[
            &[&[(Act::PutInTurn(4, 0, 2), Answer::Done)]],
            &[NONE, &[(Act::Snapshot, Answer::At(2))]],
            &[WRITES],
            &[READS, EARLY_READS],
            &[LATER],
            &[READ_AGAIN, EARLY_READS],
        ],
        ..PLAIN
    },
    // In each round a version of key 5 has its time cancelled, and a word is put at a key of eight.
    // That is key 5 in five of the first 13 rounds, and never after them.
    Case {
        name: "many versions of a key have cancelled times",
        config: MANY_CELLS,
        gates: [AT_DECIDE, NOWHERE],
        phases: &[&[&[(Act::Put(5, 50), Answer::At(0))]]],
        rounds: 30,
        round: &[
            &[
                NONE,
                &[(Act::TryPut(5, 1), OVERTAKEN)],
                &[
                    WAIT,
                    (Act::ReadAll, Answer::Done),
                    (Act::First(Turn::LetPass), Answer::Held(true)),
                ],
            ],
            &[&[ONE]],
        ],
    },
    Case {
        name: "a get and a scan of keys with many versions make few steps",
        config: Config {
            cells: 4_096,
            ..MANY_CELLS
        },
        gates: [ALL_STEPS, NOWHERE],
        phases: &[&[COUNTED]],
        ..PLAIN
    },
];
