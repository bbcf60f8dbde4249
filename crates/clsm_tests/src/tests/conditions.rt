//! Batches with conditions: how each is answered, and what comes between a read and the batch. The
//! audit holds what a batch's conditions say of keys against a plain map, as reads at its time.
use super::act::{Act, Answer, BUSY, Demand, END, LET_END, LET_GO, Step, WAIT, Write};
use super::actor::{Actor, members_of, one_word};
use super::case::{Case, NONE, PLAIN, alone};
use super::gate::{AT_DECIDE, Hold, NOWHERE};
use clsm_store::{BatchError, BatchIfError, Condition, Deed, Kind, Members, Time, TryBatchIfError};
use std::alloc::Global;
use std::process::Abort;
use std::sync::Wait;

fn condition_of(rt: &impl Abort, demand: &Demand) -> Condition {
    match *demand {
        Demand::Word(key, word) => Condition::Has(key, Some(one_word(rt, word))),
        Demand::Nothing(key) => Condition::Has(key, None),
        Demand::Keys(lo, hi, keys) => Condition::Counts { lo, hi, keys },
    }
}

fn conditions_of(rt: &impl Abort, alloc: Global, demands: &[Demand]) -> Vec<Condition> {
    let mut conditions = Vec::with_capacity(alloc, demands.len()).expect(rt, "memory");
    for demand in demands {
        conditions
            .push(condition_of(rt, demand))
            .expect(rt, "memory");
    }
    conditions
}

fn answer_of(refusal: BatchIfError) -> Answer {
    match refusal {
        BatchIfError::TooLong => Answer::Unbatched(BatchError::TooLong),
        BatchIfError::Keep => Answer::Unbatched(BatchError::Keep),
        BatchIfError::Unmet { index, time } => Answer::Unmet(index, time),
        BatchIfError::Full { time } => Answer::Full(time),
    }
}

impl<'a> Actor<'a> {
    /// Keeps what the condition says of its key as a read. A count is not kept.
    fn keep_condition(&mut self, rt: &impl Abort, time: Time, condition: &Condition) {
        if let Condition::Has(key, reply) = *condition {
            self.keep(rt, time, Deed::Get { key, reply });
        }
    }

    /// Keeps the batch, behind what its conditions read.
    fn keep_batch_if(
        &mut self,
        rt: &impl Abort,
        time: Time,
        conditions: &[Condition],
        members: Members,
    ) -> Answer {
        for condition in conditions {
            self.keep_condition(rt, time, condition);
        }
        if members.as_slice().is_empty() {
            return Answer::At(time);
        }
        self.keep(rt, time, Deed::Batch { members });
        Answer::At(time)
    }

    /// A batch with conditions.
    pub(super) fn batch_if<R: Abort + Wait>(
        &mut self,
        rt: &R,
        alloc: Global,
        demands: &[Demand],
        writes: &[Write],
    ) -> Answer {
        let conditions = conditions_of(rt, alloc, demands);
        let members = members_of(rt, alloc, writes);
        let time = match self.caller.batch_if(rt, &conditions, members.as_slice()) {
            Ok(time) => time,
            Err(refusal) => return answer_of(refusal),
        };
        self.keep_batch_if(rt, time, &conditions, members)
    }

    /// A batch with conditions that tries the lock once.
    pub(super) fn try_batch_if(
        &mut self,
        rt: &impl Abort,
        alloc: Global,
        demands: &[Demand],
        writes: &[Write],
    ) -> Answer {
        let conditions = conditions_of(rt, alloc, demands);
        let members = members_of(rt, alloc, writes);
        let time = match self.caller.try_batch_if(&conditions, members.as_slice()) {
            Ok(time) => time,
            Err(TryBatchIfError::Busy) => return BUSY,
            Err(TryBatchIfError::Refused(refusal)) => return answer_of(refusal),
        };
        self.keep_batch_if(rt, time, &conditions, members)
    }
}

const TOO_LONG: Answer = Answer::Unbatched(BatchError::TooLong);

const KEEP: Answer = Answer::Unbatched(BatchError::Keep);

const GREATEST: u64 = u64::MAX;

/// Keys 5 and 7 get a value.
const BOTH: &[Write] = &[Write::Word(5, 50), Write::Word(7, 70)];

const THREE: &[Write] = &[Write::Word(1, 1), Write::Word(2, 2), Write::Word(3, 3)];

const FIVE: &[Write] = &[
    Write::Word(1, 1),
    Write::Word(2, 2),
    Write::Word(3, 3),
    Write::Word(4, 4),
    Write::Keep(5),
];

const TWO_KEYS: &[Demand] = &[Demand::Keys(5, 7, 2)];

const NO_SEVEN: &[Demand] = &[Demand::Nothing(7)];

/// An epoch has four cells. Conditions are tested in their order, at the present, and before it is
/// asked whether there is room; with no member nothing is written.
const STEPS: &[Step] = &[
    (Act::BatchIf(NO_SEVEN, &[]), Answer::At(0)),
    (Act::BatchIf(&[], &[]), Answer::At(0)),
    (Act::BatchIf(TWO_KEYS, BOTH), Answer::Unmet(0, 0)),
    (Act::BatchIf(NO_SEVEN, BOTH), Answer::At(0)),
    (
        Act::BatchIf(
            &[
                Demand::Keys(5, 7, 2),
                Demand::Nothing(7),
                Demand::Word(5, 0),
            ],
            BOTH,
        ),
        Answer::Unmet(1, 2),
    ),
    (
        Act::BatchIf(&[Demand::Word(7, 71)], BOTH),
        Answer::Unmet(0, 2),
    ),
    (Act::GetMany(4, 4), Answer::Rows(2, 2)),
    (Act::BatchIf(NO_SEVEN, FIVE), TOO_LONG),
    (Act::BatchIf(NO_SEVEN, &[Write::Keep(7)]), KEEP),
    (Act::BatchIf(NO_SEVEN, THREE), Answer::Unmet(0, 2)),
    (Act::BatchIf(TWO_KEYS, THREE), Answer::Full(2)),
    (Act::BatchIf(TWO_KEYS, &[Write::Remove(5)]), Answer::At(2)),
    (Act::BatchIf(TWO_KEYS, &[]), Answer::Unmet(0, 3)),
    (
        Act::BatchIf(
            &[Demand::Nothing(5), Demand::Keys(0, GREATEST, 1)],
            &[Write::Word(5, 51)],
        ),
        Answer::At(3),
    ),
    (Act::BatchIf(TWO_KEYS, BOTH), Answer::Full(4)),
    (Act::BatchIf(NO_SEVEN, BOTH), Answer::Unmet(0, 4)),
    (Act::Scan(0), Answer::Rows(4, 2)),
];

/// The same by a call that tries the lock once.
const TRIES: &[Step] = &[
    (Act::TryBatchIf(NO_SEVEN, &[]), Answer::At(0)),
    (Act::TryBatchIf(NO_SEVEN, BOTH), Answer::At(0)),
    (
        Act::TryBatchIf(&[Demand::Word(7, 70), Demand::Word(5, 5)], BOTH),
        Answer::Unmet(1, 2),
    ),
    (Act::TryBatchIf(NO_SEVEN, FIVE), TOO_LONG),
    (Act::TryBatchIf(NO_SEVEN, &[Write::Keep(7)]), KEEP),
    (Act::TryBatchIf(TWO_KEYS, THREE), Answer::Full(2)),
    (Act::TryBatchIf(NO_SEVEN, THREE), Answer::Unmet(0, 2)),
    (Act::TryBatchIf(TWO_KEYS, BOTH), Answer::At(2)),
    (Act::GetMany(4, 4), Answer::Rows(4, 2)),
];

/// What stands in runs is tested as what stands in the epoch; and under an open snapshot the
/// present is tested.
const MERGED: &[Step] = &[
    (Act::BatchIf(NO_SEVEN, BOTH), Answer::At(0)),
    (Act::PutEight(GREATEST), Answer::At(2)),
    (Act::Sweep, Answer::Clean),
    (
        Act::BatchIf(&[Demand::Word(GREATEST, 1)], BOTH),
        Answer::Unmet(0, 4),
    ),
    (
        Act::BatchIf(
            &[Demand::Word(5, 50), Demand::Word(7, 70)],
            &[Write::Remove(5)],
        ),
        Answer::At(4),
    ),
    (Act::Snapshot, Answer::At(5)),
    (
        Act::BatchIf(&[Demand::Keys(0, GREATEST, 2)], &[Write::Word(6, 60)]),
        Answer::At(5),
    ),
    (Act::Sweep, Answer::Clean),
    (
        Act::BatchIf(
            &[
                Demand::Nothing(5),
                Demand::Word(6, 60),
                Demand::Keys(6, 7, 2),
                Demand::Keys(8, GREATEST, 1),
                Demand::Keys(7, 6, 0),
            ],
            &[Write::Remove(GREATEST)],
        ),
        Answer::At(8),
    ),
    (Act::GetManyAt(5, 4), Answer::Rows(5, 1)),
    (Act::GetMany(5, 4), Answer::Rows(9, 2)),
    (Act::Close, Answer::At(5)),
    (Act::Scan(0), Answer::Rows(9, 2)),
];

const OLD: &[Step] = &[
    (Act::Put(7, 70), Answer::At(0)),
    (Act::Put(9, 90), Answer::At(1)),
];

/// Keys 7 and 9 as they are, and no other below 10.
const AS_READ: &[Demand] = &[
    Demand::Word(7, 70),
    Demand::Word(9, 90),
    Demand::Keys(0, 9, 2),
];

/// Key 7 is written, and key 9 removed.
const TWO: &[Write] = &[Write::Word(7, 71), Write::Remove(9)];

/// Seat 1 is held before the commit of its batch.
const AT_COMMIT: Hold = Hold {
    kind: Some(Kind::Commit),
    ..AT_DECIDE
};

const HELD: &[Step] = &[
    (Act::BatchIf(AS_READ, TWO), Answer::At(2)),
    END,
    (Act::GetMany(7, 3), Answer::Rows(4, 1)),
];

/// While the batch is held, seat 2 reads what was there before, and is kept from the lock.
const BESIDE: &[Step] = &[
    WAIT,
    (Act::GetMany(7, 3), Answer::Rows(2, 2)),
    (Act::TryBatchIf(AS_READ, TWO), BUSY),
    (Act::TryBatchIf(AS_READ, &[]), BUSY),
    (Act::Snapshot, Answer::At(2)),
    LET_END,
    (Act::GetManyAt(7, 3), Answer::Rows(2, 2)),
    (Act::GetMany(7, 3), Answer::Rows(4, 1)),
    (Act::TryBatchIf(AS_READ, &[]), Answer::Unmet(0, 4)),
    (Act::Close, Answer::At(2)),
];

/// Seat 1 is held before it takes the lock.
const AT_ENTER: Hold = Hold {
    kind: Some(Kind::EnterExclusive),
    ..AT_DECIDE
};

const OVERTAKEN: &[Step] = &[
    (Act::GetMany(7, 3), Answer::Rows(2, 2)),
    (Act::BatchIf(AS_READ, TWO), Answer::Unmet(2, 3)),
    (Act::BatchIf(&[Demand::Keys(0, 9, 3)], TWO), Answer::Full(3)),
];

/// A key comes into the range of the count, and leaves one cell.
const COMES_BETWEEN: &[Step] = &[WAIT, (Act::Put(8, 80), Answer::At(2)), LET_GO];

pub(super) const CASES: &[Case] = &[
    alone!("conditions are tested in their order", STEPS),
    alone!("batches with conditions that never wait", TRIES),
    alone!("conditions are of the present, through merges", MERGED),
    Case {
        name: "a batch with conditions is held before its commit",
        gates: [AT_COMMIT, NOWHERE],
        phases: &[&[OLD], &[NONE, HELD, BESIDE]],
        ..PLAIN
    },
    Case {
        name: "a key comes between a read and its batch",
        gates: [AT_ENTER, NOWHERE],
        phases: &[&[OLD], &[NONE, OVERTAKEN, COMES_BETWEEN]],
        ..PLAIN
    },
];
