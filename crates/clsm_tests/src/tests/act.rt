//! What an actor does, and how it is answered.
use super::drawn::Mix;
use clsm_store::{BatchError, Time, TryPutError, Value};

/// A call of the actor's seat, a command of the merger, or a turn at a gate. A value has one word,
/// where nothing else is said.
#[derive(Clone, Copy)]
pub(super) enum Act {
    Put(u64, u64),
    /// A value of eight words.
    PutEight(u64),
    TryPut(u64, u64),
    Remove(u64),
    /// The writes of a batch.
    Batch(&'static [Write]),
    /// The same, by a call that tries the lock once.
    TryBatch(&'static [Write]),
    /// The writes of a batch, if these conditions hold.
    BatchIf(&'static [Demand], &'static [Write]),
    /// The same, by a call that tries the lock once.
    TryBatchIf(&'static [Demand], &'static [Write]),
    /// A batch of this word at the key and at the next one.
    BatchTwo(u64, u64),
    /// Puts each number from the second on and below the third, at so many keys in turn.
    PutInTurn(u64, u64, u64),
    /// A read-modify-write, which makes of the value what `drawn::next` says.
    Change(u64),
    Get(u64),
    GetAt(u64),
    /// So many keys from this one on, at one time.
    GetMany(u64, usize),
    /// The same under the open snapshot.
    GetManyAt(u64, usize),
    /// All keys from this one on.
    Scan(u64),
    /// So many keys from this one on.
    Page(u64, usize),
    /// All pages of so many keys from this one on, in turn.
    Pages(u64, usize),
    /// How many keys from this one on have a value.
    Count(u64),
    /// A visit of all keys from this one on.
    Visit(u64),
    /// All keys from this one on, of the present.
    ScanNow(u64),
    Snapshot,
    Close,
    Freeze,
    Merge,
    Reclaim,
    Sweep,
    /// A sweep that freezes an epoch only where so many of its timestamps are drawn.
    SweepIfUsed(u64),
    /// How many timestamps the caller finds left in the epoch.
    Room,
    /// Calls by chance: of these kinds, at keys below this number and at one key of its own, until
    /// so many are answered.
    Calls(Mix, u64, usize),
    /// A get of each key of a scan, and a scan.
    ReadAll,
    /// So many sweeps, each behind a pause.
    Sweeps(u64),
    /// A turn at the first gate, or at the second.
    First(Turn),
    Second(Turn),
}

/// A member of a batch, with its key.
#[derive(Clone, Copy)]
pub(super) enum Write {
    /// A value of one word.
    Word(u64, u64),
    /// A value of eight words, of which the first is 1.
    Eight(u64),
    Remove(u64),
    /// No write.
    Keep(u64),
}

/// A condition of a batch.
#[derive(Clone, Copy)]
pub(super) enum Demand {
    /// The key has a value of this one word.
    Word(u64, u64),
    /// The key has no value.
    Nothing(u64),
    /// From the first key to the second so many have a value.
    Keys(u64, u64, u64),
}

/// A turn at a gate.
#[derive(Clone, Copy)]
pub(super) enum Turn {
    /// From now on the gate holds its seat, or counts its steps.
    Watch,
    /// Waits until the seat is held there.
    Wait,
    LetGo,
    /// Lets it go, and holds it again at its next such step.
    LetPass,
    /// Lets it go, and waits until its call is answered.
    LetEnd,
    /// The call that was held there is answered.
    End,
    /// The steps that the gate counted since this was asked last.
    Steps,
}

#[derive(Clone, Copy, PartialEq)]
pub(super) enum Answer {
    At(Time),
    Full(Time),
    Refused(TryPutError),
    Unbatched(BatchError),
    /// The condition at this place of a batch does not hold.
    Unmet(usize, Time),
    Got(Time, u64),
    None(Time),
    /// So many rows of a scan, or so many keys of several that have a value.
    Rows(Time, usize),
    /// So many rows of a page, and the key of the next one.
    Page(Time, usize, Option<u64>),
    /// So many keys.
    Keys(Time, u64),
    NoMemory,
    Frozen(u64),
    Merged(u64),
    RunFull,
    Clean,
    /// The sweep waits until more timestamps are drawn.
    Waited,
    Pinned(u32),
    /// Whether the seat is held at the gate.
    Held(bool),
    Count(u64),
    /// What is expected of a count that is below this number.
    Fewer(u64),
    Done,
    /// No act is answered so.
    Other,
}

/// Refusals of a try.
pub(super) const BUSY: Answer = Answer::Refused(TryPutError::Busy);

pub(super) const OVERTAKEN: Answer = Answer::Refused(TryPutError::Overtaken);

pub(super) const RACED: Answer = Answer::Refused(TryPutError::Raced);

impl Answer {
    /// Whether this is the answer that is expected.
    pub(super) fn is(&self, expected: &Answer) -> bool {
        match (self, expected) {
            (Answer::Count(count), Answer::Fewer(bound)) => count < bound,
            _ => self == expected,
        }
    }
}

/// An act, and how it has to be answered.
pub(super) type Step = (Act, Answer);

/// Turns at the first gate: the seat is held there, is let go, and is let go until its call is
/// answered; and the call that was held there is answered.
pub(super) const WAIT: Step = (Act::First(Turn::Wait), Answer::Held(true));

pub(super) const LET_GO: Step = (Act::First(Turn::LetGo), Answer::Held(true));

pub(super) const LET_END: Step = (Act::First(Turn::LetEnd), Answer::Held(true));

pub(super) const END: Step = (Act::First(Turn::End), Answer::Done);

/// The same at the second gate.
pub(super) const WAIT_TOO: Step = (Act::Second(Turn::Wait), Answer::Held(true));

pub(super) const LET_GO_TOO: Step = (Act::Second(Turn::LetGo), Answer::Held(true));

pub(super) const LET_END_TOO: Step = (Act::Second(Turn::LetEnd), Answer::Held(true));

pub(super) const END_TOO: Step = (Act::Second(Turn::End), Answer::Done);

/// The answer of a read: a value of more words by its first one.
pub(super) fn read_as(time: Time, value: &Option<Value>) -> Answer {
    match value {
        Some(value) => Answer::Got(time, value.words()[0]),
        None => Answer::None(time),
    }
}
