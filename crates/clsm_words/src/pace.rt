//! The pace: what is called before each atomic step, by which tests hold a thread at a step.
use clsm_law::{Step, Word};

/// A kind of step.
#[derive(Clone, Copy, PartialEq, Eq, Debug)]
pub enum Kind {
    // the lock
    EnterShared,
    LeaveShared,
    EnterExclusive,
    LeaveExclusive,
    // writes
    Draw,
    Fill,
    Link,
    FillOrder,
    Insert,
    StoreHint,
    Decide,
    Cancel,
    // batches
    Commit,
    // reads
    Pin,
    Unpin,
    /// A look at this word.
    Look(Word),
    RaiseFront,
    Note,
    CloseSnapshot,
    // merges
    Pad,
    WriteRun,
    ClearHead,
    ClearOrder,
    ClearState,
    Publish,
    ExtendClock,
    ExtendLimit,
}

impl Kind {
    /// The kind of the step.
    #[inline(always)]
    pub fn of(step: &Step) -> Kind {
        match step {
            Step::EnterShared(_) => Kind::EnterShared,
            Step::LeaveShared => Kind::LeaveShared,
            Step::EnterExclusive => Kind::EnterExclusive,
            Step::LeaveExclusive => Kind::LeaveExclusive,
            Step::Draw(_) => Kind::Draw,
            Step::Fill(_, _) | Step::Stage(_, _) => Kind::Fill,
            Step::Link(_) => Kind::Link,
            Step::FillOrder(_) => Kind::FillOrder,
            Step::Insert(_, _) => Kind::Insert,
            Step::StoreHint { .. } => Kind::StoreHint,
            Step::Decide(_, _) => Kind::Decide,
            Step::Cancel(_) => Kind::Cancel,
            Step::Commit(_) => Kind::Commit,
            Step::Pin => Kind::Pin,
            Step::Unpin(_) => Kind::Unpin,
            Step::Look(word) => Kind::Look(*word),
            Step::RaiseFront(_) => Kind::RaiseFront,
            Step::Note(_) => Kind::Note,
            Step::CloseSnapshot => Kind::CloseSnapshot,
            Step::Pad(_) => Kind::Pad,
            Step::WriteRun(_, _) => Kind::WriteRun,
            Step::ClearHead { .. } => Kind::ClearHead,
            Step::ClearState(_) => Kind::ClearState,
            Step::ClearOrder(_) => Kind::ClearOrder,
            Step::Publish => Kind::Publish,
            Step::ExtendClock => Kind::ExtendClock,
            Step::ExtendLimit => Kind::ExtendLimit,
        }
    }
}

/// What a store's threads call before each atomic step. A call of it returns.
pub trait Pace: Drop {
    /// The seat with this number is about to make a step of this kind.
    fn step(&self, seat: u64, kind: Kind);
}

/// The pace that holds nobody.
#[derive(Drop)]
pub struct Free;

impl Pace for Free {
    #[inline(always)]
    fn step(&self, _: u64, _: Kind) {}
}
