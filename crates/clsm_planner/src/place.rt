//! Where a seat stands in a call.
use crate::any_deal::AnyDeal;
use clsm_law::Layout;
use clsm_model::{Deal, Time, Value};

/// The parts of calls. Each begins where no step of it was made, and has at least one step.
#[derive(Clone, Copy, PartialEq, Eq, Hash)]
pub enum Stage {
    /// The lock is taken: alone for a batch, else shared.
    Enter,
    /// A read begins.
    Begin,
    /// A snapshot is noted.
    Note,
    /// The clock is looked at, which gives the read's time, or the snapshot's.
    ReadClock,
    /// FRONT is looked at.
    Front,
    /// This time is settled, or, where all are, FRONT raised.
    Settle(Time),
    /// The answer is found, and the read ends with it; a change that writes goes on.
    Answer,
    /// A time is drawn.
    Draw,
    /// The times of a batch are found: those from the clock on.
    Times,
    /// The conditions of a batch are tested, and the read ends with no record.
    Test,
    /// Its cell is filled and linked; the cell of a batch's member is taken with its key.
    Fill,
    Link,
    /// It is inserted into the ordered list, behind this place or a later one.
    Insert(u64),
    /// It is decided. The next member of a batch is filled then.
    Decide,
    /// A batch is committed.
    Commit,
    /// The read under a change ends with no record.
    Unpin,
    /// The lock is left.
    Leave,
    /// The snapshot is closed.
    Close,
    /// The call is answered.
    Over,
}

/// A part of a call, with what those before it found.
#[derive(Clone, Copy, PartialEq, Eq, Hash)]
pub struct Place {
    pub stage: Stage,
    /// The component held, and the time of the read, or of the first member of a batch.
    pub component: u64,
    pub time: Time,
    /// What a change read.
    pub old: Option<Value>,
    /// The time that is written.
    pub drawn: Option<Time>,
    /// The limit that a batch with conditions found in its hold.
    pub limit: Time,
}

/// What a part of a call is played by: the sizes, the call, and the time of the seat's open
/// snapshot.
#[derive(Clone, Copy)]
pub(crate) struct Setting<'a> {
    pub(crate) layout: &'a Layout,
    pub(crate) deal: &'a AnyDeal,
    pub(crate) snapshot: Option<Time>,
}

impl Place {
    /// This stage, where nothing was found yet.
    pub(crate) fn new(stage: Stage) -> Place {
        Place {
            stage,
            component: 0,
            time: 0,
            old: None,
            drawn: None,
            limit: 0,
        }
    }

    /// The beginning of the call.
    pub(crate) fn first(deal: &AnyDeal) -> Place {
        let stage = match deal {
            AnyDeal::Plain(Deal::Close) => Stage::Close,
            AnyDeal::Plain(
                Deal::Get { .. } | Deal::GetAt { .. } | Deal::Snap | Deal::Scan { .. },
            ) => Stage::Begin,
            _ => Stage::Enter,
        };
        Place::new(stage)
    }

    /// The same with this stage next.
    pub fn at(&self, stage: Stage) -> Place {
        Place { stage, ..*self }
    }
}
