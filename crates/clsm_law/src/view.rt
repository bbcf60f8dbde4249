//! The view of a caller's seat: what it knows and has done.
ghost use Rattle.std.specs.Prelude.{◌≡◌};

use crate::Cell;
use crate::items::Items;
use clsm_model::{CallRecord, Members, Time};
use std::alloc::AllocError;

/// How a seat holds the lock.
#[derive(Clone, Copy, PartialEq, Eq, Hash, Debug)]
pub enum Mode {
    Free,
    Shared,
    Exclusive,
}

/// How far a seat is with its snapshot.
#[derive(Clone, Copy, PartialEq, Eq, Hash, Debug)]
pub enum SnapshotState {
    Absent,
    /// It noted a time in its word, under the pin that will record it.
    Noted(Time),
    /// It looked at the clock after the note: the snapshot's own time.
    Timed { noted: Time, time: Time },
    /// It is recorded and open.
    Open { noted: Time, time: Time },
}

/// A look at a link of an ordered list: the link's number, and the place that it led to, or 0.
#[derive(Clone, Copy, PartialEq, Eq, Hash, Debug)]
pub struct FreshLink {
    pub link: u64,
    pub next: u64,
}

/// Looks at the state of a cell under one pin, one after another, each of which found it undecided.
/// A pin reaches fewer times than there are cells, so there the cell names one time.
#[derive(Clone, Copy, Debug)]
pub struct Waiting {
    pub cell: Cell,
    /// How often the seat looked again after the first of them, counted up to the patience.
    pub again: u64,
}

/// What one caller's seat knows and has done.
#[derive(Drop)]
#[derive_where(PartialEq, Eq, Hash)]
pub struct View {
    pub mode: Mode,
    /// The last look at LOCK, at CLOCK and at each head, while it is fresh: no exchange of the
    /// seat's own on that word and no entering or leaving of the lock since.
    pub fresh_lock: Option<u64>,
    pub fresh_clock: Option<Time>,
    pub fresh_heads: Items<Option<u64>>,
    /// The last look at LIMIT, unless the lock was taken since; and the last one at CLOCK in a
    /// hold.
    pub hold_limit: Option<Time>,
    pub hold_clock: Option<Time>,
    /// The first look at CLOCK in the last hold.
    #[derive_where(skip(EqHashOrd))]
    pub hold_first: Option<Time>,
    /// The time that it drew and has not decided, the parts of its cell that it filled, and whether
    /// the cell is linked.
    pub drawn: Option<Time>,
    pub key: Option<u64>,
    pub length: Option<u64>,
    pub words: Items<Option<u64>>,
    pub next: Option<u64>,
    pub linked: bool,
    /// The link behind the drawn cell that it filled, and whether the cell stands in the ordered
    /// list.
    pub order_next: Option<u64>,
    pub inserted: bool,
    /// The last look at a link of that list for the drawn cell, while it is fresh: no try to insert
    /// the cell since.
    pub fresh_link: Option<FreshLink>,
    /// Cells of that list, plus 1: the last that it met in this hold of the lock, and the last that
    /// it found before and behind the drawn one; 0 for none.
    pub met: u64,
    pub low: u64,
    pub high: u64,
    /// The members of a batch that it decided and has not committed, at the times from the clock
    /// on, and whether it committed one in this hold of the lock.
    pub staged: Members,
    pub committed: bool,
    /// Its pin word, which is odd while it is pinned.
    pub pin: u64,
    pub pinned: bool,
    /// The component that it holds.
    pub held: Option<u64>,
    /// The clock as it last looked at it, and as it looked at it under this pin.
    pub clock: Option<Time>,
    pub pin_clock: Option<Time>,
    pub snapshot: SnapshotState,
    /// Every time below these is decided.
    pub reached: Time,
    pub past: Time,
    /// No later call of the seat has a time below it.
    pub due: Time,
    pub calls: Items<CallRecord>,
    /// Modulo 2^64: entries into the lock; looks that found it held exclusively and entries that
    /// lost; draws and links that lost; decides of the drawn time that lost; own drawn times that
    /// it gave up; times of other seats that it cancelled.
    #[derive_where(skip(EqHashOrd))]
    pub entries: u64,
    #[derive_where(skip(EqHashOrd))]
    pub busy: u64,
    #[derive_where(skip(EqHashOrd))]
    pub raced: u64,
    #[derive_where(skip(EqHashOrd))]
    pub overtaken: u64,
    #[derive_where(skip(EqHashOrd))]
    pub gave_up: u64,
    #[derive_where(skip(EqHashOrd))]
    pub cancelled: u64,
    /// The last looks at states under this pin, where they found one undecided; and the times of
    /// other seats that it cancelled before it had looked again as often as the patience says,
    /// modulo 2^64.
    #[derive_where(skip(EqHashOrd))]
    pub waited: Option<Waiting>,
    #[derive_where(skip(EqHashOrd))]
    pub hasty: u64,
    /// Modulo 2^64: looks at CLOCK and at LIMIT while it neither held the lock nor read.
    #[derive_where(skip(EqHashOrd))]
    pub clock_looks: u64,
    #[derive_where(skip(EqHashOrd))]
    pub limit_looks: u64,
}

impl Clone for View {
    ghost is_clone = { λ original copy. copy ≡ original };

    /// The same view, with its counts. Refused if memory runs out.
    fn clone(&self) -> Result<View, AllocError> {
        Ok(View {
            fresh_heads: self.fresh_heads.clone()?,
            words: self.words.clone()?,
            staged: self.staged.clone()?,
            calls: self.calls.clone()?,
            ..*self
        })
    }
}
