//! What the callers of a session and its merger tell one another.
ghost use Rattle.std.specs.Prelude.{◌≡◌, ◌≤◌, ◌-◌, ◌^◌, ℕ, IfErr, min};
ghost use Rattle.clsm_session.specs.Waiting.{EndsAt, IsReason};

use crate::gate::Gate;
use crate::refusal::Refused;
use clsm_law::LAST_LIMIT;
use std::sync::atomic::AtomicU64;
use std::sync::atomic::Ordering::SeqCst;
use std::sync::{Condvar, Mutex, MutexGuard, Wait};

/// What the callers of a session and its merger tell one another. The merger sleeps on it until an
/// epoch is half full or a caller found it full, and such a caller until the next epoch is there.
#[derive(Drop)]
pub(crate) struct Board {
    state: Mutex<State>,
    /// By this the merger is woken, and by that the callers that wait for room.
    called: Condvar,
    served: Condvar,
    /// The time whose write wakes the merger.
    wake_at: AtomicU64,
    /// Where batches and freezes are let in.
    pub(crate) gate: Gate,
    /// The timestamps of an epoch.
    pub(crate) cells: u64,
    pub(crate) ghost some_cells: { 1 ≤ cells },
}

/// What stands on the board.
#[derive(Drop)]
struct State {
    /// All timestamps below it may be drawn.
    limit: u64,
    /// The greatest limit that a caller found too low, or 0.
    full: u64,
    /// The calls for room so far, and as many of them as the merger could not serve.
    calls: u64,
    refused: u64,
    /// The epoch is half full.
    is_half: bool,
    /// All callers have returned.
    is_over: bool,
}

impl State {
    /// Whether the merger has something to do.
    fn is_called(&self) -> bool {
        self.is_half || (self.full >= self.limit && self.calls > self.refused)
    }
}

impl Board {
    /// The board of a store that was opened with so many cells.
    pub(crate) fn new(cells: u64) -> Board
        requires { 1 ≤ cells }
        ensures { result.cells ≡ cells }
    {
        let state = State {
            limit: cells,
            full: 0,
            calls: 0,
            refused: 0,
            is_half: false,
            is_over: false,
        };
        Board {
            state: Mutex::new(state),
            called: Condvar::new(),
            served: Condvar::new(),
            wake_at: AtomicU64::new(cells / 2),
            gate: Gate::new(),
            cells,
        }
    }

    /// Wakes the merger if this time, at which a caller has written, is in the second half of the
    /// epoch, and nobody has woken it in this epoch.
    pub(crate) fn note_write<R: Wait>(&self, rt: &R, time: u64) {
        let wake_at = self.wake_at.load(SeqCst);
        if time < wake_at {
            return;
        }
        let woken = self
            .wake_at
            .compare_exchange(wake_at, u64::MAX, SeqCst, SeqCst);
        if woken.is_err() {
            return;
        }
        let mut state = self.state.lock(rt);
        if time < state.limit.saturating_sub(self.cells) {
            return;
        }
        state.is_half = true;
        self.called.notify_one();
    }

    /// Waits until an epoch is there behind the one that this caller found full at this time.
    /// Refused where the merger, called for it, could not make one.
    pub(crate) fn wait_for_room<R: Wait>(&self, rt: &R, time: u64) -> Result<(), Refused>
        ensures { IfErr result (IsReason self.now.cells time) }
    {
        if self.is_served(rt, self.end_of_epoch(time)) {
            return Ok(());
        }
        Err(self.reason(time))
    }

    /// Calls the merger for an epoch behind this limit, and waits for it. Answers whether it is
    /// there.
    fn is_served<R: Wait>(&self, rt: &R, limit: u64) -> bool {
        let mut state = self.state.lock(rt);
        if state.limit > limit {
            return true;
        }
        state.full = state.full.max(limit);
        state.calls = state.calls.saturating_add(1);
        let call = state.calls;
        self.called.notify_one();
        self.wait_past(rt, state, limit, call)
    }

    /// Waits until the limit has passed this one, or the call is refused. Answers which.
    fn wait_past<R: Wait>(
        &self,
        rt: &R,
        mut state: MutexGuard<'_, State>,
        limit: u64,
        call: u64,
    ) -> bool {
        for _ in rt.forever() {
            if state.limit > limit {
                return true;
            }
            if state.refused >= call {
                return false;
            }
            state = self.served.wait(rt, state);
        }
        unreachable!()
    }

    /// The end of the epoch that was found full at this time.
    #[tactic(auto, using(crate::proofs::Waiting::ends_within))]
    fn end_of_epoch(&self, time: u64) -> u64
        ensures { (end : ℕ) × EndsAt self.now.cells time end × (result ≡ min end (2 ^ 64 - 1)) }
    {
        time.div_ceil(self.cells).saturating_mul(self.cells)
    }

    /// Why there is no epoch behind the one that was found full at this time. It goes by the time
    /// alone, as the merger does, which freezes an epoch only if the next one ends at 2^62 or
    /// before.
    #[tactic(auto, using(crate::proofs::Waiting::is_worn, crate::proofs::Waiting::is_run_full))]
    fn reason(&self, time: u64) -> Refused
        ensures { IsReason self.now.cells time result }
    {
        if self.end_of_epoch(time).saturating_add(self.cells) > LAST_LIMIT {
            Refused::Worn
        } else {
            Refused::RunFull
        }
    }

    /// Sleeps until the merger has something to do. Answers how often callers have called for room,
    /// or `None` where all callers have returned.
    pub(crate) fn wait_for_call<R: Wait>(&self, rt: &R) -> Option<u64> {
        let mut state = self.state.lock(rt);
        for _ in rt.forever() {
            if state.is_over {
                return None;
            }
            if state.is_called() {
                state.is_half = false;
                return Some(state.calls);
            }
            state = self.called.wait(rt, state);
        }
        unreachable!()
    }

    /// Tells the callers that this epoch was frozen, so that there is room in the next one. A call
    /// that was for its second half is then served.
    pub(crate) fn open_epoch_behind<R: Wait>(&self, rt: &R, epoch: u64) {
        let mut state = self.state.lock(rt);
        state.is_half = false;
        state.limit = epoch.saturating_add(2).saturating_mul(self.cells);
        self.served.notify_all();
    }

    /// Says from which time on the merger is to be woken again, as it has nothing to do.
    pub(crate) fn rest<R: Wait>(&self, rt: &R) {
        let state = self.state.lock(rt);
        let half = state.limit.saturating_sub(self.cells / 2);
        self.wake_at.store(half, SeqCst);
    }

    /// Calls the merger again, as it could not end its work yet.
    pub(crate) fn call_again<R: Wait>(&self, rt: &R) {
        let mut state = self.state.lock(rt);
        state.is_half = true;
    }

    /// Refuses the first so many calls for room.
    pub(crate) fn refuse<R: Wait>(&self, rt: &R, calls: u64) {
        let mut state = self.state.lock(rt);
        state.refused = calls;
        self.served.notify_all();
    }

    /// Tells the merger that all callers have returned.
    pub(crate) fn end<R: Wait>(&self, rt: &R) {
        let mut state = self.state.lock(rt);
        state.is_over = true;
        self.called.notify_one();
    }
}
