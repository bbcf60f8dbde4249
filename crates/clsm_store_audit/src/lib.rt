//! The audit of settled seats, which finds no fault: what the seats of a store did is one lawful
//! history.
#![tactic(auto)]

ghost use Rattle.std.specs.Prelude.{◌≡◌};
ghost use Rattle.clsm_audit.specs.Faults.{IsLawful, IsOneHistory};
ghost use Rattle.clsm_audit.specs.Whole.{HasHistory};
ghost use Rattle.clsm_store_calls.specs.Seats.{HasSizes};
ghost use Rattle.clsm_store.specs.Headline.{HasAllSeats, IsJointHistory, IsWholeHistory, longest_past};
ghost use Rattle.clsm_store.specs.Meetings.{AreMet, AreOf};
ghost use Rattle.clsm_store_audit.specs.Settled.{AreAllInOrder, AreInTime, AreRecordsOf, HaveFittingCalls, HaveOwnCalls, joined};

use clsm_audit::{AuditError, audit};
use clsm_model::{CallRecord, Config, Memory};
use clsm_store::{Seat, Store};
use clsm_words::Pace;
use std::alloc::Global;

mod lawful;
mod pair;
mod race;
mod skew;
mod told;
mod visited;

pub use lawful::{are_lawful_alone, settle_lawful};
pub use pair::Write;
pub use race::race_agrees;
pub use skew::{Crossing, Outcome, skew_is_refused};
pub use told::{Home, news_is_found};
pub use visited::count_calls;

/// What holds of seats: none has a due past the end of time. It does nothing when it runs.
fn are_in_time(seats: &[Seat])
    ensures { AreInTime seats.now }
{
    for seat in seats {
        seat.show_due();
    }
}

/// What holds of seats: each batch that they made fits an epoch. It does nothing when it runs.
fn have_fitting_calls(seats: &[Seat])
    ensures { HaveFittingCalls seats.now }
{
    for seat in seats {
        seat.show_records();
    }
}

/// What holds of all seats of a store that are settled: records that are each seat's calls in its
/// own order, however those of several seats are mixed, have no fault. It does nothing when it
/// runs.
pub fn are_lawful<P: Pace>(
    store: &Store<P>,
    config: &Config,
    seats: &[Seat],
    records: &[CallRecord],
)
    requires sizes { HasSizes store.now config.now }
    requires of_store { AreOf store.now seats.now }
    requires all { HasAllSeats store.now seats.now }
    requires whole { IsWholeHistory seats.now (longest_past seats.now) }
    requires records { AreRecordsOf store.now seats.now records.now }
    ensures { HasHistory config.now records.now }
{
    are_in_time(seats);
    have_fitting_calls(seats);
}

/// Audits the records of all seats of a store, which are settled: each seat's calls in its own
/// order, however those of several seats are mixed. No fault is found. Refused with `Memory` if
/// memory runs out, and for nothing else.
pub fn audit_settled<P: Pace>(
    alloc: Global,
    store: &Store<P>,
    config: &Config,
    seats: &[Seat],
    records: &[CallRecord],
) -> Result<(), Memory>
    requires sizes { HasSizes store.now config.now }
    requires of_store { AreOf store.now seats.now }
    requires all { HasAllSeats store.now seats.now }
    requires whole { IsWholeHistory seats.now (longest_past seats.now) }
    requires records { AreRecordsOf store.now seats.now records.now }
    ensures lawful { IsLawful config.now records.now }
{
    are_lawful(store, config, seats, records);
    match audit(alloc, config, records) {
        Ok(()) => Ok(()),
        Err(AuditError::Memory) => Err(Memory),
        Err(AuditError::Fault { .. }) => unreachable!(),
    }
}

/// What the seats' calls joined in the order of the seats are: the records of all seats of the
/// store. It does nothing when it runs.
pub fn joined_are_records<P: Pace>(store: &Store<P>, seats: &[Seat], records: &[CallRecord])
    requires order { AreAllInOrder store.now seats.now }
    requires joined { records.now ≡ joined seats.now }
    ensures all { HasAllSeats store.now seats.now }
    ensures records { AreRecordsOf store.now seats.now records.now }
{
    have_own_calls(seats);
}

/// What holds of seats: each call has its seat's number. It does nothing when it runs.
fn have_own_calls(seats: &[Seat])
    ensures { HaveOwnCalls seats.now }
{
    for seat in seats {
        seat.show_records();
    }
}

/// Settles all seats of a store, and audits their records as `audit_settled` does. The same seats
/// come back in the same order, settled, whether or not there was memory for the audit.
pub fn settle_audited<P: Pace>(
    alloc: Global,
    store: &Store<P>,
    config: &Config,
    seats: Vec<Seat>,
    records: &[CallRecord],
) -> (Vec<Seat>, Result<(), Memory>)
    requires sizes { HasSizes store.now config.now }
    requires of_store { AreOf store.now seats.items }
    requires all { HasAllSeats store.now seats.items }
    requires records { AreRecordsOf store.now seats.items records.now }
    ensures of_store { AreOf store.now result.0.items }
    ensures met { AreMet seats.items result.0.items }
    ensures whole { IsWholeHistory result.0.items (longest_past result.0.items) }
    ensures lawful { IsLawful config.now records.now }
{
    let seats = store.settle(seats);
    let audited = audit_settled(alloc, store, config, &seats, records);
    (seats, audited)
}
