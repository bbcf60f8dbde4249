//! What holds of the seats of a store at the end of a program.
ghost use Rattle.std.specs.Prelude.{List};
ghost use Rattle.clsm_audit.specs.Whole.{HasHistory};
ghost use Rattle.clsm_model.specs.declared.record.CallRecord.{CallRecord};
ghost use Rattle.clsm_store_calls.specs.Seats.{HasSizes};
ghost use Rattle.clsm_store.specs.Headline.{HasAllSeats};
ghost use Rattle.clsm_store.specs.Meetings.{AreMet, AreOf};
ghost use Rattle.clsm_store_audit.specs.Settled.{AreLawfulAlone, AreRecordsOf, HaveWholeHistory};

use crate::{are_in_time, have_fitting_calls};
use clsm_model::Config;
use clsm_store::{Seat, Store};
use clsm_words::Pace;

/// What holds of every seat: each of its calls is right, by what it knows of the history. It does
/// nothing when it runs.
pub fn are_lawful_alone(seats: &[Seat])
    ensures { AreLawfulAlone seats.now }
{
    for seat in seats {
        seat.show_records();
    }
}

/// Settles all seats of a store, and shows that what they did is one whole history: an audit of
/// their records finds no fault, however those of several seats are mixed. The same seats come back
/// in the same order.
pub fn settle_lawful<P: Pace>(store: &Store<P>, config: &Config, seats: Vec<Seat>) -> Vec<Seat>
    requires sizes { HasSizes store.now config.now }
    requires of_store { AreOf store.now seats.items }
    requires all { HasAllSeats store.now seats.items }
    ensures met { AreMet seats.items result.items }
    ensures whole { HaveWholeHistory seats.items }
    ensures history { (records : List CallRecord) → AreRecordsOf store.now seats.items records →
        HasHistory config.now records }
{
    are_lawful_alone(&seats);
    let settled = store.settle(seats);
    are_in_time(&settled);
    have_fitting_calls(&settled);
    settled
}
