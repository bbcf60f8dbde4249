//! The begins and ends of calls in the order of moments.
ghost use Rattle.std.specs.Prelude.{◌≡◌, ◌++◌, IfOk, OnOk, Some, length};
ghost use Rattle.std.specs.Ordering.{is_lt};
ghost use Rattle.clsm_audit.specs.Faults.{HasNone, IsUnknownAt};
ghost use Rattle.clsm_audit.specs.Moments.{IsInMomentOrder, comes_before, events_of};
ghost use Rattle.clsm_audit.specs.RealTime.{call_by};

use crate::place::{Moments, Place, place_of};
use crate::seat::{advance, new_states};
use clsm_model::{CallRecord, Config, Memory, Time};
use std::alloc::{AllocError, Global};
use std::cmp::Ordering;

/// The begin or the end of the call at an index: the moment of it, and the first time of the call's
/// place, or at its end the first one past it.
#[derive(Clone, Copy)]
pub struct Event {
    pub moment: u64,
    pub is_end: bool,
    pub time: Time,
    pub index: usize,
}

/// The order of moments. At each moment the begins come first: a call that ends then did not end
/// before them.
fn compare(x: &Event, y: &Event) -> Ordering
    ensures { is_lt result ≡ comes_before x.now y.now }
{
    x.moment.cmp(&y.moment).then(x.is_end.cmp(&y.is_end))
}

/// Puts the begin and the end of a call that has a place behind the others. Refused if memory runs
/// out.
fn push_events(
    events: &mut Vec<Event>,
    index: usize,
    place: Option<Place>,
    moments: Moments,
) -> Result<(), AllocError>
    ensures { OnOk result (events.new.items ≡ events.old.items ++ events_of index (call_by place (Some moments))) }
{
    let Some(place) = place else {
        return Ok(());
    };
    let begin = Event {
        moment: moments.begin,
        is_end: false,
        time: place.from,
        index,
    };
    let finish = Event {
        moment: moments.end,
        is_end: true,
        time: place.past,
        index,
    };
    events.push(begin)?;
    events.push(finish)?;
    Ok(())
}

/// The begins and ends of all calls that have a place, in the order of moments. Refused if memory
/// runs out.
pub fn in_moment_order(
    alloc: Global,
    config: &Config,
    records: &[CallRecord],
    moments: &[Moments],
) -> Result<Vec<Event>, Memory>
    requires known { HasNone (IsUnknownAt config.now records.now) }
    requires count { length moments.now ≡ length records.now }
    ensures { IfOk result (λ events. IsInMomentOrder records.now moments.now events.items) }
{
    let mut states = new_states(alloc, config.seats)?;
    let mut events = Vec::new(alloc);
    for (index, record) in records.iter().enumerate() {
        let snapshot = states[record.seat as usize].snapshot;
        push_events(
            &mut events,
            index,
            place_of(snapshot, record),
            moments[index],
        )?;
        advance(&mut states, record);
    }
    events.sort_unstable_by(compare);
    Ok(events)
}
