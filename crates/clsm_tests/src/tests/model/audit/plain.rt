//! A second check of records, quadratic and straight from the words of the audit's four passes.
use super::{CELLS, END, KEYS};
use clsm_audit::FaultKind;
use clsm_model::{CallRecord, Change, Deed, Key, PageRange, Time, Value};

/// What the change writes, if it does.
fn left_by(change: &Change) -> Option<Option<Value>> {
    match change {
        Change::Keep => None,
        Change::Set(value) => Some(Some(*value)),
        Change::Remove => Some(None),
    }
}

/// How many times the call takes: a batch one for each member.
pub fn span(call: &CallRecord) -> u64 {
    match &call.deed {
        Deed::Batch { members } => members.as_slice().len() as u64,
        _ => 1,
    }
}

/// What the call writes at the key at its time that is so far behind its first, if it does.
fn written(call: &CallRecord, behind: u64, key: Key) -> Option<Option<Value>> {
    match &call.deed {
        Deed::Put { key: at, value } if *at == key => Some(Some(*value)),
        Deed::Remove { key: at } if *at == key => Some(None),
        Deed::Rmw {
            key: at,
            change,
            ..
        } if *at == key => left_by(change),
        Deed::Batch { members } => match members.as_slice().get(behind as usize) {
            Some((at, change)) if *at == key => left_by(change),
            _ => None,
        },
        _ => None,
    }
}

/// Whether the call writes.
pub fn is_write(call: &CallRecord) -> bool {
    match &call.deed {
        Deed::Put { .. } | Deed::Remove { .. } | Deed::Batch { .. } => true,
        Deed::Rmw { change, .. } => *change != Change::Keep,
        _ => false,
    }
}

/// Whether the call reads, or opens or closes a snapshot: its time is none strictly inside a batch.
fn is_read(call: &CallRecord) -> bool {
    !matches!(
        call.deed,
        Deed::Put { .. } | Deed::Remove { .. } | Deed::Batch { .. }
    )
}

/// Whether the time is strictly inside a batch of the records.
fn is_inside(records: &[CallRecord], time: Time) -> bool {
    for call in records {
        let is_batch = matches!(call.deed, Deed::Batch { .. });
        if is_batch && call.time < time && time < call.time.wrapping_add(span(call)) {
            return true;
        }
    }
    false
}

/// Whether the call is a batch of no member, of too many, or with one that writes nothing.
fn is_bad_batch(call: &CallRecord) -> bool {
    let Deed::Batch { members } = &call.deed else {
        return false;
    };
    let members = members.as_slice();
    for (_, change) in members {
        if *change == Change::Keep {
            return true;
        }
    }
    members.is_empty() || members.len() > CELLS
}

/// Whether the call stands at the present of its seat, of which this snapshot is open.
pub fn is_at_present(call: &CallRecord, open: Option<Time>) -> bool {
    match &call.deed {
        Deed::Close | Deed::GetAt { .. } => false,
        Deed::Scan { .. } | Deed::Page { .. } => open.is_none(),
        _ => true,
    }
}

/// The open snapshot of the seat after the first `count` records.
pub fn open_before(records: &[CallRecord], count: usize, seat: u32) -> Option<Time> {
    let mut open = None;
    for call in records.iter().take(count) {
        match call.deed {
            Deed::Snapshot if call.seat == seat => open = Some(call.time),
            Deed::Close if call.seat == seat => open = None,
            _ => {}
        }
    }
    open
}

/// The due of the seat after the first `count` records.
fn due_before(records: &[CallRecord], count: usize, seat: u32) -> Time {
    let mut due = 0;
    for (index, call) in records.iter().enumerate().take(count) {
        if call.seat == seat && is_at_present(call, open_before(records, index, seat)) {
            due = if is_write(call) {
                call.time.wrapping_add(span(call))
            } else {
                call.time
            };
        }
    }
    due
}

fn is_unknown(seats: u32, records: &[CallRecord], index: usize, call: &CallRecord) -> bool {
    let open = open_before(records, index, call.seat);
    let suits = match &call.deed {
        Deed::Snapshot => open.is_none(),
        Deed::Close | Deed::GetAt { .. } => open == Some(call.time),
        Deed::Scan { .. } | Deed::Page { .. } => open.is_none() || open == Some(call.time),
        _ => true,
    };
    let is_late = call.time > END || (is_write(call) && call.time.wrapping_add(span(call)) > END);
    call.seat >= seats || is_late || !suits || is_bad_batch(call)
}

/// Whether a call before this one wrote at one of its times.
fn is_second(records: &[CallRecord], index: usize, call: &CallRecord) -> bool {
    for other in records.iter().take(index) {
        let begins_before_end = other.time < call.time.wrapping_add(span(call));
        let ends_behind = call.time < other.time.wrapping_add(span(other));
        if is_write(other) && begins_before_end && ends_behind {
            return is_write(call);
        }
    }
    false
}

fn ran_back(records: &[CallRecord], index: usize, call: &CallRecord) -> bool {
    let open = open_before(records, index, call.seat);
    is_at_present(call, open) && call.time < due_before(records, index, call.seat)
}

/// The value that the newest write of the key below the time left.
fn value_below(records: &[CallRecord], key: Key, time: Time) -> Option<Value> {
    let mut newest = 0;
    let mut value = None;
    for call in records {
        for behind in 0..span(call) {
            let at = call.time.wrapping_add(behind);
            if let Some(left) = written(call, behind, key) {
                if at < time && at >= newest {
                    newest = at;
                    value = left;
                }
            }
        }
    }
    value
}

/// Whether these are the pairs that the page asks for below the call's time, and `more` the next
/// key.
fn is_page(
    records: &[CallRecord],
    time: Time,
    range: PageRange,
    rows: &[(u64, Value)],
    more: Option<u64>,
) -> bool {
    let mut rest = rows.iter();
    let mut left = range.max;
    for key in 0..KEYS {
        let value = value_below(records, key, time);
        if let Some(value) = value {
            if range.from <= key && key <= range.hi {
                if left == 0 {
                    return more == Some(key) && rest.next().is_none();
                }
                left -= 1;
                if rest.next() != Some(&(key, value)) {
                    return false;
                }
            }
        }
    }
    more.is_none() && rest.next().is_none()
}

fn is_wrong(records: &[CallRecord], call: &CallRecord) -> bool {
    let time = call.time;
    if is_read(call) && is_inside(records, time) {
        return true;
    }
    match &call.deed {
        Deed::Rmw { key, old, .. } => *old != value_below(records, *key, time),
        Deed::Get { key, reply } | Deed::GetAt { key, reply } => {
            *reply != value_below(records, *key, time)
        }
        Deed::Scan { lo, hi, rows } => {
            let (from, hi, max) = (*lo, *hi, u64::MAX);
            let range = PageRange { from, hi, max };
            !is_page(records, time, range, rows.as_slice(), None)
        }
        Deed::Page { range, rows, more } => !is_page(records, time, *range, rows.as_slice(), *more),
        _ => false,
    }
}

/// The fault that the audit is to find, or None: the first record that has a fault of the first
/// kind of which there is one.
pub fn second_check(seats: u32, records: &[CallRecord]) -> Option<(FaultKind, usize)> {
    for kind in [
        FaultKind::Unknown,
        FaultKind::TwoAtOneTime,
        FaultKind::TimeRanBack,
        FaultKind::WrongReply,
    ] {
        for (index, call) in records.iter().enumerate() {
            let has_fault = match kind {
                FaultKind::Unknown => is_unknown(seats, records, index, call),
                FaultKind::TwoAtOneTime => is_second(records, index, call),
                FaultKind::TimeRanBack => ran_back(records, index, call),
                FaultKind::WrongReply => is_wrong(records, call),
            };
            if has_fault {
                return Some((kind, index));
            }
        }
    }
    None
}
