//! What a call writes, and how many times it takes.
ghost use Rattle.std.specs.Prelude.{◌≡◌};
ghost use Rattle.clsm_model.specs.Right.{change_by, write_by};
ghost use Rattle.clsm_audit.specs.Written.{is_write, span_of};

use clsm_model::{CallRecord, Change, Deed, Key, Slot};

/// The write that a change of the key is, where the seat makes it.
pub fn change_by(seat: u32, key: Key, change: &Change) -> Option<Slot>
    ensures { result ≡ change_by seat key change.now }
{
    let value = match change {
        Change::Keep => return None,
        Change::Set(value) => Some(*value),
        Change::Remove => None,
    };
    Some(Slot::Wrote { seat, key, value })
}

/// The write that the call is, if it is one. A batch is several.
pub fn write_by(call: &CallRecord) -> Option<Slot>
    ensures { result ≡ write_by call.now.seat call.now.deed }
{
    let seat = call.seat;
    match &call.deed {
        Deed::Put { key, value } => Some(Slot::Wrote {
            seat,
            key: *key,
            value: Some(*value),
        }),
        Deed::Remove { key } => Some(Slot::Wrote {
            seat,
            key: *key,
            value: None,
        }),
        Deed::Rmw { key, change, .. } => change_by(seat, *key, change),
        _ => None,
    }
}

/// Whether the deed is a write.
pub fn is_write(deed: &Deed) -> bool
    ensures { result ≡ is_write deed.now }
{
    match deed {
        Deed::Put { .. } | Deed::Remove { .. } | Deed::Batch { .. } => true,
        Deed::Rmw { change, .. } => !matches!(change, Change::Keep),
        _ => false,
    }
}

/// How many times the deed takes: a batch one for each member, any other deed one.
pub fn span_of(deed: &Deed) -> u64
    ensures { result ≡ span_of deed.now }
{
    match deed {
        Deed::Batch { members } => members.as_slice().len() as u64,
        _ => 1,
    }
}
