//! What a run came to.
use crate::merger::Merged;
use crate::watch::Note;
use clsm_audit::AuditError;
use clsm_model::CallRecord;
use clsm_store::Seat;
use std::time::Duration;

/// What a run came to: the seats of its store, the records of all their calls, what the audit says
/// of these, and what was noted meanwhile.
#[derive(Drop)]
pub struct Ran {
    pub seats: Vec<Seat>,
    pub records: Vec<CallRecord>,
    pub verdict: Result<(), AuditError>,
    pub notes: Vec<Note>,
    pub calling: Calling,
    /// The time of the audit.
    pub auditing: Duration,
}

/// How the calls of a run went: how long all of them took, and what the merger beside them tells,
/// which a session does not.
#[derive(Clone, Copy, Debug)]
pub struct Calling {
    pub time: Duration,
    pub merged: Option<Merged>,
}
