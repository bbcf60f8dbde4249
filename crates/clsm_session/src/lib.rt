//! A store that runs itself: a thread for each caller and one for the merger, and at the end one
//! history of all that the callers did.
#![tactic(auto)]

mod board;
mod caller;
mod conditional;
mod gate;
mod job;
mod merging;
mod refusal;
mod session;
mod worked;
mod writing;

pub use caller::SessionCaller;
pub use clsm_store::{
    Answer, Call, Caller, Change, Condition, Config, Counted, Filled, FoundRow, Got, Memory,
    Message, Open, OpenError, Page, Pages, Rmw, Row, Rows, Scan, Seat, Sink, Store, Time,
    TryBatchIfError, Value,
};
pub use job::{Job, Place};
pub use refusal::{BatchIfRefused, BatchRefused, Refused, SessionError};
pub use session::{Ended, with_store};
