//! What a seat is answered to a call.
ghost use Rattle.std.specs.Prelude.{◌↔◌, IsTrue};
ghost use Rattle.clsm_store.specs.Play.{WantsMemory};

use clsm_model::{Memory, Time};
use clsm_store_calls::{BatchError, Full, Got, Open, Page, Rmw, Scan, TryPutError};

/// What a call is answered, as the method of the store answers it.
#[derive(Debug, Drop)]
pub enum Answer {
    /// A put's and a removal's.
    Write(Result<Time, Full>),
    Try(Result<Time, TryPutError>),
    /// With the time of the first member.
    Batch(Result<Time, BatchError>),
    /// An addition's and a claim's.
    Change(Result<Rmw, Full>),
    Read(Got),
    Snapshot(Result<Time, Open>),
    Close(Option<Time>),
    /// A read's under the open snapshot; `None` if none is open.
    ReadAt(Option<Got>),
    Scan(Result<Scan, Memory>),
    Page(Result<Page, Memory>),
}

impl Answer {
    /// Whether the call was refused memory.
    pub fn wants_memory(&self) -> bool
        ensures { IsTrue result ↔ WantsMemory self.now }
    {
        matches!(self, Answer::Scan(Err(_)) | Answer::Page(Err(_)))
    }
}
