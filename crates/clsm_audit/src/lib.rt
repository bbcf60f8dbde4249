//! The audit of recorded calls: whether they are the calls of one lawful history.
#![tactic(auto)]

mod event;
mod explaining;
mod explanation;
mod fault;
mod order;
mod passes;
mod place;
mod range;
mod replay;
mod replies;
mod rows;
mod seat;
mod stamp;
mod sweep;
mod wanted;
mod write;
mod wrong_reply;

pub use explaining::explain;
pub use explanation::{Explanation, Rule};
pub use fault::{AuditError, FaultKind};
pub use order::{OrderError, audit_order};
pub use passes::audit;
pub use place::Moments;
pub use stamp::{Stamp, in_time_order};
pub use wanted::FoundWrite;
