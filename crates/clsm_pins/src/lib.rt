//! Pins: a read holds a component from its pin to its unpin, and no merge gives up what it holds.
#![tactic(auto)]

mod pinning;
mod quieting;
mod snapshotting;

pub use pinning::{pin, unpin};
pub use quieting::quiet;
pub use snapshotting::{close_snapshot, open_snapshot};
