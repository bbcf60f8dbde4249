//! The searches of the component in memory: for the newest write of a key, along the list of an
//! epoch by rising key, along that of a frozen epoch for the merger, and for the place where a
//! writer inserts its cell; and the hints that shorten them. Of the shared words they store hints
//! alone.
#![tactic(auto)]

mod buckets;
mod cells;
mod frozen;
mod frozen_walk;
mod hints;
mod list;
mod scale;
mod searching;
mod spans;
mod versions;

pub use buckets::{Guess, NEAR, guess_of, nearest};
pub use cells::value_at;
pub use frozen::frozen_value;
pub use frozen_walk::{FrozenWalk, next_write};
pub use hints::{
    BEGINNING, Descent, Hop, Target, Trace, descend, has_place, is_before, later_of, leave_hints,
    link_behind, region_of, visit,
};
pub use list::Epoch;
pub use scale::Scale;
pub use searching::newest;
pub use spans::{Span, is_written_in};
pub use versions::Stand;
