//! The shared words as plain data, the relation that says what each atomic step does to them and to
//! what a seat knows, and the law that every open step keeps.
#![tactic(auto)]

mod codes;
mod items;
mod layout;
mod merger;
mod places;
mod step;
mod view;
mod word;

pub use codes::{
    CANCELLED_CELL, EXCLUSIVE_HOLD, LAST_LIMIT, REMOVAL_CELL, UNDECIDED_CELL, VALUE_CELL,
};
pub use items::Items;
pub use layout::Layout;
pub use merger::{MergerView, Phase, Reader, Round};
pub use places::{LEVEL_ONE, is_named, level_one_place, target_place};
pub use step::{Answer, End, Event, Step, StepError};
pub use view::{FreshLink, Mode, SnapshotState, View, Waiting};
pub use word::{Part, Word};

/// A cell of the component in memory: the words of one write. A time has the cell of its remainder
/// by the number of cells.
pub type Cell = u64;
