//! The names of the shared words. `layout.rt` says where each of them stands.
use crate::Cell;

/// One word that the threads share.
#[derive(Clone, Copy, PartialEq, Eq, Hash, Debug)]
pub enum Word {
    /// The shared holders of the lock, or 2^32 for an exclusive one.
    Lock,
    /// The next time to draw.
    Clock,
    /// The first time that may not be drawn.
    Limit,
    /// Every time below it is decided.
    Front,
    /// The number of merges.
    Merged,
    /// Odd while a read of the seat runs.
    Pin(u64),
    /// 0, or one more than the time that the seat noted for its snapshot.
    Snap(u64),
    /// The first cell of a chain, plus 1; 0 for an empty chain.
    Head { region: u64, chain: u64 },
    /// A part of a cell.
    Cell { cell: Cell, part: Part },
    /// A link of the ordered lists, by its place: at 0 and 1 the first cell of each region's list,
    /// and from 2 on the cell behind the cell `place - 2`, each plus 1; 0 where none follows.
    Order(u64),
    /// One of three free words of a cell, of which nothing is said.
    Hint { cell: Cell, hint: u64 },
    /// 0 empty, 1 cancelled, 2 set, 3 removed.
    State(u64),
    /// The number of entries in a place.
    Count(u64),
    /// One of the eleven words of an entry of a place: key, twice the time plus 1 for a removal,
    /// length, eight words.
    Entry { place: u64, entry: u64, part: u64 },
}

/// A part of a cell that its writer fills.
#[derive(Clone, Copy, PartialEq, Eq, Hash, Debug)]
pub enum Part {
    Key,
    /// The number of the value's words; 0 for a removal.
    Length,
    /// One of eight words; 0 past the length.
    Value(u64),
    /// The next cell of the chain, plus 1; 0 at its end.
    Next,
}
