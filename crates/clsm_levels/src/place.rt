//! The names of the places that hold runs.
/// A place that holds a run, by its number in its level.
#[derive(Clone, Copy, PartialEq, Eq, Hash, Debug)]
pub enum Place {
    /// One of the three places of level 0, each for one epoch's run.
    LevelZero(u64),
    /// One of the two places of level 1, which take turns.
    LevelOne(u64),
}
