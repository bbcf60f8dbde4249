//! Cursors into sorted rows of entries, by which a merge reads them.
ghost use Rattle.std.specs.Prelude.{length, MatchOption};
ghost use Rattle.clsm_levels.specs.Cursors.{IsLeast, IsEmptied};

use crate::entry::Version;

/// How far a row of entries has been read.
#[derive(Clone, Copy)]
pub struct Cursor {
    pub position: u64,
    /// The entry at the position without its value, if the row has one.
    pub head: Option<Version>,
}

/// The first of the cursors whose heads have the least key, and its head. None, where no cursor has
/// a head.
pub fn least(cursors: &[Cursor]) -> Option<(usize, Version)>
    ensures { MatchOption result (IsEmptied cursors.now (length cursors.now))
        (λ p. IsLeast cursors.now (length cursors.now) p.0 p.1) }
{
    let mut best: Option<(usize, Version)> = None;
    for (index, cursor) in cursors.iter().enumerate() {
        if let Some(version) = cursor.head {
            match best {
                Some((_, Version { key, .. })) if key <= version.key => {}
                _ => best = Some((index, version)),
            }
        }
    }
    best
}
