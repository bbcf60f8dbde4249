//! The first entry of a key below a time in all runs of a component.
ghost use Rattle.std.specs.Prelude.{◌≡◌, None, Some};
ghost use Rattle.clsm_levels.specs.Entry.{value_of};
ghost use Rattle.clsm_levels.specs.Run.{first_in_runs};
ghost use Rattle.clsm_law.specs.Worlds.{runs_of};
ghost use Rattle.clsm_words.specs.Knowing.{row_of};
ghost use Rattle.clsm_words.specs.Keeping.{LooksAside};
ghost use Rattle.clsm_words.specs.Plays.{IsSeatOf};

use crate::entry::HeldRun;
use crate::finding::Wanted;
use clsm_law::level_one_place;
use clsm_levels::level_zero_runs;
use clsm_model::Value;
use clsm_words::{Pace, RawSeat, Words};

impl Wanted {
    /// Leaves the value of the newest entry of the wanted key with a time below `until` in the runs
    /// of the held component in the caller's place, which is empty before, and stays so where there
    /// is no such entry or it is a removal: through the runs of level 0, the newest first, and then
    /// that of level 1, up to the first that has one. This is LevelDB's order: each run holds newer
    /// versions of a key than those behind it. It never waits, takes no memory and is never
    /// refused.
    #[inline(never)]
    pub fn search<P: Pace>(
        self,
        words: &Words<P>,
        seat: &mut RawSeat,
        component: u64,
        into: &mut Option<Value>,
    )
        requires of { IsSeatOf words.now seat.old }
        requires held { seat.old.knows.view.held ≡ Some component }
        requires empty { into.old ≡ None }
        ensures of { IsSeatOf words.now seat.new }
        ensures looks { LooksAside seat.old.knows seat.new.knows }
        ensures value { into.new ≡ value_of (first_in_runs (runs_of (row_of seat.old.knows) component) self.key self.until) }
    {
        for place in (0..level_zero_runs(component)).rev() {
            let run = HeldRun { component, place };
            if self.find(words, seat, run, into) {
                return;
            }
        }
        let place = level_one_place(component);
        self.find(words, seat, HeldRun { component, place }, into);
    }
}
