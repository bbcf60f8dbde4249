//! How the merger comes to know of what a caller's seat knows.
ghost use Rattle.std.specs.Prelude.{◌≡◌};
ghost use Rattle.clsm_words.specs.Plays.{IsMessageOf, IsSeatOf};
ghost use Rattle.clsm_store_calls.specs.Agreeing.{AgreesWith};
ghost use Rattle.clsm_store_calls.specs.Freezing.{IsFrozen};
ghost use Rattle.clsm_store_calls.specs.Merging.{IsReady, frozen_of};

use crate::merger_seat::MergerSeat;
use clsm_law::Word;
use clsm_words::{Message, Pace, Words};

/// Takes the message in, and looks once: what the merger knows of the frozen epoch and of the runs
/// is then known to be of one history with what it was told.
pub fn agree_at<P: Pace>(words: &Words<P>, merger: &mut MergerSeat, message: Message)
    requires of { IsSeatOf words.now merger.old.raw }
    requires message { IsMessageOf words.now message }
    requires frozen { IsFrozen merger.old.raw.knows merger.old.merges }
    requires ready { IsReady merger.old }
    ensures of { IsSeatOf words.now merger.new.raw }
    ensures frozen { IsFrozen merger.new.raw.knows merger.new.merges }
    ensures ready { IsReady merger.new }
    ensures same { frozen_of merger.new ≡ frozen_of merger.old }
    ensures agrees { AgreesWith message.told (frozen_of merger.old) }
{
    words.learn_as_merger(&mut merger.raw, message);
    merger.raw.show_invariant();
    words.look_as_merger(&mut merger.raw, Word::Clock);
    merger.raw.show_invariant();
}
