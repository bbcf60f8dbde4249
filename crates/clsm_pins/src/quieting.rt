//! Whether a seat holds anything retired.
//!
//! Words: PIN of each seat, at which the merger only looks. Since the last merge was published it
//! has noted, of each seat that it looked at, the PIN that it found first, and whether the seat
//! was quiet. A seat that holds the retired component was not found quiet, and its PIN is the one
//! noted first, if one was (`IsRetiredFor` of clsm_law/specs/Law.antt).
//!
//! - A seat is quiet if its PIN is even: no read of it ran then. Or if its PIN is another than the
//!   first: the read that ran then has ended. It stays quiet until the next merge, since its later
//!   reads hold the newer component (`HoldsNothingRetired` of specs/Quieting.antt).
//! - The merger may reclaim once it has found each seat quiet, at whatever moments.
//! - A read that goes on from the first look on keeps its seat from being found quiet, even if it
//!   holds the newer component. The merger does not wait for it, and it does not wait for the
//!   merger.
ghost use Rattle.std.specs.Prelude.{◌≡◌, ◌<◌, ℕ, true, false};
ghost use Rattle.clsm_law.specs.Merging.{is_retired, reader_at, reader_by};
ghost use Rattle.clsm_law.specs.Views.{next_word};
ghost use Rattle.clsm_words.specs.Plays.{IsSeatOf};
ghost use Rattle.clsm_pins.specs.Quieting.{HoldsNothingRetired, IsNotedOdd, LooksAtPin};

use clsm_law::{Reader, Word};
use clsm_words::{Pace, RawMerger, Words};

/// What is noted of a seat whose pin word is this now: it is quiet where the word is even, as no
/// read runs, or where it differs from the one first noted in this retirement, as that read has
/// ended.
fn noted(seen: Reader, word: u64) -> Reader
    ensures noted { result ≡ reader_by seen word }
    ensures loud { result.quiet ≡ false → IsNotedOdd result.first_pin }
{
    let differs = seen.first_pin.is_some_and(|first| first != word);
    Reader {
        first_pin: Some(seen.first_pin.unwrap_or(word)),
        quiet: seen.quiet || word % 2 == 0 || differs,
        looks: seen.looks.wrapping_add(1),
    }
}

/// Looks once at the pin word of the seat with this number, and answers whether the seat holds
/// nothing of the retired component: it stays so until the next merge. `seen` is what was noted of
/// the seat in this retirement. It never waits and is never refused.
pub fn quiet<P: Pace>(
    words: &Words<P>,
    merger: &mut RawMerger,
    seat: u64,
    seen: &mut Reader,
) -> bool
    requires of { IsSeatOf words.now merger.old }
    requires retired { is_retired merger.old.knows.merger.phase ≡ true }
    requires inside { seat < merger.old.knows.layout.seats }
    requires seen { seen.old ≡ reader_at merger.old.knows.merger.readers seat }
    ensures of { IsSeatOf words.now merger.new }
    ensures looked { LooksAtPin merger.old.knows merger.new.knows seat seen.new }
    ensures quiet { result ≡ seen.new.quiet }
    ensures released { result ≡ true → HoldsNothingRetired merger.new.knows.merger seat }
    ensures loud { result ≡ false → IsNotedOdd seen.new.first_pin }
    ensures noted { (word : ℕ) × (seen.new ≡ reader_by seen.old word) }
    ensures again { seen.new.looks ≡ next_word seen.old.looks }
{
    let word = words.look_as_merger(merger, Word::Pin(seat));
    *seen = noted(*seen, word);
    seen.quiet
}
