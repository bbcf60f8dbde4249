//! Whether a key is written in a span of times.
ghost use Rattle.std.specs.Prelude.{◌≡◌, ◌*◌, ◌≤◌, ◌↔◌, IsTrue, Some, length};
ghost use Rattle.clsm_words.specs.Keeping.{LooksAside};
ghost use Rattle.clsm_words.specs.Plays.{IsSeatOf};
ghost use Rattle.clsm_search.specs.Spans.{IsWrittenIn};

use crate::cells::KnownCell;
use clsm_model::{Key, Time};
use clsm_words::{Pace, RawSeat, Words};

/// A key, and the times from `from` on and below `until`.
#[derive(Clone, Copy)]
pub struct Span {
    pub key: Key,
    pub from: Time,
    pub until: Time,
}

/// Whether a write of the span's key is at one of its times. Each time from the first to that write
/// costs a look at its cell's key, and where that is the span's a look at its state: so a span
/// without times costs nothing, and the cost does not grow with the writes before it. The held
/// component reaches down to the span, below whose end all is settled. It never waits, takes no
/// memory and is never refused.
#[inline(always)]
pub fn is_written_in<P: Pace>(
    words: &Words<P>,
    seat: &mut RawSeat,
    component: u64,
    span: &Span,
) -> bool
    requires of { IsSeatOf words.now seat.old }
    requires held { seat.old.knows.view.held ≡ Some component }
    requires merged { component * seat.old.knows.layout.cells ≤ span.now.from }
    requires settled { span.now.until ≤ length seat.old.knows.past }
    ensures of { IsSeatOf words.now seat.new }
    ensures looks { LooksAside seat.old.knows seat.new.knows }
    ensures written { IsTrue result ↔ IsWrittenIn seat.old.knows span.now }
{
    for time in span.from..span.until {
        let cell = words.cell_of(time);
        let at = KnownCell {
            component,
            time,
            cell,
        };
        if at.is_write(words, seat, span.key) {
            return true;
        }
    }
    false
}
