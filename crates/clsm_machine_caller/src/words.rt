//! The word of a step, and what the step makes of it: `word_of` and `changed` of
//! clsm_law/specs/Relation.antt.
ghost use Rattle.std.specs.Prelude.{◌≡◌, ◌+◌, ◌<◌, ◌^◌, IsTrue};
ghost use Rattle.clsm_model.specs.Right.{write_by};
ghost use Rattle.clsm_law.specs.Memory.{head_of, is_word, link_at};
ghost use Rattle.clsm_law.specs.SeatBounds.{IsSmall, IsSmallFor};
ghost use Rattle.clsm_law.specs.Views.{or_zero, own_time, own_line, own_place, own_region, next_word};
ghost use Rattle.clsm_law.specs.Relation.{changed, state_by, word_of};

use clsm_law::{
    CANCELLED_CELL, EXCLUSIVE_HOLD, Layout, Part, REMOVAL_CELL, Step, UNDECIDED_CELL, VALUE_CELL,
    View, Word,
};
use clsm_model::{Change, Deed, Key, Slot, Time};

/// The number, or 0.
pub(crate) fn or_zero(number: Option<u64>) -> u64
    ensures { result ≡ or_zero number }
{
    number.unwrap_or(0)
}

/// The place of the head of the drawn cell's chain among the fresh heads.
pub(crate) fn own_line(layout: &Layout, view: &View) -> usize
    ensures { result ≡ own_line layout.now view.now }
{
    let chain = or_zero(view.key) % layout.chains;
    let region = layout.region_of(layout.cell_of(or_zero(view.drawn)));
    (2 * chain + region) as usize
}

fn head_of(layout: &Layout, time: Time, key: Key) -> Word
    ensures { result ≡ head_of layout.now time key }
{
    Word::Head {
        region: layout.region_of(layout.cell_of(time)),
        chain: key % layout.chains,
    }
}

/// The region of the drawn cell, and its place in the ordered list.
pub(crate) fn own_region(layout: &Layout, view: &View) -> u64
    ensures { result ≡ own_region layout.now view.now }
{
    layout.region_of(layout.cell_of(or_zero(view.drawn)))
}

pub(crate) fn own_place(layout: &Layout, view: &View) -> u64
    ensures { result ≡ own_place layout.now view.now }
{
    layout.cell_of(or_zero(view.drawn)) + 1
}

/// The number of the link behind a place in the list of a region.
pub(crate) fn link_at(region: u64, place: u64) -> u64
    requires { place + 1 < 2 ^ 64 }
    ensures { result ≡ link_at region place }
{
    if place == 0 { region } else { place + 1 }
}

/// The word that the step of this seat is on, which is there.
pub fn word_of(layout: &Layout, seat: u32, view: &View, step: &Step) -> Word
    requires there { IsTrue (is_word layout.now (word_of layout.now seat view.now step.now)) }
    ensures { result ≡ word_of layout.now seat view.now step.now }
{
    match step {
        Step::Draw(_) => Word::Clock,
        Step::Fill(part, _) => Word::Cell {
            cell: layout.cell_of(or_zero(view.drawn)),
            part: *part,
        },
        Step::Link(_) => head_of(layout, or_zero(view.drawn), or_zero(view.key)),
        Step::FillOrder(_) => Word::Order(own_place(layout, view) + 1),
        Step::Insert(pred, _) => Word::Order(link_at(own_region(layout, view), *pred)),
        Step::StoreHint { cell, hint, .. } => Word::Hint {
            cell: *cell,
            hint: *hint,
        },
        Step::Decide(time, _) => Word::State(layout.cell_of(*time)),
        Step::Cancel(time) => Word::State(layout.cell_of(*time)),
        Step::Stage(time, _) => Word::Cell {
            cell: layout.cell_of(*time),
            part: Part::Key,
        },
        Step::Commit(_) => Word::Clock,
        Step::Pin | Step::Unpin(_) => Word::Pin(u64::from(seat)),
        Step::Look(word) => *word,
        Step::RaiseFront(_) => Word::Front,
        Step::Note(_) | Step::CloseSnapshot => Word::Snap(u64::from(seat)),
        _ => Word::Lock,
    }
}

/// The write that the deed is, where the seat does it.
pub(crate) fn write_by(seat: u32, deed: &Deed) -> Option<Slot>
    ensures { result ≡ write_by seat deed.now }
{
    let (key, value) = match deed {
        Deed::Put { key, value } => (*key, Some(*value)),
        Deed::Remove { key } => (*key, None),
        Deed::Rmw {
            key,
            change: Change::Set(value),
            ..
        } => (*key, Some(*value)),
        Deed::Rmw {
            key,
            change: Change::Remove,
            ..
        } => (*key, None),
        _ => return None,
    };
    Some(Slot::Wrote { seat, key, value })
}

/// The number of the state that the write leaves in its cell.
fn state_by(write: Option<Slot>) -> u64
    ensures { result ≡ state_by write }
{
    match write {
        Some(Slot::Wrote { value: Some(_), .. }) => VALUE_CELL,
        Some(Slot::Wrote { value: None, .. }) => REMOVAL_CELL,
        _ => UNDECIDED_CELL,
    }
}

/// What the step makes of the word that it finds.
pub fn changed(layout: &Layout, view: &View, step: &Step, found: u64) -> u64
    requires small { IsSmall layout.now step.now found }
    requires fits { IsSmallFor view.now step.now }
    ensures { result ≡ changed layout.now view.now step.now found }
{
    match step {
        Step::EnterShared(lock) if found == *lock => *lock + 1,
        Step::LeaveShared => found.wrapping_sub(1),
        Step::Draw(time) if found == *time => *time + 1,
        Step::Fill(_, word) => *word,
        Step::Link(head) if found == *head => layout.cell_of(or_zero(view.drawn)) + 1,
        Step::FillOrder(word) => *word,
        Step::Insert(_, next) if found == *next => own_place(layout, view),
        Step::StoreHint { word, .. } => *word,
        Step::Decide(_, deed) if found == UNDECIDED_CELL => state_by(write_by(0, deed)),
        Step::Cancel(_) if found == UNDECIDED_CELL => CANCELLED_CELL,
        Step::EnterExclusive if found == 0 => EXCLUSIVE_HOLD,
        Step::LeaveExclusive => found.wrapping_sub(EXCLUSIVE_HOLD),
        Step::Stage(_, key) => *key,
        Step::Commit(members) => or_zero(view.hold_clock) + members.as_slice().len() as u64,
        Step::Pin | Step::Unpin(_) => view.pin.wrapping_add(1),
        Step::RaiseFront(time) => found.max(*time),
        Step::Note(time) => *time + 1,
        Step::CloseSnapshot => 0,
        _ => found,
    }
}
