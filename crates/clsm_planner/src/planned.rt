//! Which steps the parts of calls make: what a planned step is held against.
ghost use Rattle.std.specs.Prelude.{◌≡◌, IsTrue};
ghost use Rattle.clsm_planner.specs.Planned.{AnswersRead, ClearsRegion, ClosesSnapshot, CommitsBatch, DecidesTime};
ghost use Rattle.clsm_planner.specs.Planned.{DrawsClock, EndsRead, Enters, FillsCell, FindsTimes, FreezesEpoch};
ghost use Rattle.clsm_planner.specs.Planned.{InsertsCell, IsNextIn, IsNextInMerge, IsStored, Leaves, LinksCell, LooksAt};
ghost use Rattle.clsm_planner.specs.Planned.{MayWriteIf, NotesClock, Pins, SettlesTime, TakesAlone, TakesFloor};
ghost use Rattle.clsm_planner.specs.Planned.{TakesShared, TestsConditions, WritesRun, found_word};

use crate::any_deal::AnyDeal;
use crate::made::Found;
use crate::merger::MergeStage;
use crate::place::{Place, Stage};
use clsm_law::{End, Part, Step, Word};
use clsm_model::{Deal, Time};

/// The word that a look found, 0 if the step was none.
fn found_word(found: &Found) -> u64
    ensures { result ≡ found_word found.now }
{
    match found {
        Found::Word(word) => *word,
        Found::Done | Found::Lost => 0,
    }
}

/// Whether the word stands in a region or in a run.
fn is_stored(word: &Word) -> bool
    ensures { IsTrue result → IsStored word.now }
{
    matches!(
        word,
        Word::Head { .. }
            | Word::Cell { .. }
            | Word::Order(_)
            | Word::State(_)
            | Word::Count(_)
            | Word::Entry { .. }
    )
}

fn looks_at(word: Word, found: &[Found], step: &Step) -> bool
    ensures { IsTrue result → LooksAt word found.now step.now }
{
    match step {
        Step::Look(looked) => found.is_empty() && *looked == word,
        _ => false,
    }
}

fn takes_alone(found: &[Found], step: &Step) -> bool
    ensures { IsTrue result → TakesAlone found.now step.now }
{
    found.is_empty() && matches!(step, Step::EnterExclusive)
}

fn takes_shared(found: &[Found], step: &Step) -> bool
    ensures { IsTrue result → TakesShared found.now step.now }
{
    match found {
        [] => matches!(step, Step::Look(Word::Lock)),
        [lock] => match step {
            Step::EnterShared(holders) => *holders == found_word(lock),
            _ => false,
        },
        _ => false,
    }
}

fn enters(deal: &AnyDeal, found: &[Found], step: &Step) -> bool
    ensures { IsTrue result → Enters deal.now found.now step.now }
{
    match deal {
        AnyDeal::Plain(Deal::Batch { .. }) | AnyDeal::BatchIf { .. } => takes_alone(found, step),
        _ => takes_shared(found, step),
    }
}

fn leaves(deal: &AnyDeal, found: &[Found], step: &Step) -> bool
    ensures { IsTrue result → Leaves deal.now found.now step.now }
{
    match deal {
        AnyDeal::Plain(Deal::Batch { .. }) | AnyDeal::BatchIf { .. } => {
            found.is_empty() && matches!(step, Step::LeaveExclusive)
        }
        _ => found.is_empty() && matches!(step, Step::LeaveShared),
    }
}

fn pins(found: &[Found], step: &Step) -> bool
    ensures { IsTrue result → Pins found.now step.now }
{
    match found {
        [] => matches!(step, Step::Pin),
        [_] => matches!(step, Step::Look(Word::Merged)),
        _ => false,
    }
}

fn notes_clock(found: &[Found], step: &Step) -> bool
    ensures { IsTrue result → NotesClock found.now step.now }
{
    match found {
        [] => matches!(step, Step::Look(Word::Clock)),
        [clock] => match step {
            Step::Note(time) => *time == found_word(clock),
            _ => false,
        },
        _ => false,
    }
}

fn settles_time(place: &Place, time: Time, found: &[Found], step: &Step) -> bool
    ensures { IsTrue result → SettlesTime place.now time found.now step.now }
{
    match step {
        Step::Look(word) => is_stored(word),
        Step::Cancel(cancelled) => *cancelled == time || place.drawn == Some(*cancelled),
        Step::RaiseFront(until) => {
            found.is_empty() && *until == place.drawn.unwrap_or(place.time)
        }
        _ => false,
    }
}

fn answers_read(step: &Step) -> bool
    ensures { IsTrue result → AnswersRead step.now }
{
    match step {
        Step::Look(word) => is_stored(word),
        Step::Unpin(End::Recorded(_)) => true,
        _ => false,
    }
}

fn draws_clock(found: &[Found], step: &Step) -> bool
    ensures { IsTrue result → DrawsClock found.now step.now }
{
    match found {
        [] => matches!(step, Step::Look(Word::Limit)),
        [_] => matches!(step, Step::Look(Word::Clock)),
        [limit, clock] => match step {
            Step::Draw(time) => *time == found_word(clock) && *time < found_word(limit),
            _ => false,
        },
        _ => false,
    }
}

fn finds_times(found: &[Found], step: &Step) -> bool
    ensures { IsTrue result → FindsTimes found.now step.now }
{
    match found {
        [] => matches!(step, Step::Look(Word::Limit)),
        [_] => matches!(step, Step::Look(Word::Clock)),
        _ => false,
    }
}

/// Whether the call is a batch with conditions that has members.
fn may_write(deal: &AnyDeal) -> bool
    ensures { IsTrue result → MayWriteIf deal.now }
{
    match deal {
        AnyDeal::BatchIf { members, .. } => !members.is_empty(),
        AnyDeal::Plain(_) => false,
    }
}

fn tests_conditions(deal: &AnyDeal, step: &Step) -> bool
    ensures { IsTrue result → TestsConditions deal.now step.now }
{
    match step {
        Step::Look(word) => is_stored(word),
        Step::Unpin(End::Neither) => may_write(deal),
        Step::Unpin(End::Meeting) => true,
        _ => false,
    }
}

fn fills_cell(drawn: Option<Time>, found: &[Found], step: &Step) -> bool
    ensures { IsTrue result → FillsCell drawn found.now step.now }
{
    match found {
        [] => match step {
            Step::Fill(Part::Key, _) => true,
            Step::Stage(time, _) => *time == drawn.unwrap_or(0),
            _ => false,
        },
        [_] => matches!(step, Step::Fill(Part::Length, _)),
        [_, _, before @ ..] => match step {
            Step::Fill(Part::Value(index), _) => *index == before.len() as u64,
            _ => false,
        },
    }
}

fn links_cell(found: &[Found], step: &Step) -> bool
    ensures { IsTrue result → LinksCell found.now step.now }
{
    match found {
        [] => matches!(step, Step::Look(Word::Head { .. })),
        [head] => match step {
            Step::Fill(Part::Next, next) => *next == found_word(head),
            _ => false,
        },
        [head, _] => match step {
            Step::Link(from) => *from == found_word(head),
            _ => false,
        },
        _ => false,
    }
}

fn inserts_cell(step: &Step) -> bool
    ensures { IsTrue result → InsertsCell step.now }
{
    matches!(
        step,
        Step::Look(
            Word::Order(_)
                | Word::Cell {
                    part: Part::Key,
                    ..
                }
        ) | Step::FillOrder(_)
            | Step::Insert(..)
    )
}

fn decides_time(drawn: Option<Time>, found: &[Found], step: &Step) -> bool
    ensures { IsTrue result → DecidesTime drawn found.now step.now }
{
    match step {
        Step::Decide(time, _) => found.is_empty() && *time == drawn.unwrap_or(0),
        _ => false,
    }
}

fn commits_batch(found: &[Found], step: &Step) -> bool
    ensures { IsTrue result → CommitsBatch found.now step.now }
{
    found.is_empty() && matches!(step, Step::Commit(_))
}

fn ends_read(found: &[Found], step: &Step) -> bool
    ensures { IsTrue result → EndsRead found.now step.now }
{
    found.is_empty() && matches!(step, Step::Unpin(End::Neither))
}

fn closes_snapshot(found: &[Found], step: &Step) -> bool
    ensures { IsTrue result → ClosesSnapshot found.now step.now }
{
    found.is_empty() && matches!(step, Step::CloseSnapshot)
}

/// Whether the step comes next in this part of the call.
pub(crate) fn is_next_in(deal: &AnyDeal, place: &Place, found: &[Found], step: &Step) -> bool
    ensures { IsTrue result → IsNextIn place.now.stage deal.now place.now found.now step.now }
{
    match place.stage {
        Stage::Enter => enters(deal, found, step),
        Stage::Begin => pins(found, step),
        Stage::Note => notes_clock(found, step),
        Stage::ReadClock => looks_at(Word::Clock, found, step),
        Stage::Front => looks_at(Word::Front, found, step),
        Stage::Settle(time) => settles_time(place, time, found, step),
        Stage::Answer => answers_read(step),
        Stage::Draw => draws_clock(found, step),
        Stage::Times => finds_times(found, step),
        Stage::Test => tests_conditions(deal, step),
        Stage::Fill => fills_cell(place.drawn, found, step),
        Stage::Link => links_cell(found, step),
        Stage::Insert(_) => inserts_cell(step),
        Stage::Decide => decides_time(place.drawn, found, step),
        Stage::Commit => commits_batch(found, step),
        Stage::Unpin => ends_read(found, step),
        Stage::Leave => leaves(deal, found, step),
        Stage::Close => closes_snapshot(found, step),
        Stage::Over => false,
    }
}

fn freezes_epoch(found: &[Found], step: &Step) -> bool
    ensures { IsTrue result → FreezesEpoch found.now step.now }
{
    match found {
        [] => matches!(step, Step::Look(Word::Clock)),
        [clock, padded @ ..] => match step {
            Step::Pad(time) => { found_word(clock).checked_add(padded.len() as u64) == Some(*time) }
            Step::ExtendClock | Step::ExtendLimit | Step::LeaveExclusive => true,
            _ => false,
        },
    }
}

fn takes_floor(found: &[Found], step: &Step) -> bool
    ensures { IsTrue result → TakesFloor found.now step.now }
{
    match step {
        Step::Look(Word::Snap(seat)) => *seat == found.len() as u64,
        _ => false,
    }
}

fn writes_run(step: &Step) -> bool
    ensures { IsTrue result → WritesRun step.now }
{
    match step {
        Step::Look(word) => is_stored(word),
        Step::WriteRun(word, _) => is_stored(word),
        Step::Publish => true,
        _ => false,
    }
}

fn clears_region(step: &Step) -> bool
    ensures { IsTrue result → ClearsRegion step.now }
{
    matches!(
        step,
        Step::ClearHead { .. }
            | Step::ClearOrder(_)
            | Step::Look(Word::State(_))
            | Step::ClearState(_)
    )
}

/// Whether the step comes next in this part of the merger's calls.
pub(crate) fn is_next_in_merge(stage: MergeStage, found: &[Found], step: &Step) -> bool
    ensures { IsTrue result → IsNextInMerge stage found.now step.now }
{
    match stage {
        MergeStage::Enter => takes_alone(found, step),
        MergeStage::Freeze => freezes_epoch(found, step),
        MergeStage::Floor => takes_floor(found, step),
        MergeStage::Write(_) => writes_run(step),
        MergeStage::Quiet(seat) => looks_at(Word::Pin(seat), found, step),
        MergeStage::Clear => clears_region(step),
        MergeStage::Over => false,
    }
}
