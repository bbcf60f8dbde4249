//! Scans and pages at the words: one read of many keys, at one time.
ghost use Rattle.std.specs.Prelude.{◌≡◌, ℕ, [], List, Option, IfErr, IfOk, None, Some};
ghost use Rattle.clsm_model.specs.{History.plain, Right.Reads};
ghost use Rattle.clsm_model.specs.declared.record.Deed.TheVariants.{Get};
ghost use Rattle.clsm_law.specs.declared.step.End.TheVariants.{Recorded};
ghost use Rattle.clsm_law.specs.{OpenSteps.open_time, Views.next_word};
ghost use Rattle.clsm_words.specs.{Keeping.Looks, Plays.IsSeatOf};
ghost use Rattle.clsm_store_calls.specs.{Reading.MayReadBelow, Reading.ReadsAt, Resting.RestsAt, Snapshots.ReadsUnder};
ghost use Rattle.clsm_store_calls.specs.Scanning.{GivesUpRead, rows_deed};

use crate::got::{Collected, Got};
use crate::reading::{begin, end_of, value_below};
use crate::snapshotting::{OpenSnapshot, begin_under};
use clsm_law::End;
use clsm_pins::unpin;
use clsm_scan::{Bounds, Collector, ReadPoint, scan};
use clsm_words::{Ending, Pace, RawSeat, Words};

/// The end of a read that collected these rows: with its record.
#[derive(Drop)]
struct RowsEnd<'a, R> {
    bounds: Bounds,
    rows: &'a R,
    more: Option<u64>,
}

impl<R: Collector> Ending for RowsEnd<'_, R> {
    ghost end = { λ e. Recorded (rows_deed (R.most e.rows.now) e.bounds.lo e.bounds.hi (R.rows e.rows.now) e.more) };
}

/// Collects the rows within the bounds at the point, and answers the key of the first one that is
/// left out, if one is. Its time is not below what is merged into its component, or it is that of
/// the seat's open snapshot.
pub(crate) fn rows_below<P: Pace, R: Collector>(
    words: &Words<P>,
    seat: &mut RawSeat,
    point: ReadPoint,
    bounds: Bounds,
    rows: &mut R,
) -> Result<Option<u64>, R::Refusal>
    requires of { IsSeatOf words.now seat.old }
    requires may { MayReadBelow seat.old.knows point.component point.until }
    requires ready { R.is_ready rows.old }
    requires none { R.rows rows.old ≡ [] }
    ensures of { IsSeatOf words.now seat.new }
    ensures looks { Looks seat.old.knows seat.new.knows }
    ensures ready { R.is_ready rows.new }
    ensures most { R.most rows.new ≡ R.most rows.old }
    ensures goes_on { R.goes_on rows.old rows.new }
    ensures reads { IfOk result (λ more. Reads (plain seat.old.knows.past) point.until
        (rows_deed (R.most rows.new) bounds.lo bounds.hi (R.rows rows.new) more)) }
{
    seat.show_invariant();
    scan(words, seat, point, bounds, rows)
}

/// Collects the rows within the bounds, at a time of the read's own, where no snapshot is open.
pub fn scan_at<P: Pace, R: Collector>(
    words: &Words<P>,
    seat: &mut RawSeat,
    pin_word: u64,
    bounds: Bounds,
    rows: &mut R,
) -> Result<Collected, R::Refusal>
    requires rests { RestsAt words.now seat.old pin_word }
    requires closed { open_time seat.old.knows.view.snapshot ≡ None }
    requires ready { R.is_ready rows.old }
    requires none { R.rows rows.old ≡ [] }
    ensures rests { RestsAt words.now seat.new (next_word (next_word pin_word)) }
    ensures ready { R.is_ready rows.new }
    ensures most { R.most rows.new ≡ R.most rows.old }
    ensures goes_on { R.goes_on rows.old rows.new }
    ensures reads { IfOk result (λ read. ReadsAt seat.old.knows seat.new.knows read.time
        (rows_deed (R.most rows.new) bounds.lo bounds.hi (R.rows rows.new) read.more)) }
    ensures given_up { IfErr result (λ refusal. GivesUpRead seat.old.knows seat.new.knows) }
{
    let point = begin(words, seat, pin_word);
    let pin_word = pin_word.wrapping_add(1);
    match rows_below(words, seat, point, bounds, rows) {
        Ok(more) => {
            let end = RowsEnd {
                bounds,
                rows: &*rows,
                more,
            };
            unpin(words, seat, pin_word, &end);
            let time = point.until;
            Ok(Collected { time, more })
        }
        Err(refusal) => {
            unpin(words, seat, pin_word, &End::Neither);
            Err(refusal)
        }
    }
}

/// Collects the rows within the bounds, at the time of the open snapshot.
pub fn scan_under<P: Pace, R: Collector>(
    words: &Words<P>,
    seat: &mut RawSeat,
    snapshot: OpenSnapshot,
    bounds: Bounds,
    rows: &mut R,
) -> Result<Collected, R::Refusal>
    requires rests { RestsAt words.now seat.old snapshot.pin_word }
    requires opened { open_time seat.old.knows.view.snapshot ≡ Some snapshot.time }
    requires ready { R.is_ready rows.old }
    requires none { R.rows rows.old ≡ [] }
    ensures rests { RestsAt words.now seat.new (next_word (next_word snapshot.pin_word)) }
    ensures ready { R.is_ready rows.new }
    ensures most { R.most rows.new ≡ R.most rows.old }
    ensures goes_on { R.goes_on rows.old rows.new }
    ensures time { IfOk result (λ read. read.time ≡ snapshot.time) }
    ensures reads { IfOk result (λ read. ReadsUnder seat.old.knows seat.new.knows snapshot.time
        (rows_deed (R.most rows.new) bounds.lo bounds.hi (R.rows rows.new) read.more)) }
    ensures given_up { IfErr result (λ refusal. GivesUpRead seat.old.knows seat.new.knows) }
{
    let point = begin_under(words, seat, snapshot);
    let pin_word = snapshot.pin_word.wrapping_add(1);
    match rows_below(words, seat, point, bounds, rows) {
        Ok(more) => {
            let end = RowsEnd {
                bounds,
                rows: &*rows,
                more,
            };
            unpin(words, seat, pin_word, &end);
            let time = snapshot.time;
            Ok(Collected { time, more })
        }
        Err(refusal) => {
            unpin(words, seat, pin_word, &End::Neither);
            Err(refusal)
        }
    }
}

/// Collects the rows within the bounds, at a time of the read's own, whether or not a snapshot is
/// open. It is recorded as a read of the first key.
pub fn scan_now<P: Pace, R: Collector>(
    words: &Words<P>,
    seat: &mut RawSeat,
    pin_word: u64,
    bounds: Bounds,
    rows: &mut R,
) -> Result<Collected, R::Refusal>
    requires rests { RestsAt words.now seat.old pin_word }
    requires ready { R.is_ready rows.old }
    requires none { R.rows rows.old ≡ [] }
    ensures rests { RestsAt words.now seat.new (next_word (next_word pin_word)) }
    ensures most { R.most rows.new ≡ R.most rows.old }
    ensures reads { IfOk result (λ read. (reply : Option (List ℕ)) × ReadsAt seat.old.knows seat.new.knows read.time (Get bounds.lo reply)) }
    ensures rows { IfOk result (λ read. Reads (plain seat.new.knows.past) read.time
        (rows_deed (R.most rows.new) bounds.lo bounds.hi (R.rows rows.new) read.more)) }
    ensures given_up { IfErr result (λ refusal. GivesUpRead seat.old.knows seat.new.knows) }
{
    let point = begin(words, seat, pin_word);
    let (key, time) = (bounds.lo, point.until);
    let value = value_below(words, seat, point, key);
    let read = rows_below(words, seat, point, bounds, rows);
    let pin_word = pin_word.wrapping_add(1);
    match read {
        Ok(more) => {
            unpin(words, seat, pin_word, &end_of(key, &Got { time, value }));
            Ok(Collected { time, more })
        }
        Err(refusal) => {
            unpin(words, seat, pin_word, &End::Neither);
            Err(refusal)
        }
    }
}
