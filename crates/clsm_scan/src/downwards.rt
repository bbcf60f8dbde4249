//! The rows of a range of keys in a held component, by falling key.
//!
//! An epoch's list leads upwards alone. So the range is read in windows, the uppermost first: each
//! by a scan upwards, and its few rows are handed on from the last to the first.
ghost use Rattle.std.specs.Prelude.{◌≡◌, ◌+◌, ◌≤◌, ◌<◌, ◌++◌, ◌∷◌, [], Some, length, map, take};
ghost use Rattle.clsm_words.specs.Keeping.{LooksAside};
ghost use Rattle.clsm_words.specs.Plays.{IsSeatOf};
ghost use Rattle.clsm_scan.specs.Collected.{IsCollected, left_at};
ghost use Rattle.clsm_scan.specs.Downwards.{IsCollectedDown, IsHandedDown};
ghost use Rattle.clsm_scan.specs.Filling.{AreFilled, FillsOn};
ghost use Rattle.clsm_scan.specs.Sources.{MayScan, found_in_component};

use crate::collecting::Bounds;
use crate::collector::Filling;
use crate::row::Row;
use crate::scanning::{ReadPoint, scan};
use clsm_model::{Key, Value};
use clsm_words::{Pace, RawSeat, Words};

/// The most rows of a window.
const MOST: usize = 32;

/// Keys of a held component below a time.
#[derive(Clone, Copy)]
struct Span {
    point: ReadPoint,
    bounds: Bounds,
}

/// What was read of a window: how many rows, and the key of the first that was left out, if one
/// was.
#[derive(Clone, Copy)]
struct Window {
    count: usize,
    more: Option<u64>,
}

/// What is left of a range, whose keys above `hi` were read.
#[derive(Clone, Copy)]
struct Rest {
    /// The range's least key, and the greatest that is left.
    lo: Key,
    hi: Key,
    /// From here on there are too many rows for a window, if it is above `lo`.
    floor: Key,
    /// So far below `hi` a fair number of rows should begin.
    reach: u64,
    /// So many windows were tried since rows were found last.
    tries: u64,
}

impl Rest {
    /// All of the range.
    fn of(bounds: Bounds) -> Rest
        ensures lo { result.lo ≡ bounds.lo }
        ensures hi { result.hi ≡ bounds.hi }
        ensures floor { result.floor ≡ bounds.lo }
    {
        Rest {
            lo: bounds.lo,
            hi: bounds.hi,
            floor: bounds.lo,
            reach: 0,
            tries: 0,
        }
    }

    /// The key at which the next window begins: first the range's least key, which tells how close
    /// its rows are; then as far down as that makes a fair number of rows. Where that came to
    /// nothing, windows from further down and from further up in turn, by 16 times as far each
    /// time, and then halves of what is left.
    fn next_window(&self) -> u64
        requires left { self.now.floor ≤ self.now.hi }
        ensures from { self.now.floor ≤ result }
        ensures until { result ≤ self.now.hi }
    {
        let left = self.hi - self.floor;
        if self.tries == 0 {
            return self.floor;
        }
        if self.tries == 1 {
            return self.hi - self.reach.min(left);
        }
        let tries = self.tries - 1;
        let reach = self.reach.saturating_mul(1 << ((tries / 2).min(15) * 4));
        if reach >= left / 2 {
            self.floor + left / 2
        } else if tries % 2 == 0 {
            self.hi - reach
        } else {
            self.floor + reach
        }
    }

    /// The window from this key on has more than its few rows, which end before the key `more`.
    fn narrow(&mut self, from: u64, more: u64)
        ensures lo { self.new.lo ≡ self.old.lo }
        ensures hi { self.new.hi ≡ self.old.hi }
        ensures floor { self.new.floor ≡ more }
    {
        let span = more.saturating_sub(from);
        self.reach = span - span / 4;
        self.floor = more;
        self.tries = self.tries.saturating_add(1);
    }

    /// The window from this key on was read, and has so many rows, of the most that it may have.
    fn pass(&mut self, from: u64, window: &Window, most: usize)
        requires above { self.old.lo < from }
        requires floor { self.old.floor ≤ from }
        requires low { self.old.lo ≤ self.old.floor }
        requires within { from ≤ self.old.hi }
        ensures lo { self.new.lo ≡ self.old.lo }
        ensures hi { self.new.hi + 1 ≡ from }
        ensures low { self.new.lo ≤ self.new.floor }
        ensures left { self.new.floor ≤ self.new.hi }
    {
        let wide = self.hi - from;
        self.hi = from - 1;
        if self.floor == from {
            self.floor = self.lo;
        }
        if window.count == 0 {
            self.tries = self.tries.saturating_add(1);
            return;
        }
        self.tries = 1;
        self.reach = if window.count < most / 2 {
            wide.saturating_mul(2).saturating_add(1)
        } else {
            wide
        };
    }
}

impl<R: Row> Filling<'_, R> {
    /// Fills one row more, for which there is room.
    #[inline(always)]
    fn put(&mut self, key: Key, value: Value)
        requires ready { AreFilled R.is_row self.old.rows.now self.old.count }
        requires room { self.old.count < length self.old.rows.now }
        ensures ready { AreFilled R.is_row self.new.rows.now self.new.count }
        ensures goes_on { FillsOn self.old.rows self.old.count self.new.rows self.new.count }
        ensures put { map R.pair (take self.new.count self.new.rows.now) ≡ map R.pair (take self.old.count self.old.rows.now) ++ (key, value) ∷ [] }
    {
        let at = self.count;
        self.rows[at].take(key, value);
        self.count = at + 1;
    }

    /// Fills further rows with those of a window, from its last one to its first, as long as there
    /// is room. Answers the key of the first for which there is none.
    fn hand_down(&mut self, window: &[(u64, Value)]) -> Option<u64>
        requires ready { AreFilled R.is_row self.old.rows.now self.old.count }
        ensures ready { AreFilled R.is_row self.new.rows.now self.new.count }
        ensures goes_on { FillsOn self.old.rows self.old.count self.new.rows self.new.count }
        ensures handed { IsHandedDown window.now (map R.pair (take self.old.count self.old.rows.now))
            (map R.pair (take self.new.count self.new.rows.now)) (length self.old.rows.now) result }
    {
        let mut left = window.len();
        while left > 0 {
            let (key, value) = window[left - 1];
            if self.rows.len() <= self.count {
                return Some(key);
            }
            self.put(key, value);
            left -= 1;
        }
        None
    }
}

/// Reads the rows of the span, or as many of the first as the window has room for.
fn read_window<P: Pace>(
    words: &Words<P>,
    seat: &mut RawSeat,
    span: Span,
    rows: &mut [(u64, Value)],
) -> Window
    requires of { IsSeatOf words.now seat.old }
    requires may { MayScan seat.old.knows span.point.component span.point.until }
    ensures of { IsSeatOf words.now seat.new }
    ensures looks { LooksAside seat.old.knows seat.new.knows }
    ensures same { length rows.new ≡ length rows.old }
    ensures within { result.count ≤ length rows.new }
    ensures window { IsCollected (left_at (found_in_component seat.old.knows span.point.component span.point.until))
        span.bounds.lo span.bounds.hi (Some (length rows.old)) (take result.count rows.new) result.more }
{
    let mut filling = Filling { rows, count: 0 };
    let Ok(more) = scan(words, seat, span.point, span.bounds, &mut filling);
    let count = filling.count;
    Window { count, more }
}

/// Fills the rows with those of the span by falling key, by windows that have room for as many rows
/// as `window`.
fn fill_down<P: Pace, R: Row>(
    words: &Words<P>,
    seat: &mut RawSeat,
    span: Span,
    window: &mut [(u64, Value)],
    filling: &mut Filling<'_, R>,
) -> Option<u64>
    requires of { IsSeatOf words.now seat.old }
    requires may { MayScan seat.old.knows span.point.component span.point.until }
    requires some { span.bounds.lo ≤ span.bounds.hi }
    requires room { 1 ≤ length window.old }
    requires none { filling.old.count ≡ 0 }
    ensures of { IsSeatOf words.now seat.new }
    ensures looks { LooksAside seat.old.knows seat.new.knows }
    ensures ready { AreFilled R.is_row filling.new.rows.now filling.new.count }
    ensures goes_on { FillsOn filling.old.rows 0 filling.new.rows filling.new.count }
    ensures rows { IsCollectedDown (left_at (found_in_component seat.old.knows span.point.component span.point.until))
        span.bounds.lo span.bounds.hi (length filling.old.rows.now) (map R.pair (take filling.new.count filling.new.rows.now)) result }
{
    let mut rest = Rest::of(span.bounds);
    'windows: loop {
        let lo = rest.next_window();
        let bounds = Bounds { lo, hi: rest.hi };
        let read = read_window(words, seat, Span { bounds, ..span }, window);
        if let Some(more) = read.more {
            rest.narrow(lo, more);
            continue;
        }
        if let Some(more) = filling.hand_down(&window[..read.count]) {
            return Some(more);
        }
        if lo == rest.lo {
            return None;
        }
        rest.pass(lo, &read, window.len());
    }
}

/// The most rows that a window has for a page of so many.
fn window_rows(rows: usize) -> usize
    ensures some { 1 ≤ result }
    ensures few { result ≤ 32 }
{
    rows.saturating_mul(2).saturating_add(6).min(MOST)
}

/// Fills the rows, from the first one on, with those of the greatest keys within the bounds at the
/// point, by falling key, as far as there are rows; and answers the key of the next one, if one is
/// left. It takes no memory and never waits.
///
/// It costs some scans: where keys are spread evenly, one of up to 32 rows at the lower end, and
/// then one for each 24 rows of the page. Where they are not, each further one halves the keys
/// among which the greatest is, so there may be 64 and more before the first row.
pub fn scan_down<P: Pace, R: Row>(
    words: &Words<P>,
    seat: &mut RawSeat,
    point: ReadPoint,
    bounds: Bounds,
    filling: &mut Filling<'_, R>,
) -> Option<u64>
    requires of { IsSeatOf words.now seat.old }
    requires may { MayScan seat.old.knows point.component point.until }
    requires none { filling.old.count ≡ 0 }
    ensures of { IsSeatOf words.now seat.new }
    ensures looks { LooksAside seat.old.knows seat.new.knows }
    ensures ready { AreFilled R.is_row filling.new.rows.now filling.new.count }
    ensures goes_on { FillsOn filling.old.rows 0 filling.new.rows filling.new.count }
    ensures rows { IsCollectedDown (left_at (found_in_component seat.old.knows point.component point.until))
        bounds.lo bounds.hi (length filling.old.rows.now) (map R.pair (take filling.new.count filling.new.rows.now)) result }
{
    if bounds.hi < bounds.lo {
        return None;
    }
    let span = Span { point, bounds };
    let mut rows = [(0_u64, Value::from(0)); MOST];
    let most = window_rows(filling.rows.len());
    fill_down(words, seat, span, &mut rows[..most], filling)
}
