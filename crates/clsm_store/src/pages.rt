//! The pages of a range, one after another.
ghost use Rattle.std.specs.Prelude.{◌≡◌, Some};
ghost use Rattle.clsm_store.specs.Paging.{at_least_one};
ghost use Rattle.clsm_store.specs.Promises.{GivesNextPage};

use crate::caller::Caller;
use clsm_model::{Key, Memory};
use clsm_store_calls::Page;
use clsm_words::Pace;
use std::alloc::Global;

/// The pages of a range of keys, as far as they are still to be read: the key at which the next one
/// begins, or `None` behind the last one; the last key of the range; and how many pairs a page has
/// at most. With a `max` of 0 no page would have a pair, and the pages of a range that has some
/// would never end; so `new` takes 1 for it.
#[derive(Clone, Copy, PartialEq, Eq, Debug)]
pub struct Pages {
    pub next: Option<u64>,
    pub hi: Key,
    pub max: usize,
}

impl Pages {
    /// All pages of the pairs with `lo <= key <= hi`, each of at most `max` pairs, or of 1 if `max`
    /// is 0.
    pub fn new(lo: Key, hi: Key, max: usize) -> Pages
        ensures next { result.next ≡ Some lo }
        ensures hi { result.hi ≡ hi }
        ensures max { result.max ≡ at_least_one max }
    {
        Pages {
            next: Some(lo),
            hi,
            max: max.max(1),
        }
    }
}

impl<'a, P: Pace> Caller<'a, P> {
    /// The next of the pages, which then stand behind it, or `None`, with nothing done, if all were
    /// read. It reads as `Store::page`, so under an open snapshot all pages are of one map, and
    /// else each is of a time of its own. It takes no lock, never waits and is refused as `scan`:
    /// the pages are as before then, and so the next call reads the same one.
    pub fn next_page(&mut self, alloc: Global, pages: &mut Pages) -> Result<Option<Page>, Memory>
        ensures { GivesNextPage self.old.seat self.new.seat pages.old pages.new result }
    {
        let Some(from) = pages.next else {
            return Ok(None);
        };
        let page = self.page(alloc, from, pages.hi, pages.max)?;
        pages.next = page.more;
        Ok(Some(page))
    }
}
