//! The drawn cell: whether the parts that the seat filled say a write.
ghost use Rattle.std.specs.Prelude.{◌≡◌, ◌↔◌, ◌≤◌, EachIndex, IsTrue, length, map, take, slice_index, slice_index_or};
ghost use Rattle.clsm_law.specs.Views.{IsShort, SaysWrite, is_all_some, length_of, own_line, words_of};

use crate::words::own_line;
use clsm_law::{Layout, View};
use clsm_model::{Slot, Value};

/// The last look at the head of the drawn cell's chain, while it is fresh.
pub(crate) fn fresh_head(layout: &Layout, view: &View) -> Option<u64>
    ensures { result ≡ slice_index_or view.now.fresh_heads (own_line layout.now view.now) None }
{
    let heads = view.fresh_heads.as_slice();
    heads.get(own_line(layout, view)).copied().unwrap_or(None)
}

pub(crate) fn is_all_some(words: &[Option<u64>]) -> bool
    ensures { result ≡ is_all_some words.now }
{
    words.iter().all(|word| word.is_some())
}

fn word_at(written: &[u64], place: usize) -> u64
    ensures { result ≡ slice_index written.now place }
{
    written.get(place).copied().unwrap_or(0)
}

fn is_each_said(words: &[Option<u64>], written: &[u64]) -> bool
    ensures { IsTrue result ↔ EachIndex words.now (λ i. slice_index_or words.now i None ≡ Some (slice_index written.now i)) }
{
    words
        .iter()
        .enumerate()
        .all(|(place, word)| *word == Some(word_at(written, place)))
}

/// Whether the first words of a cell are these.
fn says_words(words: &[Option<u64>], written: &[u64]) -> bool
    ensures { IsTrue result ↔ (take (length written.now) words.now ≡ map (λ w. Some w) written.now) }
{
    written.len() <= words.len() && is_each_said(&words[..written.len()], written)
}

fn says_value(view: &View, value: Option<Value>) -> bool
    ensures { IsTrue result ↔ ((view.now.length ≡ Some (length_of value)) × (take (length_of value) view.now.words ≡ map (λ w. Some w) (words_of value))
        × IsShort value) }
{
    let words = view.words.as_slice();
    match value {
        None => view.length == Some(0) && says_words(words, &[]),
        Some(value) => {
            let written = value.words();
            view.length == Some(written.len() as u64) && says_words(words, written)
        }
    }
}

/// Whether the parts that the seat filled say this write.
pub(crate) fn says_write(view: &View, write: Option<Slot>) -> bool
    ensures { IsTrue result ↔ SaysWrite view.now write }
{
    match write {
        Some(Slot::Wrote { key, value, .. }) => view.key == Some(key) && says_value(view, value),
        _ => false,
    }
}
