//! The values of the map: one to eight words each.
ghost use Rattle.std.specs.Prelude.{◌≡◌, ◌≤◌, ◌↔◌, length, IsOk, IfOk};

use std::fmt;
use std::marker::Model;
use thiserror::Error;

/// A value of the map: one to eight words. Contracts see it as the list of its words.
#[derive(Clone, Copy, PartialEq, Eq, Hash, Debug)]
pub struct Value {
    words: [u64; 8],
    count: usize,
}

/// The refusal of `Value::new`: no word, or more than eight.
#[derive(Clone, Copy, Debug, PartialEq, Eq, Error)]
#[error("length")]
pub struct Length;

impl Model for Value {
    ghost use Rattle.std.specs.Prelude.{ℕ, List};

    ghost Value = { List ℕ };

    ghost use Rattle.clsm_model.specs.Value.{padded, IsPadded};
    ghost use Rattle.std.specs.Prelude.{take, length, refl};

    ghost view = { λ v. take v.count v.words };

    ghost invariant = { λ v. IsPadded v.words v.count };

    ghost inverse = { λ words. record { words = padded words; count = length words } };

    ghost inverse_ok = { λ v h. rw (h.zeros, h.counted) refl };
}

impl Value {
    ghost use Rattle.std.specs.Prelude.{slice_index, take};
    ghost use Rattle.clsm_model.specs.Value.{IsPadded};

    /// The value of the first so many of these words, behind which stand zeros.
    #[inline]
    pub fn of_padded(words: [u64; 8], count: usize) -> Value
        requires { IsPadded words count }
        ensures { result ≡ take count words }
    {
        Value { words, count }
    }

    /// The value of these words. It is refused where there is no word, or more than eight.
    pub fn new(words: &[u64]) -> Result<Value, Length>
        ensures taken { IsOk result ↔ ((1 ≤ length words.now) × (length words.now ≤ 8)) }
        ensures words { IfOk result (λ value. value ≡ words.now) }
    {
        if words.is_empty() || words.len() > 8 {
            return Err(Length);
        }
        let mut padded = [0; 8];
        padded[..words.len()].copy_from_slice(words);
        Ok(Value {
            words: padded,
            count: words.len(),
        })
    }

    /// Its words, one to eight.
    pub fn words(&self) -> &[u64]
        ensures words { result.now ≡ self.now }
        ensures some { 1 ≤ length self.now }
        ensures at_most_eight { length self.now ≤ 8 }
    {
        &self.words[..self.count]
    }

    /// Its first word.
    pub fn first(&self) -> u64
        ensures { result ≡ slice_index self.now 0 }
    {
        self.words()[0]
    }
}

impl From<u64> for Value {
    ghost use Rattle.std.specs.Prelude.{[], ◌∷◌};

    ghost from_gives = { λ word value. value ≡ word ∷ [] };

    /// The value of this one word.
    fn from(word: u64) -> Value {
        Value::of_padded([word, 0, 0, 0, 0, 0, 0, 0], 1)
    }
}

impl fmt::Display for Value {
    ghost use Rattle.std.specs.Prelude.{Some};
    ghost use Rattle.clsm_model.specs.Value.{text};

    ghost output = { λ value. Some (text value) };

    /// The words in decimal, joined by commas.
    fn fmt<W: fmt::Write>(&self, f: &mut fmt::Formatter<W>) -> fmt::Result {
        let mut separator = "";
        for word in self.words() {
            write!(f, "{separator}{word}")?;
            separator = ",";
        }
        Ok(())
    }
}
