//! What a line says: its words, or nothing.
ghost use Rattle.std.specs.Prelude.{◌≡◌, ◌↔◌, Err, IfOk, IfSome, IsTrue};
ghost use Rattle.std.specs.Str.{IsUtf8};
ghost use Rattle.clsm_text.specs.Line.{texts_of, words_of, IsComment, IsText, SaysWords};
ghost use Rattle.clsm_text.specs.Taken as spec;
ghost use Rattle.clsm_text.specs.declared.line.LineError.TheVariants.{Bad};

use crate::failure::Failure;
use smallvec::SmallVec;
use std::alloc::{AllocError, Global};

/// The greatest length of a line in bytes, without its line feed.
pub const LONGEST_LINE: usize = 4096;

/// The words of a line. Up to eight of them need no allocation.
pub type Words<'a> = SmallVec<&'a str, 8>;

/// Why a line is not read.
#[derive(Clone, Copy, Debug, PartialEq, Eq)]
pub enum LineError {
    /// It is too long, or no text, or says nothing that the program knows.
    Bad,
    Memory,
}

impl LineError {
    ghost use Rattle.clsm_text.specs.Failure.{failure_at};

    /// Why the program fails at the line of this number.
    pub fn at(self, number: u64) -> Failure
        ensures { result ≡ failure_at number self }
    {
        match self {
            LineError::Bad => Failure::BadLine(number),
            LineError::Memory => Failure::Memory,
        }
    }
}

impl From<AllocError> for LineError {
    ghost use Rattle.clsm_text.specs.declared.line.LineError.TheVariants.{Memory};

    ghost from_gives = { λ _ e. e ≡ Memory };

    fn from(_error: AllocError) -> LineError {
        LineError::Memory
    }
}

/// The words of a line that is given without its line feed; `None` where it says nothing: it has no
/// words, or is a comment, which begins with `#`, however long it is and whatever bytes it has. Any
/// other line is refused as bad where it is longer than 4,096 bytes or is not UTF-8, and otherwise
/// only if memory runs out.
pub fn plain_words(alloc: Global, line: &[u8]) -> Result<Option<Words<'_>>, LineError>
    ensures text { IfOk result (λ said. IfSome said (λ _. IsText line.now)) }
    ensures words { IfOk result (SaysWords line.now) }
    ensures bad { result ≡ Err Bad → (¬ IsComment (words_of line.now)) × (¬ IsText line.now) }
{
    if says_nothing(line) {
        return Ok(None);
    }
    if line.len() > LONGEST_LINE {
        return Err(LineError::Bad);
    }
    line_words(alloc, line)
}

/// The same of a line of any length, which is refused as bad only where it says something and is
/// not UTF-8.
pub fn line_words(alloc: Global, line: &[u8]) -> Result<Option<Words<'_>>, LineError>
    ensures text { IfOk result (λ said. IfSome said (λ _. IsUtf8 line.now)) }
    ensures words { IfOk result (SaysWords line.now) }
    ensures bad { result ≡ Err Bad → (¬ IsComment (words_of line.now)) × (¬ IsUtf8 line.now) }
{
    if says_nothing(line) {
        return Ok(None);
    }
    let Ok(text) = std::str::from_utf8(line) else {
        return Err(LineError::Bad);
    };
    let words = split_words(alloc, text)?;
    Ok(Some(words))
}

/// Whether a line says nothing: it has no byte but spaces, or the first other one is `#`.
fn says_nothing(line: &[u8]) -> bool
    ensures { IsTrue result ↔ IsComment (words_of line.now) }
{
    match first_said(line) {
        None => true,
        Some(b'#') => true,
        Some(_) => false,
    }
}

/// The first byte of a line that is no space.
pub(crate) fn first_said(line: &[u8]) -> Option<u8>
    ensures { result ≡ spec.first_said line.now }
{
    line.iter().copied().find(|byte| *byte != b' ')
}

/// The words of a line, which one or more spaces separate. Refused if memory runs out.
pub fn split_words(alloc: Global, line: &str) -> Result<Words<'_>, AllocError>
    ensures { IfOk result (λ words. texts_of words.items ≡ words_of line.now) }
{
    line.split(' ')
        .filter(|word| !word.is_empty())
        .collect(alloc)
}
