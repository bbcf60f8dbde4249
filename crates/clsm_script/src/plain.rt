//! The lines that a script has most of, read where they lie.
ghost use Rattle.std.specs.Prelude.{◌≡◌, ◌++◌, ◌∷◌, codes, IfNone, IfSome};
ghost use Rattle.std.specs.Io.Buffered.{reader_remaining};
ghost use Rattle.clsm_text.specs.Line.{words_of, IsComment, IsText};
ghost use Rattle.clsm_script.specs.Command.{SaysCall};
ghost use Rattle.clsm_script.specs.Line.{TakesCommand};
ghost use Rattle.clsm_script.specs.declared.command.Command.TheVariants.{Call as Makes};

use clsm_model::Value;
use clsm_store::Call;
use clsm_text::{line_at_hand, parse_digits};
use std::io::{BufRead, BufReader, Read};

/// The call of the next line, which is taken then, if the line is plain and all of it is at hand
/// with its line feed; otherwise nothing is taken.
#[inline]
pub fn call_at_hand<R: Read>(reader: &mut BufReader<R>) -> Option<Call>
    ensures taken { IfSome result (λ call. IfSome (reader_remaining R.remaining reader.old)
        (λ bytes. TakesCommand bytes (reader_remaining R.remaining reader.new) (Makes call))) }
    ensures kept { IfNone result (reader.new ≡ reader.old) }
{
    let line = line_at_hand(reader.buffer())?;
    let call = parse_plain(line)?;
    let taken = line.len() + 1;
    reader.consume(taken);
    Some(call)
}

/// The call that a line says, if it is plain: the get of a key or the put of one word, written with
/// one space between each two words; `None` for any other line.
#[inline(always)]
fn parse_plain(line: &[u8]) -> Option<Call>
    ensures { IfSome result (λ call. (¬ IsComment (words_of line.now)) × IsText line.now
        × SaysCall call (words_of line.now)) }
{
    match line {
        [b'p', b'u', b't', b' ', row @ ..] => parse_put(row),
        [b'g', b'e', b't', b' ', key @ ..] => parse_get(key),
        _ => None,
    }
}

/// The put that a line says after its name and a space.
#[inline(always)]
fn parse_put(row: &[u8]) -> Option<Call>
    ensures { IfSome result (λ call. (¬ IsComment (words_of (codes "put" ++ 32 ∷ row.now)))
        × IsText (codes "put" ++ 32 ∷ row.now)
        × SaysCall call (words_of (codes "put" ++ 32 ∷ row.now))) }
{
    let end = row.iter().position(|byte| *byte == b' ')?;
    let key = parse_digits(&row[..end])?;
    let word = parse_digits(&row[end + 1..])?;
    let value = Value::from(word);
    Some(Call::Put { key, value })
}

/// The get that a line says after its name and a space.
#[inline(always)]
fn parse_get(key: &[u8]) -> Option<Call>
    ensures { IfSome result (λ call. (¬ IsComment (words_of (codes "get" ++ 32 ∷ key.now)))
        × IsText (codes "get" ++ 32 ∷ key.now)
        × SaysCall call (words_of (codes "get" ++ 32 ∷ key.now))) }
{
    let key = parse_digits(key)?;
    Some(Call::Get { key })
}
