//! Lines, read from an input one by one, in bounded memory.
ghost use Rattle.std.specs.Prelude.{◌≡◌, ◌≢◌, ◌↔◌, ◌≤◌, [], IsTrue, false, true, vec_len};
ghost use Rattle.std.specs.Prelude.{IfSome, IfOk, IfErr, OnOk};
ghost use Rattle.clsm_text.specs.Failure.{IsOutside};
ghost use Rattle.clsm_text.specs.Input.{BeginsWithLine, TakesPart};
ghost use Rattle.clsm_text.specs.Line.{words_of, IsComment};
ghost use Rattle.clsm_text.specs.Taken.{IsShortened, TakesLine, TakesSpaces};

use crate::failure::Failure;
use crate::line::{LONGEST_LINE, first_said};
use memchr::memchr;
use std::io::{BufRead, ErrorKind};

/// What was taken of a line at a time.
#[derive(Clone, Copy)]
pub(crate) enum Part {
    /// Bytes of it, or none where a read was interrupted.
    Some,
    /// The rest of it, with its line feed.
    Last,
    /// Nothing: the input has ended.
    None,
}

/// Reads the next line of an input into `line`, without its line feed, and answers whether there
/// was one: an input that ends begins no line. Of a line that is longer than 4,096 bytes and says
/// nothing (`plain_words`), a shorter one that says nothing is kept, and all of it is read. Any
/// other that is so long is cut after 4,097 bytes, of which spaces at its front may be left out, and
/// the rest of it is left. After a failure part of the line may have been read.
pub fn read_line<R: BufRead>(reader: &mut R, line: &mut Vec<u8>) -> Result<bool, Failure>
    ensures bound { OnOk result (vec_len line.new ≤ 4097) }
    ensures found { IfOk result (λ found. IfSome (R.remaining reader.old)
        (λ bytes. IsTrue found ↔ (bytes ≢ []))) }
    ensures takes { OnOk result (IfSome (R.remaining reader.old)
        (λ bytes. TakesLine bytes line.new.items (R.remaining reader.new))) }
    ensures failed { IfErr result IsOutside }
{
    line.clear();
    for _ in 0..u64::MAX {
        match take_part(reader, line)? {
            Part::Some => {
                if line.len() > LONGEST_LINE {
                    if !shorten(line) {
                        return Ok(true);
                    }
                    skip_spaces(reader)?;
                }
            }
            Part::Last => return Ok(true),
            Part::None => return Ok(!line.is_empty()),
        }
    }
    Err(Failure::Device)
}

/// Makes room in what is kept of a line that is too long, if that says nothing so far, and answers
/// whether it does: of a comment its sign is kept, and of spaces as many as a line may have.
fn shorten(line: &mut Vec<u8>) -> bool
    requires { vec_len line.old ≡ 4097 }
    ensures told { IsTrue result ↔ IsComment (words_of line.old.items) }
    ensures kept { result ≡ false → line.new.items ≡ line.old.items }
    ensures room { result ≡ true → vec_len line.new ≤ 4096 }
    ensures shortened { result ≡ true → IsShortened line.old.items line.new.items }
{
    match first_said(line) {
        None => {
            line.truncate(LONGEST_LINE);
            true
        }
        Some(b'#') => {
            line.truncate(1);
            line[0] = b'#';
            true
        }
        Some(_) => false,
    }
}

/// Takes what the input has at hand, or waits for some of it, if that is spaces, and keeps none.
fn skip_spaces<R: BufRead>(reader: &mut R) -> Result<(), Failure>
    ensures skips { OnOk result (TakesSpaces (R.remaining reader.old) (R.remaining reader.new)) }
    ensures failed { IfErr result IsOutside }
{
    let available = match reader.fill_buf() {
        Ok(available) => available,
        Err(error) if error.kind() == ErrorKind::Interrupted => return Ok(()),
        Err(_) => return Err(Failure::Device),
    };
    if first_said(available).is_some() {
        return Ok(());
    }
    let spaces = available.len();
    reader.consume(spaces);
    Ok(())
}

/// The line that stands at the beginning of the bytes, if its line feed is among them and it is no
/// longer than 4,096 bytes.
#[inline]
pub fn line_at_hand(bytes: &[u8]) -> Option<&[u8]>
    ensures { IfSome result (λ line. BeginsWithLine bytes.now line.now) }
{
    let near = &bytes[..bytes.len().min(LONGEST_LINE + 1)];
    let end = memchr(b'\n', near)?;
    Some(&near[..end])
}

/// Takes what the input has at hand of a line, the rest of which is in `line`, or waits for some.
/// No more than 4,097 bytes are taken of a line.
fn take_part<R: BufRead>(reader: &mut R, line: &mut Vec<u8>) -> Result<Part, Failure>
    requires { vec_len line.old ≤ 4096 }
    ensures bound { OnOk result (vec_len line.new ≤ 4097) }
    ensures takes { IfOk result (TakesPart (R.remaining reader.old) (R.remaining reader.new)
        line.old.items line.new.items) }
    ensures failed { IfErr result IsOutside }
{
    let available = match reader.fill_buf() {
        Ok(available) => available,
        Err(error) if error.kind() == ErrorKind::Interrupted => return Ok(Part::Some),
        Err(_) => return Err(Failure::Device),
    };
    if available.is_empty() {
        return Ok(Part::None);
    }
    let room = LONGEST_LINE + 1 - line.len();
    let near = &available[..available.len().min(room)];
    match near.iter().position(|byte| *byte == b'\n') {
        Some(end) => {
            line.extend_from_slice(&near[..end])?;
            reader.consume(end + 1);
            Ok(Part::Last)
        }
        None => {
            line.extend_from_slice(near)?;
            let taken = near.len();
            reader.consume(taken);
            Ok(Part::Some)
        }
    }
}
