//! What the merger notes of seats while a component is retired.
ghost use Rattle.std.specs.Prelude.{◌≡◌, length, replicate};
ghost use Rattle.clsm_law.specs.Merging.{differs, reader_at, reader_by, unseen};

use crate::beginning::UNSEEN;
use clsm_law::{Items, Reader};

/// Whether a first pin word was noted, and the word is another.
fn differs(first: Option<u64>, found: u64) -> bool
    ensures { result ≡ differs first found }
{
    match first {
        Some(first) => first != found,
        None => false,
    }
}

/// What is known of the seat.
pub(crate) fn reader_at(readers: &Items<Reader>, seat: u64) -> Reader
    ensures { result ≡ reader_at readers.now seat }
{
    readers
        .as_slice()
        .get(seat as usize)
        .copied()
        .unwrap_or(UNSEEN)
}

/// What is known of a seat after a look at its pin word: it is quiet where the word is even, or
/// another than first noted.
pub(crate) fn reader_by(reader: Reader, found: u64) -> Reader
    ensures { result ≡ reader_by reader found }
{
    Reader {
        first_pin: reader.first_pin.or(Some(found)),
        quiet: reader.quiet || found % 2 == 0 || differs(reader.first_pin, found),
        looks: reader.looks.wrapping_add(1),
    }
}

/// Forgets what is known of the seats.
pub(crate) fn forget(readers: &mut Items<Reader>)
    ensures { readers.new ≡ replicate (length readers.old) unseen }
{
    for index in 0..readers.as_slice().len() {
        readers.set(index, UNSEEN);
    }
}
