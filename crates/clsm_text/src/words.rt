//! Seats, answers and rows, read from words.
ghost use Rattle.std.specs.Prelude.{◌≡◌, ◌≢◌, ℕ, List, [], ◌∷◌, ◌++◌, codes, IfOk, IfSome, IfNone};
ghost use Rattle.clsm_text.specs.Line.{texts_of};
ghost use Rattle.clsm_text.specs.Found.{Finds};
ghost use Rattle.clsm_text.specs.Record.{WritesSeat, WritesReply};
ghost use Rattle.clsm_text.specs.Record.{WritesRow, WriteRows, WritePage};

use crate::number::{parse_number, parse_value};
use clsm_model::{Rows, Value};
use std::alloc::{AllocError, Global};

/// The seat that a text writes. A number past 32 bits stands for the greatest seat.
pub fn parse_seat(text: &str) -> Option<u32>
    ensures { Finds (WritesSeat text.now) result }
{
    let number = parse_number(text)?;
    Some(u32::try_from(number).unwrap_or(u32::MAX))
}

/// The value that a text writes, or `Some(None)` at `none`.
pub fn parse_reply(text: &str) -> Option<Option<Value>>
    ensures { Finds (WritesReply text.now) result }
{
    if text == "none" {
        return Some(None);
    }
    let value = parse_value(text)?;
    Some(Some(value))
}

/// The row that a text writes: a key, `=`, and a value.
fn parse_row(text: &str) -> Option<(u64, Value)>
    ensures { Finds (WritesRow text.now) result }
{
    let Some((key, value)) = text.split_once('=') else {
        return None;
    };
    let key = parse_number(key)?;
    let value = parse_value(value)?;
    Some((key, value))
}

/// The rows that words write, one each. Refused if memory runs out.
#[tactic(auto, using(crate::proofs::Readings::written_more))]
pub fn parse_rows(alloc: Global, words: &[&str]) -> Result<Option<Rows>, AllocError>
    ensures { IfOk result (Finds (WriteRows (texts_of words.now))) }
{
    let mut rows = Vec::new(alloc);
    for word in words {
        let Some(row) = parse_row(word) else {
            return Ok(None);
        };
        rows.push(row)?;
    }
    Ok(Some(Rows::new(rows)))
}

/// The rows that words write, one each, and the key behind a `more` that follows them. Refused if
/// memory runs out.
pub fn parse_page_rows(
    alloc: Global,
    words: &[&str],
) -> Result<Option<(Rows, Option<u64>)>, AllocError>
    ensures { IfOk result (Finds (λ page. WritePage (texts_of words.now) page.0 page.1)) }
{
    let Some((rows, key)) = split_more(words) else {
        let Some(rows) = parse_rows(alloc, words)? else {
            return Ok(None);
        };
        return Ok(Some((rows, None)));
    };
    let Some(key) = parse_number(key) else {
        return Ok(None);
    };
    let Some(rows) = parse_rows(alloc, rows)? else {
        return Ok(None);
    };
    Ok(Some((rows, Some(key))))
}

/// The words before a `more` that is the last word but one, and the word behind it.
fn split_more<'a>(words: &'a [&'a str]) -> Option<(&'a [&'a str], &'a str)>
    ensures found { IfSome result (λ parts.
        texts_of words.now ≡ texts_of parts.0.now ++ (codes "more" ∷ parts.1.now ∷ [])) }
    ensures none { IfNone result ((front : List (List ℕ)) (key : List ℕ) →
        texts_of words.now ≢ front ++ (codes "more" ∷ key ∷ [])) }
{
    if words.len() < 2 {
        return None;
    }
    let place = words.len() - 2;
    if words[place] != "more" {
        return None;
    }
    Some((&words[..place], words[place + 1]))
}
