//! Deeds, read from words. `written.rt` writes them.
ghost use Rattle.std.specs.Prelude.{◌∷◌, codes, IfOk};
ghost use Rattle.clsm_text.specs.Line.{texts_of};
ghost use Rattle.clsm_text.specs.Found.{Finds};
ghost use Rattle.clsm_text.specs.Record.{SayDeed, WriteReading};

use crate::member::{parse_change, parse_members};
use crate::number::{parse_number, parse_value};
use crate::words::{parse_page_rows, parse_reply, parse_rows};
use clsm_model::{Deed, PageRange, Value};
use std::alloc::{AllocError, Global};

/// The deed that words say: its name, and what follows it. Refused if memory runs out.
pub fn parse_deed(alloc: Global, words: &[&str]) -> Result<Option<Deed>, AllocError>
    ensures { IfOk result (Finds (SayDeed (texts_of words.now))) }
{
    let Some((name, words)) = words.split_first() else {
        return Ok(None);
    };
    match *name {
        "put" => Ok(parse_put(words)),
        "remove" => Ok(parse_remove(words)),
        "rmw" => Ok(parse_rmw(words)),
        "get" => Ok(parse_get(words)),
        "snap" => Ok(parse_snap(words)),
        "close" => Ok(parse_close(words)),
        "getat" => Ok(parse_get_at(words)),
        "scan" => parse_scan(alloc, words),
        "page" => parse_page(alloc, words),
        "batch" => parse_batch(alloc, words),
        _ => Ok(None),
    }
}

fn parse_put(words: &[&str]) -> Option<Deed>
    ensures { Finds (SayDeed (codes "put" ∷ texts_of words.now)) result }
{
    let [key, value] = *words else {
        return None;
    };
    let key = parse_number(key)?;
    let value = parse_value(value)?;
    Some(Deed::Put { key, value })
}

fn parse_remove(words: &[&str]) -> Option<Deed>
    ensures { Finds (SayDeed (codes "remove" ∷ texts_of words.now)) result }
{
    let [key] = *words else {
        return None;
    };
    let key = parse_number(key)?;
    Some(Deed::Remove { key })
}

fn parse_rmw(words: &[&str]) -> Option<Deed>
    ensures { Finds (SayDeed (codes "rmw" ∷ texts_of words.now)) result }
{
    let [key, old, change] = *words else {
        return None;
    };
    let key = parse_number(key)?;
    let old = parse_reply(old)?;
    let change = parse_change(change)?;
    Some(Deed::Rmw { key, old, change })
}

fn parse_get(words: &[&str]) -> Option<Deed>
    ensures { Finds (SayDeed (codes "get" ∷ texts_of words.now)) result }
{
    let (key, reply) = parse_reading(words)?;
    Some(Deed::Get { key, reply })
}

/// The key and the answer that the words of a reading say behind its name.
fn parse_reading(words: &[&str]) -> Option<(u64, Option<Value>)>
    ensures { Finds (WriteReading (texts_of words.now)) result }
{
    let [key, reply] = *words else {
        return None;
    };
    let key = parse_number(key)?;
    let reply = parse_reply(reply)?;
    Some((key, reply))
}

fn parse_snap(words: &[&str]) -> Option<Deed>
    ensures { Finds (SayDeed (codes "snap" ∷ texts_of words.now)) result }
{
    let [] = *words else {
        return None;
    };
    Some(Deed::Snapshot)
}

fn parse_close(words: &[&str]) -> Option<Deed>
    ensures { Finds (SayDeed (codes "close" ∷ texts_of words.now)) result }
{
    let [] = *words else {
        return None;
    };
    Some(Deed::Close)
}

fn parse_get_at(words: &[&str]) -> Option<Deed>
    ensures { Finds (SayDeed (codes "getat" ∷ texts_of words.now)) result }
{
    let (key, reply) = parse_reading(words)?;
    Some(Deed::GetAt { key, reply })
}

fn parse_scan(alloc: Global, words: &[&str]) -> Result<Option<Deed>, AllocError>
    ensures { IfOk result (Finds (SayDeed (codes "scan" ∷ texts_of words.now))) }
{
    let [lo, hi, rows @ ..] = words else {
        return Ok(None);
    };
    let (Some(lo), Some(hi)) = (parse_number(lo), parse_number(hi)) else {
        return Ok(None);
    };
    let Some(rows) = parse_rows(alloc, rows)? else {
        return Ok(None);
    };
    Ok(Some(Deed::Scan { lo, hi, rows }))
}

fn parse_page(alloc: Global, words: &[&str]) -> Result<Option<Deed>, AllocError>
    ensures { IfOk result (Finds (SayDeed (codes "page" ∷ texts_of words.now))) }
{
    let [from, hi, max, rows @ ..] = words else {
        return Ok(None);
    };
    let (Some(from), Some(hi), Some(max)) = (
        parse_number(from),
        parse_number(hi),
        parse_number(max),
    ) else {
        return Ok(None);
    };
    let Some((rows, more)) = parse_page_rows(alloc, rows)? else {
        return Ok(None);
    };
    let range = PageRange { from, hi, max };
    Ok(Some(Deed::Page { range, rows, more }))
}

fn parse_batch(alloc: Global, words: &[&str]) -> Result<Option<Deed>, AllocError>
    ensures { IfOk result (Finds (SayDeed (codes "batch" ∷ texts_of words.now))) }
{
    let Some(members) = parse_members(alloc, words)? else {
        return Ok(None);
    };
    Ok(Some(Deed::Batch { members }))
}
