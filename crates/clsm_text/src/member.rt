//! The members of a batch, as they are written.
ghost use Rattle.std.specs.Prelude.{IfOk};
ghost use Rattle.clsm_text.specs.Found.{Finds};
ghost use Rattle.clsm_text.specs.Line.{texts_of};
ghost use Rattle.clsm_text.specs.Member.{WritesChange, WritesMember, WriteMembers};

use crate::number::{parse_number, parse_value};
use clsm_model::{Change, Members};
use std::alloc::{AllocError, Global};

/// The change that a text writes: `keep`, a value of one to eight words, or `none` for a removal;
/// `None` for any other text.
pub fn parse_change(text: &str) -> Option<Change>
    ensures { Finds (WritesChange text.now) result }
{
    match text {
        "keep" => Some(Change::Keep),
        "none" => Some(Change::Remove),
        _ => Some(Change::Set(parse_value(text)?)),
    }
}

/// The member of a batch that a text writes: its key, `=`, and a change; `None` for any other text.
pub fn parse_member(text: &str) -> Option<(u64, Change)>
    ensures { Finds (WritesMember text.now) result }
{
    let Some((key, change)) = text.split_once('=') else {
        return None;
    };
    let key = parse_number(key)?;
    let change = parse_change(change)?;
    Some((key, change))
}

/// The members that words write, one each; `None` if a word is not a member. Refused if memory
/// runs out.
#[tactic(auto, using(crate::proofs::Readings::written_more))]
pub fn parse_members(alloc: Global, words: &[&str]) -> Result<Option<Members>, AllocError>
    ensures { IfOk result (Finds (WriteMembers (texts_of words.now))) }
{
    let mut members = Vec::new(alloc);
    for word in words {
        let Some(member) = parse_member(word) else {
            return Ok(None);
        };
        members.push(member)?;
    }
    Ok(Some(Members::new(members)))
}
