//! The calls that words ask for.
ghost use Rattle.std.specs.Prelude.{◌∷◌, codes, IfOk};
ghost use Rattle.clsm_script.specs.Command.{SaysCall};
ghost use Rattle.clsm_text.specs.Found.{Finds};
ghost use Rattle.clsm_text.specs.Line.{texts_of};

use clsm_store::Call;
use clsm_text::{parse_deal, parse_members, parse_number, parse_value};
use std::alloc::{AllocError, Global};

/// The call that words ask for: one that `parse_deal` reads, `try K V`, `page FROM HI MAX` or
/// `batch K=V K=none ..`; `None` where they ask for none of these. Refused if memory runs out.
#[tactic(auto, using(crate::proofs::Commands::says_deal))]
pub fn parse_call(alloc: Global, words: &[&str]) -> Result<Option<Call>, AllocError>
    ensures { IfOk result (Finds (λ call. SaysCall call (texts_of words.now))) }
{
    if let Some(deal) = parse_deal(words) {
        return match Call::of_deal(alloc, deal) {
            Ok(call) => Ok(Some(call)),
            Err(_) => Err(AllocError),
        };
    }
    let Some((name, words)) = words.split_first() else {
        return Ok(None);
    };
    match *name {
        "try" => Ok(parse_try(words)),
        "page" => Ok(parse_page(words)),
        "batch" => parse_batch(alloc, words),
        _ => Ok(None),
    }
}

fn parse_try(words: &[&str]) -> Option<Call>
    ensures { Finds (λ call. SaysCall call (codes "try" ∷ texts_of words.now)) result }
{
    let [key, value] = *words else {
        return None;
    };
    Some(Call::Try {
        key: parse_number(key)?,
        value: parse_value(value)?,
    })
}

fn parse_page(words: &[&str]) -> Option<Call>
    ensures { Finds (λ call. SaysCall call (codes "page" ∷ texts_of words.now)) result }
{
    let [from, hi, max] = *words else {
        return None;
    };
    Some(Call::Page {
        from: parse_number(from)?,
        hi: parse_number(hi)?,
        max: parse_number(max)?,
    })
}

fn parse_batch(alloc: Global, words: &[&str]) -> Result<Option<Call>, AllocError>
    ensures { IfOk result (Finds (λ call. SaysCall call (codes "batch" ∷ texts_of words.now))) }
{
    let Some(members) = parse_members(alloc, words)? else {
        return Ok(None);
    };
    Ok(Some(Call::Batch { members }))
}
