//! From the words of a command line to the options that they ask for.
ghost use Rattle.std.specs.Prelude.{◌≡◌, ◌⊎◌, IfErr, IfOk, map};
ghost use Rattle.clsm_command.specs.Answers.{IsInRange, IsParsed, IsRefused};
ghost use Rattle.clsm_command.specs.declared.refusal.Refusal.TheVariants.{Memory, NotText};

use crate::asked::Options;
use crate::matches::chosen;
use crate::program::program;
use crate::refusal::Refusal;
use std::alloc::Global;
use std::convert::AsStr;
use std::env::Env;
use std::{env, io};

/// The words of the command line, the first of which is the program's name. Refused with `NotText`
/// where a word is not UTF-8, and with `Memory`.
pub fn words<R: Env + Alloc<A = Global>>(rt: &R) -> Result<Vec<String>, Refusal>
    ensures { IfErr result (λ refusal. (refusal ≡ NotText) ⊎ (refusal ≡ Memory)) }
{
    match env::args(rt) {
        Ok(words) => Ok(words.collect(rt.alloc())?),
        Err(error) if error.kind() == io::ErrorKind::InvalidData => Err(Refusal::NotText),
        Err(_) => Err(Refusal::Memory),
    }
}

/// Reads the words of a command line, the first of which is the program's name. The options are
/// what clap's matches of the words give: an option that is not among the words has its default.
/// Of the numbers, `--threads` is 1 to 64, `--ops` at most 1,000,000 and `--keys` 1 to 1,000,000;
/// the sizes of a store are any numbers of 64 bits, which its opening judges.
///
/// Refused with `Words` where clap finds a fault in the words, with `Help` where they ask for help
/// or the version, each with clap's error and its text, and with `Memory`.
pub fn options<S: AsStr>(alloc: Global, words: &[S]) -> Result<Options, Refusal>
    ensures parsed { IfOk result (IsParsed (map S.text words.entry.now)) }
    ensures range { IfOk result IsInRange }
    ensures refused { IfErr result (IsRefused (map S.text words.entry.now)) }
{
    let command = program(alloc)?;
    let matches = command.try_get_matches_from(words)?;
    let Some((name, inner)) = matches.subcommand() else {
        unreachable!()
    };
    Ok(chosen(alloc, name, inner)?)
}
