//! What the matches of a command give.
ghost use Rattle.std.specs.Prelude.{◌≡◌, IfOk, codes, map};
ghost use Rattle.clsm_command.specs.Answers as spec;
ghost use Rattle.clsm_command.specs.Answers.{IsAnswer, IsCommand, rows_in};

use crate::asked::{AuditOptions, ExploreOptions, Options, RunOptions};
use clap::ArgMatches;
use clsm_model::Config;
use clsm_workload::Shows;
use std::alloc::{AllocError, Global};

/// The number of an option, which has a default; 0 where there is none.
fn number(matches: &ArgMatches<'_>, id: &str) -> u64
    ensures { result ≡ spec.number_of id.now (rows_in matches.now) }
{
    matches.get_one::<u64>(id).unwrap_or(0)
}

fn size(matches: &ArgMatches<'_>, id: &str) -> usize
    ensures { result ≡ spec.number_of id.now (rows_in matches.now) }
{
    number(matches, id) as usize
}

fn flag(matches: &ArgMatches<'_>, id: &str) -> bool
    ensures { result ≡ spec.flag_of id.now (rows_in matches.now) }
{
    matches.get_one::<bool>(id).unwrap_or(false)
}

/// The values of a positional argument.
fn texts(alloc: Global, matches: &ArgMatches<'_>, id: &str) -> Result<Vec<String>, AllocError>
    ensures { IfOk result (λ texts. map (λ t. t.bytes.items) texts.items
        ≡ spec.texts_of id.now (rows_in matches.now)) }
{
    let mut texts = Vec::new(alloc);
    let values = matches.get_strs(id).unwrap_or(&[]);
    for value in values {
        texts.push(String::from_str(alloc, value)?)?;
    }
    Ok(texts)
}

/// The sizes of a store that has as many seats as the option with this name says.
fn sizes(matches: &ArgMatches<'_>, seats: &str) -> Config
    ensures { result ≡ spec.sizes seats.now (rows_in matches.now) }
{
    Config {
        cells: size(matches, "cells"),
        seats: size(matches, seats),
        shards: size(matches, "shards"),
        run: size(matches, "run"),
        patience: size(matches, "patience"),
    }
}

/// What is shown of a run.
fn shows(matches: &ArgMatches<'_>) -> Shows
    ensures { result ≡ spec.shows (rows_in matches.now) }
{
    Shows {
        stats: flag(matches, "stats"),
        progress: flag(matches, "progress"),
        records: flag(matches, "records"),
        clock: flag(matches, "clock"),
    }
}

fn run(matches: &ArgMatches<'_>) -> RunOptions
    ensures { result ≡ spec.run (rows_in matches.now) }
{
    RunOptions {
        config: sizes(matches, "threads"),
        ops: number(matches, "ops"),
        keys: number(matches, "keys"),
        seed: number(matches, "seed"),
        batch: flag(matches, "batch"),
        many: flag(matches, "many"),
        swap: flag(matches, "swap"),
        wait: flag(matches, "wait"),
        shows: shows(matches),
    }
}

fn audit(matches: &ArgMatches<'_>) -> AuditOptions
    ensures { result ≡ spec.audit (rows_in matches.now) }
{
    AuditOptions {
        seats: size(matches, "seats"),
        cells: size(matches, "cells"),
        order: flag(matches, "order"),
        history: flag(matches, "history"),
    }
}

fn explore(alloc: Global, matches: &ArgMatches<'_>) -> Result<ExploreOptions, AllocError>
    ensures { IfOk result (spec.IsExplore (rows_in matches.now)) }
{
    let scripts = texts(alloc, matches, "scripts")?;
    Ok(ExploreOptions {
        cells: size(matches, "cells"),
        shards: size(matches, "shards"),
        patience: size(matches, "patience"),
        merge: flag(matches, "merge"),
        limit: size(matches, "limit"),
        answers: flag(matches, "answers"),
        schedule: flag(matches, "schedule"),
        count: flag(matches, "count"),
        progress: flag(matches, "progress"),
        scripts,
    })
}

/// The options of the command with this name.
pub(crate) fn chosen(
    alloc: Global,
    name: &str,
    matches: &ArgMatches<'_>,
) -> Result<Options, AllocError>
    requires { IsCommand name.now }
    ensures { IfOk result (IsAnswer name.now (rows_in matches.now)) }
{
    match name {
        "script" => Ok(Options::Script(sizes(matches, "seats"))),
        "run" => Ok(Options::Run(run(matches))),
        "audit" => Ok(Options::Audit(audit(matches))),
        "explore" => Ok(Options::Explore(explore(alloc, matches)?)),
        _ => unreachable!(),
    }
}
