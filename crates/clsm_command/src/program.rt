//! The commands and their arguments, as clap has them.
ghost use Rattle.std.specs.Prelude.{◌≡◌, [], IfOk, false};
ghost use Rattle.clap.specs.Words.{rule_of};
ghost use Rattle.clsm_command.specs.Program as spec;
ghost use Rattle.clsm_command.specs.Program.{Is, IsProgram};

use crate::help;
use clap::builder::ValueParser;
use clap::{Arg, ArgAction, Command};
use std::alloc::{AllocError, Global};

/// `--NAME N`, a number from the first of these to the last.
fn number<'a>(
    alloc: Global,
    name: &'a str,
    default: &'a str,
    range: (u64, u64),
    help: &'a str,
) -> Arg<'a>
    ensures rule { rule_of result ≡ spec.number name.entry.now default.entry.now range.0 range.1 }
    ensures local { result.global ≡ false }
{
    let (low, high) = range;
    Arg::new(alloc, name)
        .long(name)
        .value_name("N")
        .value_parser(ValueParser::Unsigned(low, high))
        .default_value(default)
        .help(help)
}

/// `--NAME N`, any number of 64 bits.
fn size<'a>(alloc: Global, name: &'a str, default: &'a str, help: &'a str) -> Arg<'a>
    ensures rule { rule_of result ≡ spec.size name.entry.now default.entry.now }
    ensures local { result.global ≡ false }
{
    number(alloc, name, default, (0, u64::MAX), help)
}

/// `--NAME`
fn flag<'a>(alloc: Global, name: &'a str, help: &'a str) -> Arg<'a>
    ensures rule { rule_of result ≡ spec.flag name.entry.now }
    ensures local { result.global ≡ false }
{
    Arg::new(alloc, name)
        .long(name)
        .action(ArgAction::SetTrue)
        .help(help)
}

/// `SCRIPT..`, one to three.
fn scripts<'a>(alloc: Global) -> Arg<'a>
    ensures rule { rule_of result ≡ spec.scripts }
    ensures local { result.global ≡ false }
{
    Arg::new(alloc, "scripts")
        .value_name("SCRIPT")
        .num_args(1..=3)
        .required(true)
        .help(help::SCRIPTS)
}

/// A command with no argument yet.
fn named<'a>(alloc: Global, name: &'a str, about: &'a str, after_help: &'a str) -> Command<'a>
    ensures { Is (spec.command name.entry.now []) result }
{
    Command::new(alloc, name)
        .about(about)
        .after_help(after_help)
}

fn script<'a>(alloc: Global) -> Result<Command<'a>, AllocError>
    ensures { IfOk result (Is spec.script) }
{
    named(alloc, "script", help::SCRIPT, help::AFTER_SCRIPT).args(vec![in alloc;
        size(alloc, "cells", "4", help::CELLS),
        size(alloc, "seats", "1", help::SEATS),
        size(alloc, "shards", "2", help::SHARDS),
        size(alloc, "run", "64", help::RUN_ROOM),
        size(alloc, "patience", "8", help::PATIENCE),
    ]?)
}

fn run<'a>(alloc: Global) -> Result<Command<'a>, AllocError>
    ensures { IfOk result (Is spec.run) }
{
    named(alloc, "run", help::RUN, help::AFTER_RUN).args(vec![in alloc;
        number(alloc, "threads", "4", (1, 64), help::THREADS),
        number(alloc, "ops", "1000", (0, 1_000_000), help::OPS),
        number(alloc, "keys", "64", (1, 1_000_000), help::KEYS),
        size(alloc, "seed", "1", help::SEED),
        size(alloc, "cells", "1024", help::CELLS),
        size(alloc, "shards", "64", help::SHARDS),
        size(alloc, "run", "65536", help::RUN_ROOM),
        size(alloc, "patience", "16", help::PATIENCE),
        flag(alloc, "batch", help::BATCH),
        flag(alloc, "many", help::MANY),
        flag(alloc, "swap", help::SWAP),
        flag(alloc, "wait", help::WAIT),
        flag(alloc, "stats", help::STATS),
        flag(alloc, "progress", help::RUN_PROGRESS),
        flag(alloc, "records", help::RECORDS),
        flag(alloc, "clock", help::CLOCK),
    ]?)
}

fn audit<'a>(alloc: Global) -> Result<Command<'a>, AllocError>
    ensures { IfOk result (Is spec.audit) }
{
    named(alloc, "audit", help::AUDIT, help::AFTER_AUDIT).args(vec![in alloc;
        size(alloc, "seats", "1", help::AUDIT_SEATS),
        size(alloc, "cells", "65536", help::AUDIT_CELLS),
        flag(alloc, "order", help::ORDER),
        flag(alloc, "history", help::HISTORY),
    ]?)
}

fn explore<'a>(alloc: Global) -> Result<Command<'a>, AllocError>
    ensures { IfOk result (Is spec.explore) }
{
    named(alloc, "explore", help::EXPLORE, help::AFTER_EXPLORE).args(vec![in alloc;
        size(alloc, "cells", "4", help::CELLS),
        size(alloc, "shards", "2", help::SHARDS),
        size(alloc, "patience", "0", help::PATIENCE),
        flag(alloc, "merge", help::MERGE),
        number(alloc, "limit", "1000000", (1, 4_000_000), help::LIMIT),
        flag(alloc, "answers", help::ANSWERS),
        flag(alloc, "schedule", help::SCHEDULE),
        flag(alloc, "count", help::COUNT),
        flag(alloc, "progress", help::EXPLORE_PROGRESS),
        scripts(alloc),
    ]?)
}

/// The whole program, with its commands.
pub(crate) fn program<'a>(alloc: Global) -> Result<Command<'a>, AllocError>
    ensures { IfOk result IsProgram }
{
    named(alloc, "clsm", help::PROGRAM, help::AFTER_PROGRAM)
        .version(help::VERSION)
        .subcommand_required(true)
        .disable_help_subcommand(true)
        .subcommand(script(alloc)?)?
        .subcommand(run(alloc)?)?
        .subcommand(audit(alloc)?)?
        .subcommand(explore(alloc)?)
}
