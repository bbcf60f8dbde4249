//! The command line of the benchmark: which series is measured, and its sizes.
use crate::failure::Stop;
use crate::lines::Line;
use clap::builder::ValueParser;
use clap::{Arg, ArgAction, ArgMatches, Command};
use std::alloc::{AllocError, Global};

/// The series, each a name of lines that are measured.
const SERIES: [&str; 7] = [
    "calls", "mixes", "beside", "batches", "merges", "scans", "audit",
];

/// The sizes of a measurement, and how often it is made.
#[derive(Clone, Copy)]
pub struct Options {
    /// The calls of each thread, the puts of a merge, or the records of an audit.
    pub calls: u32,
    /// The puts of all threads together where they are sustained; as many as the calls of each
    /// thread if none are said.
    pub puts: Option<u32>,
    /// The rounds that are kept. With none, times are not printed.
    pub repeat: u32,
    /// The keys that are written before the time is taken.
    pub keys: u32,
    /// The cells of a store: the times that it has for puts before a merge.
    pub cells: u32,
    /// The only number of threads that is measured, if one is said.
    pub threads: Option<u32>,
    /// Whether the work is done in the first way alone.
    pub is_alone: bool,
    /// Whether each line is printed as comma-separated values.
    pub is_csv: bool,
}

impl Options {
    /// What is measured where little is.
    pub const FEW: Options = Options {
        calls: 40,
        puts: Some(1_600),
        repeat: 0,
        keys: 40,
        cells: 256,
        threads: None,
        is_alone: false,
        is_csv: false,
    };

    /// The options of a command line.
    fn chosen(matches: &ArgMatches<'_>) -> Options {
        let calls = number(matches, "calls");
        Options {
            calls: calls.unwrap_or(20_000),
            puts: if calls.is_some() {
                None
            } else {
                Some(1_000_000)
            },
            repeat: number(matches, "repeat").unwrap_or(9),
            keys: number(matches, "keys").unwrap_or(32_768),
            cells: number(matches, "cells").unwrap_or(65_536),
            threads: number(matches, "threads"),
            is_alone: matches.get_one::<bool>("alone").unwrap_or(false),
            is_csv: matches.get_one::<bool>("csv").unwrap_or(false),
        }
    }
}

/// The number of an option, if it is among the words.
fn number(matches: &ArgMatches<'_>, name: &str) -> Option<u32> {
    u32::try_from(matches.get_one::<u64>(name)?).ok()
}

/// The options `--NAME N`: the name, the least number, the greatest, and the help.
const SIZES: [(&str, u64, u64, &str); 5] = [
    (
        "calls",
        1,
        16_777_216,
        "Calls a thread, puts a merge, or records [default: 20000]",
    ),
    ("repeat", 1, 999, "The rounds that are kept [default: 9]"),
    (
        "keys",
        16,
        4_194_304,
        "The keys that are written before the time is taken [default: 32768]",
    ),
    (
        "cells",
        256,
        65_536,
        "The cells of a store [default: 65536]",
    ),
    ("threads", 1, 4, "Lines of so many threads alone: 1, 2 or 4"),
];

/// The switches `--NAME`: the name and the help.
const SWITCHES: [(&str, &str); 2] = [
    ("alone", "Measures the first way of each line alone"),
    ("csv", "Prints rows for tools/plot"),
];

/// All arguments: the series, a line's name, the numbers and the switches.
fn args<'a>(alloc: Global) -> Result<Vec<Arg<'a>>, AllocError> {
    let mut args = Vec::new(alloc);
    let series = Arg::new(alloc, "series").value_name("SERIES");
    let series = series.required(true).help("What is measured");
    args.push(series.value_parser(ValueParser::Names(&SERIES)))?;
    let line = Arg::new(alloc, "line").long("line").value_name("NAME");
    let line = line.help("The line of this name alone");
    args.push(line.value_parser(ValueParser::String))?;
    for row in 0..SIZES.len() {
        let (name, low, high, help) = SIZES[row];
        let size = Arg::new(alloc, name).long(name).value_name("N");
        let numbers = ValueParser::Unsigned(low, high);
        args.push(size.value_parser(numbers).help(help))?;
    }
    for row in 0..SWITCHES.len() {
        let (name, help) = SWITCHES[row];
        let switch = Arg::new(alloc, name).action(ArgAction::SetTrue);
        args.push(switch.long(name).help(help))?;
    }
    Ok(args)
}

/// The program's command line.
fn program<'a>(alloc: Global) -> Result<Command<'a>, AllocError> {
    Command::new(alloc, "clsm_bench")
        .about("Measures the store beside a map under a lock, and beside itself")
        .args(args(alloc)?)
}

/// What a command line asks for.
#[derive(Drop)]
pub struct Asked {
    /// The name of the lines that are measured.
    series: String,
    /// The name of the only line of them, if one is said.
    line: Option<String>,
    pub options: Options,
}

impl Asked {
    /// Whether the line is asked for.
    pub fn has(&self, line: &Line) -> bool {
        if line.series != self.series.as_str() {
            return false;
        }
        match &self.line {
            Some(name) => line.name == name.as_str(),
            None => true,
        }
    }

    /// Reads the words of a command line, the first of which is the program's name. Refused where
    /// clap finds a fault in them or they ask for help, and if memory runs out.
    pub fn parse(alloc: Global, words: &[String]) -> Result<Asked, Stop> {
        let matches = program(alloc)?.try_get_matches_from(words)?;
        let series = matches.get_str("series").unwrap_or("");
        let line = match matches.get_str("line") {
            Some(name) => Some(String::from_str(alloc, name)?),
            None => None,
        };
        Ok(Asked {
            series: String::from_str(alloc, series)?,
            line,
            options: Options::chosen(&matches),
        })
    }
}
