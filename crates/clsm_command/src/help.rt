//! The texts of `--help`.

pub(crate) const VERSION: &str = "0.1.0";

pub(crate) const PROGRAM: &str =
    "A concurrent log-structured merge map in memory: scripts, workloads, audits, explorations";

pub(crate) const AFTER_PROGRAM: &str = "\
Exit status:
  0  done
  1  refused words, a bad line, a failed read or write
  2  a fault was found
  3  the store was not opened, memory ran out, or there were too many worlds

`clsm COMMAND --help` says what a command reads and prints, with an example.";

pub(crate) const SCRIPT: &str = "Play the commands of the standard input on a new store";

pub(crate) const AFTER_SCRIPT: &str = "\
Reads commands, one a line, and prints the answer of each on a line. K and the bounds LO, HI and
FROM are keys, numbers of 64 bits; V is 1 to 8 such words, joined by commas.

  put K V, remove K, try K V   a write: @T is its time; full where no write may be made
  add K D, claim K V           add D to the word of K; write V where K has no value
  batch K=V K=none ..          several writes as one, K=none removes K: @T is the time of the first
  get K                        the value of K, or none, by the writes below T
  snap, getat K, close         open a snapshot, read K under it, close it
  scan LO HI, page FROM HI MAX the keys with a value, under the open snapshot if there is one
  seat S, meet S               the seat of the calls that follow; let it meet another seat
  freeze, merge, reclaim       the three parts of a merge, in this order
  audit                        audit ok where all calls so far are of one history

An empty line and one that begins with # are passed over.

Exit status: 0 done; 1 a bad line, a failed read or write; 3 the sizes were refused or memory
ran out.

Example:
  printf 'put 7 1\\nget 7\\n' | clsm script --cells 64";

pub(crate) const RUN: &str =
    "Make drawn calls by threads on one store beside a merger, and audit their answers";

pub(crate) const AFTER_RUN: &str = "\
Reads nothing. Prints `calls N`, refused ones too, and `audit ok` or `audit fault KIND INDEX`.
With --records it prints each answered call as a line that `clsm audit` reads, in their place;
with --clock too, each line ends in ` | BEGIN END`, nanoseconds of the monotonic clock.

Exit status: 0 done; 1 refused words or a failed write; 2 a fault was found; 3 the sizes were
refused or memory ran out.

Example:
  clsm run --threads 8 --ops 10000 --stats";

pub(crate) const AUDIT: &str =
    "Tell whether the records of the standard input are the calls of one lawful history";

pub(crate) const AFTER_AUDIT: &str = "\
Reads records of answered calls, one a line: SEAT TIME and then the call with its answer, as
`0 0 put 7 70`, `1 1 get 7 70` or `1 1 scan 0 9 7=70`. `clsm run --records` prints such lines.
Prints `audit ok`, or `audit fault KIND LINE` with the kind and the line of the first fault, and
says on the standard error why it is one. With --history the records of writes follow `audit ok`,
by their times.

A line may end in ` | BEGIN END`: two numbers of one clock, read before and after the call. With
--order each line has them, and a call that ended before another began has to stand before it in
the history; if one does not, it prints `audit fault Stale LINE`.

Exit status: 0 lawful; 1 a bad line, a failed read or write; 2 a fault was found; 3 memory
ran out.

Example:
  clsm run --threads 4 --records | clsm audit --seats 4 --cells 1024";

pub(crate) const EXPLORE: &str =
    "Try every order in which the steps of one to three scripts can fall";

pub(crate) const AFTER_EXPLORE: &str = "\
Takes a script for each seat: commands of `clsm script`, separated by semicolons, of put, remove,
get, add, claim, snap, close, getat and scan. Tries each step that comes next in each world that
the steps lead to, and audits the answers wherever all scripts are at their end. Prints
`explore ok`, `explore fault`, `explore too many` where there are more worlds than the limit, or
`explore stuck` where a script makes no step.
With --answers it first prints what the calls can answer: each different end is a line of records
as `clsm audit` reads them, separated by semicolons, or `no record`. With --schedule there stands
below each such line a shortest order of steps that leads to it: a column for each seat, the
merger's last, and a line for each step, with what a look found and whether an exchange is lost.
With --count it prints `worlds N ends M answers K` before `explore ok`.

Exit status: 0 no fault; 1 refused words, `bad script S`, a failed write; 2 a fault was found; 3
the sizes were refused, memory ran out, there were too many worlds, or it is stuck.

Example:
  clsm explore --schedule \"put 1 1\" \"get 1\"";

pub(crate) const CELLS: &str = "Writes between two merges, 4 to 65,536";

pub(crate) const SEATS: &str = "Seats of callers, 1 to 64";

pub(crate) const SHARDS: &str = "Least number of hash chains, 1 to 1,024";

pub(crate) const RUN_ROOM: &str = "Entries of a run of level 1, 4 to 4,194,304";

pub(crate) const PATIENCE: &str = "Looks at an undecided write before a reader cancels it, 0 to 64";

pub(crate) const THREADS: &str = "Threads, each at a seat of its own, 1 to 64";

pub(crate) const OPS: &str = "Calls of each thread, 0 to 1,000,000";

pub(crate) const KEYS: &str = "Keys that the calls are of, 1 to 1,000,000";

pub(crate) const SEED: &str = "What the calls are drawn from";

pub(crate) const BATCH: &str = "Draw batches of two writes, too: one call in sixteen";

pub(crate) const MANY: &str = "Draw reads of four keys at one time, too: one call in sixteen";

pub(crate) const SWAP: &str =
    "Draw conditional batches that exchange two values, too: one call in sixteen";

pub(crate) const WAIT: &str = "Let a write wait for room, in place of refusing it";

pub(crate) const STATS: &str =
    "Print rates, times and figures of the store to the standard error, at the end";

pub(crate) const RUN_PROGRESS: &str = "Show on the standard error how far the run has come";

pub(crate) const RECORDS: &str = "Print each answered call as a record, in place of the verdict";

pub(crate) const CLOCK: &str =
    "With --records, print behind each record when its call began and ended";

pub(crate) const AUDIT_SEATS: &str = "Seats that the records may be of";

pub(crate) const AUDIT_CELLS: &str = "Cells of the store that was called: its longest batch";

pub(crate) const ORDER: &str =
    "Audit too that each call stands behind those that had ended before it began";

pub(crate) const HISTORY: &str = "Print the records of writes by their times, where all is lawful";

pub(crate) const MERGE: &str = "Let the merger freeze, merge and reclaim once beside the scripts";

pub(crate) const ANSWERS: &str = "Print each different set of answers that the calls can have";

pub(crate) const LIMIT: &str = "Most worlds that there may be, 1 to 4,000,000";

pub(crate) const SCHEDULE: &str =
    "Print a shortest order of steps below each set of answers; implies --answers";

pub(crate) const COUNT: &str = "Print how many worlds, ends and different answers there are";

pub(crate) const EXPLORE_PROGRESS: &str =
    "Show on the standard error how many worlds were found so far";

pub(crate) const SCRIPTS: &str = "Scripts, one for each seat, one to three";
