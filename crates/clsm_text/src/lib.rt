//! What the programs read and print as lines: lines and their words, numbers, values, rows and the
//! members of batches; calls, and records of them, and the audit of such lines; the streams of a
//! program, and how a program ends that fails.
#![tactic(auto)]

mod audit;
mod deal;
mod deed;
mod failure;
mod history;
mod input;
mod judging;
mod line;
mod listing;
mod member;
mod number;
mod reason;
mod record;
mod shown;
mod streams;
mod timed;
mod verdict;
mod words;
mod written;

pub use audit::{AskedAudit, audit_lines};
pub use deal::parse_deal;
pub use failure::Failure;
pub use input::{line_at_hand, read_line};
pub use line::{LONGEST_LINE, LineError, Words, line_words, plain_words, split_words};
pub use listing::Listed;
pub use member::{parse_change, parse_member, parse_members};
pub use number::{parse_digits, parse_number, parse_value};
pub use reason::write_reason;
pub use record::parse_record;
pub use shown::ShownRows;
pub use streams::Streams;
pub use timed::{RecordLine, parse_record_line};
pub use written::{Line, MemberWords, More, Reply, Told, write_record, write_timed_record};
