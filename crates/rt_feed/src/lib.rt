//! The texts of a feed, the gate that answers its commands, and the report that is written.
//!
//! The first line of a text determines its version (`text_body`), the text is split at each LF (`next_line`), and each
//! line is a command, is skipped, or has a fault (`parse_line`). Contracts see texts and lines as lists of bytes. A
//! line is a command exactly if it is the command's text, its words joined by single spaces. If a line has several
//! faults, the first in the order of the fields is reported. The written text is the only text of the report or,
//! after an error of the writer, a prefix of it. `write_table`, of `rt_print`, writes the table.
//!
//! ```
//! let (version, mut rest) = text_body(b"version 2\nadd 10.0.0.0/8 5 discard\n");
//! while let Some((line, next)) = next_line(rest) {
//!     let command = parse_line(line, version)?;
//!     rest = next;
//! }
//! ```
//!
//! `run_feed` executes a text's commands on a gate, in batches. It returns the report. `run_feeds` does this for several
//! feeds, each on its own thread. A gate holds visits, the answers of each call. `TableGate` is the gate to the shared
//! table, and its visits are uncut in the journal that its pass has seen.
//!
//! Only tested: that feeds run at the same time, the kind of a writer's error, that the printed examples are what a
//! person expects, and that the reader agrees with a second one on hostile lines.
#![tactic(auto)]

mod addresses;
mod faults;
mod faulty;
mod feeds;
mod gates;
pub mod laws;
mod lines;
mod parse;
mod print;
mod report;
mod running;
mod versions;

pub use addresses::{AddressText, InvalidLine, parse_address_line, read_addresses};
pub use faults::RunFault;
pub use faulty::FaultyLines;
pub use feeds::{Feed, run_feeds};
pub use gates::{Gate, TableGate};
pub use lines::next_line;
pub use parse::{LINE_BYTES, LineFault, parse_line};
pub use print::write_report;
pub use report::{Answer, Line, Report};
pub use rt_print::write_table;
pub use rt_shared::Outcome;
pub use running::run_feed;
pub use versions::{Version, text_body, text_version};
