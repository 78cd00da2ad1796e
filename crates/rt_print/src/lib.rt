//! Printed output: routes, look-up results, numbers of routes, differences and their numbers, as lines or as JSON objects;
//! routes, look-up results and differences also as comma-separated values; the text of a replay of the lock; and a buffer through which text goes to a writer. `laws` says which prefixes are printed for a
//! range, and that ranges have only one list of counts.
//!
//! A [`Style`] determines the output. It is made from a [`Format`] and the paths of the feeds' files, and gives each feed
//! a label: its number, its name, or the members of a JSON object that identify it. A [`DiffOptions`] does the same for
//! the two tables of a comparison, and pairs their feeds by name if the format prints names.
//!
//! ```
//! let style = Style::new(alloc, Format::Names, &["east.feed", "west.feed"])?;
//! write_routes(&mut out, &style, routes.as_slice())?;
//! ```
//!
//! Each route's line is built in a short text, and goes to the writer at once unless the label of its feed is too long for
//! that. A printer writes the one text that its clause names or, after an error of the writer, a prefix of it. An
//! [`OutputBuffer`] is a writer over another one: its contents are those of the other, followed by the bytes it holds. No
//! call of a printer allocates; only `Style::new`, `DiffOptions::new`, `OutputRoom::new` and `count_changes` do.
//!
//! `write_replay` writes the steps that `ya_core::replay` returns, and `inside_place` returns the place that is inside
//! after them.
//!
//! Only tested: the kind of a writer's error, that a buffer passes text on in few writes, and that the printed examples
//! are what a person expects.
#![tactic(auto)]

mod buffer;
mod change_counts;
mod counts;
mod csv;
mod diff_options;
mod differences;
mod format;
mod labels;
pub mod laws;
mod lookups;
mod names;
mod replays;
mod routes;
mod style;
mod text;

pub use buffer::{OUTPUT_BYTES, OutputBuffer, OutputRoom};
pub use change_counts::{ChangeCount, count_changes, write_change_counts};
pub use counts::{write_counts, write_routes_and_total};
pub use diff_options::{DiffOptions, DiffOutput};
pub use differences::write_difference;
pub use format::{Format, Syntax};
pub use labels::feed_name;
pub use lookups::{write_all_matches, write_invalid_line, write_lookup};
pub use names::{NameFault, check_names};
pub use replays::{inside_place, write_replay};
pub use routes::{prepend_route, write_routes, write_table};
pub use style::Style;
