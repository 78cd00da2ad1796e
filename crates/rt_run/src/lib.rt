//! Runs of feed texts and their output. The output is the reply to each command and the sorted table, or the result of a
//! query.
//!
//! - [`run_texts`] runs the texts of 1 to [`MAX_FEED_FILES`] feeds over one table behind the lock. Each feed has its own
//!   thread, and the output goes to a writer. Its clause `text` is the theorem from bytes to bytes: the output is the text
//!   of a run.
//! - [`show`] executes the texts, each thread a share of them, and stores neither journal nor reports. It writes the answer to a
//!   [`Question`] about the final table: the best route of each address, all routes that cover it, the selected routes, or
//!   their number. It returns a tally of the rejected input of each text.
//! - [`Addresses`] are read before, from a list and from a text. Contracts see that list and that text, so that the clause of
//!   `show` is one from bytes to bytes.
//! - [`diff_texts`] executes two sets of texts this way, both at the same time if a thread can be created. It writes the
//!   addresses for which their final tables differ.
//! - [`count_diff_texts`] writes the number of these ranges and of their addresses instead.
//! - A [`RunInput`] has the texts of a query or of a side of a comparison. The memory of each text is given back once it is
//!   executed, unless it has a faulty line.
//! - [`replay_text`] writes the atomic steps of a schedule of the lock. Each step has one line.
//! - `laws` says what holds for every run and every interleaving of its threads.
//!
//! ```text
//! let status = run_texts(&rt, alloc, texts.as_slice(), 65_536, 64, &mut out)?;
//! // `out` has the reports of all feeds and then the table, and `status` is the exit status of the run.
//! ```
//!
//! Contracts see texts as lists of bytes, and of a writer its contents, if these are known. After an error of the writer a
//! beginning of the output was written; after any other error nothing was.
#![tactic(auto)]

mod ahead;
mod chosen;
mod comparisons;
mod dealing;
mod faults;
mod forwarding;
mod input;
pub mod laws;
mod output;
mod parallel;
mod parts;
mod queries;
mod question;
mod rendering;
mod replays;
mod rows;
mod runs;
mod sides;
mod status;
mod tallies;
mod turns;

pub use chosen::is_left_out;
pub use comparisons::{count_diff_texts, diff_texts};
pub use faults::AppFault;
pub use input::RunInput;
pub use queries::show;
pub use question::{Addresses, Question};
pub use replays::replay_text;
pub use runs::{MAX_FEED_FILES, run_texts};
pub use status::Status;
pub use tallies::{RejectedInput, RejectedLines, RunSummary};
