//! One line on a terminal that shows the progress of a run. A separate thread writes it each second
//! ([`ProgressLine::keep`]), so nothing is shown of a run that takes less. It is erased, and not written again, before
//! any other text comes to that terminal ([`Screen`]). All of this is only tested.
//!
//! ```
//! let mut screen = Screen::new(rt, &line, &mut err);
//! screen.set(Stage::Reading(0, 2));
//! let mut out = screen.beside(2, &mut out);
//! ```
#![tactic(auto)]

mod line;
mod screen;

pub use line::{ProgressLine, Stage};
pub use screen::{Screen, ScreenOutput};
