//! The text of a replay: the atomic steps of one schedule of the lock, one a line, and then the place that is inside.
ghost use Rattle.std.specs.Prelude.{◌≡◌, ℕ, List, ◌≤◌, ◌<◌, ◌++◌, ◌^◌, length};
ghost use Rattle.rt_cidr.specs.Output.{WritesText};
ghost use Rattle.ya_core.specs.Steps.{State, opening};
ghost use Rattle.ya_core.specs.Machines.{ReplaysTo};
ghost use Rattle.ya_core.specs.Worlds.{ReportsInside};
ghost use Rattle.rt_print.specs.ReplayText.{word_text, step_text, inside_text, replay_text_of};

use crate::text::Text;
use std::io::{self, Write};
use ya_core::{Mark, Step, Word};

/// Writes the text of a replay with these steps, after which `inside` is the place inside. Errors and memory are as for
/// `write_routes`.
pub fn write_replay<W: Write>(w: &mut W, steps: &[Step], inside: Option<usize>) -> io::Result<()>
    requires numbered { length steps.now < 2 ^ 63 }
    ensures { WritesText (W.contents w.old) (W.contents w.new) (replay_text_of steps.now inside) result }
{
    for (index, step) in steps.iter().enumerate() {
        put_step(w, index as u64 + 1, step)?;
    }
    put_inside(w, inside)
}

/// Returns the place that is inside after these steps of a replay, if any.
pub fn inside_place(steps: &[Step]) -> Option<usize>
    ensures { (levels : ℕ) (picks : List ℕ) (last : State) → 1 ≤ levels → ReplaysTo levels opening picks steps.now last → ReportsInside last result }
{
    let mut inside = None;
    for step in steps {
        inside = match step.mark {
            Mark::Inside => Some(step.place),
            Mark::Plain | Mark::Out => inside.filter(|place| *place != step.place),
        };
    }
    inside
}

/// Writes the last line: the place that is inside.
#[tactic(auto, unfolding(crate::specs::ReplayText::inside_text))]
fn put_inside<W: Write>(w: &mut W, inside: Option<usize>) -> io::Result<()>
    ensures { WritesText (W.contents w.old) (W.contents w.new) (inside_text inside) result }
{
    match inside {
        None => "inside none\n".put_to(w),
        Some(place) => ("inside p", (place as u64, "\n")).put_to(w),
    }
}

/// Writes the step's line.
#[tactic(auto, unfolding(crate::specs::ReplayText::step_text, crate::specs::ReplayText::sign_text, crate::specs::ReplayText::mark_text))]
fn put_step<W: Write>(w: &mut W, number: u64, step: &Step) -> io::Result<()>
    ensures { WritesText (W.contents w.old) (W.contents w.new) (step_text number step.now) result }
{
    let sign = if step.store { " := " } else { " = " };
    let mark = match step.mark {
        Mark::Plain => "\n",
        Mark::Inside => " inside\n",
        Mark::Out => " out\n",
    };
    let access = (" ", (step.word, (sign, (step.value, mark))));
    (number, (" p", (step.place as u64, access))).put_to(w)
}

/// The word's name.
impl Text for Word {
    ghost text = { λ word. word_text word };

    #[tactic(auto, unfolding(crate::specs::ReplayText::word_text))]
    fn put_to<W: Write>(&self, w: &mut W) -> io::Result<()> {
        match self {
            Word::C(level, node, side) => {
                let place = (*node as u64, (".", *side as u64));
                ("C", (u64::from(*level), (".", place))).put_to(w)
            }
            Word::T(level, node) => ("T", (u64::from(*level), (".", *node as u64))).put_to(w),
            Word::P(level, place) => ("P", (u64::from(*level), (".", *place as u64))).put_to(w),
        }
    }
}
