//! The faulty lines of a text.
ghost use Rattle.std.specs.Prelude.{◌≡◌, ℕ, ◌<◌, List, [], ◌∷◌, ◌++◌};

use crate::parse::LineFault;

/// The faulty lines of a text.
#[derive(Clone, Copy, PartialEq, Eq, Debug)]
pub struct FaultyLines {
    /// Their number.
    pub count: usize,
    /// The first of them: its number, from 1, and its fault.
    pub first: Option<(usize, LineFault)>,
}

impl FaultyLines {
    ghost use Rattle.rt_feed.specs.declared.parse.LineFault.{LineFault};
    ghost use Rattle.rt_feed.specs.Addresses.{faulty_lines};

    /// Returns the faulty lines of a text without any.
    pub fn none() -> FaultyLines
        ensures { result ≡ faulty_lines [] }
    {
        FaultyLines {
            count: 0,
            first: None,
        }
    }

    /// Adds the line of this number, which comes after the others.
    pub fn put(&mut self, number: usize, fault: LineFault)
        requires { self.old.count < number }
        ensures { (faults : List (ℕ × LineFault)) → self.old ≡ faulty_lines faults → self.new ≡ faulty_lines (faults ++ (number, fault) ∷ []) }
    {
        self.count += 1;
        if self.first.is_none() {
            self.first = Some((number, fault));
        }
    }
}
