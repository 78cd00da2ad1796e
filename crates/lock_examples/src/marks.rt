//! A value for a lock to lend: a list of marks, to which each place that is inside adds its own.
ghost use Rattle.std.specs.Prelude.{◌≡◌, [], ◌∷◌, ◌++◌, IfOk, OnErr, filter, length, ◌==◌};

use std::alloc::{AllocFailed, Global};
use ya_lock::Kept;

/// The places that made a mark, in order. As in the shared table's journal, only a place itself adds its marks.
#[derive(Drop)]
pub struct Marks {
    places: Vec<usize>,
}

impl Kept for Marks {
    ghost use Rattle.lock_examples.specs.Marks.{MarkedByOthers, MarkedBy};
    ghost use Rattle.lock_examples.specs.inside.MarkLaws.{others_add_nothing, place_adds_nothing, marked_by_others};

    ghost since = { λ place a b. MarkedByOthers place a.places.items b.places.items };

    ghost done = { λ place a b. MarkedBy place a.places.items b.places.items };

    ghost since_same = { λ place a. others_add_nothing place a.places.items };

    ghost done_same = { λ place a. place_adds_nothing place a.places.items };

    ghost since_done = { λ place other a b c ne s d.
        marked_by_others place other a.places.items b.places.items c.places.items ne s d };
}

impl Marks {
    /// Returns a list without marks.
    pub fn new(alloc: Global) -> Marks
        ensures { result.places.items ≡ [] }
    {
        Marks {
            places: Vec::new(alloc),
        }
    }

    /// Adds a mark of the place. If memory runs out, the list is unchanged.
    pub fn add(&mut self, place: usize) -> Result<(), AllocFailed<usize>>
        ensures ok { IfOk result (λ _. self.new.places.items ≡ self.old.places.items ++ place ∷ []) }
        ensures err { OnErr result (self.new.places.items ≡ self.old.places.items) }
    {
        self.places.push(place)
    }

    /// Returns the number of marks.
    pub fn len(&self) -> usize
        ensures { result ≡ length self.now.places.items }
    {
        self.places.len()
    }

    /// Returns the number of the place's marks.
    pub fn count(&self, place: usize) -> usize
        ensures { result ≡ length (filter (λ mark. mark == place) self.now.places.items) }
    {
        self.places.iter().filter(|mark| **mark == place).count()
    }
}
