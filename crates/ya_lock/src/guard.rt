//! The lent value inside the lock.
ghost use Rattle.std.specs.Prelude.{◌≡◌};
ghost use Rattle.std.specs.Borrow.{Lends, sem};
ghost use Rattle.ya_lock.specs.contracts.guard.Guard.{the_row};
ghost use Rattle.ya_lock.specs.GuardLends.{guard_with_value};

use crate::ghost_value::GhostValue;
use crate::rule::LockSeat;
use crate::throttle::Contention;
use std::fmt;
use std::marker::Model;

/// The lent value, while the place of a pass is inside. Spend it by `leave` or `close`. Contracts see its lock, its
/// place, the value as it was found at the entry and as it is now, the number of remote accesses of the entry, and the
/// view of its seat.
pub struct Guard<V> {
    pub(crate) seat: LockSeat<V>,
    pub(crate) place: usize,
    pub(crate) remote: u64,
    pub(crate) value: V,
    pub(crate) found: GhostValue<V>,
    pub(crate) crowd: Contention,
}

impl<V> Model for Guard<V> {
    ghost use Rattle.ya_lock.specs.Lock.{OpenGuard};
    ghost use Rattle.ya_lock.specs.inside.Lock.{SeatInside};

    ghost Value = { OpenGuard V };

    ghost view = { λ g. record {
      lock = g.seat.table_id;
      place = g.place;
      found = g.found.value;
      value = g.value;
      remote = g.remote;
      view = g.seat.me.0;
    } };

    ghost invariant = { λ g. SeatInside g.seat.table_id g.place g.found.value g.remote g.seat.me };
}

impl<V> Guard<V> {
    /// Returns the lent value.
    pub fn get(&self) -> &V
        ensures { result.now ≡ self.now.value }
    {
        &self.value
    }

    /// Returns the lent value for changes. `leave` requires that its place may make them.
    pub fn get_mut(&mut self) -> &mut V
        ensures* writes_back { sem 𝓛 (Lends (the_row V.row) V.row self.entry result (guard_with_value self.old)) }
        ensures value { result.now ≡ self.old.value }
    {
        &mut self.value
    }

    /// Returns the place that is inside.
    pub fn place(&self) -> usize
        ensures { result ≡ self.now.place }
    {
        self.place
    }
}

impl<V> fmt::Debug for Guard<V> {
    fn fmt<F: fmt::Write>(&self, f: &mut fmt::Formatter<F>) -> fmt::Result {
        f.debug_struct("Guard")
            .field("place", &self.place)
            .finish_non_exhaustive()
    }
}
