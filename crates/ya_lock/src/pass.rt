//! The right to enter a lock.
ghost use Rattle.std.specs.Prelude.{◌≡◌, ℕ};

use crate::ghost_value::GhostValue;
use crate::rule::LockSeat;
use crate::throttle::Contention;
use std::fmt;
use std::marker::Model;

/// The right to enter one lock from one place, while the place is away. Contracts see its lock, its place, the lent
/// value as the pass has last seen it, the number of remote accesses of its last passage, and the view of its seat.
#[derive(Drop)]
pub struct Pass<V> {
    pub(crate) seat: LockSeat<V>,
    pub(crate) place: usize,
    pub(crate) remote: u64,
    pub(crate) seen: GhostValue<V>,
    pub(crate) crowd: Contention,
}

impl<V> Model for Pass<V> {
    ghost use Rattle.ya_lock.specs.Lock.{IdlePass};
    ghost use Rattle.ya_lock.specs.inside.Lock.{SeatIdle};

    ghost Value = { IdlePass V };

    ghost view = { λ p. record {
      lock = p.seat.table_id;
      place = p.place;
      seen = p.seen.value;
      remote = p.remote;
      view = p.seat.me.0;
    } };

    ghost invariant = { λ p. SeatIdle p.seat.table_id p.place p.seen.value p.remote p.seat.me };
}

impl<V> Pass<V> {
    /// Returns its place, below the number of the lock's places. No other pass has it.
    pub fn place(&self) -> usize
        ensures { result ≡ self.now.place }
    {
        self.place
    }
}

impl<V> fmt::Debug for Pass<V> {
    fn fmt<F: fmt::Write>(&self, f: &mut fmt::Formatter<F>) -> fmt::Result {
        f.debug_struct("Pass")
            .field("place", &self.place)
            .finish_non_exhaustive()
    }
}
