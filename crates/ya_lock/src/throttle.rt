//! The door: if the root is contended (a crowd), a place naps before its first access, so that the place that is
//! awake goes in and out without a competitor. Dice and Kogan, *Avoiding Scalability Collapse by Restricting
//! Concurrency*, Euro-Par 2019. A nap is tuning, and no contract depends on it: no place has to end it, since it ends when
//! its time is over, if the clock goes on.
ghost use Rattle.std.specs.Prelude.{◌^◌, ◌<◌, ◌≤◌};
ghost use Rattle.ya_lock.specs.inside.Lock.{IsFreeSeat};

use crate::kept::Kept;
use crate::rule::{LockSeat, SPACING};
use crate::tree_lock::TreeLock;
use crossbeam_utils::Backoff;
use std::sync::Wait;
use std::time::Duration;

/// A place naps only after this many entries in a row that found another place at the root; places that enter only now
/// and then never nap.
const CONTENDED_ENTRIES: u32 = 4;

/// After this many entries in a row that find no other place, a place that napped forgets the crowd. It is more than a place
/// makes while all others nap.
const FORGOTTEN: u32 = 10_000;

/// The maximum number of naps before an entry. A place that enters while another one works takes its turn away: with more
/// naps, turns change less often, and a place waits longer for its turn.
const NAPS: u32 = 8;

/// The number of looks for another place after a nap: if none of them finds one, the place enters.
const LOOKS: u32 = 4;

/// The number of spins between two looks, each twice as long as the one before: together some microseconds, more than a
/// short turn.
const SPINS: u32 = 7;

/// A place's share of a turn, in microseconds. A nap lasts as long as the shares of all places.
const NAP_MICROS_PER_PLACE: u64 = 200;

/// A place's memory of its last entries.
#[derive(Clone, Copy)]
pub(crate) enum Contention {
    /// No crowd: this number of entries in a row, fewer than `CONTENDED_ENTRIES`, found another place at the root.
    Met(u32),
    /// A crowd, and the number of entries since then that found no other place.
    Remembered(u32),
}

impl Contention {
    /// No entry found another place.
    pub(crate) const NONE: Contention = Contention::Met(0);

    /// Returns the memory after an entry that found no other place at the root.
    #[inline(always)]
    fn after_nobody(self) -> Contention {
        match self {
            Contention::Remembered(missed) if missed < FORGOTTEN => Contention::Remembered(
                missed + 1,
            ),
            Contention::Met(_) | Contention::Remembered(_) => Contention::NONE,
        }
    }
}

impl<V: Kept + Drop, const L: u32> TreeLock<V, L> {
    /// Naps if the lock is crowded. `crowd` is the memory of the seat's own place; returns its new memory. A place that remembers
    /// a crowd naps as soon as it finds another place, so that the other goes on without a competitor.
    #[inline(always)]
    pub(crate) fn throttle_if_contended<R: Wait>(
        &self,
        rt: &R,
        seat: &LockSeat<V>,
        place: usize,
        crowd: Contention,
    ) -> Contention
        requires place { place < 2 ^ L }
        requires own { IsFreeSeat place seat.now.me.0 }
    {
        if !self.is_taken() {
            return crowd.after_nobody();
        }
        if let Contention::Met(times) = crowd {
            return if times < CONTENDED_ENTRIES - 1 {
                Contention::Met(times + 1)
            } else {
                Contention::Remembered(0)
            };
        }
        self.nap_while_taken(rt, seat, place);
        Contention::Remembered(0)
    }

    /// Naps until no place is at the root, but at most `NAPS` times.
    #[cold]
    #[inline(never)]
    fn nap_while_taken<R: Wait>(&self, rt: &R, seat: &LockSeat<V>, place: usize)
        requires place { place < 2 ^ L }
        requires own { IsFreeSeat place seat.now.me.0 }
    {
        for _nap in 0..NAPS {
            self.nap(rt, seat, place);
            if !self.is_taken_again() {
                return;
            }
        }
    }

    /// Returns true if a place is at the root at one of the next few looks.
    fn is_taken_again(&self) -> bool {
        for _look in 0..LOOKS {
            if self.is_taken() {
                return true;
            }
            spin();
        }
        false
    }

    /// Returns true if some place competes at the root, or is inside. It is a guess: the words are loaded one
    /// after the other.
    #[inline(always)]
    fn is_taken(&self) -> bool {
        self.is_taken_from(0) || self.is_taken_from(1)
    }

    /// Returns true if some place competes on that side of the root.
    #[inline(always)]
    fn is_taken_from(&self, side: usize) -> bool
        requires { side < 2 }
    {
        let shared = &self.table.shared;
        shared.peek(SPACING * Self::shape().c(L, 0, side)) != 0
    }

    /// Sleeps for the shares of all places, on the bell of the seat's own place: on another one it could take a wake from
    /// the place that sleeps there. Its place isn't in the tree, so no rival has to wake it.
    fn nap<R: Wait>(&self, rt: &R, seat: &LockSeat<V>, place: usize)
        requires place { place < 2 ^ L }
        requires own { IsFreeSeat place seat.now.me.0 }
    {
        let shared = &self.table.shared;
        let share_of_all = Duration::from_micros(NAP_MICROS_PER_PLACE << L);
        shared.park_timeout(rt, Self::bell(place), 0, share_of_all);
    }
}

/// Spins for the duration of a turn with a short hold.
fn spin() {
    let backoff = Backoff::new();
    for _round in 0..SPINS {
        backoff.spin();
    }
}
