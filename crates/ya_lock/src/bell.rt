//! Bells: the words on which places sleep that wait for long. A bell is 1 while its place sleeps or is about to. No
//! wake-up is lost: the table's rule says that a place that has looked in vain and could go on now has a bell other than
//! 1, or is owed a ring.
ghost use Rattle.std.specs.Prelude.{◌≡◌, ◌^◌, ◌<◌, ◌≤◌, true};
ghost use Rattle.ya_core.specs.ArbitrationTree.{HasShape};
ghost use Rattle.ya_core.specs.WalkerModel.{is_waiting};
ghost use Rattle.ya_lock.specs.Lock.{WalksTo};
ghost use Rattle.ya_lock.specs.Rule.{bell_index, OwesRing};
ghost use Rattle.ya_lock.specs.StepEffects.{awake, paid};
ghost use Rattle.ya_lock.specs.inside.Lock.{HasLooked, IsFreeSeat, has_looked_in_vain};

use crate::kept::Kept;
use crate::passage::{Passage, waits};
use crate::rule::{LockSeat, SPACING};
use crate::step_effects::{ClearBell, FindBell, SetBell};
use crate::tree_lock::TreeLock;
use std::sync::Wait;

/// The number of spins of a waiting place before it sleeps. Each spin follows a look at its spin word, and is twice as
/// long as the one before, up to 64 pauses. It never yields: on a busy machine a yield gives away a whole time slice,
/// and all others wait for it.
pub const SPIN_LIMIT: u32 = 14;

impl<V: Kept + Drop, const L: u32> TreeLock<V, L> {
    /// Returns the index of the bell of a place.
    #[inline(always)]
    pub(crate) fn bell(place: usize) -> usize
        requires levels { HasShape L }
        requires place { place < 2 ^ L }
        ensures { result ≡ bell_index L place }
    {
        SPACING * (Self::shape().words() + 1 + place)
    }

    /// Stores 0 or 1 in the bell of the seat's own place.
    #[inline(always)]
    fn set_bell(&self, seat: &mut LockSeat<V>, place: usize, value: u64)
        requires lock { seat.old.table_id ≡ self.now }
        requires place { place < 2 ^ L }
        requires own { IsFreeSeat place seat.old.me.0 }
        requires bit { value ≤ 1 }
        ensures lock { seat.new.table_id ≡ seat.old.table_id }
        ensures me { seat.new.me ≡ (awake seat.old.me.0, seat.old.me.1) }
    {
        let shared = &self.table.shared;
        shared.store::<SetBell>(seat, Self::bell(place), value);
    }

    /// Sleeps until a rival rings, if the bell of the seat's own place is 1. The seat has looked at the spin word in vain
    /// since it last stored in its bell.
    #[inline(always)]
    fn park<R: Wait>(&self, rt: &R, seat: &LockSeat<V>, place: usize)
        requires place { place < 2 ^ L }
        requires own { IsFreeSeat place seat.now.me.0 }
        requires vain { has_looked_in_vain seat.now.me.0 ≡ true }
    {
        self.table.shared.park(rt, Self::bell(place), 1);
    }

    /// Wakes a rival that sleeps, to which the seat owes a ring.
    #[inline(always)]
    pub(crate) fn ring(&self, seat: &mut LockSeat<V>, rival: usize)
        requires lock { seat.old.table_id ≡ self.now }
        requires rival { rival < 2 ^ L }
        requires owes { OwesRing seat.old.me.0 rival }
        ensures lock { seat.new.table_id ≡ seat.old.table_id }
        ensures me { seat.new.me ≡ (paid seat.old.me.0, seat.old.me.1) }
    {
        let shared = &self.table.shared;
        if shared.load::<FindBell>(seat, Self::bell(rival)) == 1 {
            // The 0 in its bell keeps the rival awake if it is about to sleep.
            shared.store::<ClearBell>(seat, Self::bell(rival), 0);
            self.wake(rival);
        }
    }

    /// Wakes that rival.
    #[cold]
    #[inline(never)]
    fn wake(&self, rival: usize)
        requires { rival < 2 ^ L }
    {
        self.table.shared.wake_one(Self::bell(rival));
    }
}

impl<'a, V: Kept + Drop, const L: u32> Passage<'a, V, L> {
    /// Sleeps until a rival rings.
    #[inline(never)]
    pub(crate) fn sleep<R: Wait>(self, rt: &R) -> Self
        requires { is_waiting self.walk.process ≡ true }
        ensures of { result.of ≡ self.entry.of }
        ensures looked { HasLooked L self.entry.walk.process result.walk }
        ensures way { WalksTo self.entry.walk result.walk }
    {
        let mut passage = self;
        let lock = passage.lock;
        let place = passage.place;
        lock.set_bell(&mut passage.seat, place, 1);
        let mut passage = passage.look();
        if waits(&passage.walker) {
            lock.park(rt, &passage.seat, place);
        } else {
            lock.set_bell(&mut passage.seat, place, 0);
        }
        passage
    }
}
