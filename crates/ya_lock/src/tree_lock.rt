//! The lock and its calls.
ghost use Rattle.std.specs.Prelude.{◌≡◌, ◌+◌, ◌*◌, ◌≤◌, true, false, IfOk, IfErr};
ghost use Rattle.ya_core.specs.ArbitrationTree.{HasShape};
ghost use Rattle.ya_core.specs.WalkerModel.{op_of, walk};
ghost use Rattle.ya_core.specs.declared.process.Process.TheVariants.{Idle, Inside};
ghost use Rattle.ya_lock.specs.Lock.{ArePassesInOrder, guard_of, pass_of, WalksTo};
ghost use Rattle.ya_lock.specs.inside.Lock.{guard_at, HasTree};

use crate::ghost_value::GhostValue;
use crate::guard::Guard;
use crate::kept::Kept;
use crate::pass::Pass;
use crate::passage::Passage;
use crate::rule::{LockTable, SLOT, SPACING};
use crate::step_effects::{GiveValue, JoinPass, LearnSince, TakeSlot};
use crate::throttle::Contention;
use std::alloc::Global;
use std::fmt;
use std::marker::Model;
use std::sync::Wait;
use ya_core::{NoMemory, Op, Walker};

/// A lock of 2 to the power of L places, which lends one value to one place at a time. L is 1 to
/// `ya_core::MAX_LEVELS`. Contracts see its identity.
#[derive(Drop)]
pub struct TreeLock<V: Kept + Drop, const L: u32> {
    pub(crate) table: LockTable<V>,
}

impl<V: Kept + Drop, const L: u32> Model for TreeLock<V, L> {
    ghost use Rattle.ya_lock.specs.Lock.{LockId};
    ghost use Rattle.ya_lock.specs.inside.Lock.{IsLockTable};

    ghost Value = { LockId };

    ghost view = { λ l. l.table.shared.table_id };

    ghost invariant = { λ l. IsLockTable L l.table.shared.key l.table.shared.table_id };
}

impl<V: Kept + Drop, const L: u32> TreeLock<V, L> {
    /// Returns a lock that lends the value, and the pass of each place in order. Each pass has seen the value as it is
    /// now. If memory runs out, the value comes back.
    pub fn new(alloc: Global, value: V) -> Result<(TreeLock<V, L>, Vec<Pass<V>>), (V, NoMemory)>
        requires { HasShape L }
        ensures passes { IfOk result (λ made. ArePassesInOrder made.0 L value made.1.items) }
        ensures refused { IfErr result (λ r. r.0 ≡ value) }
    {
        let shape = Self::shape();
        let Ok(passes) = Vec::with_capacity(alloc, shape.places()) else {
            return Err((value, NoMemory));
        };
        let Ok((table, mut maker)) = Self::new_table(alloc, SPACING * shape.words()) else {
            return Err((value, NoMemory));
        };
        let first = GhostValue::of(&value);
        table.shared.load::<TakeSlot>(&mut maker, 0);
        let _empty = table.shared.exchange(&mut maker, SLOT, Some(value));
        table.shared.load::<GiveValue>(&mut maker, 0);
        let lock = TreeLock { table };
        let passes = lock.make_passes(maker, first, passes);
        Ok((lock, passes))
    }

    /// Waits until its place is inside and no other is, and returns the lent value. The guard finds a value that other
    /// places may have made of the one that the pass has seen (`since`). Its process makes at most seven remote
    /// accesses for each level. The code also loads the root's words C, at most ten times, accesses a rival's bell at
    /// most twice for each level, and accesses its own bell while it sleeps.
    #[inline(always)]
    pub fn enter<R: Wait>(&self, rt: &R, pass: Pass<V>) -> Guard<V>
        requires { pass.lock ≡ self.now }
        ensures guard { result ≡ guard_of pass result.found result.remote }
        ensures fresh { V.since pass.place pass.seen result.found }
        ensures count { result.remote ≤ 7 * L }
        ensures walks { WalksTo (walk L pass.place Idle true 0) (walk L pass.place Inside false result.remote) }
    {
        self.holds_tree();
        let crowd = self.throttle_if_contended(rt, &pass.seat, pass.place, pass.crowd);
        Self::take_value(Passage::begin(self, pass).acquire(rt), crowd)
    }

    /// Gives back the value as it is now, and lets the next place in. The place may have changed the value as `done`
    /// allows. Never waits for another place. Its process makes at most three remote accesses for each level. The code
    /// also accesses a rival's bell at most twice for each level.
    #[inline(always)]
    pub fn leave(&self, guard: Guard<V>) -> Pass<V>
        requires lock { guard.lock ≡ self.now }
        requires done { V.done guard.place guard.found guard.value }
        ensures pass { result ≡ pass_of guard result.remote }
        ensures count { (guard.remote ≤ result.remote) × (result.remote ≤ guard.remote + 3 * L) }
        ensures walks { WalksTo (walk L guard.place Inside true guard.remote) (walk L guard.place Idle false result.remote) }
    {
        let Guard {
            mut seat,
            place,
            remote,
            value,
            found: _,
            crowd,
        } = guard;
        let seen = GhostValue::of(&value);
        let None = self.table.shared.exchange(&mut seat, SLOT, Some(value)) else {
            unreachable!()
        };
        let mut walker = Walker::inside(Self::shape(), place, remote);
        walker.begin_exit();
        let passage = Passage {
            lock: self,
            seat,
            place,
            walker,
            seen,
        };
        let passage = passage.release();
        let Passage {
            seat,
            place,
            walker,
            seen,
            ..
        } = passage;
        Pass {
            seat,
            place,
            remote: walker.remote(),
            seen,
            crowd,
        }
    }

    /// Spends an idle pass under an open guard, which is unchanged. The guard found a value that other places may have
    /// made of the one that the pass has seen (`since`). Never waits for another place.
    pub fn confirm(&self, guard: Guard<V>, pass: Pass<V>) -> Guard<V>
        requires guard { guard.lock ≡ self.now }
        requires pass { pass.lock ≡ self.now }
        ensures fresh { V.since pass.place pass.seen guard.found }
        ensures same { result ≡ guard }
    {
        let mut guard = guard;
        let Pass { seat: idle, .. } = pass;
        let shared = &self.table.shared;
        shared.join_seat::<JoinPass>(&mut guard.seat, idle);
        shared.load::<LearnSince>(&mut guard.seat, 0);
        guard
    }

    /// Ends the lock, and returns the value as it is now. Its other passes are of no further use.
    pub fn close(self, guard: Guard<V>) -> V
        requires { guard.lock ≡ self }
        ensures { result ≡ guard.value }
    {
        let TreeLock { table } = self;
        let Guard {
            seat,
            place: _,
            remote: _,
            value,
            found: _,
            crowd: _,
        } = guard;
        let mut closed = table.close_with(seat);
        let _empty = closed.take(SLOT);
        closed.free();
        value
    }

    /// Recalls that the table has the words of a tree of L levels: the invariant of the lock is known once one of its
    /// fields is read. Does nothing.
    #[inline(always)]
    pub(crate) fn holds_tree(&self)
        ensures shape { HasShape L }
        ensures words { HasTree self.now L }
    {
        let _ = &self.table;
    }

    /// Returns the guard of a place that has come inside, with the value in the slot.
    #[inline(always)]
    pub(crate) fn take_value(passage: Passage<V, L>, crowd: Contention) -> Guard<V>
        requires { op_of passage.walk ≡ Op.Inside }
        ensures guard { result ≡ guard_at passage.entry.of result.found result.remote }
        ensures fresh { V.since passage.entry.of.place passage.entry.of.seen result.found }
        ensures count { result.remote ≤ 7 * L }
        ensures remote { result.remote ≡ passage.entry.walk.remote }
    {
        let Passage {
            lock,
            mut seat,
            place,
            walker,
            seen: _,
        } = passage;
        let remote = walker.remote();
        let Some(value) = lock.table.shared.exchange(&mut seat, SLOT, None) else {
            unreachable!()
        };
        let found = GhostValue::of(&value);
        Guard {
            seat,
            place,
            remote,
            value,
            found,
            crowd,
        }
    }
}

impl<V: Kept + Drop, const L: u32> fmt::Debug for TreeLock<V, L> {
    fn fmt<F: fmt::Write>(&self, f: &mut fmt::Formatter<F>) -> fmt::Result {
        f.debug_struct("TreeLock")
            .field("levels", &L)
            .finish_non_exhaustive()
    }
}
