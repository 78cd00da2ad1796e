//! The way in and the way out: each access is one step of a walker of the core, taken by the seat of its place.
ghost use Rattle.std.specs.Prelude.{◌≡◌, ◌≢◌, ℕ, true, false, ◌+◌, ◌*◌, ◌<◌, ◌≤◌, ◌↔◌, IsTrue};
ghost use Rattle.ya_core.specs.declared.process.Process.TheVariants.{Idle, Entering, Leaving};
ghost use Rattle.ya_core.specs.declared.process.EntryPoint.TheVariants.{E5};
ghost use Rattle.ya_core.specs.declared.process.ExitPoint.TheVariants.{X2};
ghost use Rattle.ya_core.specs.WalkerModel.{BeginsEntry, BeginsExit, op_of, walk, walk_after, most_remote, is_waiting};
ghost use Rattle.ya_core.specs.inside.Ahead.{points_ahead, ComesNearer};
ghost use Rattle.ya_lock.specs.Lock.{WalksTo};
ghost use Rattle.ya_lock.specs.Rule.{bell_after};
ghost use Rattle.ya_lock.specs.inside.Lock.{way_of, HasWon, HasPassed, HasLooked, HasReleased, StoresFor, is_to_ring, is_vain};

use crate::bell::SPIN_LIMIT;
use crate::ghost_value::GhostValue;
use crate::kept::Kept;
use crate::pass::Pass;
use crate::rule::{LockSeat, SPACING};
use crate::step_effects::ProcessStep;
use crate::tree_lock::TreeLock;
use crossbeam_utils::Backoff;
use std::marker::Model;
use std::sync::Wait;
use ya_core::{EntryPoint, ExitPoint, Op, Process, Walker};

/// A place on its way in or out. Contracts see its constant parts (the lock, the place, and the value that it has seen,
/// or leaves on its way out), and the walk, which has the process of its seat.
#[derive(Drop)]
pub(crate) struct Passage<'a, V: Kept + Drop, const L: u32> {
    pub(crate) lock: &'a TreeLock<V, L>,
    pub(crate) seat: LockSeat<V>,
    pub(crate) place: usize,
    pub(crate) walker: Walker,
    pub(crate) seen: GhostValue<V>,
}

impl<'a, V: Kept + Drop, const L: u32> Model for Passage<'a, V, L> {
    ghost use Rattle.ya_lock.specs.inside.Lock.{OnWay, IsOnWay, has_looked_in_vain};

    ghost Value = { OnWay V };

    ghost view = { λ p. record {
      of = record { lock = p.lock.now; place = p.place; seen = p.seen.value };
      walk = p.walker;
      vain = has_looked_in_vain p.seat.me.0;
    } };

    ghost invariant = { λ p. IsOnWay V.since V.done L p.lock.now p.seat.table_id p.place p.seen.value p.walker p.seat.me };
}

/// Returns true if the process waits: it loads its own spin word until a rival has stored in it.
#[inline(always)]
pub(crate) fn waits(walker: &Walker) -> bool
    ensures { result ≡ is_waiting walker.now.process }
{
    matches!(
        walker.process(),
        Process::Entering(_, EntryPoint::E8 | EntryPoint::E10)
    )
}

impl<'a, V: Kept + Drop, const L: u32> Passage<'a, V, L> {
    /// Returns the place of that pass, with its first access due.
    #[inline(always)]
    pub(crate) fn begin(lock: &'a TreeLock<V, L>, pass: Pass<V>) -> Self
        requires { pass.lock ≡ lock.now }
        ensures of { result.of ≡ way_of pass }
        ensures walk { result.walk ≡ walk L pass.place Idle true 0 }
    {
        lock.holds_tree();
        let Pass {
            seat,
            place,
            seen,
            ..
        } = pass;
        let mut walker = Walker::new(TreeLock::<V, L>::shape(), place);
        walker.begin_entry();
        Passage {
            lock,
            seat,
            place,
            walker,
            seen,
        }
    }

    /// Makes the accesses of an entry until it is inside. The accesses of a level without a rival are written out, so
    /// that each is compiled with a known point: a passage by itself takes 0.95 of the time of the same algorithm in C at
    /// one level, and 1.36 at six (docs/PERFORMANCE.md).
    #[inline(always)]
    pub(crate) fn acquire<R: Wait>(self, rt: &R) -> Self
        requires { BeginsEntry self.walk }
        ensures of { result.of ≡ self.entry.of }
        ensures inside { op_of result.walk ≡ Op.Inside }
        ensures way { WalksTo self.entry.walk result.walk }
    {
        let mut passage = self;
        passage.write_begun();
        loop {
            passage.step();
            passage.step();
            passage.step();
            passage.step();
            if !passage.has_won() {
                passage = passage.compete(rt);
            }
            if let Process::Inside = passage.walker.process() {
                return passage;
            }
            passage.write_out(EntryPoint::E1);
        }
    }

    /// Makes the accesses of a level where a rival competes, until it is won. They are written out too. The rival was
    /// read at e4; only `spin` waits, at e8 and e10.
    #[inline(never)]
    pub(crate) fn compete<R: Wait>(self, rt: &R) -> Self
        requires competes { (level rival : ℕ) × (self.walk.process ≡ Entering level (E5 rival)) }
        ensures of { result.of ≡ self.entry.of }
        ensures won { HasWon result.walk.process }
        ensures begun { result.walk.begun ≡ false }
        ensures onward { points_ahead result.walk < points_ahead self.entry.walk }
        ensures way { WalksTo self.entry.walk result.walk }
    {
        let mut passage = self;
        let Process::Entering(_, EntryPoint::E5(rival)) = passage.walker.process() else {
            unreachable!()
        };
        passage.write_out(EntryPoint::E5(rival));
        passage.step();
        if passage.has_won() {
            return passage;
        }
        passage.step();
        if let Process::Entering(_, EntryPoint::E7(rival)) = passage.walker.process() {
            passage.step_for(rival);
        }
        let mut passage = passage.spin(rt);
        passage.write_out(EntryPoint::E9);
        passage.step();
        if passage.has_won() {
            return passage;
        }
        passage.spin(rt)
    }

    /// Waits: loads the spin word of its process until the process may go on. Spins between the first loads, and sleeps
    /// between later ones.
    #[inline(never)]
    pub(crate) fn spin<R: Wait>(self, rt: &R) -> Self
        requires { is_waiting self.walk.process ≡ true }
        ensures of { result.of ≡ self.entry.of }
        ensures passed { HasPassed L self.entry.walk.process result.walk }
        ensures tree { result.walk.levels ≡ L }
        ensures way { WalksTo self.entry.walk result.walk }
    {
        let mut passage = self;
        let mut patience = SPIN_LIMIT;
        let backoff = Backoff::new();
        for _ in rt.forever() {
            passage = passage.look();
            if waits(&passage.walker) {
                if patience == 0 {
                    passage = passage.sleep(rt);
                } else {
                    patience -= 1;
                    backoff.spin();
                }
            }
            if !waits(&passage.walker) {
                return passage;
            }
        }
        unreachable!()
    }

    /// Loads the spin word once: its process goes on, or is unchanged.
    #[inline(always)]
    pub(crate) fn look(self) -> Self
        requires { is_waiting self.walk.process ≡ true }
        ensures of { result.of ≡ self.entry.of }
        ensures looked { HasLooked L self.entry.walk.process result.walk }
        ensures vain { is_waiting result.walk.process ≡ true → result.vain ≡ true }
        ensures way { WalksTo self.entry.walk result.walk }
    {
        let mut passage = self;
        match passage.walker.process() {
            Process::Entering(_, EntryPoint::E8) => passage.write_out(EntryPoint::E8),
            Process::Entering(_, EntryPoint::E10) => passage.write_out(EntryPoint::E10),
            _ => unreachable!(),
        }
        passage.step();
        passage
    }

    /// Returns true if the process has won its level.
    #[inline(always)]
    pub(crate) fn has_won(&self) -> bool
        ensures { IsTrue result ↔ HasWon self.now.walk.process }
    {
        matches!(
            self.walker.process(),
            Process::Entering(_, EntryPoint::E1) | Process::Inside
        )
    }

    /// Makes the accesses of an exit until its place is idle. As on the way in, the accesses of a level are
    /// written out.
    #[inline(always)]
    pub(crate) fn release(self) -> Self
        requires { BeginsExit self.walk }
        ensures of { result.of ≡ self.entry.of }
        ensures idle { op_of result.walk ≡ Op.Idle }
        ensures least { self.entry.walk.remote ≤ result.walk.remote }
        ensures most { result.walk.remote ≤ self.entry.walk.remote + 3 * L }
        ensures way { WalksTo self.entry.walk result.walk }
    {
        let mut passage = self;
        passage.step();
        loop {
            passage.let_in();
            if let Process::Idle = passage.walker.process() {
                return passage;
            }
            passage.step();
        }
    }

    /// Loads who announced itself last at a level whose claim was given up, and lets a rival in.
    #[inline(always)]
    fn let_in(&mut self)
        requires { (level : ℕ) × (self.old.walk.process ≡ Leaving level X2) }
        ensures of { self.new.of ≡ self.old.of }
        ensures released { HasReleased self.new.walk }
        ensures onward { points_ahead self.new.walk < points_ahead self.old.walk }
        ensures least { self.old.walk.remote ≤ self.new.walk.remote }
        ensures count { self.new.walk.remote + most_remote self.old.walk
            ≤ self.old.walk.remote + most_remote self.new.walk }
        ensures way { WalksTo self.old.walk self.new.walk }
    {
        self.step();
        if let Process::Leaving(_, ExitPoint::X3(rival)) = self.walker.process() {
            self.step_for(rival);
        }
    }

    /// Writes the walker as it is before the first access of an entry, so that this access is compiled with a
    /// known walker.
    #[inline(always)]
    fn write_begun(&mut self)
        requires { BeginsEntry self.old.walk }
        ensures same { self.new ≡ self.old }
    {
        self.lock.holds_tree();
        let mut walker = Walker::new(TreeLock::<V, L>::shape(), self.place);
        walker.begin_entry();
        self.walker = walker;
    }

    /// Writes the walker at its own point, so that the next access is compiled with a known point.
    #[inline(always)]
    fn write_out(&mut self, point: EntryPoint)
        requires { (level : ℕ) × (self.old.walk.process ≡ Entering level point) }
        ensures same { self.new ≡ self.old }
        ensures at { (level : ℕ) × (self.new.walk.process ≡ Entering level point) }
    {
        let Process::Entering(level, _) = self.walker.process() else {
            unreachable!()
        };
        let remote = self.walker.remote();
        let shape = TreeLock::<V, L>::shape();
        self.walker = Walker::entering(shape, self.place, level, point, remote);
    }

    /// Makes the due access, which is no store in a rival's spin word.
    #[inline(always)]
    pub(crate) fn step(&mut self)
        requires { (op_of self.old.walk ≢ Op.Idle) × (op_of self.old.walk ≢ Op.Inside)
            × (is_to_ring self.old.walk.process ≡ false) }
        ensures of { self.new.of ≡ self.old.of }
        ensures goes { (found : ℕ) × (self.new.walk ≡ walk_after self.old.walk found)
            × (self.new.vain ≡ is_vain (bell_after self.old.walk.process found)) }
        ensures onward { ComesNearer self.old.walk self.new.walk }
        ensures count { self.new.walk.remote + most_remote self.old.walk
            ≤ self.old.walk.remote + most_remote self.new.walk }
        ensures way { WalksTo self.old.walk self.new.walk }
    {
        let lock = self.lock;
        let shared = &lock.table.shared;
        match self.walker.op() {
            Op::Load(number) => {
                let value = shared.load::<ProcessStep<L>>(&mut self.seat, SPACING * number);
                self.walker.saw(value);
            }
            Op::Store(number, value) => {
                shared.store::<ProcessStep<L>>(&mut self.seat, SPACING * number, value);
                self.walker.done();
            }
            Op::Inside | Op::Idle => unreachable!(),
        }
    }

    /// Makes the due access, the store in the spin word of that rival, and wakes the rival if it sleeps. Between the two
    /// the seat owes the rival a ring, and may take no other step.
    #[inline(always)]
    pub(crate) fn step_for(&mut self, rival: usize)
        requires { StoresFor rival self.old.walk.process }
        ensures of { self.new.of ≡ self.old.of }
        ensures goes { (found : ℕ) × (self.new.walk ≡ walk_after self.old.walk found) }
        ensures onward { ComesNearer self.old.walk self.new.walk }
        ensures count { self.new.walk.remote + most_remote self.old.walk
            ≤ self.old.walk.remote + most_remote self.new.walk }
        ensures way { WalksTo self.old.walk self.new.walk }
    {
        let lock = self.lock;
        let Op::Store(number, value) = self.walker.op() else {
            unreachable!()
        };
        lock.table
            .shared
            .store::<ProcessStep<L>>(&mut self.seat, SPACING * number, value);
        self.walker.done();
        lock.ring(&mut self.seat, rival);
    }
}
