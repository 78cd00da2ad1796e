//! One process, driven by the values that its caller loads.
ghost use Rattle.std.specs.Prelude.{◌≡◌, ◌↔◌, ℕ, ◌+◌, ◌-◌, ◌*◌, ◌^◌, ◌<◌, ◌≤◌, true, false, IsTrue, IsFalse};
ghost use Rattle.ya_core.specs.declared.process.Process.TheVariants.{Idle, Inside, Entering};
ghost use Rattle.ya_core.specs.declared.limits.TheConstants.{MAX_LEVELS};
ghost use Rattle.ya_core.specs.ArbitrationTree.{node_of, side_of};
ghost use Rattle.ya_core.specs.Steps.{access_of};
ghost use Rattle.ya_core.specs.WalkerModel.{IsWalk, walk, walk_after, op_of, due, due_of, cost_of};
ghost use Rattle.ya_core.specs.WalkerModel.{FitsDue, CanStand, AdvancesOrSpins, OpIsWithin, MayBeTold};
ghost use Rattle.ya_core.specs.inside.WalkerModel.{DueIsWithin, LevelIsSmall};

use crate::process::{EntryPoint, Process};
use crate::shape::Shape;
use crate::word::{Access, Word};
use std::marker::Model;

/// The next request of a walker.
#[derive(Clone, Copy, PartialEq, Eq, Debug)]
pub enum Op {
    /// Load the word with this number, then pass its value to `saw`.
    Load(usize),
    /// Store this value in the word with this number, then call `done`.
    Store(usize, u64),
    /// No access: the process is inside until `begin_exit`.
    Inside,
    /// No access: the process is idle until `begin_entry`.
    Idle,
}

/// One process of the lock. Its caller makes the accesses and passes each loaded value to it.
///
/// ```text
/// walker.begin_entry();
/// loop {
///     match walker.op() {
///         Op::Load(number) => { let value = words[number]; assert!(rt; walker.fits(value)); walker.saw(value); }
///         Op::Store(number, value) => { words[number] = value; walker.done(); }
///         Op::Inside | Op::Idle => break,
///     }
/// }
/// ```
///
/// Contracts see a `Walk`. This has its levels, place and process, whether its entry or exit was begun without an
/// access yet, and its remote accesses.
#[derive(Clone, Copy, Debug)]
pub struct Walker {
    shape: Shape,
    place: usize,
    process: Process,
    begun: bool,
    remote: u64,
}

impl Model for Walker {
    ghost use Rattle.ya_core.specs.WalkerModel.{Walk, IsWalk, walk};

    ghost Value = { Walk };

    ghost view = { λ w. walk w.shape w.place w.process w.begun w.remote };

    ghost invariant = { λ w. IsWalk (walk w.shape w.place w.process w.begun w.remote) };

    ghost inverse = { λ w. record {
      shape = w.levels;
      place = w.place;
      process = w.process;
      begun = w.begun;
      remote = w.remote;
    } };
}

impl Walker {
    /// Returns an idle process of that place.
    #[inline(always)]
    pub fn new(shape: Shape, place: usize) -> Walker
        requires { place < 2 ^ shape }
        ensures { result ≡ walk shape place Idle false 0 }
    {
        Walker {
            shape,
            place,
            process: Process::Idle,
            begun: false,
            remote: 0,
        }
    }

    /// Returns the process of that place inside, after `remote` remote accesses.
    #[inline(always)]
    pub fn inside(shape: Shape, place: usize, remote: u64) -> Walker
        requires place { place < 2 ^ shape }
        requires remote { remote ≤ 7 * shape }
        ensures { result ≡ walk shape place Inside false remote }
    {
        Walker {
            shape,
            place,
            process: Process::Inside,
            begun: false,
            remote,
        }
    }

    /// Returns the process of that place on its way in, at that point of that level, after `remote` remote accesses.
    #[inline(always)]
    pub fn entering(
        shape: Shape,
        place: usize,
        level: u32,
        point: EntryPoint,
        remote: u64,
    ) -> Walker
        requires { IsWalk (walk shape place (Entering level point) false remote) }
        ensures { result ≡ walk shape place (Entering level point) false remote }
    {
        Walker {
            shape,
            place,
            process: Process::Entering(level, point),
            begun: false,
            remote,
        }
    }

    /// Returns the current state of the process.
    #[inline(always)]
    pub fn process(&self) -> Process
        ensures value { result ≡ self.now.process }
        ensures proper { IsWalk self.now }
    {
        self.process
    }

    /// Returns the next request of the process. The number of a word is below the number of words.
    #[inline(always)]
    pub fn op(&self) -> Op
        ensures value { result ≡ op_of self.now }
        ensures within { OpIsWithin self.now.levels result }
        ensures proper { IsWalk self.now }
    {
        match self.due() {
            Some(Access::Load(word)) => Op::Load(self.shape.number(word)),
            Some(Access::Store(word, value)) => Op::Store(self.shape.number(word), value),
            None => self.pause(),
        }
    }

    /// Returns true if the due access is a load and its word can hold the value. A word C holds nil or the identifier
    /// of a place on that side, a word T the identifier of a place below the node, and a word P 0, 1 or 2.
    pub fn fits(&self, value: u64) -> bool
        ensures { IsTrue result ↔ FitsDue self.now value }
    {
        match self.due() {
            Some(Access::Load(word)) => can_stand(word, value),
            _ => false,
        }
    }

    /// Takes the step of the due load, which found the value. Call it only if `op` is a load and `fits` accepts
    /// the value.
    #[inline(always)]
    pub fn saw(&mut self, value: u64)
        requires { FitsDue self.old value }
        ensures after { self.new ≡ walk_after self.old value }

        // It comes to a later point or level, unless it waits and found its own spin word unchanged.
        ensures onward { AdvancesOrSpins self.old self.new }
    {
        self.go_on(value)
    }

    /// Takes the step of the due store. Call it only if `op` is a store. The next state is the same for every value.
    #[inline(always)]
    pub fn done(&mut self)
        requires { (number value : ℕ) × (op_of self.old ≡ Op.Store number value) }
        ensures after { (value : ℕ) → self.new ≡ walk_after self.old value }

        // As for `saw`.
        ensures onward { AdvancesOrSpins self.old self.new }
    {
        self.go_on(0)
    }

    /// Begins an entry: its first access becomes due, and remote accesses are counted from 0.
    #[inline(always)]
    pub fn begin_entry(&mut self)
        requires { op_of self.old ≡ Op.Idle }
        ensures { self.new ≡ record self.old { begun = true; remote = 0 } }
    {
        (self.begun, self.remote) = (true, 0);
    }

    /// Begins an exit: its first access becomes due.
    #[inline(always)]
    pub fn begin_exit(&mut self)
        requires { op_of self.old ≡ Op.Inside }
        ensures { self.new ≡ record self.old { begun = true } }
    {
        self.begun = true;
    }

    /// Returns the number of remote accesses since `begin_entry`: all accesses except those of its own words P. At most
    /// seven for each level when it is inside, and at most three more for each level when it is idle again.
    pub fn remote(&self) -> u64
        ensures value { result ≡ self.now.remote }
        ensures inside { op_of self.now ≡ Op.Inside → result ≤ 7 * self.now.levels }
        ensures idle { op_of self.now ≡ Op.Idle → result ≤ 10 * self.now.levels }
    {
        self.remote
    }

    /// Returns the due access, or `None` if the process is idle or inside and its entry or exit was not begun.
    #[inline(always)]
    fn due(&self) -> Option<Access>
        ensures value { result ≡ due self.now }
        ensures within { DueIsWithin self.now.levels result }
        ensures proper { IsWalk self.now }
    {
        if is_at_rest(self.process, self.begun) {
            return None;
        }
        Some(self.process.access(self.shape.levels(), self.place))
    }

    /// Returns the request of a process that is idle or inside.
    #[inline(always)]
    fn pause(&self) -> Op
        requires { due self.now ≡ None }
        ensures { result ≡ op_of self.now }
    {
        if matches!(self.process, Process::Inside) {
            Op::Inside
        } else {
            Op::Idle
        }
    }

    /// Takes the step of the due access, which loaded or stored the value.
    #[inline(always)]
    fn go_on(&mut self, value: u64)
        requires { MayBeTold (due self.old) value }
        ensures after { self.new ≡ walk_after self.old value }
        ensures onward { AdvancesOrSpins self.old self.new }
    {
        let levels = self.shape.levels();
        self.remote += cost(self.process.access(levels, self.place), self.place);
        self.process = self.process.next(levels, self.place, value);
        self.begun = false;
    }
}

/// Returns true if the process is idle or inside and its entry or exit was not begun.
#[inline(always)]
fn is_at_rest(process: Process, begun: bool) -> bool
    ensures rests { IsTrue result → (levels place : ℕ)
        → due_of levels place process begun ≡ None }
    ensures goes { IsFalse result → (levels place : ℕ)
        → due_of levels place process begun ≡ Some (access_of levels place process) }
{
    !begun && matches!(process, Process::Idle | Process::Inside)
}

/// Returns the number of remote accesses in this access of the place: 0 for its own words P, else 1.
#[inline(always)]
fn cost(access: Access, place: usize) -> u64
    ensures value { result ≡ cost_of place access }
    ensures most { result ≤ 1 }
{
    let word = match access {
        Access::Load(word) | Access::Store(word, _) => word,
    };
    match word {
        Word::P(_, owner) if owner == place => 0,
        _ => 1,
    }
}

/// Returns true if the word can hold the value.
fn can_stand(word: Word, value: u64) -> bool
    requires { LevelIsSmall word }
    ensures { IsTrue result ↔ CanStand word value }
{
    match word {
        Word::C(level, node, side) => value == 0
            || is_below(level, node, value) && is_on_side(level, side, value),
        Word::T(level, node) => is_below(level, node, value),
        Word::P(_, _) => value <= 2,
    }
}

/// Returns true if the identifier is that of a place below the node.
#[tactic(auto, unfolding(crate::specs::ArbitrationTree::node_of, crate::specs::ArbitrationTree::side_of))]
fn is_below(level: u32, node: usize, identifier: u64) -> bool
    requires { level ≤ MAX_LEVELS }
    ensures { IsTrue result ↔ ((1 ≤ identifier) × (node_of level (identifier - 1) ≡ node)) }
{
    identifier > 0 && (identifier - 1) >> level == node as u64
}

/// Returns true if the identifier is that of a place on that side at its node.
#[tactic(auto, unfolding(crate::specs::ArbitrationTree::node_of, crate::specs::ArbitrationTree::side_of))]
fn is_on_side(level: u32, side: usize, identifier: u64) -> bool
    requires least { 1 ≤ level }
    requires most { level ≤ MAX_LEVELS }
    requires some { 1 ≤ identifier }
    ensures { IsTrue result ↔ (side_of level (identifier - 1) ≡ side) }
{
    ((identifier - 1) >> (level - 1)) % 2 == side as u64
}
