//! The state of one process, its due access, and its next state.
ghost use Rattle.std.specs.Prelude.{◌≡◌, ◌+◌, ◌-◌, ◌^◌, ◌<◌, ◌≤◌};
ghost use Rattle.ya_core.specs.declared.limits.TheConstants.{MAX_LEVELS, MAX_PLACES};
ghost use Rattle.ya_core.specs.ArbitrationTree.{node_of, side_of};
ghost use Rattle.ya_core.specs.Steps.{entry_access, exit_access, entry_next, exit_next, after_entry, after_exit};
ghost use Rattle.ya_core.specs.Steps.{access_of, next_of};
ghost use Rattle.ya_core.specs.Soundness.{IsProper};

use crate::word::{Access, Word};

/// The point that a process has reached on its way in at a level. The rival's place is known once the rival's claim has
/// been loaded.
#[derive(Clone, Copy, PartialEq, Eq, Debug)]
pub enum EntryPoint {
    /// Next: claim its side of the node.
    E1,
    /// Next: announce itself at the node.
    E2,
    /// Next: clear its spin word.
    E3,
    /// Next: look for a rival on the other side.
    E4,
    /// Next: load who announced itself last. Holds the rival's place.
    E5(usize),
    /// Next: load the rival's spin word. Holds the rival's place.
    E6(usize),
    /// Next: wake the rival. Holds the rival's place.
    E7(usize),
    /// Waits to be woken.
    E8,
    /// Next: load again who announced itself last.
    E9,
    /// Waits to be let in.
    E10,
}

/// The point that a process has reached on its way out at a level.
#[derive(Clone, Copy, PartialEq, Eq, Debug)]
pub enum ExitPoint {
    /// Next: give up its claim.
    X1,
    /// Next: load who announced itself last.
    X2,
    /// Next: let the rival in. Holds the rival's place.
    X3(usize),
}

/// A process of the lock, one for each place. Levels are counted from 1 (the leaves) up to the root.
#[derive(Clone, Copy, PartialEq, Eq, Debug)]
pub enum Process {
    /// Takes no part. Its next step is the first of an entry, at level 1.
    Idle,
    /// On its way in, at that point of that level; it holds every level below.
    Entering(u32, EntryPoint),
    /// Inside. Its next step is the first of an exit, at the root.
    Inside,
    /// On its way out, at that point of that level; it holds every level below.
    Leaving(u32, ExitPoint),
}

impl Process {
    /// Returns the due access of the process of this place.
    #[inline(always)]
    pub(crate) fn access(self, levels: u32, place: usize) -> Access
        requires least { 1 ≤ levels }
        requires most { levels ≤ MAX_LEVELS }
        requires room { place < 2 ^ levels }
        requires proper { IsProper levels place self }
        ensures { result ≡ access_of levels place self }
    {
        match self {
            Process::Idle => entry_access(1, place, EntryPoint::E1),
            Process::Entering(level, point) => entry_access(level, place, point),
            Process::Inside => exit_access(levels, place, ExitPoint::X1),
            Process::Leaving(level, point) => exit_access(level, place, point),
        }
    }

    /// Returns the process after its access, which loaded or stored the value.
    #[inline(always)]
    pub(crate) fn next(self, levels: u32, place: usize, value: u64) -> Process
        requires least { 1 ≤ levels }
        requires most { levels ≤ MAX_LEVELS }
        requires room { place < 2 ^ levels }
        requires proper { IsProper levels place self }
        ensures { result ≡ next_of levels place self value }
    {
        match self {
            Process::Idle => Process::Entering(1, EntryPoint::E2),
            Process::Entering(level, point) => entry_next(levels, level, place, point, value),
            Process::Inside => Process::Leaving(levels, ExitPoint::X2),
            Process::Leaving(level, point) => exit_next(level, place, point, value),
        }
    }
}

/// Returns the identifier that the words use for the place. The identifier 0 is nil.
#[inline(always)]
fn identifier_of(place: usize) -> u64
    requires { place < MAX_PLACES }
    ensures { result ≡ place + 1 }
{
    place as u64 + 1
}

/// Returns the place that the identifier names.
#[inline(always)]
fn identified_place(identifier: u64) -> usize
    ensures { result ≡ identifier - 1 }
{
    (identifier as usize).saturating_sub(1)
}

/// Returns the word C of the side on which the place competes.
#[tactic(auto, unfolding(crate::specs::ArbitrationTree::node_of, crate::specs::ArbitrationTree::side_of))]
#[inline(always)]
fn own_claim(level: u32, place: usize) -> Word
    requires least { 1 ≤ level }
    requires most { level ≤ MAX_LEVELS }
    ensures { result ≡ Word.C level (node_of level place) (side_of level place) }
{
    Word::C(level, place >> level, (place >> (level - 1)) % 2)
}

/// Returns the word C of the other side of its node.
#[tactic(auto, unfolding(crate::specs::ArbitrationTree::node_of, crate::specs::ArbitrationTree::side_of))]
#[inline(always)]
fn rival_claim(level: u32, place: usize) -> Word
    requires least { 1 ≤ level }
    requires most { level ≤ MAX_LEVELS }
    ensures { result ≡ Word.C level (node_of level place) (1 - side_of level place) }
{
    Word::C(level, place >> level, 1 - (place >> (level - 1)) % 2)
}

/// Returns the word T of the node below which the place competes.
#[tactic(auto, unfolding(crate::specs::ArbitrationTree::node_of, crate::specs::ArbitrationTree::side_of))]
#[inline(always)]
fn turn(level: u32, place: usize) -> Word
    requires most { level ≤ MAX_LEVELS }
    ensures { result ≡ Word.T level (node_of level place) }
{
    Word::T(level, place >> level)
}

/// Returns the due access at a point of the way in.
#[inline(always)]
fn entry_access(level: u32, place: usize, point: EntryPoint) -> Access
    requires least { 1 ≤ level }
    requires most { level ≤ MAX_LEVELS }
    requires room { place < MAX_PLACES }
    ensures { result ≡ entry_access level place point }
{
    let identifier = identifier_of(place);
    match point {
        EntryPoint::E1 => Access::Store(own_claim(level, place), identifier),
        EntryPoint::E2 => Access::Store(turn(level, place), identifier),
        EntryPoint::E3 => Access::Store(Word::P(level, place), 0),
        EntryPoint::E4 => Access::Load(rival_claim(level, place)),
        EntryPoint::E5(_) | EntryPoint::E9 => Access::Load(turn(level, place)),
        EntryPoint::E6(rival) => Access::Load(Word::P(level, rival)),
        EntryPoint::E7(rival) => Access::Store(Word::P(level, rival), 1),
        EntryPoint::E8 | EntryPoint::E10 => Access::Load(Word::P(level, place)),
    }
}

/// Returns the due access at a point of the way out.
#[inline(always)]
fn exit_access(level: u32, place: usize, point: ExitPoint) -> Access
    requires least { 1 ≤ level }
    requires most { level ≤ MAX_LEVELS }
    ensures { result ≡ exit_access level place point }
{
    match point {
        ExitPoint::X1 => Access::Store(own_claim(level, place), 0),
        ExitPoint::X2 => Access::Load(turn(level, place)),
        ExitPoint::X3(rival) => Access::Store(Word::P(level, rival), 2),
    }
}

/// Returns the process after a point of the way in whose access loaded the value.
#[inline(always)]
fn entry_next(levels: u32, level: u32, place: usize, point: EntryPoint, value: u64) -> Process
    requires most { level ≤ MAX_LEVELS }
    requires room { place < MAX_PLACES }
    ensures { result ≡ entry_next levels level place point value }
{
    let identifier = identifier_of(place);
    let next = match point {
        EntryPoint::E1 => EntryPoint::E2,
        EntryPoint::E2 => EntryPoint::E3,
        EntryPoint::E3 => EntryPoint::E4,
        EntryPoint::E4 if value == 0 => return after_entry(levels, level),
        EntryPoint::E4 => EntryPoint::E5(identified_place(value)),
        EntryPoint::E5(rival) if value == identifier => EntryPoint::E6(rival),
        EntryPoint::E6(rival) if value == 0 => EntryPoint::E7(rival),
        EntryPoint::E6(_) | EntryPoint::E7(_) => EntryPoint::E8,
        EntryPoint::E8 if value == 0 => EntryPoint::E8,
        EntryPoint::E8 => EntryPoint::E9,
        EntryPoint::E9 if value == identifier => EntryPoint::E10,
        EntryPoint::E10 if value != 2 => EntryPoint::E10,
        EntryPoint::E5(_) | EntryPoint::E9 | EntryPoint::E10 => return after_entry(levels, level),
    };
    Process::Entering(level, next)
}

/// Returns the process after a point of the way out whose access loaded the value.
#[inline(always)]
fn exit_next(level: u32, place: usize, point: ExitPoint, value: u64) -> Process
    requires room { place < MAX_PLACES }
    ensures { result ≡ exit_next level place point value }
{
    match point {
        ExitPoint::X1 => Process::Leaving(level, ExitPoint::X2),
        ExitPoint::X2 if value == identifier_of(place) => after_exit(level),
        ExitPoint::X2 => Process::Leaving(level, ExitPoint::X3(identified_place(value))),
        ExitPoint::X3(_) => after_exit(level),
    }
}

/// Returns the process after it won the level: at the next level, or inside after the root.
#[inline(always)]
fn after_entry(levels: u32, level: u32) -> Process
    requires { level ≤ MAX_LEVELS }
    ensures { result ≡ after_entry levels level }
{
    if level < levels {
        Process::Entering(level + 1, EntryPoint::E1)
    } else {
        Process::Inside
    }
}

/// Returns the process after it left the level: at the level below, or idle after the leaves.
#[inline(always)]
fn after_exit(level: u32) -> Process
    ensures { result ≡ after_exit level }
{
    if level > 1 {
        Process::Leaving(level - 1, ExitPoint::X1)
    } else {
        Process::Idle
    }
}
