//! Properties of every run of the lock's core, for any order of steps. They are laws of the definitions that specify
//! the walker and the machine. Each is a function with an empty body, whose contract is the law.

ghost use Rattle.std.specs.Prelude.{◌≡◌, ◌≢◌, ℕ, ◌+◌, ◌*◌, ◌^◌, ◌<◌, ◌≤◌, ◌⊎◌, IsTrue, Option, Some, List, ◌∷◌, ◌++◌};
ghost use Rattle.ya_core.specs.declared.word.Word.{Word};
ghost use Rattle.ya_core.specs.ArbitrationTree.{IsWord, node_of, side_of, number_of, count_of_words};
ghost use Rattle.ya_core.specs.Steps.{State, StepsTo, LeadTo, opening, access_of, value_of};
ghost use Rattle.ya_core.specs.Soundness.{IsSoundState, Away, phase_of, holds};
ghost use Rattle.ya_core.specs.declared.process.Process.TheVariants as process;
ghost use Rattle.ya_core.specs.Progress.{SomeoneGoesOn, SomeoneGoesOnIn, CanLeadTo, LevelStep, announces};
ghost use Rattle.ya_core.specs.Progress.{LevelSees, HasNotWon, times_overtaken};
ghost use Rattle.ya_core.specs.Fairness.{IsRunOfSchedule, IsFair, PicksEachAgain, Eventually, is_on_way_in, is_on_way_out};
ghost use Rattle.ya_core.specs.PassageCounts.{remote_accesses};
ghost use Rattle.ya_core.specs.WalkerModel.{Walk, IsWalk, BeginsEntry, BeginsExit, WalkLeadsTo, AccessIsWithin, MayFind};
ghost use Rattle.ya_core.specs.WalkerModel.{most_remote};
ghost use Rattle.ya_core.specs.Worlds.{Marked, World, Event, WorldSteps, WorldAppends};
ghost use Rattle.ya_core.specs.Worlds.{IsReached, Runs, IsInside, EachMayFollow, any_entry, entries_of, places_of};
ghost use Rattle.ya_core.specs.RealTime.{KeepsRealTimeOrder};

/// The invariant holds at the start, and each step of any place keeps it, in a tree of any number of levels.
pub fn soundness()
    ensures start { (levels : ℕ) → IsSoundState levels opening }
    ensures kept { (levels place : ℕ) (old new : State)
        → 1 ≤ levels → IsSoundState levels old → StepsTo levels place old new → IsSoundState levels new }
{}

/// Different words of a tree have different numbers, each below the number of words.
pub fn numbers()
    ensures apart { (levels : ℕ) (a b : Word) → IsWord levels a → IsWord levels b
        → number_of levels a ≡ number_of levels b → a ≡ b }
    ensures within { (levels : ℕ) (word : Word) → IsWord levels word
        → number_of levels word < count_of_words levels }
{}

/// If the invariant holds, the access due to a place is of a word of the tree, and a load finds a value that its word
/// can hold.
pub fn accesses()
    ensures word { (levels place : ℕ) (s : State)
        → 1 ≤ levels → place < 2 ^ levels → IsSoundState levels s
        → AccessIsWithin levels (access_of levels place (s.processes place)) }
    ensures value { (levels place : ℕ) (s : State) → IsSoundState levels s
        → let access = access_of levels place (s.processes place) in
        MayFind access (value_of s.words access) }
{}

/// Any place of the tree may step at any time, and its step has one outcome. The same holds of worlds; there a place
/// that is inside may also append any entry.
pub fn freedom<X>()
    ensures may { (levels place : ℕ) (old : State)
        → place < 2 ^ levels → (new : State) × StepsTo levels place old new }
    ensures one { (levels place : ℕ) (old new other : State)
        → StepsTo levels place old new → StepsTo levels place old other → new ≡ other }
    ensures world { (levels place : ℕ) (old : World X)
        → place < 2 ^ levels → (new : World X) × WorldSteps levels place old new }
    ensures append { (place : ℕ) (entry : X) (old : World X)
        → IsInside old.state place → (new : World X) × WorldAppends any_entry place entry old new }
{}

/// If the invariant holds, a side has one occupant: of two places on the same side of a node, at most one takes part at
/// that level, in any phase. At most one place below a node holds it.
pub fn levels()
    ensures side { (levels level p q : ℕ) (s : State)
        → IsSoundState levels s → 1 ≤ level → level ≤ levels
        → node_of level p ≡ node_of level q → side_of level p ≡ side_of level q
        → phase_of levels level (s.processes p) ≢ Away → phase_of levels level (s.processes q) ≢ Away → p ≡ q }
    ensures node { (levels level p q : ℕ) (s : State)
        → IsSoundState levels s → 1 ≤ level → level ≤ levels → node_of level p ≡ node_of level q
        → IsTrue (holds (phase_of levels level (s.processes p))) → IsTrue (holds (phase_of levels level (s.processes q)))
        → p ≡ q }
{}

/// At most one place is inside, in every state after any list of places has stepped one after another. [`content`]
/// states the same of every world.
pub fn exclusion()
    ensures { (levels : ℕ) (places : List ℕ) (s : State)
        → 1 ≤ levels → LeadTo levels opening places s
        → (p q : ℕ) → IsInside s p → IsInside s q → p ≡ q }
{}

/// The lock never deadlocks: if the invariant holds and some place takes part, then some place that takes part has a
/// step that changes its process. The same holds in every world that any list of events leads to. If the invariant
/// holds, then for each place on its way in some finite schedule leads it inside, and for each place that is inside or
/// on its way out some finite schedule leads it to idle.
pub fn no_deadlock<X>()
    ensures states { (levels place : ℕ) (s : State)
        → 1 ≤ levels → IsSoundState levels s → s.processes place ≢ process.Idle
        → SomeoneGoesOn levels s }
    ensures way_in { (levels place : ℕ) (s : State)
        → 1 ≤ levels → IsSoundState levels s → IsTrue (is_on_way_in (s.processes place))
        → CanLeadTo levels s (λ after. IsInside after place) }
    ensures way_out { (levels place : ℕ) (s : State)
        → 1 ≤ levels → IsSoundState levels s → IsInside s place ⊎ IsTrue (is_on_way_out (s.processes place))
        → CanLeadTo levels s (λ after. after.processes place ≡ process.Idle) }
    ensures worlds { (levels place : ℕ) (events : List (Event X)) (world : World X)
        → 1 ≤ levels → IsReached levels any_entry events world
        → world.state.processes place ≢ process.Idle → SomeoneGoesOnIn levels world }
{}

/// Nobody starves in the run of a fair schedule, from any state with the invariant. A place on its way in is inside
/// then or later. A place that is inside or on its way out is idle then or later.
///
/// At each time a schedule picks either one place, which steps, or no place; so a run that ends has a schedule too. A
/// schedule is fair if each place that isn't idle is picked then or later. Each schedule of places of the tree has
/// exactly one run from each state. Some schedule is fair from each state with the invariant, and picks each place
/// again and again.
pub fn starvation_freedom()
    ensures inside { (levels : ℕ) (schedule : ℕ → Option ℕ) (first : State) (states : ℕ → State)
        → 1 ≤ levels → IsSoundState levels first → IsRunOfSchedule levels schedule first states
        → IsFair schedule states
        → (place time : ℕ) → IsTrue (is_on_way_in ((states time).processes place))
        → Eventually time (λ later. IsInside (states later) place) }
    ensures idle { (levels : ℕ) (schedule : ℕ → Option ℕ) (first : State) (states : ℕ → State)
        → 1 ≤ levels → IsSoundState levels first → IsRunOfSchedule levels schedule first states
        → IsFair schedule states
        → (place time : ℕ)
        → IsInside (states time) place ⊎ IsTrue (is_on_way_out ((states time).processes place))
        → Eventually time (λ later. (states later).processes place ≡ process.Idle) }
    ensures run { (levels : ℕ) (schedule : ℕ → Option ℕ) (first : State)
        → ((time place : ℕ) → schedule time ≡ Some place → place < 2 ^ levels)
        → (states : ℕ → State) × IsRunOfSchedule levels schedule first states }
    ensures one { (levels : ℕ) (schedule : ℕ → Option ℕ) (first : State) (states other : ℕ → State)
        → IsRunOfSchedule levels schedule first states → IsRunOfSchedule levels schedule first other
        → (time : ℕ) → other time ≡ states time }
    ensures fair { (levels : ℕ) (first : State) → 1 ≤ levels → IsSoundState levels first
        → (turns : ℕ → ℕ) × (states : ℕ → State) × IsRunOfSchedule levels (λ time. Some (turns time)) first states
        × IsFair (λ time. Some (turns time)) states × PicksEachAgain levels turns }
{}

/// In every run, from a place's store of T at a node until it wins that node, the other side wins the node at most
/// once.
pub fn one_overtaking()
    ensures { (levels level place : ℕ) (before during : List LevelStep)
        → 1 ≤ level → level ≤ levels
        → LevelSees levels level opening (before ++ announces place ∷ during)
        → HasNotWon place during → times_overtaken level place during ≤ 1 }
{}

/// In every run, a place makes at most seven remote accesses for each level from a time when it is idle until it is
/// inside. From a time when it is inside until it is idle, it makes at most three for each level. Both bounds hold
/// however long it waits. The run begins at that time, in any state, so it may be the rest of a longer run.
pub fn passage_count()
    ensures way_in { (levels place end : ℕ) (schedule : ℕ → Option ℕ) (first : State) (states : ℕ → State)
        → 1 ≤ levels → IsRunOfSchedule levels schedule first states → first.processes place ≡ process.Idle
        → ((time : ℕ) → time < end → ¬ IsInside (states time) place)
        → remote_accesses place levels schedule states end ≤ 7 * levels }
    ensures way_out { (levels place end : ℕ) (schedule : ℕ → Option ℕ) (first : State) (states : ℕ → State)
        → 1 ≤ levels → IsRunOfSchedule levels schedule first states → IsInside first place
        → ((time : ℕ) → time < end → (states time).processes place ≢ process.Idle)
        → remote_accesses place levels schedule states end ≤ 3 * levels }
{}

/// The same bounds for a walker, whatever it loads: at most seven remote accesses for each level from `begin_entry`
/// until it is inside, and at most three for each level from `begin_exit` until it is idle again. Each point of a
/// passage has a bound (`most_remote`); between two points, the number of remote accesses is at most the difference of
/// their bounds.
pub fn access_count()
    ensures way_in { (start end : Walk) (values : List ℕ)
        → IsWalk start → BeginsEntry start → WalkLeadsTo start values end → end.remote ≤ 7 * start.levels }
    ensures way_out { (start end : Walk) (values : List ℕ)
        → IsWalk start → BeginsExit start → WalkLeadsTo start values end
        → end.remote ≤ start.remote + 3 * start.levels }
    ensures between { (start end : Walk) (values : List ℕ)
        → IsWalk start → WalkLeadsTo start values end
        → end.remote + most_remote start ≤ start.remote + most_remote end }
{}

/// The entries that may follow a list of entries, for the law [`content`].
pub trait Accept {
    /// The type of the entries that places append.
    type Entry;

    ghost ok: { List (Marked Self.Entry) → Marked Self.Entry → Type 0 };
}

/// In every world that any list of events leads to, at most one place is inside, and the entries of each place in the
/// content are those that it made, in order. If each entry was acceptable after the copy to which it was appended, each
/// is acceptable after the entries before it in the content; such a run is also a run with any entries. Whatever is
/// appended, the steps of the run lead from the opening state to the world's state.
pub fn content<K: Accept>()
    ensures state { (levels : ℕ) (events : List (Event K.Entry)) (world : World K.Entry)
        → IsReached levels any_entry events world
        → LeadTo levels opening (places_of events) world.state }
    ensures exclusion { (levels : ℕ) (events : List (Event K.Entry)) (world : World K.Entry)
        → 1 ≤ levels → IsReached levels any_entry events world
        → (p q : ℕ) → IsInside world.state p → IsInside world.state q → p ≡ q }
    ensures kept { (levels : ℕ) (events : List (Event K.Entry)) (world : World K.Entry)
        → 1 ≤ levels → IsReached levels any_entry events world
        → (place : ℕ) → entries_of place world.content ≡ world.made place }
    ensures any { (levels : ℕ) (events : List (Event K.Entry)) (world : World K.Entry)
        → IsReached levels K.ok events world → IsReached levels any_entry events world }
    ensures lawful { (levels : ℕ) (events : List (Event K.Entry)) (world : World K.Entry)
        → 1 ≤ levels → IsReached levels K.ok events world → EachMayFollow K.ok world.content }
{}

/// Each run is *linearizable* (Herlihy and Wing 1990): besides the properties in [`content`], the content is in
/// real-time order. The content at each time is a prefix of the content at every later time, and contains all
/// entries made by then. Hence every entry made by a passage that has ended comes before all entries of passages
/// that begin later.
pub fn real_time<X>()
    ensures { (levels : ℕ) (earlier later : List (Event X)) (early late : World X)
        → 1 ≤ levels → IsReached levels any_entry earlier early → Runs levels any_entry early later late
        → KeepsRealTimeOrder early late }
{}
