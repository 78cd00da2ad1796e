//! The gates that answer a feed's commands: any gate, and the one to the shared table.
ghost use Rattle.std.specs.Prelude.{◌≡◌, List, [], ◌∷◌, IfOk, OnOk, OnErr};
ghost use Rattle.rt_shared.specs.JournalVisits.{AnsweredBatch};
ghost use Rattle.rt_feed.specs.Visits.{Gains, AnswersBatch, AreOneList};

use rt_rib::{Cmd, Refused, Reply};
use rt_shared::{FeedPass, Outcome, SharedRib};
use std::fmt;
use std::marker::Model;
use std::sync::Wait;

/// Answers the commands of one feed. A gate has a name, which no call changes, and holds visits: the answers of each
/// call, in order. A refused command is in no visit. Each gate holds some visits, and all lists of visits that it holds
/// have the same commands and replies, so its gains say something about it. A gate can move to a thread.
pub trait Gate: Send {
    /// The type of a gate's name.
    ghost Name: { Type 0 };

    ghost name: { Self → Name };

    /// The gate holds these visits.
    ghost holds: { Self → List AnsweredBatch → Type 0 };

    /// Answers one command. M1: `Refused`; the visit is then empty.
    fn apply<R: Wait>(&mut self, rt: &R, cmd: Cmd) -> Result<Reply, Refused>
        ensures name { name self.new ≡ name self.old }
        ensures ok { IfOk result (λ reply. Gains holds self.old self.new (((cmd, reply) ∷ []) ∷ [])) }
        ensures err { OnErr result (Gains holds self.old self.new ([] ∷ [])) };

    /// Answers the commands in order in one visit, and appends an outcome for each to `out`. A command for which memory
    /// ran out has an outcome too, and the rest go on. M2: `Refused` if `out` can't grow; then `out` is unchanged and
    /// the visit is empty.
    fn apply_batch<R: Wait>(
        &mut self,
        rt: &R,
        cmds: &[Cmd],
        out: &mut Vec<Outcome>,
    ) -> Result<(), Refused>
        ensures name { name self.new ≡ name self.old }
        ensures ok { OnOk result (AnswersBatch holds self.old self.new cmds.now out.old.items out.new.items) }
        ensures err { OnErr result ((out.new.items ≡ out.old.items) × Gains holds self.old self.new ([] ∷ [])) };

    /// Each gate holds some visits.
    ghost holds_some: { (gate : Self) → (visits : List AnsweredBatch) × holds gate visits };

    /// Its answers are one list: any two lists of visits that it holds have the same commands and replies, in order,
    /// however they are divided into visits.
    ghost holds_one: { (gate : Self) → AreOneList (holds gate) };
}

/// Answers a feed's commands by a shared table, with the feed's pass. Its name is its table and its feed, and it holds
/// visits that are uncut in the journal that its pass has seen. Contracts see it as its pass.
#[derive(Drop)]
pub struct TableGate<'a, const L: u32> {
    table: &'a SharedRib<L>,
    pass: FeedPass,
}

impl<'a, const L: u32> Model for TableGate<'a, L> {
    ghost use Rattle.std.specs.Prelude.{◌≡◌};
    ghost use Rattle.rt_shared.specs.SharedTable.{HeldPass};

    ghost Value = { HeldPass };

    ghost view = { λ g. g.pass };

    ghost invariant = { λ g. g.pass.table ≡ g.table.now };
}

impl<'a, const L: u32> TableGate<'a, L> {
    /// Returns the gate of the pass's feed to this table. Doesn't allocate.
    pub fn new(table: &'a SharedRib<L>, pass: FeedPass) -> TableGate<'a, L>
        requires { pass.table ≡ table.now }
        ensures { result ≡ pass }
    {
        TableGate { table, pass }
    }

    /// Returns its pass, with the journal that it has seen by now. Doesn't allocate.
    pub fn into_pass(self) -> FeedPass
        ensures { result ≡ self.entry }
    {
        self.pass
    }
}

impl<'a, const L: u32> fmt::Debug for TableGate<'a, L> {
    fn fmt<F: fmt::Write>(&self, f: &mut fmt::Formatter<F>) -> fmt::Result {
        f.debug_struct("TableGate")
            .field("feed", &self.pass.feed())
            .finish_non_exhaustive()
    }
}

impl<'a, const L: u32> Gate for TableGate<'a, L> {
    ghost use Rattle.std.specs.Prelude.{◌≡◌, ℕ, map};
    ghost use Rattle.rt_shared.specs.SharedTable.{SharedId};
    ghost use Rattle.rt_shared.specs.JournalVisits.{IsContiguousIn, entries};
    ghost use Rattle.rt_shared.specs.inside.VisitEntries.{visits_in, one_list};

    ghost Name = { SharedId × ℕ };

    ghost name = { λ gate. (gate.table, gate.feed) };

    ghost holds = { λ gate visits. IsContiguousIn gate.feed (map (entries gate.feed) visits) gate.seen };

    ghost holds_some = { λ gate. visits_in gate.feed gate.seen };

    ghost holds_one = { λ gate one two. one_list gate.feed gate.seen one two };

    fn apply<R: Wait>(&mut self, rt: &R, cmd: Cmd) -> Result<Reply, Refused> {
        self.table.apply(rt, &mut self.pass, cmd)
    }

    fn apply_batch<R: Wait>(
        &mut self,
        rt: &R,
        cmds: &[Cmd],
        out: &mut Vec<Outcome>,
    ) -> Result<(), Refused> {
        self.table.apply_batch(rt, &mut self.pass, cmds, out)
    }
}
