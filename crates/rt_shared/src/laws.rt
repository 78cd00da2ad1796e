//! Theorems on every journal that feeds make under the lock, and on their visits in it. Each function is a theorem:
//! calling it makes its clauses known, and it does nothing.
ghost use Rattle.std.specs.Prelude.{ℕ, ◌≤◌};
ghost use Rattle.rt_rib.specs.Sequential.{table_of_journal, IsLawfulJournal};
ghost use Rattle.rt_rib.specs.Table.{IsTable};
ghost use Rattle.ya_core.specs.Worlds.{World};
ghost use Rattle.rt_shared.specs.Headline.{Act, IsRunTo, journal_of, NoTwoInside, HasAllMade, FindsBest};
ghost use Rattle.ya_lock.specs.Rule.{Rule};
ghost use Rattle.ya_lock.specs.WakeUps.{IsStep, OwesOrHasPaid};
ghost use Rattle.rt_shared.specs.SharedTable.{GrowsByOthers};
ghost use Rattle.rt_shared.specs.Moments.{Moment, MeetsHeadline};
ghost use Rattle.rt_shared.specs.WakeUps.{NobodyIsForgotten};
ghost use Rattle.rt_shared.specs.Laws.{SinceAgain, AnsweredInPieces, UncutAtFirst, UncutSince, UncutByVisit, EntriesOfVisits, EntriesSince, PassesKept};

use crate::lent::Lent;
use crate::sequential::SequentialTable;
use rt_rib::laws::{lawful_by_entry, look_up_finds_best, table_by_entry};
use ya_core::laws::content;
use ya_lock::laws::{no_lost_wakeup, rule};

/// The visits of a feed are uncut in the journal that its pass has seen: each in one piece, in order, without another
/// entry of the feed. At first there is no visit; each call that serves commands adds one; and all remain uncut in any
/// journal that follows while the feed is away. Hence they are uncut in the settled journal, and the feed's entries
/// there are the entries of its visits, in order.
pub fn visits()
    ensures first { UncutAtFirst }
    ensures away { UncutSince }
    ensures call { UncutByVisit }
    ensures entries { EntriesOfVisits }
{}

/// Changes while a feed is away: two in a row are one such change, and the feed's entries stay the same.
pub fn away()
    ensures again { SinceAgain }
    ensures entries { EntriesSince }
{}

/// The entries of a feed's commands may be given piece by piece.
pub fn pieces()
    ensures { AnsweredInPieces }
{}

/// The passes of a table remain all its passes while each keeps its table and its feed. Every call that borrows one
/// ensures that.
pub fn passes()
    ensures { PassesKept }
{}

/// The journal of every run of the core's worlds is lawful if each command was answered as the sequential table answers
/// it after the copy of the journal to which it was appended. So nothing that was answered inside is lost or comes
/// later. Each feed may have LIMIT routes.
pub fn journal<const LIMIT: u32>()
    ensures { (levels : ℕ) (world : World Act) → IsRunTo LIMIT levels world → IsLawfulJournal LIMIT (journal_of world.content) }
{
    content::<SequentialTable<LIMIT>>();
    lawful_by_entry();
}

/// The main theorem. In every interleaving of any number of atomic steps, by at most 2 to the power of `levels`
/// processes, no two are inside. Each feed's entries in the journal are those that it made, in order. The journal is
/// lawful, so every reply is the sequential table's. The routes that it leaves are a table. Each look-up found the best
/// feed's route of the longest matching prefix.
///
/// A world of the core has only a journal, and no memory for nodes. So the table that the journal leaves takes the role
/// of the trie here; [`running`] states the theorem for the running lock's trie.
pub fn headline<const LIMIT: u32>()
    ensures exclusion { (levels : ℕ) (world : World Act) → IsRunTo LIMIT levels world → NoTwoInside world }
    ensures made { (levels : ℕ) (world : World Act) → IsRunTo LIMIT levels world → HasAllMade world }
    ensures lawful { (levels : ℕ) (world : World Act) → IsRunTo LIMIT levels world → IsLawfulJournal LIMIT (journal_of world.content) }
    ensures table { (levels : ℕ) (world : World Act) → IsRunTo LIMIT levels world → IsTable (table_of_journal LIMIT (journal_of world.content)) }
    ensures best { (levels : ℕ) (world : World Act) → IsRunTo LIMIT levels world → FindsBest LIMIT (journal_of world.content) }
{
    content::<SequentialTable<LIMIT>>();
    journal::<LIMIT>();
    table_by_entry();
    look_up_finds_best();
}

/// The same theorem for the running table, between any two atomic steps of its feeds. No two are inside. While the book
/// is in its slot, no process is inside. Its trie is lawful and holds exactly the routes left by its journal. The
/// journal is lawful, so every reply is the sequential table's. Each look-up found the best feed's route of the longest
/// matching prefix. The journal that a pass away has seen, or that was given to a pass still to be made, is a prefix of
/// the book's, with no entry of that pass's feed after it. Once it was given, the book is in its slot whenever the
/// views of all seats show no process inside.
///
/// The clauses `exclusion`, `at_home`, `nobody` and `since` come from the lock and hold only at such a moment; `holds`,
/// `lawful` and `best` are true of every lent book, whose type keeps them.
pub fn running<const L: u32>()
    requires { 1 ≤ L }
    ensures { (s : Moment) → Rule GrowsByOthers L s → MeetsHeadline s }
{
    rule::<Lent, L>();
    table_by_entry();
    look_up_finds_best();
}

/// Nobody is forgotten. At each moment between two atomic steps, a feed that may be asleep and could go on has its bell
/// off, which means that it isn't 1, or another feed owes it a ring (`rung`). A feed that owes a ring makes no step of its
/// process before its view says that it has paid, by which it has found the other's bell off, or has put it off
/// (`owing`): `rung` holds of that moment too.
///
/// That the ring then wakes the other rests on the kernel, and on four lines of the lock that no clause reads.
pub fn nobody_is_forgotten<const L: u32>()
    requires { 1 ≤ L }
    ensures rung { (s : Moment) → Rule GrowsByOthers L s → NobodyIsForgotten L s }
    ensures owing { (s t : Moment) → IsStep s t GrowsByOthers L → OwesOrHasPaid s t }
{
    rule::<Lent, L>();
    no_lost_wakeup::<Lent, L>();
}
