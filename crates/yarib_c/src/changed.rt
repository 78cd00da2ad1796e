//! Which best routes commands change.
ghost use Rattle.std.specs.Prelude.{◌≡◌, ◌≢◌, ◌<◌, ◌^◌, length, IsSome, None, [], ◌∷◌};
ghost use Rattle.rt_rib.specs.Book.{IsFeed};
ghost use Rattle.rt_rib.specs.declared.commands.Cmd.{Cmd as Command};
ghost use Rattle.rt_rib.specs.Sequential.{changed_prefix};
ghost use Rattle.yarib_c.specs.Kinds.{routes_in, IsForwarding, IsSame};
ghost use Rattle.yarib_c.specs.Forms.{IsCommand};
ghost use Rattle.yarib_c.specs.Calls.{held_in, HandleHolds, Transition, IsKept, CommandRefused, WithHeld};
ghost use Rattle.yarib_c.specs.Changes.{change_as, CommandChanged, ShowsPurge, ChangeStatus};
ghost use Rattle.yarib_c.specs.Lists.{ShowsPart};
ghost use Rattle.yarib_c.specs.Statuses.{IsOneOf, Check};
ghost use Rattle.yarib_c.specs.declared.status.TheConstants.{DONE, NOTHING, BAD_NUMBER, BAD_COMMAND, NO_MEMORY, WRONG_KIND};

use crate::commands::{YaribCommand, YaribReply};
use crate::handle::{Yarib, with_held};
use crate::held::Held;
use crate::lists::FormOf;
use crate::routes::YaribRoute;
use crate::status::{BAD_COMMAND, BAD_NUMBER, DONE, NO_MEMORY, WRONG_KIND};
use rt_rib::{BestChange, PurgeChanges, feed_ok};
use std::alloc::Global;

/// A prefix whose best route has changed, and its best routes before and after. A route that isn't there has the `hop` 0.
#[repr(C)]
#[derive(Clone, Copy)]
pub struct YaribChange {
    pub before: YaribRoute,
    pub after: YaribRoute,
    pub base: u32,
    pub len: u8,
}

impl FormOf<BestChange> for YaribChange {
    ghost use Rattle.yarib_c.specs.Changes.{change_as};

    ghost form = { change_as };

    fn of(change: BestChange) -> YaribChange {
        YaribChange {
            before: YaribRoute::answer(change.before),
            after: YaribRoute::answer(change.after),
            base: change.prefix.base(),
            len: change.prefix.len(),
        }
    }
}

impl YaribChange {
    ghost use Rattle.yarib_c.specs.Changes.{told_change};

    /// Returns the change, or zeros if there is none.
    fn told(change: Option<BestChange>) -> YaribChange
        ensures { result ≡ told_change change }
    {
        match change {
            None => YaribChange {
                before: YaribRoute::NONE,
                after: YaribRoute::NONE,
                base: 0,
                len: 0,
            },
            Some(change) => YaribChange::of(change),
        }
    }
}

/// Answers an add, a replacement or a withdrawal as `yarib_apply` does, and writes what it changed: the best routes to its prefix
/// before and after, or zeros if no best route is another one.
#[unsafe(no_mangle)]
pub extern "C" fn yarib_apply_changed(
    alloc: Global,
    table: &mut Yarib,
    command: &YaribCommand,
    reply: &mut YaribReply,
    change: &mut YaribChange,
) -> u32
    ensures done { result ≡ DONE → Transition table.old table.new
        (λ old new. CommandChanged old new command.now reply.new change.new) }
    ensures refused { result ≡ NO_MEMORY → Transition table.old table.new (λ old new. CommandRefused old new command.now) }
    ensures kept { result ≢ DONE → IsKept table.old table.new }
    ensures silent { result ≢ DONE → (reply.new ≡ reply.old) × (change.new ≡ change.old) }
    ensures absent { result ≡ NOTHING → held_in table.old ≡ None }
    ensures number { result ≡ BAD_NUMBER → ¬ IsFeed command.now.feed }
    ensures command { result ≡ BAD_COMMAND → (cmd : Command) → IsCommand command.now cmd → ¬ IsSome (changed_prefix cmd) }
    ensures kind { result ≡ WRONG_KIND → HandleHolds table.old IsForwarding }
    ensures order { WithHeld table.old (ChangeStatus command.now) result }
    ensures known { IsOneOf (DONE ∷ NOTHING ∷ BAD_NUMBER ∷ BAD_COMMAND ∷ NO_MEMORY ∷ WRONG_KIND ∷ []) result }
{
    with_held!(table, alloc, held => apply_changed(&mut held, command, reply, change))
}

fn apply_changed(
    held: &mut Held,
    command: &YaribCommand,
    reply: &mut YaribReply,
    change: &mut YaribChange,
) -> u32
    ensures done { result ≡ DONE → CommandChanged held.old held.new command.now reply.new change.new }
    ensures refused { result ≡ NO_MEMORY → CommandRefused held.old held.new command.now }
    ensures kept { result ≢ DONE → IsSame held.old held.new }
    ensures silent { result ≢ DONE → (reply.new ≡ reply.old) × (change.new ≡ change.old) }
    ensures number { result ≡ BAD_NUMBER → ¬ IsFeed command.now.feed }
    ensures command { result ≡ BAD_COMMAND → (cmd : Command) → IsCommand command.now cmd → ¬ IsSome (changed_prefix cmd) }
    ensures kind { result ≡ WRONG_KIND → IsForwarding held.old }
    ensures order { ChangeStatus command.now held.old result }
    ensures known { IsOneOf (DONE ∷ BAD_NUMBER ∷ BAD_COMMAND ∷ NO_MEMORY ∷ WRONG_KIND ∷ []) result }
{
    if !feed_ok(command.feed) {
        return BAD_NUMBER;
    }
    let Some(cmd) = command.read_change() else {
        return BAD_COMMAND;
    };
    match held.answer_changed(command.feed, cmd) {
        None => WRONG_KIND,
        Some(Err(_)) => NO_MEMORY,
        Some(Ok((answer, changed))) => {
            *reply = YaribReply::of(answer);
            *change = YaribChange::told(changed);
            DONE
        }
    }
}

/// Writes which best routes a purge of the feed would change, in dump order: those from the index `skip` on, and their total number.
#[unsafe(no_mangle)]
pub extern "C" fn yarib_purge_changes(
    alloc: Global,
    table: &mut Yarib,
    feed: u32,
    skip: usize,
    changes: &mut [YaribChange],
    total: &mut usize,
) -> u32
    ensures done { result ≡ DONE → HandleHolds table.old (λ held. ShowsPurge feed (routes_in held) skip changes.new total.new) }
    ensures same { held_in table.new ≡ held_in table.old }
    ensures absent { result ≡ NOTHING → held_in table.old ≡ None }
    ensures number { result ≡ BAD_NUMBER → ¬ IsFeed feed }
    ensures kind { result ≡ WRONG_KIND → HandleHolds table.old IsForwarding }
    ensures silent { result ≢ DONE → (changes.new ≡ changes.old) × (total.new ≡ total.old) }
    ensures order { WithHeld table.old (λ held. Check (¬ IsFeed feed) BAD_NUMBER (Check (IsForwarding held) WRONG_KIND (IsOneOf (DONE ∷ [])))) result }
    ensures known { IsOneOf (DONE ∷ NOTHING ∷ BAD_NUMBER ∷ WRONG_KIND ∷ []) result }
{
    with_held!(table, alloc, held => {
        if !feed_ok(feed) {
            BAD_NUMBER
        } else {
            match held.table() {
                None => WRONG_KIND,
                Some(table) => {
                    // There is at most one change for each of these.
                    let _prefixes = table.prefixes();
                    *total = put_changes(table.purge_changes(feed), skip, changes);
                    DONE
                }
            }
        }
    })
}

/// Writes the changes from the index `skip` on, as far as there is room, and returns the number of all changes.
fn put_changes(all: PurgeChanges<'_, Global>, skip: usize, places: &mut [YaribChange]) -> usize
    requires { length all < 2 ^ 64 }
    ensures { ShowsPart change_as all.entry skip places.new result }
{
    let mut total: usize = 0;
    for change in all {
        if skip <= total && total - skip < places.len() {
            places[total - skip] = YaribChange::of(change);
        }
        total += 1;
    }
    total
}
