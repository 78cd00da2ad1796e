//! Calls that make, change and free a table.
ghost use Rattle.std.specs.Prelude.{◌≡◌, ◌≢◌, ◌≤◌, ◌<◌, ◌⊎◌, None, length, [], ◌∷◌};
ghost use Rattle.rt_rib.specs.Book.{IsLimit, IsFeed};
ghost use Rattle.rt_rib.specs.declared.commands.Cmd.{Cmd as Command};
ghost use Rattle.yarib_c.specs.Kinds.{IsForwarding, IsNew, IsSame, HasRoom};
ghost use Rattle.yarib_c.specs.Forms.{IsCommand};
ghost use Rattle.yarib_c.specs.Calls.{held_in, HandleHolds, Transition, IsKept, CommandAnswered, CommandRefused, HasOutcome, HaveOutcomes, WithHeld, CommandStatus};
ghost use Rattle.yarib_c.specs.Statuses.{IsOneOf, Check};
ghost use Rattle.yarib_c.specs.declared.status.TheConstants.{DONE, NOTHING, BAD_NUMBER, BAD_COMMAND, NO_MEMORY, BAD_SIZE, WRONG_KIND};

use crate::commands::{YaribCommand, YaribReply};
use crate::handle::{Yarib, with_held};
use crate::held::Held;
use crate::status::{BAD_COMMAND, BAD_NUMBER, BAD_SIZE, DONE, NO_MEMORY, WRONG_KIND};
use rt_rib::{feed_ok, limit_ok};
use std::alloc::Global;

/// Makes an empty table. `limit` is the maximum number of routes of each feed, 1 to 1,000,000. If `journal` is 1 it keeps a journal,
/// and if it is 0 it doesn't. What the handle held before is freed, unless the call does nothing.
#[unsafe(no_mangle)]
pub extern "C" fn yarib_new(alloc: Global, table: &mut Yarib, limit: u32, journal: u32) -> u32
    ensures done { result ≡ DONE → IsLimit limit × (journal ≤ 1) × HandleHolds table.new (IsNew limit journal) }
    ensures number { result ≡ BAD_NUMBER → (¬ IsLimit limit) ⊎ (1 < journal) }
    ensures kept { result ≢ DONE → held_in table.new ≡ held_in table.old }
    ensures order { Check ((¬ IsLimit limit) ⊎ (1 < journal)) BAD_NUMBER (IsOneOf (DONE ∷ NO_MEMORY ∷ [])) result }
    ensures known { IsOneOf (DONE ∷ BAD_NUMBER ∷ NO_MEMORY ∷ []) result }
{
    if !limit_ok(limit) {
        return BAD_NUMBER;
    }
    let Some(held) = Held::new(alloc, limit, journal) else {
        return BAD_NUMBER;
    };
    let Ok(held) = Box::new(alloc, held) else {
        return NO_MEMORY;
    };
    *table = Yarib::of(held);
    DONE
}

/// Frees what the handle holds, if anything.
#[unsafe(no_mangle)]
pub extern "C" fn yarib_free(alloc: Global, table: &mut Yarib)
    ensures { held_in table.new ≡ None }
{
    drop(table.take(alloc));
}

/// Makes room for this number of entries in the journal, if there is one.
#[unsafe(no_mangle)]
pub extern "C" fn yarib_reserve(alloc: Global, table: &mut Yarib, entries: usize) -> u32
    ensures done { result ≡ DONE → Transition table.old table.new (HasRoom entries) }
    ensures absent { result ≡ NOTHING → held_in table.old ≡ None }
    ensures kept { IsKept table.old table.new }
    ensures order { WithHeld table.old (λ _. IsOneOf (DONE ∷ NO_MEMORY ∷ [])) result }
    ensures known { IsOneOf (DONE ∷ NOTHING ∷ NO_MEMORY ∷ []) result }
{
    with_held!(table, alloc, held => match held.reserve(entries) {
        Ok(()) => DONE,
        Err(_) => NO_MEMORY,
    })
}

/// Answers a command, and keeps command and reply in the journal, if there is one. A look-up or a dump changes no route.
#[unsafe(no_mangle)]
pub extern "C" fn yarib_apply(
    alloc: Global,
    table: &mut Yarib,
    command: &YaribCommand,
    reply: &mut YaribReply,
) -> u32
    ensures done { result ≡ DONE → Transition table.old table.new (λ old new. CommandAnswered old new command.now reply.new) }
    ensures refused { result ≡ NO_MEMORY → Transition table.old table.new (λ old new. CommandRefused old new command.now) }
    ensures kept { result ≢ DONE → IsKept table.old table.new }
    ensures silent { result ≢ DONE → reply.new ≡ reply.old }
    ensures absent { result ≡ NOTHING → held_in table.old ≡ None }
    ensures number { result ≡ BAD_NUMBER → ¬ IsFeed command.now.feed }
    ensures command { result ≡ BAD_COMMAND → (cmd : Command) → ¬ IsCommand command.now cmd }
    ensures kind { result ≡ WRONG_KIND → HandleHolds table.old IsForwarding }
    ensures order { WithHeld table.old (CommandStatus command.now) result }
    ensures known { IsOneOf (DONE ∷ NOTHING ∷ BAD_NUMBER ∷ BAD_COMMAND ∷ NO_MEMORY ∷ WRONG_KIND ∷ []) result }
{
    with_held!(table, alloc, held => apply(&mut held, command, reply))
}

fn apply(held: &mut Held, command: &YaribCommand, reply: &mut YaribReply) -> u32
    ensures done { result ≡ DONE → CommandAnswered held.old held.new command.now reply.new }
    ensures refused { result ≡ NO_MEMORY → CommandRefused held.old held.new command.now }
    ensures kept { result ≢ DONE → IsSame held.old held.new }
    ensures silent { result ≢ DONE → reply.new ≡ reply.old }
    ensures number { result ≡ BAD_NUMBER → ¬ IsFeed command.now.feed }
    ensures command { result ≡ BAD_COMMAND → (cmd : Command) → ¬ IsCommand command.now cmd }
    ensures kind { result ≡ WRONG_KIND → IsForwarding held.old }
    ensures order { CommandStatus command.now held.old result }
    ensures known { IsOneOf (DONE ∷ BAD_NUMBER ∷ BAD_COMMAND ∷ NO_MEMORY ∷ WRONG_KIND ∷ []) result }
{
    if !feed_ok(command.feed) {
        return BAD_NUMBER;
    }
    let Some(cmd) = command.read() else {
        return BAD_COMMAND;
    };
    match held.answer(command.feed, cmd) {
        None => WRONG_KIND,
        Some(Err(_)) => NO_MEMORY,
        Some(Ok(answer)) => {
            *reply = YaribReply::of(answer);
            DONE
        }
    }
}

/// Answers the commands one after another. Each command has its reply at the same index. A command without a reply has the code 0
/// there, and the status that says why; the commands after it are still answered. Both lists have the same length.
#[unsafe(no_mangle)]
pub extern "C" fn yarib_apply_each(
    alloc: Global,
    table: &mut Yarib,
    commands: &[YaribCommand],
    replies: &mut [YaribReply],
) -> u32
    ensures done { result ≡ DONE → Transition table.old table.new (λ old new. HaveOutcomes old new commands.now replies.new) }
    ensures kept { result ≢ DONE → held_in table.new ≡ held_in table.old }
    ensures silent { result ≢ DONE → replies.new ≡ replies.old }
    ensures absent { result ≡ NOTHING → held_in table.old ≡ None }
    ensures size { result ≡ BAD_SIZE → length replies.old ≢ length commands.now }
    ensures order { Check (length replies.old ≢ length commands.now) BAD_SIZE (WithHeld table.old (λ _. IsOneOf (DONE ∷ []))) result }
    ensures known { IsOneOf (DONE ∷ NOTHING ∷ BAD_SIZE ∷ []) result }
{
    if replies.len() != commands.len() {
        return BAD_SIZE;
    }
    with_held!(table, alloc, held => {
        apply_each(&mut held, commands, replies);
        DONE
    })
}

fn apply_each(held: &mut Held, commands: &[YaribCommand], replies: &mut [YaribReply])
    requires { length replies.old ≡ length commands.now }
    ensures { HaveOutcomes held.old held.new commands.now replies.new }
{
    for k in 0..commands.len() {
        replies[k] = outcome(held, &commands[k]);
    }
}

fn outcome(held: &mut Held, command: &YaribCommand) -> YaribReply
    ensures { HasOutcome held.old held.new command.now result }
{
    let mut reply = YaribReply::unanswered(DONE);
    match apply(held, command, &mut reply) {
        DONE => reply,
        status => YaribReply::unanswered(status),
    }
}
