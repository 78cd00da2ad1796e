//! Forwarding tables. One is made from a table, is queried like a table, and is held by a handle for each thread that queries it.
//! Another kind belongs to a table and follows the table's commands.
ghost use Rattle.std.specs.Prelude.{◌≡◌, ◌≢◌, None, [], ◌∷◌, IfSome};
ghost use Rattle.yarib_c.specs.Kinds.{routes_in, IsForwarding, IsFollowed, SaysFollowed, IsPlain, IsSame};
ghost use Rattle.yarib_c.specs.Sizes.{TakesBytes};
ghost use Rattle.yarib_c.specs.Calls.{held_in, HandleHolds, IsFibWithRoutes, IsKept, WithHeld};
ghost use Rattle.yarib_c.specs.Statuses.{IsOneOf, Check};
ghost use Rattle.yarib_c.specs.declared.status.TheConstants.{DONE, NOTHING, NO_MEMORY, WRONG_KIND};

use crate::handle::{Yarib, with_held};
use crate::held::Held;
use crate::status::{DONE, NO_MEMORY, WRONG_KIND};
use rt_fib::Fib;
use rt_rib::Table;
use std::alloc::Global;
use std::sync::Arc;

/// Makes a forwarding table with the current answers of the table. What its handle held before is freed, unless the call does
/// nothing.
#[unsafe(no_mangle)]
pub extern "C" fn yarib_fib_new(alloc: Global, table: &mut Yarib, forwarding: &mut Yarib) -> u32
    ensures done { result ≡ DONE → HandleHolds table.old (λ held. HandleHolds forwarding.new (IsFibWithRoutes (routes_in held))) }
    ensures kept { result ≢ DONE → held_in forwarding.new ≡ held_in forwarding.old }
    ensures same { held_in table.new ≡ held_in table.old }
    ensures absent { result ≡ NOTHING → held_in table.old ≡ None }
    ensures kind { result ≡ WRONG_KIND → HandleHolds table.old IsForwarding }
    ensures order { WithHeld table.old (λ held. Check (IsForwarding held) WRONG_KIND (IsOneOf (DONE ∷ NO_MEMORY ∷ []))) result }
    ensures known { IsOneOf (DONE ∷ NOTHING ∷ NO_MEMORY ∷ WRONG_KIND ∷ []) result }
{
    with_held!(table, alloc, held => match held.table() {
        None => WRONG_KIND,
        Some(table) => match forwarded(alloc, table) {
            None => NO_MEMORY,
            Some(made) => {
                *forwarding = Yarib::of(made);
                DONE
            }
        },
    })
}

/// Returns a forwarding table with the answers of the table, unless memory runs out.
fn forwarded(alloc: Global, table: &Table<Global>) -> Option<Box<Held>>
    ensures { IfSome result (λ made. IsFibWithRoutes table.now.routes made.value) }
{
    let fib = Fib::new(alloc, table).ok()?;
    let fib = Arc::new(alloc, fib).ok()?;
    Box::new(alloc, Held::Forwarding(fib)).ok()
}

/// Makes another handle on the same forwarding table, for another thread. What that handle held before is freed, unless the call
/// does nothing. The two handles are different.
#[unsafe(no_mangle)]
pub extern "C" fn yarib_fib_clone(alloc: Global, forwarding: &mut Yarib, other: &mut Yarib) -> u32
    ensures done { result ≡ DONE → HandleHolds forwarding.old (λ held. HandleHolds other.new (IsFibWithRoutes (routes_in held))) }
    ensures kept { result ≢ DONE → held_in other.new ≡ held_in other.old }
    ensures same { held_in forwarding.new ≡ held_in forwarding.old }
    ensures absent { result ≡ NOTHING → held_in forwarding.old ≡ None }
    ensures kind { result ≡ WRONG_KIND → HandleHolds forwarding.old (λ held. ¬ IsForwarding held) }
    ensures order { WithHeld forwarding.old (λ held. Check (¬ IsForwarding held) WRONG_KIND (IsOneOf (DONE ∷ NO_MEMORY ∷ []))) result }
    ensures known { IsOneOf (DONE ∷ NOTHING ∷ NO_MEMORY ∷ WRONG_KIND ∷ []) result }
{
    with_held!(forwarding, alloc, held => match &*held {
        Held::Forwarding(fib) => match shared(alloc, fib) {
            None => NO_MEMORY,
            Some(made) => {
                *other = Yarib::of(made);
                DONE
            }
        },
        Held::Plain(_) | Held::Journaled(_) => WRONG_KIND,
    })
}

/// Returns another holder of the forwarding table, unless memory runs out.
fn shared(alloc: Global, fib: &Arc<Fib<Global>>) -> Option<Box<Held>>
    ensures { IfSome result (λ made. IsFibWithRoutes fib.now.value made.value) }
{
    let fib = Arc::try_clone(fib).ok()?;
    Box::new(alloc, Held::Forwarding(fib)).ok()
}

/// Makes a forwarding table for a table that keeps no journal, if the table doesn't have one yet. It follows each command from then
/// on, and look-ups are by it. If memory runs out while it follows a command, it is dropped, and look-ups are by the table.
#[unsafe(no_mangle)]
pub extern "C" fn yarib_fib_attach(alloc: Global, table: &mut Yarib) -> u32
    ensures done { result ≡ DONE → HandleHolds table.new IsFollowed }
    ensures kept { IsKept table.old table.new }
    ensures absent { result ≡ NOTHING → held_in table.old ≡ None }
    ensures kind { result ≡ WRONG_KIND → HandleHolds table.old (λ held. ¬ IsPlain held) }
    ensures order { WithHeld table.old (λ held. Check (¬ IsPlain held) WRONG_KIND (IsOneOf (DONE ∷ NO_MEMORY ∷ []))) result }
    ensures known { IsOneOf (DONE ∷ NOTHING ∷ NO_MEMORY ∷ WRONG_KIND ∷ []) result }
{
    with_held!(table, alloc, held => match &mut *held {
        Held::Plain(plain) => match plain.follow(alloc) {
            Ok(()) => DONE,
            Err(_) => NO_MEMORY,
        },
        Held::Journaled(_) | Held::Forwarding(_) => WRONG_KIND,
    })
}

/// Writes 1 if a forwarding table follows the table's commands, and else 0.
#[unsafe(no_mangle)]
pub extern "C" fn yarib_fib_is_attached(alloc: Global, table: &mut Yarib, attached: &mut u32) -> u32
    ensures done { result ≡ DONE → HandleHolds table.old (λ held. SaysFollowed held attached.new) }
    ensures same { held_in table.new ≡ held_in table.old }
    ensures absent { result ≡ NOTHING → held_in table.old ≡ None }
    ensures silent { result ≢ DONE → attached.new ≡ attached.old }
    ensures order { WithHeld table.old (λ _. IsOneOf (DONE ∷ [])) result }
    ensures known { IsOneOf (DONE ∷ NOTHING ∷ []) result }
{
    with_held!(table, alloc, held => {
        *attached = if held.is_followed() { 1 } else { 0 };
        DONE
    })
}

/// Writes the number of bytes of a forwarding table, for all its handles together. For a table the number is approximate: the bytes
/// of its trie's nodes, of the lists of prefixes with several routes, of its journal's entries, and of the forwarding table that
/// follows it.
#[unsafe(no_mangle)]
pub extern "C" fn yarib_memory(alloc: Global, table: &mut Yarib, bytes: &mut usize) -> u32
    ensures done { result ≡ DONE → HandleHolds table.old (λ held. TakesBytes held bytes.new) }
    ensures same { held_in table.new ≡ held_in table.old }
    ensures absent { result ≡ NOTHING → held_in table.old ≡ None }
    ensures silent { result ≢ DONE → bytes.new ≡ bytes.old }
    ensures order { WithHeld table.old (λ _. IsOneOf (DONE ∷ [])) result }
    ensures known { IsOneOf (DONE ∷ NOTHING ∷ []) result }
{
    with_held!(table, alloc, held => {
        *bytes = held.bytes();
        DONE
    })
}
