//! Calls that query a table and change nothing in it.
ghost use Rattle.std.specs.Prelude.{◌≡◌, ◌≢◌, None, Some, length, [], ◌∷◌};
ghost use Rattle.rt_rib.specs.LookUp.{look_up, look_up_all};
ghost use Rattle.yarib_c.specs.Kinds.{routes_in, journal_in, IsForwarding};
ghost use Rattle.yarib_c.specs.Forms.{answer_as};
ghost use Rattle.yarib_c.specs.Calls.{held_in, HandleHolds, addr, answers_in, routers_in, WithHeld};
ghost use Rattle.yarib_c.specs.Lists.{ShowsRoutes, ShowsJournal};
ghost use Rattle.yarib_c.specs.Statuses.{IsOneOf, Check};
ghost use Rattle.yarib_c.specs.declared.status.TheConstants.{DONE, NOTHING, NO_MEMORY, BAD_SIZE, WRONG_KIND};

use crate::commands::YaribEntry;
use crate::handle::{Yarib, with_held};
use crate::held::Held;
use crate::lists::put;
use crate::lookups::{answer_each, answer_one, route_each};
use crate::routes::YaribRoute;
use crate::status::{BAD_SIZE, DONE, NO_MEMORY, WRONG_KIND};
use rt_cidr::Addr;
use std::alloc::Global;

/// Writes the best route of the longest prefix that covers each of the addresses. Both lists have the same length.
#[unsafe(no_mangle)]
pub extern "C" fn yarib_look_up(
    alloc: Global,
    table: &mut Yarib,
    addresses: &[u32],
    answers: &mut [YaribRoute],
) -> u32
    ensures done { result ≡ DONE → HandleHolds table.old (λ held. answers.new ≡ answers_in (routes_in held) addresses.now) }
    ensures silent { result ≢ DONE → answers.new ≡ answers.old }
    ensures same { held_in table.new ≡ held_in table.old }
    ensures absent { result ≡ NOTHING → held_in table.old ≡ None }
    ensures size { result ≡ BAD_SIZE → length answers.old ≢ length addresses.now }
    ensures order { Check (length answers.old ≢ length addresses.now) BAD_SIZE (WithHeld table.old (λ _. IsOneOf (DONE ∷ []))) result }
    ensures known { IsOneOf (DONE ∷ NOTHING ∷ BAD_SIZE ∷ []) result }
{
    if answers.len() != addresses.len() {
        return BAD_SIZE;
    }
    with_held!(table, alloc, held => {
        answer_each(&held, addresses, answers);
        DONE
    })
}

/// Writes the best route of the longest prefix that covers the address.
#[unsafe(no_mangle)]
pub extern "C" fn yarib_look_up_one(
    alloc: Global,
    table: &mut Yarib,
    address: u32,
    answer: &mut YaribRoute,
) -> u32
    ensures done { result ≡ DONE → HandleHolds table.old (λ held. answer.new ≡ answer_as (look_up (addr address) (routes_in held))) }
    ensures silent { result ≢ DONE → answer.new ≡ answer.old }
    ensures same { held_in table.new ≡ held_in table.old }
    ensures absent { result ≡ NOTHING → held_in table.old ≡ None }
    ensures order { WithHeld table.old (λ _. IsOneOf (DONE ∷ [])) result }
    ensures known { IsOneOf (DONE ∷ NOTHING ∷ []) result }
{
    with_held!(table, alloc, held => {
        *answer = answer_one(&held, Addr(address));
        DONE
    })
}

/// Writes for each of the addresses the router of its best route, or `no_route`, or `discard` if its packets are discarded. Both
/// lists have the same length.
#[unsafe(no_mangle)]
pub extern "C" fn yarib_hops(
    alloc: Global,
    table: &mut Yarib,
    addresses: &[u32],
    no_route: u32,
    discard: u32,
    hops: &mut [u32],
) -> u32
    ensures done { result ≡ DONE → HandleHolds table.old (λ held. hops.new ≡ routers_in no_route discard (routes_in held) addresses.now) }
    ensures silent { result ≢ DONE → hops.new ≡ hops.old }
    ensures same { held_in table.new ≡ held_in table.old }
    ensures absent { result ≡ NOTHING → held_in table.old ≡ None }
    ensures size { result ≡ BAD_SIZE → length hops.old ≢ length addresses.now }
    ensures order { Check (length hops.old ≢ length addresses.now) BAD_SIZE (WithHeld table.old (λ _. IsOneOf (DONE ∷ []))) result }
    ensures known { IsOneOf (DONE ∷ NOTHING ∷ BAD_SIZE ∷ []) result }
{
    if hops.len() != addresses.len() {
        return BAD_SIZE;
    }
    with_held!(table, alloc, held => {
        route_each(&held, addresses, no_route, discard, hops);
        DONE
    })
}

/// Writes the routes whose prefix covers the address, the best first, from the index `skip` on, and their total number.
#[unsafe(no_mangle)]
pub extern "C" fn yarib_look_up_all(
    alloc: Global,
    table: &mut Yarib,
    address: u32,
    skip: usize,
    routes: &mut [YaribRoute],
    total: &mut usize,
) -> u32
    ensures done { result ≡ DONE → HandleHolds table.old
        (λ held. ShowsRoutes (look_up_all (addr address) (routes_in held)) skip routes.new total.new) }
    ensures same { held_in table.new ≡ held_in table.old }
    ensures absent { result ≡ NOTHING → held_in table.old ≡ None }
    ensures kind { result ≡ WRONG_KIND → HandleHolds table.old IsForwarding }
    ensures silent { result ≢ DONE → (routes.new ≡ routes.old) × (total.new ≡ total.old) }
    ensures order { WithHeld table.old (λ held. Check (IsForwarding held) WRONG_KIND (IsOneOf (DONE ∷ NO_MEMORY ∷ []))) result }
    ensures known { IsOneOf (DONE ∷ NOTHING ∷ NO_MEMORY ∷ WRONG_KIND ∷ []) result }
{
    with_held!(table, alloc, held => match held.table() {
        None => WRONG_KIND,
        Some(table) => match table.look_up_all(alloc, Addr(address)) {
            Err(_) => NO_MEMORY,
            Ok(found) => {
                *total = put(found.as_slice(), skip, routes);
                DONE
            }
        },
    })
}

/// Writes the routes in dump order, from the index `skip` on, and their total number.
#[unsafe(no_mangle)]
pub extern "C" fn yarib_routes(
    alloc: Global,
    table: &mut Yarib,
    skip: usize,
    routes: &mut [YaribRoute],
    total: &mut usize,
) -> u32
    ensures done { result ≡ DONE → HandleHolds table.old (λ held. ShowsRoutes (routes_in held) skip routes.new total.new) }
    ensures same { held_in table.new ≡ held_in table.old }
    ensures absent { result ≡ NOTHING → held_in table.old ≡ None }
    ensures kind { result ≡ WRONG_KIND → HandleHolds table.old IsForwarding }
    ensures silent { result ≢ DONE → (routes.new ≡ routes.old) × (total.new ≡ total.old) }
    ensures order { WithHeld table.old (λ held. Check (IsForwarding held) WRONG_KIND (IsOneOf (DONE ∷ NO_MEMORY ∷ []))) result }
    ensures known { IsOneOf (DONE ∷ NOTHING ∷ NO_MEMORY ∷ WRONG_KIND ∷ []) result }
{
    with_held!(table, alloc, held => match held.table() {
        None => WRONG_KIND,
        Some(table) => match table.routes(alloc) {
            Err(_) => NO_MEMORY,
            Ok(all) => {
                *total = put(all.as_slice(), skip, routes);
                DONE
            }
        },
    })
}

/// Writes the number of routes.
#[unsafe(no_mangle)]
pub extern "C" fn yarib_count(alloc: Global, table: &mut Yarib, total: &mut usize) -> u32
    ensures done { result ≡ DONE → HandleHolds table.old (λ held. total.new ≡ length (routes_in held)) }
    ensures same { held_in table.new ≡ held_in table.old }
    ensures absent { result ≡ NOTHING → held_in table.old ≡ None }
    ensures kind { result ≡ WRONG_KIND → HandleHolds table.old IsForwarding }
    ensures silent { result ≢ DONE → total.new ≡ total.old }
    ensures order { WithHeld table.old (λ held. Check (IsForwarding held) WRONG_KIND (IsOneOf (DONE ∷ []))) result }
    ensures known { IsOneOf (DONE ∷ NOTHING ∷ WRONG_KIND ∷ []) result }
{
    with_held!(table, alloc, held => match held.table() {
        None => WRONG_KIND,
        Some(table) => {
            *total = table.len() as usize;
            DONE
        }
    })
}

/// Writes the entries of the journal from the index `skip` on, and their total number.
#[unsafe(no_mangle)]
pub extern "C" fn yarib_journal(
    alloc: Global,
    table: &mut Yarib,
    skip: usize,
    entries: &mut [YaribEntry],
    total: &mut usize,
) -> u32
    ensures done { result ≡ DONE → HandleHolds table.old (λ held. ShowsJournal (journal_in held) skip entries.new total.new) }
    ensures same { held_in table.new ≡ held_in table.old }
    ensures absent { result ≡ NOTHING → held_in table.old ≡ None }
    ensures kind { result ≡ WRONG_KIND → HandleHolds table.old (λ held. journal_in held ≡ None) }
    ensures silent { result ≢ DONE → (entries.new ≡ entries.old) × (total.new ≡ total.old) }
    ensures order { WithHeld table.old (λ held. Check (journal_in held ≡ None) WRONG_KIND (IsOneOf (DONE ∷ []))) result }
    ensures known { IsOneOf (DONE ∷ NOTHING ∷ WRONG_KIND ∷ []) result }
{
    with_held!(table, alloc, held => match &*held {
        Held::Journaled(book) => {
            *total = put(book.journal(), skip, entries);
            DONE
        }
        Held::Plain(_) | Held::Forwarding(_) => WRONG_KIND,
    })
}
