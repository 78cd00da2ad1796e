//! A table page by page: as many of its routes as there is room for, from a place on.
ghost use Rattle.std.specs.Prelude.{◌≡◌, ◌≢◌, ◌<◌, ◌≤◌, None, [], ◌∷◌};
ghost use Rattle.rt_cidr.specs.Cidr.{IsPrefix};
ghost use Rattle.yarib_c.specs.Kinds.{routes_in, IsForwarding};
ghost use Rattle.yarib_c.specs.Calls.{held_in, HandleHolds, WithHeld};
ghost use Rattle.yarib_c.specs.Lists.{PutsRoutes, ShowsFrom};
ghost use Rattle.yarib_c.specs.Statuses.{IsOneOf, Check};
ghost use Rattle.yarib_c.specs.declared.status.TheConstants.{DONE, NOTHING, BAD_LENGTH, BAD_BITS, WRONG_KIND};

use crate::handle::{Yarib, with_held};
use crate::lists::FormOf;
use crate::routes::YaribRoute;
use crate::status::{BAD_BITS, BAD_LENGTH, DONE, WRONG_KIND};
use rt_cidr::{Prefix, TextFault};
use rt_rib::{Hop, Route, RoutesFrom};
use std::alloc::Global;

/// The routes in dump order from the place of the given one on, as many as there is room for, and how many these are. `from` need
/// not be in the table, and its next hop is not read. It takes no memory.
#[unsafe(no_mangle)]
pub extern "C" fn yarib_routes_from(
    alloc: Global,
    table: &mut Yarib,
    from: &YaribRoute,
    routes: &mut [YaribRoute],
    used: &mut usize,
) -> u32
    ensures done { result ≡ DONE → HandleHolds table.old (λ held. ShowsFrom from.now (routes_in held) routes.old routes.new used.new) }
    ensures same { held_in table.new ≡ held_in table.old }
    ensures absent { result ≡ NOTHING → held_in table.old ≡ None }
    ensures length { result ≡ BAD_LENGTH → 32 < from.now.len }
    ensures bits { result ≡ BAD_BITS → (from.now.len ≤ 32) × ¬ IsPrefix from.now.base from.now.len }
    ensures kind { result ≡ WRONG_KIND → HandleHolds table.old IsForwarding }
    ensures silent { result ≢ DONE → (routes.new ≡ routes.old) × (used.new ≡ used.old) }
    ensures order { WithHeld table.old (λ held. Check (32 < from.now.len) BAD_LENGTH
        (Check (¬ IsPrefix from.now.base from.now.len) BAD_BITS (Check (IsForwarding held) WRONG_KIND (IsOneOf (DONE ∷ []))))) result }
    ensures known { IsOneOf (DONE ∷ NOTHING ∷ BAD_LENGTH ∷ BAD_BITS ∷ WRONG_KIND ∷ []) result }
{
    with_held!(table, alloc, held => match Prefix::new(from.base, from.len) {
        Err(TextFault::Bits) => BAD_BITS,
        Err(_) => BAD_LENGTH,
        Ok(prefix) => match held.table() {
            None => WRONG_KIND,
            Some(table) => {
                let place = Route {
                    prefix,
                    feed: from.feed,
                    pref: from.pref,
                    hop: Hop::Discard,
                };
                *used = put_page(table.routes_from(&place), routes);
                DONE
            }
        },
    })
}

/// Puts as many of the routes as there is room for, and answers how many these are.
fn put_page(from: RoutesFrom<'_, Global>, routes: &mut [YaribRoute]) -> usize
    ensures { PutsRoutes from.entry routes.old routes.new result }
{
    let mut from = from;
    let mut used = 0;
    while used < routes.len() {
        match from.next() {
            None => return used,
            Some(route) => {
                routes[used] = YaribRoute::of(route);
                used += 1;
            }
        }
    }
    used
}
