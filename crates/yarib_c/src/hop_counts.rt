//! How many best routes use each next hop.
ghost use Rattle.std.specs.Prelude.{◌≡◌, ◌≢◌, None, [], ◌∷◌};
ghost use Rattle.yarib_c.specs.Kinds.{routes_in, IsForwarding};
ghost use Rattle.yarib_c.specs.Calls.{held_in, HandleHolds, WithHeld};
ghost use Rattle.yarib_c.specs.HopCounts.{ShowsHopCounts};
ghost use Rattle.yarib_c.specs.Statuses.{IsOneOf, Check};
ghost use Rattle.yarib_c.specs.declared.status.TheConstants.{DONE, NOTHING, NO_MEMORY, WRONG_KIND};

use crate::handle::{Yarib, with_held};
use crate::lists::{FormOf, put};
use crate::routes::numbers_of;
use crate::status::{DONE, NO_MEMORY, WRONG_KIND};
use rt_rib::HopCount;
use std::alloc::Global;

/// The number of best routes that use a next hop: `hop` is 1 for a router, whose address is `via`, and 2 where packets are discarded.
#[repr(C)]
#[derive(Clone, Copy)]
pub struct YaribHopCount {
    pub hop: u32,
    pub via: u32,
    pub routes: u32,
}

impl FormOf<HopCount> for YaribHopCount {
    ghost use Rattle.yarib_c.specs.HopCounts.{hop_count_as};

    ghost form = { hop_count_as };

    fn of(count: HopCount) -> YaribHopCount {
        let (hop, via) = numbers_of(count.hop);
        YaribHopCount {
            hop: u32::from(hop),
            via,
            routes: count.routes,
        }
    }
}

/// Writes how many best routes use each next hop that a best route has: those from the index `skip` on, first the routes that discard
/// packets and then by the router's address, and the number of these next hops.
#[unsafe(no_mangle)]
pub extern "C" fn yarib_hop_counts(
    alloc: Global,
    table: &mut Yarib,
    skip: usize,
    counts: &mut [YaribHopCount],
    total: &mut usize,
) -> u32
    ensures done { result ≡ DONE → HandleHolds table.old (λ held. ShowsHopCounts (routes_in held) skip counts.new total.new) }
    ensures same { held_in table.new ≡ held_in table.old }
    ensures absent { result ≡ NOTHING → held_in table.old ≡ None }
    ensures kind { result ≡ WRONG_KIND → HandleHolds table.old IsForwarding }
    ensures silent { result ≢ DONE → (counts.new ≡ counts.old) × (total.new ≡ total.old) }
    ensures order { WithHeld table.old (λ held. Check (IsForwarding held) WRONG_KIND (IsOneOf (DONE ∷ NO_MEMORY ∷ []))) result }
    ensures known { IsOneOf (DONE ∷ NOTHING ∷ NO_MEMORY ∷ WRONG_KIND ∷ []) result }
{
    with_held!(table, alloc, held => match held.table() {
        None => WRONG_KIND,
        Some(table) => match table.hop_counts(alloc) {
            Err(_) => NO_MEMORY,
            Ok(found) => {
                *total = put(found.as_slice(), skip, counts);
                DONE
            }
        },
    })
}
