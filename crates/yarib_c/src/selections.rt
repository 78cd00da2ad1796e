//! Parts of a table: the selected routes.
ghost use Rattle.std.specs.Prelude.{◌≡◌, ◌≢◌, ◌<◌, ◌≤◌, ◌↔◌, ◌⊎◌, IsTrue, None, [], ◌∷◌, MatchResult};
ghost use Rattle.rt_cidr.specs.Cidr.{IsPrefix};
ghost use Rattle.yarib_c.specs.Kinds.{routes_in, IsForwarding};
ghost use Rattle.yarib_c.specs.Calls.{held_in, HandleHolds, WithHeld};
ghost use Rattle.yarib_c.specs.Selections.{IsOutOfRange, IsHopAsked, IsSelection, feeds_asked, SelectionStatus, ShowsSelected};
ghost use Rattle.yarib_c.specs.inside.Parts.{PartReading, HasPart, IsRefused};
ghost use Rattle.yarib_c.specs.Statuses.{IsOneOf};
ghost use Rattle.yarib_c.specs.declared.status.TheConstants.{DONE, NOTHING, BAD_NUMBER, NO_MEMORY, BAD_LENGTH, BAD_BITS, WRONG_KIND};

use crate::handle::{Yarib, with_held};
use crate::held::Held;
use crate::lists::put;
use crate::routes::YaribRoute;
use crate::status::{BAD_BITS, BAD_LENGTH, BAD_NUMBER, DONE, NO_MEMORY, WRONG_KIND};
use rt_cidr::{Addr, Prefix, TextFault};
use rt_rib::{Hop, PrefixFilter, Selection, feed_ok};
use std::alloc::Global;
use std::slice;

/// Selects routes. `part` is 0 for the routes to any prefix. The other values select by the prefix of `base` and `len`: 1 that prefix
/// and the longer ones in it, 2 that prefix and the shorter ones that contain it, and 3 only that prefix. `feed` is 0 for any feed. If
/// `only_best` is 1, only the best route of each prefix is selected.
#[repr(C)]
#[derive(Clone, Copy)]
pub struct YaribSelection {
    pub part: u32,
    pub feed: u32,
    pub base: u32,
    pub len: u8,
    pub only_best: u8,
}

impl YaribSelection {
    /// Returns true if a number is out of its range.
    fn is_out_of_range(&self) -> bool
        ensures { IsTrue result ↔ IsOutOfRange self.now }
    {
        self.part > 3 || (self.feed != 0 && !feed_ok(self.feed)) || self.only_best > 1
    }

    /// Returns the selection that the numbers denote, with this next hop, or the status of the first that is invalid.
    fn read(&self, hop: Option<Hop>) -> Result<Selection<'_>, u32>
        ensures { MatchResult result (λ selection. IsSelection self.now selection × (selection.hop ≡ hop) × (¬ IsOutOfRange self.now) × HasPart self.now) (λ status. IsRefused self.now status) }
    {
        if self.is_out_of_range() {
            return Err(BAD_NUMBER);
        }
        let part = match self.read_part() {
            Ok(part) => part,
            Err(TextFault::Bits) => return Err(BAD_BITS),
            Err(_) => return Err(BAD_LENGTH),
        };
        Ok(Selection {
            part,
            only_best: self.only_best == 1,
            feeds: self.feeds(),
            hop,
        })
    }

    /// Returns the feed whose routes are selected; for any feed, none.
    fn feeds(&self) -> &[u32]
        ensures { result.now ≡ feeds_asked self.now.feed }
    {
        if self.feed == 0 {
            &[]
        } else {
            slice::from_ref(&self.feed)
        }
    }

    /// Returns the filter of prefixes that the numbers denote.
    #[tactic(auto, using(crate::proofs::SelectionParts::all_parts, crate::proofs::SelectionParts::prefix_part))]
    fn read_part(&self) -> Result<PrefixFilter, TextFault>
        requires { self.now.part ≤ 3 }
        ensures { PartReading self.now result }
    {
        if self.part == 0 {
            return Ok(PrefixFilter::All);
        }
        let prefix = Prefix::new(self.base, self.len)?;
        Ok(match self.part {
            1 => PrefixFilter::Within(prefix),
            2 => PrefixFilter::Covering(prefix),
            _ => PrefixFilter::Exact(prefix),
        })
    }
}

/// Returns the next hop that the numbers denote, or `None` if they denote any.
fn read_hop(hop: u32, via: u32) -> Option<Hop>
    requires { hop ≤ 2 }
    ensures { IsHopAsked hop via result }
{
    match hop {
        0 => None,
        1 => Some(Hop::Via(Addr(via))),
        _ => Some(Hop::Discard),
    }
}

/// Writes the selected routes in dump order, from the index `skip` on, and their total number. It allocates only for the selected
/// routes.
#[unsafe(no_mangle)]
pub extern "C" fn yarib_select(
    alloc: Global,
    table: &mut Yarib,
    asked: &YaribSelection,
    skip: usize,
    routes: &mut [YaribRoute],
    total: &mut usize,
) -> u32
    ensures done { result ≡ DONE → HandleHolds table.old (λ held. ShowsSelected asked.now 0 0 (routes_in held) skip routes.new total.new) }
    ensures same { held_in table.new ≡ held_in table.old }
    ensures absent { result ≡ NOTHING → held_in table.old ≡ None }
    ensures number { result ≡ BAD_NUMBER → IsOutOfRange asked.now }
    ensures length { result ≡ BAD_LENGTH → 32 < asked.now.len }
    ensures bits { result ≡ BAD_BITS → (asked.now.len ≤ 32) × ¬ IsPrefix asked.now.base asked.now.len }
    ensures kind { result ≡ WRONG_KIND → HandleHolds table.old IsForwarding }
    ensures silent { result ≢ DONE → (routes.new ≡ routes.old) × (total.new ≡ total.old) }
    ensures order { WithHeld table.old (SelectionStatus asked.now 0) result }
    ensures known { IsOneOf (DONE ∷ NOTHING ∷ BAD_NUMBER ∷ NO_MEMORY ∷ BAD_LENGTH ∷ BAD_BITS ∷ WRONG_KIND ∷ []) result }
{
    with_held!(table, alloc, held => select(&held, alloc, asked, 0, 0, skip, routes, total))
}

/// Writes those of the selected routes that have this next hop, as `yarib_select` writes them. `hop` is 0 for any next hop, 1 for the
/// router with the address `via`, and 2 for routes that discard packets.
#[unsafe(no_mangle)]
pub extern "C" fn yarib_select_by_hop(
    alloc: Global,
    table: &mut Yarib,
    asked: &YaribSelection,
    hop: u32,
    via: u32,
    skip: usize,
    routes: &mut [YaribRoute],
    total: &mut usize,
) -> u32
    ensures done { result ≡ DONE → HandleHolds table.old (λ held. ShowsSelected asked.now hop via (routes_in held) skip routes.new total.new) }
    ensures same { held_in table.new ≡ held_in table.old }
    ensures absent { result ≡ NOTHING → held_in table.old ≡ None }
    ensures number { result ≡ BAD_NUMBER → IsOutOfRange asked.now ⊎ (2 < hop) }
    ensures length { result ≡ BAD_LENGTH → 32 < asked.now.len }
    ensures bits { result ≡ BAD_BITS → (asked.now.len ≤ 32) × ¬ IsPrefix asked.now.base asked.now.len }
    ensures kind { result ≡ WRONG_KIND → HandleHolds table.old IsForwarding }
    ensures silent { result ≢ DONE → (routes.new ≡ routes.old) × (total.new ≡ total.old) }
    ensures order { WithHeld table.old (SelectionStatus asked.now hop) result }
    ensures known { IsOneOf (DONE ∷ NOTHING ∷ BAD_NUMBER ∷ NO_MEMORY ∷ BAD_LENGTH ∷ BAD_BITS ∷ WRONG_KIND ∷ []) result }
{
    with_held!(table, alloc, held => if hop > 2 {
        BAD_NUMBER
    } else {
        select(&held, alloc, asked, hop, via, skip, routes, total)
    })
}

/// Writes the selected routes as `yarib_select_by_hop` does. Returns the status.
fn select(
    held: &Held,
    alloc: Global,
    asked: &YaribSelection,
    hop: u32,
    via: u32,
    skip: usize,
    routes: &mut [YaribRoute],
    total: &mut usize,
) -> u32
    requires { hop ≤ 2 }
    ensures done { result ≡ DONE → ShowsSelected asked.now hop via (routes_in held.now) skip routes.new total.new }
    ensures number { result ≡ BAD_NUMBER → IsOutOfRange asked.now }
    ensures length { result ≡ BAD_LENGTH → 32 < asked.now.len }
    ensures bits { result ≡ BAD_BITS → (asked.now.len ≤ 32) × ¬ IsPrefix asked.now.base asked.now.len }
    ensures kind { result ≡ WRONG_KIND → IsForwarding held.now }
    ensures silent { result ≢ DONE → (routes.new ≡ routes.old) × (total.new ≡ total.old) }
    ensures order { SelectionStatus asked.now hop held.now result }
    ensures known { IsOneOf (DONE ∷ BAD_NUMBER ∷ NO_MEMORY ∷ BAD_LENGTH ∷ BAD_BITS ∷ WRONG_KIND ∷ []) result }
{
    let selection = match asked.read(read_hop(hop, via)) {
        Err(status) => return status,
        Ok(selection) => selection,
    };
    let Some(table) = held.table() else {
        return WRONG_KIND;
    };
    match table.select(alloc, &selection) {
        Err(_) => NO_MEMORY,
        Ok(found) => {
            *total = put(found.as_slice(), skip, routes);
            DONE
        }
    }
}
