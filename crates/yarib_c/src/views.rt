//! Views of forwarding tables: the next hops as numbers, in arrays of the caller. A look-up in a view reads one number or two.
ghost use Rattle.std.specs.Prelude.{◌≡◌, ◌≢◌, ◌≤◌, ◌<◌, ℕ, List, None, length, take, [], ◌∷◌};
ghost use Rattle.rt_rib.specs.declared.routes.Route.{Route};
ghost use Rattle.rt_rib.specs.LookUp.{look_up};
ghost use Rattle.rt_fib.specs.Views.{IsAnswerNumber, ViewShows};
ghost use Rattle.yarib_c.specs.Kinds.{routes_in, HasFib};
ghost use Rattle.yarib_c.specs.Calls.{held_in, HandleHolds, addr, WithHeld};
ghost use Rattle.yarib_c.specs.ShownViews.{AnswersByNumber, AnswersEachByNumber};
ghost use Rattle.yarib_c.specs.Statuses.{IsOneOf, Check};
ghost use Rattle.yarib_c.specs.declared.status.TheConstants.{DONE, NOTHING, NO_MEMORY, BAD_SIZE, WRONG_KIND};

use crate::handle::{Yarib, with_held};
use crate::status::{BAD_SIZE, DONE, NO_MEMORY, WRONG_KIND};
use rt_fib::{GROUP_FLAG, GROUP_SIZE};
use std::alloc::Global;

/// The arrays of a view, which a look-up only reads. They belong to the caller.
#[repr(C)]
#[derive(Drop)]
pub struct YaribView<'a> {
    pub entries: &'a [u32],
    pub blocks: &'a [u32],
    pub routers: &'a [u32],
}

/// Writes how many numbers the blocks and the routers of a view need, at least 1 and 2. Its entries are 2 ^ 24 numbers.
#[unsafe(no_mangle)]
pub extern "C" fn yarib_view_sizes(
    alloc: Global,
    table: &mut Yarib,
    blocks: &mut usize,
    routers: &mut usize,
) -> u32
    ensures done { result ≡ DONE → HandleHolds table.old HasFib × (1 ≤ blocks.new) × (2 ≤ routers.new) }
    ensures same { held_in table.new ≡ held_in table.old }
    ensures absent { result ≡ NOTHING → held_in table.old ≡ None }
    ensures kind { result ≡ WRONG_KIND → HandleHolds table.old (λ held. ¬ HasFib held) }
    ensures silent { result ≢ DONE → (blocks.new ≡ blocks.old) × (routers.new ≡ routers.old) }
    ensures order { WithHeld table.old (λ held. Check (¬ HasFib held) WRONG_KIND (IsOneOf (DONE ∷ []))) result }
    ensures known { IsOneOf (DONE ∷ NOTHING ∷ WRONG_KIND ∷ []) result }
{
    with_held!(table, alloc, held => match held.forwarding() {
        Some(fib) => {
            let sizes = fib.view_sizes();
            *blocks = sizes.blocks.max(1);
            *routers = sizes.routers;
            DONE
        }
        None => WRONG_KIND,
    })
}

/// Writes a view of the current answers of the forwarding table into these arrays, and to `used` how many routers there are.
#[unsafe(no_mangle)]
pub extern "C" fn yarib_view_write(
    alloc: Global,
    table: &mut Yarib,
    entries: &mut [u32],
    blocks: &mut [u32],
    routers: &mut [u32],
    used: &mut usize,
) -> u32
    ensures done { result ≡ DONE → HandleHolds table.old
        (λ held. ViewShows entries.new blocks.new (take used.new routers.new) (routes_in held)) }
    ensures within { result ≡ DONE → used.new ≤ length routers.new }
    ensures same { held_in table.new ≡ held_in table.old }
    ensures absent { result ≡ NOTHING → held_in table.old ≡ None }
    ensures kind { result ≡ WRONG_KIND → HandleHolds table.old (λ held. ¬ HasFib held) }
    ensures silent { result ≢ DONE → (entries.new ≡ entries.old) × (blocks.new ≡ blocks.old) }
    ensures silent_routers { result ≢ DONE → (routers.new ≡ routers.old) × (used.new ≡ used.old) }
    ensures order { WithHeld table.old (λ held. Check (¬ HasFib held) WRONG_KIND (IsOneOf (DONE ∷ NO_MEMORY ∷ BAD_SIZE ∷ []))) result }
    ensures known { IsOneOf (DONE ∷ NOTHING ∷ NO_MEMORY ∷ BAD_SIZE ∷ WRONG_KIND ∷ []) result }
{
    with_held!(table, alloc, held => match held.forwarding() {
        None => WRONG_KIND,
        Some(fib) => match fib.write_view(entries, blocks, routers, used) {
            Ok(true) => DONE,
            Ok(false) => BAD_SIZE,
            Err(_) => NO_MEMORY,
        },
    })
}

/// Returns the number of the address's next hop. If the arrays are no view's, it returns some number, but reads nothing beyond them.
fn number_in(view: &YaribView, address: u32) -> u32
    ensures { AnswersByNumber view.now.entries.now view.now.blocks.now view.now.routers.now address result }
{
    let i = address as usize / GROUP_SIZE;
    if i >= view.entries.len() {
        return 0;
    }
    let entry = view.entries[i];
    if entry < GROUP_FLAG {
        return entry;
    }
    let at = (entry - GROUP_FLAG) as usize * GROUP_SIZE + address as usize % GROUP_SIZE;
    if at >= view.blocks.len() {
        return 0;
    }
    view.blocks[at]
}

/// Returns the number of the address's next hop: 0 for no route, 1 for discarding, or the index of a router.
#[unsafe(no_mangle)]
pub extern "C" fn yarib_view_look_up(view: &YaribView, address: u32) -> u32
    ensures { AnswersByNumber view.now.entries.now view.now.blocks.now view.now.routers.now address result }
{
    number_in(view, address)
}

/// Writes the number of each address's next hop. Both lists have the same length.
#[unsafe(no_mangle)]
pub extern "C" fn yarib_view_look_up_each(
    view: &YaribView,
    addresses: &[u32],
    numbers: &mut [u32],
) -> u32
    ensures done { result ≡ DONE
        → AnswersEachByNumber view.now.entries.now view.now.blocks.now view.now.routers.now addresses.now numbers.new }
    ensures silent { result ≢ DONE → numbers.new ≡ numbers.old }
    ensures size { result ≡ BAD_SIZE → length numbers.old ≢ length addresses.now }
    ensures order { Check (length numbers.old ≢ length addresses.now) BAD_SIZE (IsOneOf (DONE ∷ [])) result }
    ensures known { IsOneOf (DONE ∷ BAD_SIZE ∷ []) result }
{
    if numbers.len() != addresses.len() {
        return BAD_SIZE;
    }
    number_each(view, addresses, numbers);
    DONE
}

fn number_each(view: &YaribView, addresses: &[u32], numbers: &mut [u32])
    requires { length numbers.old ≡ length addresses.now }
    ensures { AnswersEachByNumber view.now.entries.now view.now.blocks.now view.now.routers.now addresses.now numbers.new }
{
    for k in 0..addresses.len() {
        numbers[k] = number_in(view, addresses[k]);
    }
}
