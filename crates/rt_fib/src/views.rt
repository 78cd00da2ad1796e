//! Views: the next hops of a forwarding table as arrays of numbers, in memory of the caller.
ghost use Rattle.std.specs.Prelude.{◌≡◌, ◌+◌, ◌*◌, ◌<◌, ◌≤◌, ◌^◌, IfOk, IfSome, get_or, length, map};
ghost use Rattle.rt_rib.specs.declared.routes.Hop.TheVariants.{Via};
ghost use Rattle.rt_fib.specs.Views.{IsHopNumber, IsNumber};
ghost use Rattle.rt_fib.specs.inside.Shown.{shown_entry, Extends, AreHopsOf, AreShownBlocks};

use crate::slabs::{GROUP_FLAG, GROUP_SIZE, Group};
use rt_cidr::Addr;
use rt_rib::{Hop, Refused, Route};
use std::alloc::Allocator;

/// Holds how many numbers the arrays of a view need. Its entries are 2 ^ 24 numbers.
#[derive(Clone, Copy)]
pub struct ViewSizes {
    pub blocks: usize,
    pub routers: usize,
}

/// Says for how many routers the last number is kept.
const KEPT: usize = 1 << 16;

/// Returns the number of the router, which is its index in the list. Its last number is kept at a place that other routers may share:
/// so a router may be in the list more than once.
fn router_number<A: Allocator + Copy>(
    routers: &mut Vec<u32, A>,
    kept: &mut [u32],
    router: Addr,
) -> Result<u32, Refused>
    requires { 2 ≤ length routers.old.items }
    ensures extends { Extends routers.old.items routers.new.items }
    ensures short { IfOk result (λ number. number < 2 ^ 31) }
    ensures is { IfOk result (λ number. IsHopNumber routers.new.items number (Via router)) }
{
    let place = router.0.wrapping_mul(0x9e37_79b1) >> 16;
    let last = number_at(kept, place);
    let is_number = last >= 2 && last < GROUP_FLAG && (last as usize) < routers.len();
    if is_number && routers[last as usize] == router.0 {
        return Ok(last);
    }
    let number = routers.len();
    if number >= GROUP_FLAG as usize {
        return Err(Refused);
    }
    routers.push(router.0)?;
    if (place as usize) < kept.len() {
        kept[place as usize] = number as u32;
    }
    Ok(number as u32)
}

/// Returns the number of the answer's next hop.
fn hop_number<A: Allocator + Copy>(
    routers: &mut Vec<u32, A>,
    kept: &mut [u32],
    answer: Option<Route>,
) -> Result<u32, Refused>
    requires { 2 ≤ length routers.old.items }
    ensures extends { Extends routers.old.items routers.new.items }
    ensures hop { IfOk result (λ number. IsNumber routers.new.items number answer) }
{
    let Some(route) = answer else {
        return Ok(0);
    };
    match route.hop {
        Hop::Via(router) => router_number(routers, kept, router),
        Hop::Discard => Ok(1),
    }
}

/// Returns the numbers of the next hops of all answers.
pub(crate) fn hop_numbers<A: Allocator + Copy>(
    alloc: A,
    answers: &[Option<Route>],
    routers: &mut Vec<u32, A>,
) -> Result<Vec<u32, A>, Refused>
    requires { 2 ≤ length routers.old.items }
    ensures { IfOk result (λ numbers. AreHopsOf routers.new.items numbers.items answers.now (length answers.now)) }
{
    let mut kept = Vec::new(alloc);
    kept.resize(KEPT, 0u32)?;
    let mut numbers = Vec::with_capacity(alloc, answers.len())?;
    'answers: for n in 0..answers.len() {
        let number = hop_number(routers, kept.as_mut_slice(), answers[n])?;
        numbers.push(number)?;
    }
    Ok(numbers)
}

/// Returns the number at this index, or 0 beyond the end.
fn number_at(numbers: &[u32], n: u32) -> u32
    ensures { result ≡ get_or numbers.now n 0 }
{
    let i = n as usize;
    if i >= numbers.len() {
        return 0;
    }
    numbers[i]
}

/// Writes the entries, with the numbers of next hops.
pub(crate) fn show_entries(entries: &[u32], numbers: &[u32], shown: &mut [u32])
    requires { length shown.old ≡ length entries.now }
    ensures { shown.new ≡ map (shown_entry numbers.now) entries.now }
{
    'entries: for i in 0..entries.len() {
        let entry = entries[i];
        shown[i] = if entry < GROUP_FLAG {
            number_at(numbers, entry)
        } else {
            entry
        };
    }
}

/// Writes the numbers of next hops of all blocks, one block after another.
pub(crate) fn show_blocks(blocks: &[Group], numbers: &[u32], shown: &mut [u32])
    requires { length blocks.now * 256 ≤ length shown.old }
    ensures { AreShownBlocks numbers.now blocks.now shown.old shown.new (length blocks.now * 256) }
{
    'numbers: for i in 0..blocks.len() * GROUP_SIZE {
        shown[i] = number_at(numbers, blocks[i / GROUP_SIZE].numbers[i % GROUP_SIZE]);
    }
}
