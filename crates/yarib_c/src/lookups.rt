//! Look-ups for C: of a single address, or of many, whose answers are written into a list of the caller.
ghost use Rattle.std.specs.Prelude.{◌≡◌, ◌≤◌, length, map};
ghost use Rattle.rt_rib.specs.LookUp.{look_up};
ghost use Rattle.yarib_c.specs.Kinds.{routes_in};
ghost use Rattle.yarib_c.specs.Forms.{answer_as, router_as};
ghost use Rattle.yarib_c.specs.Calls.{addr, answers_in, routers_in};

use crate::held::Held;
use crate::routes::{YaribRoute, router_by, router_number};
use rt_cidr::Addr;
use rt_fib::Fib;
use rt_rib::{ChunkLookup, Route, look_up_in_chunks};
use std::alloc::Global;

/// The number of addresses that are looked up together.
const CHUNK: usize = 32;

/// Writes the answers to all addresses over the previous contents of their list.
pub(crate) fn answer_each(held: &Held, addresses: &[u32], answers: &mut [YaribRoute])
    requires { length answers.old ≡ length addresses.now }
    ensures { answers.new ≡ answers_in (routes_in held.now) addresses.now }
{
    look_up_in_chunks(held, addresses, answers);
}

/// Each number of an address is answered by a route in the form of C.
impl ChunkLookup<u32, YaribRoute> for Held {
    ghost use Rattle.rt_rib.specs.LookUp.{look_up};
    ghost use Rattle.yarib_c.specs.declared.lookups.TheConstants.{CHUNK};
    ghost use Rattle.yarib_c.specs.Calls.{addr};
    ghost use Rattle.yarib_c.specs.Forms.{answer_as};
    ghost use Rattle.yarib_c.specs.Kinds.{routes_in};

    ghost chunk_size = { λ _. CHUNK };

    ghost answer = { λ held address _. answer_as (look_up (addr address) (routes_in held)) };

    fn chunk_size(&self) -> usize {
        CHUNK
    }

    fn look_up_chunk(&self, addresses: &[u32], answers: &mut [YaribRoute]) {
        let mut found = [None; CHUNK];
        look_up_numbers(self, addresses, &mut found[..addresses.len()]);
        for k in 0..addresses.len() {
            answers[k] = YaribRoute::answer(found[k]);
        }
    }
}

/// Looks up at most `CHUNK` addresses by their numbers.
fn look_up_numbers(held: &Held, addresses: &[u32], answers: &mut [Option<Route>])
    requires chunk { length addresses.now ≤ CHUNK }
    requires size { length answers.old ≡ length addresses.now }
    ensures { answers.new ≡ map (λ address. look_up (addr address) (routes_in held.now)) addresses.now }
{
    let mut asked = [Addr(0); CHUNK];
    for k in 0..addresses.len() {
        asked[k] = Addr(addresses[k]);
    }
    look_up_each(held, &asked[..addresses.len()], answers);
}

/// Looks up the addresses in the contents of the handle.
fn look_up_each(held: &Held, addresses: &[Addr], answers: &mut [Option<Route>])
    requires { length answers.old ≡ length addresses.now }
    ensures { answers.new ≡ map (λ addr. look_up addr (routes_in held.now)) addresses.now }
{
    match held {
        Held::Plain(plain) => plain.look_up_each(addresses, answers),
        Held::Journaled(book) => book.table().look_up_each(addresses, answers),
        Held::Forwarding(fib) => fib.look_up_each(addresses, answers),
    }
}

/// Returns the answer for one address. Each case makes its answer by itself: joined first, the routes would pass through memory,
/// and fewer look-ups would wait for theirs at the same time.
pub(crate) fn answer_one(held: &Held, addr: Addr) -> YaribRoute
    ensures { result ≡ answer_as (look_up addr (routes_in held.now)) }
{
    match held {
        Held::Plain(plain) => match plain.beside() {
            None => YaribRoute::answer(plain.table().look_up(addr)),
            Some(fib) => YaribRoute::answer(fib.look_up(addr)),
        },
        Held::Journaled(book) => YaribRoute::answer(book.table().look_up(addr)),
        Held::Forwarding(fib) => YaribRoute::answer(fib.look_up(addr)),
    }
}

/// Writes for each address the router of its answer, as `router_number` does. In a forwarding table the addresses are looked up one
/// after another, in any other table a few dozen together.
pub(crate) fn route_each(
    held: &Held,
    addresses: &[u32],
    no_route: u32,
    discard: u32,
    routers: &mut [u32],
)
    requires { length routers.old ≡ length addresses.now }
    ensures { routers.new ≡ routers_in no_route discard (routes_in held.now) addresses.now }
{
    match held.forwarding() {
        Some(fib) => route_by(fib, addresses, no_route, discard, routers),
        None => {
            let lookup = RouterLookup {
                held,
                no_route,
                discard,
            };
            look_up_in_chunks(&lookup, addresses, routers);
        }
    }
}

/// Does the same by a forwarding table.
fn route_by(fib: &Fib<Global>, addresses: &[u32], no_route: u32, discard: u32, routers: &mut [u32])
    requires { length routers.old ≡ length addresses.now }
    ensures { routers.new ≡ routers_in no_route discard fib.now addresses.now }
{
    for k in 0..addresses.len() {
        routers[k] = router_in(fib, addresses[k], no_route, discard);
    }
}

/// Returns the router of the address's answer in a forwarding table. It reads only the next hop of the answer.
fn router_in(fib: &Fib<Global>, address: u32, no_route: u32, discard: u32) -> u32
    ensures { result ≡ router_as no_route discard (look_up (addr address) fib.now) }
{
    router_by(fib.look_up_hop(Addr(address)), no_route, discard)
}

/// Look-ups whose answers are the numbers of routers.
#[derive(Drop)]
struct RouterLookup<'h> {
    held: &'h Held,
    no_route: u32,
    discard: u32,
}

impl ChunkLookup<u32, u32> for RouterLookup<'_> {
    ghost use Rattle.rt_rib.specs.LookUp.{look_up};
    ghost use Rattle.yarib_c.specs.declared.lookups.TheConstants.{CHUNK};
    ghost use Rattle.yarib_c.specs.Calls.{addr};
    ghost use Rattle.yarib_c.specs.Forms.{router_as};
    ghost use Rattle.yarib_c.specs.Kinds.{routes_in};

    ghost chunk_size = { λ _. CHUNK };

    ghost answer = { λ asked address _. router_as asked.no_route asked.discard (look_up (addr address) (routes_in asked.held.now)) };

    fn chunk_size(&self) -> usize {
        CHUNK
    }

    fn look_up_chunk(&self, addresses: &[u32], routers: &mut [u32]) {
        let mut found = [None; CHUNK];
        look_up_numbers(self.held, addresses, &mut found[..addresses.len()]);
        for k in 0..addresses.len() {
            routers[k] = router_number(found[k], self.no_route, self.discard);
        }
    }
}
