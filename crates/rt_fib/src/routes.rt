//! The answers' numbers, and next to each answer the code of its next hop in 4 bytes: a look-up of a next hop reads the code, and
//! seldom the answer.
ghost use Rattle.std.specs.Prelude.{◌≡◌, ◌+◌, ◌<◌, ◌≤◌, IfOk, None, get_or, length, vec_len, vec_capacity};
ghost use Rattle.rt_fib.specs.Hops.{next_hop};
ghost use Rattle.rt_fib.specs.inside.Entries.{hop_code, FillsBoth, IsCoded};
ghost use Rattle.rt_fib.specs.inside.Slab.{with_value, IsNumberOf};

use crate::bounds::Epoch;
use crate::slab::Same;
use crate::slabs::Slabs;
use rt_cidr::Addr;
use rt_cidr::laws::same_prefix;
use rt_rib::{Hop, Refused, Route};
use std::alloc::Allocator;

/// The code of no route.
const NO_ROUTE: u32 = 0;

/// The code if packets are discarded.
const DISCARD: u32 = 1;

/// The code of a router with this address or a lower one: its answer says which. Any other router's code is its address.
const LOW_ROUTER: u32 = 2;

/// Says how many bytes a code takes.
pub(crate) const CODE_BYTES: usize = 4;

/// Says how many bytes an answer takes, with its epoch and the code of its next hop.
pub(crate) const ROUTE_BYTES: usize = 36;

/// Returns the code of the answer's next hop.
fn hop_code(answer: Option<Route>) -> u32
    ensures { result ≡ hop_code answer }
{
    match answer {
        None => NO_ROUTE,
        Some(route) => match route.hop {
            Hop::Via(router) => router.0.max(LOW_ROUTER),
            Hop::Discard => DISCARD,
        },
    }
}

/// Returns the answer's next hop.
fn next_hop(answer: Option<Route>) -> Option<Hop>
    ensures { result ≡ next_hop answer }
{
    Some(answer?.hop)
}

/// Writes the code at this place of the list, or at its end, where there is room for it.
#[tactic(auto, using(crate::proofs::Placing::value_set, crate::proofs::Placing::value_pushed))]
fn put_code<A: Allocator + Copy>(codes: &mut Vec<u32, A>, n: u32, code: u32)
    requires { vec_len codes.old < vec_capacity codes.old }
    ensures { n ≤ length codes.old.items → codes.new.items ≡ with_value codes.old.items n code }
{
    let i = n as usize;
    if i < codes.len() {
        codes[i] = code;
        return;
    }
    let _ = codes.push(code);
}

/// Says how many lengths a last number is kept for: those of prefixes, and one for no route.
pub(crate) const LENGTHS: usize = 34;

impl Same for Option<Route> {
    fn is_same(&self, other: &Option<Route>) -> bool {
        same_prefix();
        match (*self, *other) {
            (Some(one), Some(other)) => one == other,
            (None, None) => true,
            _ => false,
        }
    }
}

/// Returns the index of the answer's last number: the length of its prefix, or the last index for no route.
fn length_of(answer: Option<Route>) -> usize
    ensures { result < LENGTHS }
{
    match answer {
        Some(route) => (route.prefix.len() as usize).min(LENGTHS - 2),
        None => LENGTHS - 1,
    }
}

impl<A: Allocator + Copy> Slabs<A> {
    /// Returns the next hop of the answer with this number.
    pub(crate) fn hop(&self, n: u32) -> Option<Hop>
        requires coded { IsCoded self.now }
        requires within { n < length self.now.routes.places.values }
        ensures { result ≡ next_hop (get_or self.now.routes.places.values n None) }
    {
        match self.codes[n as usize] {
            NO_ROUTE => None,
            DISCARD => Some(Hop::Discard),
            LOW_ROUTER => next_hop(*self.routes.get(n)),
            code => Some(Hop::Via(Addr(code))),
        }
    }

    /// Keeps the number of the answer to the address before this one, as that which such an answer got last.
    pub(crate) fn keep_left_number(&mut self, entries: &[u32], addr: Addr)
        ensures { self.new ≡ record self.old { last_numbers = self.new.last_numbers } }
    {
        let left = Addr(addr.0.saturating_sub(1));
        let number = self.previous_number(entries, left);
        if (number as usize) < self.routes.len() {
            self.last_numbers[length_of(*self.routes.get(number))] = number;
        }
    }

    /// Returns the number of the answer: the last one of an answer as long, or the previous one, if it is that answer's, or else one
    /// that was free. So the answer of a prefix has one number between the longer prefixes within it.
    pub(crate) fn number_of(
        &mut self,
        epoch: Epoch,
        previous: u32,
        answer: Option<Route>,
    ) -> Result<u32, Refused>
        ensures fills { FillsBoth epoch.number self.old self.new }
        ensures number { IfOk result (λ number. IsNumberOf self.new.routes.places (epoch.number + 1) number answer) }
    {
        let length = length_of(answer);
        let last = self.last_numbers[length];
        if self.routes.reuse_if_same(epoch, last, &answer) {
            return Ok(last);
        }
        if self.routes.reuse_if_same(epoch, previous, &answer) {
            self.last_numbers[length] = previous;
            return Ok(previous);
        }
        self.codes.reserve(1)?;
        let number = self.routes.put(epoch, answer)?;
        put_code(&mut self.codes, number, hop_code(answer));
        self.last_numbers[length] = number;
        Ok(number)
    }
}
