//! The table of one side, with its feeds renumbered.
ghost use Rattle.std.specs.Prelude.{◌≡◌, ◌≤◌};
ghost use Rattle.rt_cidr.specs.declared.address.Addr.{Addr};
ghost use Rattle.rt_diff.specs.Answers.{own_numbers, renumbered, renumbered_route, renumbered_look_up};

use rt_cidr::Addr;
use rt_rib::Route;
use rt_tables::UnionCursor;
use std::alloc::Allocator;
use std::marker::Model;

/// The answers of one side's table, with its feeds renumbered: feed k gets the k-th number, or keeps its own if the
/// list is shorter. Contracts see its routes and the numbers.
#[derive(Drop)]
pub(crate) struct RenumberedLookups<'a, A: Allocator + Copy> {
    answers: UnionCursor<'a, A>,
    numbers: &'a [u32],
}

impl<'a, A: Allocator + Copy> Model for RenumberedLookups<'a, A> {
    ghost use Rattle.rt_diff.specs.Answers.{RenumberedTable};

    ghost Value = { RenumberedTable };

    ghost view = { λ t. record { routes = t.answers; numbers = t.numbers.now } };
}

impl<'a, A: Allocator + Copy> RenumberedLookups<'a, A> {
    /// Returns the answers with each feed's own number.
    pub(crate) fn new(answers: UnionCursor<'a, A>) -> RenumberedLookups<'a, A>
        ensures { result ≡ own_numbers answers.entry }
    {
        RenumberedLookups {
            answers,
            numbers: &[],
        }
    }

    /// From now on, renumbers the feeds with these numbers.
    pub(crate) fn renumber(&mut self, numbers: &'a [u32])
        ensures { self.new ≡ record { routes = self.old.routes; numbers = numbers.now } }
    {
        self.numbers = numbers;
    }

    /// Does the same as `UnionCursor::lookup_range`, with the route's feed renumbered.
    pub(crate) fn lookup_range(&mut self, addr: Addr) -> (Option<Route>, Addr)
        ensures kept { self.new ≡ self.old }
        ensures onward { addr.0 ≤ result.1.0 }
        ensures same { (b : Addr) → addr.0 ≤ b.0 → b.0 ≤ result.1.0 → renumbered_look_up b self.old ≡ result.0 }
    {
        let (found, last) = self.answers.lookup_range(addr);
        let told = match found {
            Some(route) => Some(renumbered_route(self.numbers, route)),
            None => None,
        };
        (told, last)
    }
}

/// Returns the route with its feed renumbered.
fn renumbered_route(numbers: &[u32], route: Route) -> Route
    ensures { result ≡ renumbered_route numbers.now route }
{
    let feed = renumbered(numbers, route.feed);
    Route { feed, ..route }
}

/// Returns the new number of the feed.
fn renumbered(numbers: &[u32], feed: u32) -> u32
    ensures { result ≡ renumbered numbers.now feed }
{
    match numbers.get(feed.saturating_sub(1) as usize) {
        Some(number) => *number,
        None => feed,
    }
}
