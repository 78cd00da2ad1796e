//! The best routes that commands change: that to the prefix of an add, a replacement or a withdrawal, and those that a
//! purge removes. Whoever installs best routes in a forwarding plane needs just these.
ghost use Rattle.std.specs.Prelude.{◌≡◌, ℕ, ◌≤◌, ◌↔◌, length, IsTrue, IsSome, Some, List, IfOk, OnErr, option_to_list};
ghost use Rattle.rt_rib.specs.declared.routes.Route.{Route as RouteContents};
ghost use Rattle.rt_rib.specs.declared.commands.Cmd.{Cmd as Command};
ghost use Rattle.rt_rib.specs.declared.commands.Reply.TheVariants.{Added};
ghost use Rattle.rt_rib.specs.Table.{purge, IsTable};
ghost use Rattle.rt_rib.specs.Sequential.{reply_of, table_after, changed_prefix};
ghost use Rattle.rt_rib.specs.Book.{IsFeed, table_state, Serves};
ghost use Rattle.rt_rib.specs.Maps.{routes_of, IsOffers};
ghost use Rattle.rt_rib.specs.Changes.{best_to, AreBestChanges};
ghost use Rattle.rt_rib.specs.inside.Changes.{purge_change};

use crate::commands::{Cmd, Reply};
use crate::map::OfferMap;
use crate::offers::{Offer, Offers, route_by};
use crate::refused::Refused;
use crate::routes::Route;
use crate::table::Table;
use rt_cidr::Prefix;
use rt_trie::Walk;
use std::alloc::Allocator;
use std::fmt;
use std::marker::Model;

/// A prefix whose best route has changed.
#[derive(Clone, Copy, PartialEq, Eq, Debug)]
pub struct BestChange {
    /// The prefix.
    pub prefix: Prefix,
    /// The best route to it before, or `None` if there was no route to it.
    pub before: Option<Route>,
    /// The best route to it afterwards, or `None` if there is no route to it any more.
    pub after: Option<Route>,
}

impl BestChange {
    /// Returns what a command has changed that concerns this prefix, from the best routes to the prefix before and after
    /// it: `None` if the best route is the same. The best routes to other prefixes are the same.
    pub fn of(prefix: Prefix, before: Option<Route>, after: Option<Route>) -> Option<BestChange>
        ensures { (limit feed : ℕ) (cmd : Command) (routes : List RouteContents) → IsTable routes → changed_prefix cmd ≡ Some prefix
            → before ≡ best_to prefix routes → after ≡ best_to prefix (table_after limit routes feed cmd)
            → AreBestChanges routes (table_after limit routes feed cmd) (option_to_list result) }
    {
        if is_same(&before, &after) {
            return None;
        }
        Some(BestChange {
            prefix,
            before,
            after,
        })
    }
}

/// Returns true if both are the same route, or none.
fn is_same(before: &Option<Route>, after: &Option<Route>) -> bool
    ensures { IsTrue result ↔ (before.now ≡ after.now) }
{
    match before {
        None => after.is_none(),
        Some(old) => match after {
            None => false,
            Some(new) => old == new,
        },
    }
}

/// Returns the best route to the prefix.
pub(crate) fn best_to<A: Allocator + Copy>(map: &OfferMap<A>, prefix: Prefix) -> Option<Route>
    ensures { result ≡ best_to prefix (routes_of map.now.pairs) }
{
    match map.trie.get(prefix) {
        None => None,
        Some(offers) => Some(route_by(prefix, &offers.as_slice()[0])),
    }
}

impl<A: Allocator + Copy> Table<A> {
    /// Executes an `Add`, a `Replace` or a `Withdraw` as [`Table::apply`] does, and returns also what it changes: the best
    /// route to its prefix before and after, or `None` if no best route has changed.
    pub fn apply_changed(
        &mut self,
        feed: u32,
        cmd: Cmd,
    ) -> Result<(Reply, Option<BestChange>), Refused>
        requires feed { IsFeed feed }
        requires prefix { IsSome (changed_prefix cmd) }
        ensures ok { IfOk result (λ done. Serves (table_state self.old) (table_state self.new) feed cmd done.0) }
        ensures changes { IfOk result (λ done. AreBestChanges self.old.routes self.new.routes (option_to_list done.1)) }
        ensures err { OnErr result (self.new ≡ self.old) }
        ensures wanted { OnErr result (reply_of self.old.limit self.old.routes feed cmd ≡ Added) }
    {
        self.holds();
        let Some(prefix) = cmd.changed_prefix() else {
            unreachable!()
        };
        let (reply, best) = self.change(feed, cmd)?;
        let Some(best) = best else {
            return Ok((reply, None));
        };
        Ok((reply, BestChange::of(prefix, best.before, best.after)))
    }
}

/// An iterator over what a purge of a feed would change, in dump order. Contracts see the remaining changes. Visits each
/// node of the trie once. Doesn't allocate.
#[derive(Drop)]
pub struct PurgeChanges<'a, A: Allocator + Copy> {
    feed: u32,
    walk: Walk<'a, Offers<A>, A>,
}

impl<'a, A: Allocator + Copy> Model for PurgeChanges<'a, A> {
    ghost use Rattle.std.specs.Prelude.{List};
    ghost use Rattle.rt_rib.specs.declared.changes.BestChange.{BestChange};
    ghost use Rattle.rt_rib.specs.inside.Changes.{purge_changes};

    ghost Value = { List BestChange };

    ghost view = { λ c. purge_changes c.feed c.walk };
}

impl<'a, A: Allocator + Copy> PurgeChanges<'a, A> {
    /// Returns what a purge of the feed would change in the map.
    pub(crate) fn new(map: &'a OfferMap<A>, feed: u32) -> PurgeChanges<'a, A>
        ensures changes { AreBestChanges (routes_of map.now.pairs) (purge feed (routes_of map.now.pairs)) result }
        ensures few { length result ≤ length map.now.pairs }
    {
        PurgeChanges {
            feed,
            walk: map.trie.walk(),
        }
    }
}

/// Shows the number of the feed, but no changes.
impl<'a, A: Allocator + Copy> fmt::Debug for PurgeChanges<'a, A> {
    fn fmt<W: fmt::Write>(&self, f: &mut fmt::Formatter<W>) -> fmt::Result {
        f.debug_struct("PurgeChanges")
            .field("feed", &self.feed)
            .finish_non_exhaustive()
    }
}

impl<'a, A: Allocator + Copy> Iterator for PurgeChanges<'a, A> {
    ghost use Rattle.std.specs.Iterator.{YieldsFirstBy, item_count};

    type Item = BestChange;

    ghost next_gives = { YieldsFirstBy (λ x. x) (λ s. s) };

    ghost remaining = { item_count (λ s. s) };

    fn next(&mut self) -> Option<BestChange> {
        let mut found = None;
        while found.is_none() {
            match self.walk.next() {
                None => return None,
                Some((prefix, offers)) => {
                    found = change_at(self.feed, prefix, offers.as_slice());
                }
            }
        }
        found
    }
}

/// Returns what a purge of the feed would change at a prefix with these offers: if the best route is the feed's, it is
/// followed by the second one, if there is one.
fn change_at(feed: u32, prefix: Prefix, offers: &[Offer]) -> Option<BestChange>
    requires { IsOffers offers.now }
    ensures { option_to_list result ≡ purge_change feed prefix offers.now }
{
    let first = &offers[0];
    if first.feed != feed {
        return None;
    }
    let after = match offers.get(1) {
        None => None,
        Some(second) => Some(route_by(prefix, second)),
    };
    Some(BestChange {
        prefix,
        before: Some(route_by(prefix, first)),
        after,
    })
}
