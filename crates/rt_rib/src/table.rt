//! The sequential table: its routes as offers in a map, the number of each feed's routes, and the replies to commands.
ghost use Rattle.std.specs.Prelude.{◌≡◌, ◌-◌, ◌*◌, ◌^◌, ◌<◌, ◌≤◌, ◌↔◌, IsTrue, [], length, map, sum, sum_by, IfOk, IfSome, OnErr, IsSome};
ghost use Rattle.rt_rib.specs.declared.commands.Cmd.TheVariants.{Withdraw, Purge};
ghost use Rattle.rt_rib.specs.declared.commands.Reply.TheVariants.{Added};
ghost use Rattle.rt_rib.specs.Sequential.{reply_of, add_of, replace_of, changed_prefix};
ghost use Rattle.rt_rib.specs.Places.{from_place};
ghost use Rattle.rt_rib.specs.Table.{count_of, purge, IsTable};
ghost use Rattle.rt_rib.specs.LookUp.{look_up, look_up_all};
ghost use Rattle.rt_rib.specs.Book.{IsLimit, IsFeed, table_state, Serves, HoldsRoutes};
ghost use Rattle.rt_rib.specs.Selection.{selected};
ghost use Rattle.rt_rib.specs.Changes.{best_to, AreBestChanges};
ghost use Rattle.rt_rib.specs.HopCounts.{AreHopCounts};
ghost use Rattle.rt_rib.specs.declared.hop_counts.HopCount.{HopCount as Count};
ghost use Rattle.rt_rib.specs.inside.Changes.{ReturnsBest};

use crate::answers::LookupCursor;
use crate::changes::{self, PurgeChanges};
use crate::commands::{Cmd, Reply};
use crate::hop_counts::{self, HopCount};
use crate::limits::MAX_FEEDS;
use crate::map::{BestRoutes, OfferMap};
use crate::marks::FeedMarks;
use crate::places::RoutesFrom;
use crate::refused::Refused;
use crate::routes::Route;
use crate::selection::{Selection, keep_selected, routes_in};
use crate::{ahead, lookups, purge};
use rt_cidr::{Addr, Prefix};
use std::alloc::Allocator;
use std::fmt;
use std::marker::Model;

/// A purge withdraws a feed's routes one by one if they are at most this part of the table's.
const FEW: u32 = 16;

/// The sequential table: a set of routes, at most one for each pair of prefix and feed, and for each feed at most the
/// limit. Contracts see its limit, its routes in dump order, and the trie that holds them. It keeps no journal, and its
/// trie has fewer than two nodes for each route, however long it is used ([`nodes`](Table::nodes)). What else it allocates
/// is only tested: [`offer_bytes`](Table::offer_bytes) and [`mark_bytes`](Table::mark_bytes).
#[derive(Drop)]
pub struct Table<A: Allocator + Copy> {
    limit: u32,
    /// The number of routes of each feed, starting with feed 1.
    counts: [u32; MAX_FEEDS],
    /// The routes, as the offers for each prefix.
    map: OfferMap<A>,
    /// The blocks of prefixes in which each feed may have routes. No clause mentions them.
    marks: FeedMarks<A>,
    alloc: A,
}

impl<A: Allocator + Copy> Model for Table<A> {
    ghost use Rattle.std.specs.Coded.{codes};
    ghost use Rattle.rt_trie.specs.inside.TreeCode.{tree_code};
    ghost use Rattle.rt_rib.specs.Book.{TableContents};
    ghost use Rattle.rt_rib.specs.inside.TableState.{IsCounted};
    ghost use Rattle.rt_rib.specs.Maps.{routes_of};

    ghost Value = { TableContents };

    ghost coded = { Prim.hlevel (codes, tree_code) };

    ghost view = { λ t. record { limit = t.limit; routes = routes_of t.map.pairs; trie = t.map } };

    ghost invariant = { λ t. IsCounted t.limit t.counts t.map.pairs };
}

/// Shows the number of trie nodes, but no routes.
impl<A: Allocator + Copy> fmt::Debug for Table<A> {
    fn fmt<W: fmt::Write>(&self, f: &mut fmt::Formatter<W>) -> fmt::Result {
        f.debug_struct("Table")
            .field("nodes", &self.map.nodes())
            .finish_non_exhaustive()
    }
}

impl<A: Allocator + Copy> Table<A> {
    /// Returns the empty table, in which each feed may have up to `limit` routes. Doesn't allocate.
    pub fn new(alloc: A, limit: u32) -> Table<A>
        requires { IsLimit limit }
        ensures { table_state result ≡ record { limit = limit; routes = [] } }
    {
        let counts = [0; MAX_FEEDS];
        Table {
            limit,
            counts,
            map: OfferMap::new(alloc),
            marks: FeedMarks::new(alloc),
            alloc,
        }
    }

    /// Makes known to a proof that the trie is lawful and holds exactly the table's routes, none of them twice. Does
    /// nothing.
    pub fn holds(&self)
        ensures { HoldsRoutes self.now.trie self.now.routes }
    {
        let _ = self.map.nodes();
    }

    /// Returns the number of routes.
    pub fn len(&self) -> u32
        ensures { result ≡ length self.now.routes }
    {
        total(&self.counts)
    }

    /// Returns the number of the feed's routes.
    pub fn count(&self, feed: u32) -> u32
        requires { IsFeed feed }
        ensures { result ≡ count_of feed self.now.routes }
    {
        self.counts[(feed - 1) as usize]
    }

    /// Returns true if there is no route.
    pub fn is_empty(&self) -> bool
        ensures { IsTrue result ↔ (self.now.routes ≡ []) }
    {
        self.len() == 0
    }

    /// Returns the routes in dump order: by base, then length, then preference, then feed. Allocates the list with the
    /// given allocator, unless there is no route. Error M1 (`Refused`) if memory runs out.
    pub fn routes(&self, alloc: A) -> Result<Vec<Route, A>, Refused>
        ensures routes { IfOk result (λ routes. routes.items ≡ self.now.routes) }
        ensures table { IsTable self.now.routes }
        ensures wanted { OnErr result (0 < length self.now.routes) }
    {
        let count = self.len();
        if count == 0 {
            return Ok(Vec::new(alloc));
        }
        self.map.routes(alloc, count as usize)
    }

    /// Returns the best route of the longest prefix that covers the address, or `None` if no prefix covers it: the answer
    /// of `Cmd::Lookup`. Doesn't allocate.
    pub fn look_up(&self, addr: Addr) -> Option<Route>
        ensures { result ≡ look_up addr self.now.routes }
    {
        lookups::best_of(&self.map, addr)
    }

    /// Replaces each answer by the look-up of the address with the same index. The two lists must be equally long. Eight
    /// look-ups proceed in turn, so that their waits for memory overlap, which is faster if the table doesn't fit in the
    /// cache. Doesn't allocate.
    pub fn look_up_each(&self, addresses: &[Addr], answers: &mut [Option<Route>])
        requires { length answers.old ≡ length addresses.now }
        ensures { answers.new ≡ map (λ addr. look_up addr self.now.routes) addresses.now }
    {
        lookups::best_of_each(&self.map, addresses, answers);
    }

    /// Returns a cursor for look-ups of successive addresses, each with how far its answer holds. For rising addresses
    /// a look-up continues from the path of the previous one instead of from the trie's root. Doesn't allocate.
    pub fn lookup_cursor(&self) -> LookupCursor<'_, A>
        ensures { result ≡ self.now.routes }
    {
        LookupCursor::new(&self.map)
    }

    /// Returns every route whose prefix covers the address, by decreasing length, then by preference, then by feed, so
    /// that the first is the answer to a look-up. Allocates the list with the given allocator. Error M1 (`Refused`) if
    /// memory runs out.
    pub fn look_up_all(&self, alloc: A, addr: Addr) -> Result<Vec<Route, A>, Refused>
        ensures { IfOk result (λ routes. routes.items ≡ look_up_all addr self.now.routes) }
    {
        lookups::all_of(&self.map, alloc, addr)
    }

    /// Returns the number of nodes of the trie of the routes: fewer than twice the number of routes, unless there is none.
    pub fn nodes(&self) -> usize
        ensures nodes { result ≡ self.now.trie.nodes }
        ensures bound { result ≤ 2 * length self.now.routes - 1 }
    {
        self.map.nodes()
    }

    /// Returns the number of prefixes that have a route.
    pub fn prefixes(&self) -> usize
        ensures { result ≡ length self.now.trie.pairs }
    {
        self.map.len()
    }

    /// Returns the number of bytes that are allocated for the routes of prefixes with several routes, in addition to the
    /// trie's nodes, which have room for a route each. It includes what is reserved for further routes, but nothing that
    /// the allocator adds. No clause limits it; it is only tested.
    pub fn offer_bytes(&self) -> usize {
        self.map.offer_bytes()
    }

    /// Returns the number of bytes that are allocated for the marks of where each feed may have routes, which shorten a
    /// purge: 512 KiB in a table of 16,384 prefixes, until it has fewer than 4,096; else 0. No clause limits it; it is only tested.
    pub fn mark_bytes(&self) -> usize {
        self.marks.bytes()
    }

    /// Returns the first prefixes to which the feed has a route, in dump order: `most` of them if there are as many.
    /// Visits only the parts of the table where the feed added routes. Allocates the list with the given allocator. Error
    /// M1 (`Refused`) if memory runs out. This is a hint, which no clause limits: whoever needs all of the feed's routes
    /// should not rely on it.
    pub fn likely_prefixes<B: Allocator + Copy>(
        &self,
        alloc: B,
        feed: u32,
        most: usize,
    ) -> Result<Vec<Prefix, B>, Refused> {
        self.marks.prefixes(&self.map, alloc, feed, most)
    }

    /// Returns the selected routes, in dump order. `only_best` first restricts the table to the best route of each
    /// prefix; then the routes are selected whose prefix is in the part, and which are of the feeds and have the next
    /// hop. Descends once, then visits only that part, and allocates only for its routes, with the given allocator.
    /// Error M1 (`Refused`) if memory runs out.
    pub fn select(&self, alloc: A, asked: &Selection<'_>) -> Result<Vec<Route, A>, Refused>
        ensures { IfOk result (λ routes. routes.items ≡ selected asked.now self.now.routes) }
    {
        let count = self.len();
        let mut routes = routes_in(&self.map, alloc, count as usize, asked.part)?;
        keep_selected(&mut routes, asked);
        Ok(routes)
    }

    /// Returns how many best routes use each next hop that a best route has, in ascending order: first `Hop::Discard`, then
    /// the routers by their addresses. The counts add up to the number of prefixes. Visits each prefix once, and finds its
    /// next hop among those before in logarithmic time. Allocates the list with the given allocator, and for each next hop
    /// a node that it frees. Error M1 (`Refused`) if memory runs out.
    pub fn hop_counts(&self, alloc: A) -> Result<Vec<HopCount, A>, Refused>
        ensures counts { IfOk result (λ counts. AreHopCounts self.now.routes counts.items) }
        ensures all { IfOk result (λ counts. sum_by (λ (c : Count). c.routes) counts.items ≡ length self.now.trie.pairs) }
    {
        // There are at most as many prefixes as routes.
        self.holds();
        let _routes = self.len();
        hop_counts::hop_counts(&self.map, alloc)
    }

    /// Returns the routes in dump order from the position of the given route on, whether or not it is in the table; its
    /// next hop doesn't matter. With preference and feed 0 these are all routes from its prefix on. With a feed number
    /// one higher than that of a route of the table, these are the routes after that route. Descends once, then visits
    /// only the routes that are requested from the iterator. Doesn't allocate.
    pub fn routes_from(&self, from: &Route) -> RoutesFrom<'_, A>
        ensures { result ≡ from_place from.now self.now.routes }
    {
        RoutesFrom::new(&self.map, from)
    }

    /// Returns the best route to exactly this prefix: the one with the lowest preference number and, among those, with the
    /// lowest feed number. Doesn't allocate.
    pub fn best_to(&self, prefix: Prefix) -> Option<Route>
        ensures { result ≡ best_to prefix self.now.routes }
    {
        changes::best_to(&self.map, prefix)
    }

    /// Returns which best routes a purge of the feed would change, in dump order. Visits each prefix once, while the
    /// changes are requested from the iterator. Doesn't allocate.
    pub fn purge_changes(&self, feed: u32) -> PurgeChanges<'_, A>
        ensures changes { AreBestChanges self.now.routes (purge feed self.now.routes) result }
        ensures few { length result ≤ length self.now.trie.pairs }
    {
        PurgeChanges::new(&self.map, feed)
    }

    /// Reads what the first [`READ_AHEAD_COMMANDS`](crate::READ_AHEAD_COMMANDS) of these commands will visit, all at
    /// once, so that `apply` finds it in the cache. This makes commands faster if the table doesn't fit in the cache:
    /// below [`READ_AHEAD_NODES`](crate::READ_AHEAD_NODES) nodes nothing is read. Answers nothing and changes nothing.
    /// Doesn't allocate.
    pub fn read_ahead(&self, cmds: &[Cmd]) {
        ahead::read_ahead(&self.map, cmds);
    }

    /// Executes a command of the feed. Only a route that is inserted can need memory. Error M1 (`Refused`) if it runs
    /// out; the table is then unchanged.
    pub fn apply(&mut self, feed: u32, cmd: Cmd) -> Result<Reply, Refused>
        requires { IsFeed feed }
        ensures ok { IfOk result (λ reply. Serves (table_state self.old) (table_state self.new) feed cmd reply) }
        ensures err { OnErr result (self.new ≡ self.old) }
        ensures wanted { OnErr result (reply_of self.old.limit self.old.routes feed cmd ≡ Added) }
    {
        match cmd {
            Cmd::Add { .. } | Cmd::Replace { .. } | Cmd::Withdraw { .. } => {
                let (reply, _) = self.change(feed, cmd)?;
                Ok(reply)
            }
            Cmd::Lookup { addr } => Ok(match lookups::best_of(&self.map, addr) {
                Some(route) => Reply::Found(route),
                None => Reply::NoRoute,
            }),
            Cmd::Dump => Ok(Reply::Dumped(self.len())),
            Cmd::Purge => Ok(self.purge(feed)),
        }
    }

    /// Executes an `Add`, a `Replace` or a `Withdraw`. Returns the reply and, if a route has changed, the best routes to
    /// its prefix before and after.
    #[inline(always)]
    pub(crate) fn change(
        &mut self,
        feed: u32,
        cmd: Cmd,
    ) -> Result<(Reply, Option<BestRoutes>), Refused>
        requires feed { IsFeed feed }
        requires prefix { IsSome (changed_prefix cmd) }
        ensures ok { IfOk result (λ done. Serves (table_state self.old) (table_state self.new) feed cmd done.0) }
        ensures best { IfSome (changed_prefix cmd) (λ p. IfOk result (λ done. ReturnsBest p self.old.routes self.new.routes done.1)) }
        ensures err { OnErr result (self.new ≡ self.old) }
        ensures wanted { OnErr result (reply_of self.old.limit self.old.routes feed cmd ≡ Added) }
    {
        match cmd {
            Cmd::Add { prefix, pref, hop } => self.add(Route {
                prefix,
                feed,
                pref,
                hop,
            }),
            Cmd::Replace { prefix, pref, hop } => Ok(self.replace(Route {
                prefix,
                feed,
                pref,
                hop,
            })),
            Cmd::Withdraw { prefix } => Ok(self.withdraw(feed, prefix)),
            Cmd::Lookup { .. } | Cmd::Dump | Cmd::Purge => unreachable!(),
        }
    }

    /// Inserts the route, unless the feed has one to its prefix or as many as the limit allows.
    #[inline(always)]
    fn add(&mut self, route: Route) -> Result<(Reply, Option<BestRoutes>), Refused>
        requires { IsFeed route.feed }
        ensures ok { IfOk result (λ done. Serves (table_state self.old) (table_state self.new) route.feed (add_of route) done.0) }
        ensures best { IfOk result (λ done. ReturnsBest route.prefix self.old.routes self.new.routes done.1) }
        ensures err { OnErr result (self.new ≡ self.old) }
        ensures wanted { OnErr result (reply_of self.old.limit self.old.routes route.feed (add_of route) ≡ Added) }
    {
        let own = (route.feed - 1) as usize;
        if self.counts[own] >= self.limit {
            if self.map.has(route.feed, route.prefix) {
                return Ok((Reply::Exists, None));
            }
            return Ok((Reply::Full, None));
        }
        // Before the descent, so that the waits for memory overlap.
        self.marks.mark(route.feed, route.prefix);
        let inserted = self.map.put_in(self.alloc, route)?;
        let Some(best) = inserted else {
            return Ok((Reply::Exists, None));
        };
        self.counts[own] += 1;
        self.marks.make_if_large(self.alloc, &self.map);
        Ok((Reply::Added, Some(best)))
    }

    /// Replaces the feed's route to this prefix, if it has one.
    #[inline(always)]
    fn replace(&mut self, route: Route) -> (Reply, Option<BestRoutes>)
        requires { IsFeed route.feed }
        ensures served { Serves (table_state self.old) (table_state self.new) route.feed (replace_of route) result.0 }
        ensures best { ReturnsBest route.prefix self.old.routes self.new.routes result.1 }
    {
        let Some(best) = self.map.replace(route) else {
            return (Reply::Missing, None);
        };
        (Reply::Replaced, Some(best))
    }

    /// Removes the feed's route to this prefix, if it has one.
    #[inline(always)]
    fn withdraw(&mut self, feed: u32, prefix: Prefix) -> (Reply, Option<BestRoutes>)
        requires { IsFeed feed }
        ensures served { Serves (table_state self.old) (table_state self.new) feed (Withdraw prefix) result.0 }
        ensures best { ReturnsBest prefix self.old.routes self.new.routes result.1 }
    {
        let Some(best) = self.map.take_out(feed, prefix) else {
            return (Reply::Missing, None);
        };
        self.counts[(feed - 1) as usize] -= 1;
        self.marks.free_if_small(self.alloc, &self.map);
        (Reply::Withdrawn, Some(best))
    }

    /// Executes the feed's purge: removes all of its routes. If they are few, visits only the parts of the table where the
    /// feed added routes; else visits all prefixes up to the last of them. Doesn't allocate.
    pub fn purge(&mut self, feed: u32) -> Reply
        requires { IsFeed feed }
        ensures { Serves (table_state self.old) (table_state self.new) feed Purge result }
    {
        let gone = self.count(feed);
        if gone <= self.len() / FEW {
            self.withdraw_marked(feed, gone);
        }
        self.purge_rest(feed);
        Reply::Purged(gone)
    }

    /// Withdraws the first routes of the feed, `most` of them if there are as many.
    fn withdraw_marked(&mut self, feed: u32, most: u32)
        requires { IsFeed feed }
        ensures limit { self.new.limit ≡ self.old.limit }
        ensures rest { purge feed self.new.routes ≡ purge feed self.old.routes }
    {
        let Ok(mut from) = Prefix::new(0, 0) else {
            return;
        };
        'each: for _ in 0..most {
            let Some(prefix) = self.marks.next(&self.map, feed, from) else {
                return;
            };
            self.withdraw(feed, prefix);
            from = prefix;
        }
    }

    /// Removes the remaining routes of the feed, in a walk that ends after the last of them, and its marks.
    fn purge_rest(&mut self, feed: u32) -> Reply
        requires { IsFeed feed }
        ensures { Serves (table_state self.old) (table_state self.new) feed Purge result }
    {
        let own = (feed - 1) as usize;
        let gone = self.counts[own];
        purge::purge(&mut self.map, feed, gone);
        self.counts[own] = 0;
        self.marks.clear(feed);
        self.marks.free_if_small(self.alloc, &self.map);
        Reply::Purged(gone)
    }
}

/// Returns the sum of the counts.
fn total(counts: &[u32]) -> u32
    requires { sum counts.now < 2 ^ 32 }
    ensures { result ≡ sum counts.now }
{
    counts.iter().sum()
}
