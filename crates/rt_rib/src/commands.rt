//! The commands of a feed, their replies, and entries of both: plain data, as callers see it.
ghost use Rattle.std.specs.Prelude.{◌≡◌};
ghost use Rattle.rt_rib.specs.Sequential.{changed_prefix, lowest_address};

use crate::routes::{Hop, Route};
use rt_cidr::{Addr, Prefix};

/// A command of a feed. It concerns that feed's own routes, except `Lookup` and `Dump`, which concern all routes.
#[derive(Clone, Copy, PartialEq, Eq, Debug)]
pub enum Cmd {
    /// Insert a route, unless the feed already has one to this prefix or as many as its limit allows.
    Add { prefix: Prefix, pref: u32, hop: Hop },
    /// Change the preference and next hop of the feed's route to this prefix.
    Replace { prefix: Prefix, pref: u32, hop: Hop },
    /// Remove the feed's route to this prefix.
    Withdraw { prefix: Prefix },
    /// Return the best route of the longest prefix that covers the address.
    Lookup { addr: Addr },
    /// Return the number of routes.
    Dump,
    /// Remove all of the feed's routes.
    Purge,
}

impl Cmd {
    /// Returns the lowest address that the command concerns: the first one of its prefix, the one to look up, or 0 for
    /// `Dump` and `Purge`, which concern all addresses.
    pub fn lowest_address(&self) -> Addr
        ensures { result.0 ≡ lowest_address self.now }
    {
        match self {
            Cmd::Add { prefix, .. } | Cmd::Replace { prefix, .. } | Cmd::Withdraw { prefix } => {
                Addr(prefix.base())
            }
            Cmd::Lookup { addr } => *addr,
            Cmd::Dump | Cmd::Purge => Addr(0),
        }
    }

    /// Returns the prefix of the route that the command adds, replaces or withdraws; `None` for any other command.
    pub fn changed_prefix(&self) -> Option<Prefix>
        ensures { result ≡ changed_prefix self.now }
    {
        match self {
            Cmd::Add { prefix, .. } | Cmd::Replace { prefix, .. } | Cmd::Withdraw { prefix } => {
                Some(*prefix)
            }
            Cmd::Lookup { .. } | Cmd::Dump | Cmd::Purge => None,
        }
    }
}

/// The reply to a command.
#[derive(Clone, Copy, PartialEq, Eq, Debug)]
pub enum Reply {
    /// The route was inserted.
    Added,
    /// The feed already has a route to this prefix; nothing changed.
    Exists,
    /// The feed already has as many routes as its limit allows; nothing changed.
    Full,
    /// The feed's route has the new preference and next hop.
    Replaced,
    /// The feed's route was removed.
    Withdrawn,
    /// The feed has no route to this prefix; nothing changed.
    Missing,
    /// The best route of the longest prefix that covers the address.
    Found(Route),
    /// No prefix covers the address.
    NoRoute,
    /// The number of routes.
    Dumped(u32),
    /// The feed's routes were removed; this is their number.
    Purged(u32),
}

/// A command of the journal, with its reply.
#[derive(Clone, Copy, PartialEq, Eq, Debug)]
pub struct Entry {
    /// The number of the command's feed, from 1.
    pub feed: u32,
    /// The command.
    pub cmd: Cmd,
    /// The reply.
    pub reply: Reply,
}
