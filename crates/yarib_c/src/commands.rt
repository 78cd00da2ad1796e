//! Commands, replies and entries of the journal as C has them.
use crate::lists::FormOf;
use crate::routes::{YaribRoute, numbers_of};
use rt_cidr::{Addr, Prefix};
use rt_rib::{Cmd, Entry, Hop, Reply};

/// A command of a feed, 1 to [`MAX_FEEDS`](rt_rib::MAX_FEEDS). `operation` is 1 for an add, 2 replace, 3 withdraw, 4 look-up,
/// 5 dump and 6 purge. `base` is the prefix's, or the address of a look-up, and `hop` is 1 for a router, whose address is
/// `via`, and 2 if packets are to be discarded. Members that an operation doesn't use aren't read.
#[repr(C)]
#[derive(Clone, Copy)]
pub struct YaribCommand {
    pub operation: u32,
    pub feed: u32,
    pub base: u32,
    pub pref: u32,
    pub via: u32,
    pub len: u8,
    pub hop: u8,
}

impl YaribCommand {
    ghost use Rattle.std.specs.Prelude.{◌≡◌, IsSome, MatchOption};
    ghost use Rattle.rt_rib.specs.Sequential.{changed_prefix};
    ghost use Rattle.rt_rib.specs.declared.commands.Cmd.{Cmd as Command};
    ghost use Rattle.rt_rib.specs.declared.routes.Hop.{Hop as NextHop};
    ghost use Rattle.rt_cidr.specs.Cidr.{IsPrefix};
    ghost use Rattle.yarib_c.specs.Forms.{IsCommand, HasPrefix, IsHop, command_of, put_of};

    fn prefix(&self) -> Option<Prefix>
        ensures { MatchOption result (¬ IsPrefix self.now.base self.now.len) (λ prefix. HasPrefix self.now prefix) }
    {
        Prefix::new(self.base, self.len).ok()
    }

    fn hop(&self) -> Option<Hop>
        ensures { MatchOption result ((hop : NextHop) → ¬ IsHop self.now hop) (λ hop. IsHop self.now hop) }
    {
        match self.hop {
            1 => Some(Hop::Via(Addr(self.via))),
            2 => Some(Hop::Discard),
            _ => None,
        }
    }

    /// Returns the command that these numbers denote, if they denote one.
    pub(crate) fn read(&self) -> Option<Cmd>
        ensures { MatchOption result ((cmd : Command) → ¬ IsCommand self.now cmd) (λ cmd. IsCommand self.now cmd) }
    {
        Some(match self.operation {
            1 => Cmd::Add {
                prefix: self.prefix()?,
                pref: self.pref,
                hop: self.hop()?,
            },
            2 => Cmd::Replace {
                prefix: self.prefix()?,
                pref: self.pref,
                hop: self.hop()?,
            },
            3 => Cmd::Withdraw {
                prefix: self.prefix()?,
            },
            4 => Cmd::Lookup {
                addr: Addr(self.base),
            },
            5 => Cmd::Dump,
            6 => Cmd::Purge,
            _ => return None,
        })
    }

    /// Returns the add, the replacement or the withdrawal that these numbers denote, if they denote one.
    pub(crate) fn read_change(&self) -> Option<Cmd>
        ensures { MatchOption result ((cmd : Command) → IsCommand self.now cmd → ¬ IsSome (changed_prefix cmd))
            (λ cmd. IsCommand self.now cmd × IsSome (changed_prefix cmd)) }
    {
        let cmd = self.read()?;
        if cmd.changed_prefix().is_none() {
            return None;
        }
        Some(cmd)
    }

    /// Returns the numbers of a feed's command. Those that the command doesn't use are 0.
    pub(crate) fn of(feed: u32, cmd: Cmd) -> YaribCommand
        ensures { result ≡ command_of feed cmd }
    {
        let none = YaribCommand {
            operation: 0,
            feed,
            base: 0,
            pref: 0,
            via: 0,
            len: 0,
            hop: 0,
        };
        match cmd {
            Cmd::Add { prefix, pref, hop } => YaribCommand::put(1, feed, prefix, pref, hop),
            Cmd::Replace { prefix, pref, hop } => YaribCommand::put(2, feed, prefix, pref, hop),
            Cmd::Withdraw { prefix } => YaribCommand {
                operation: 3,
                base: prefix.base(),
                len: prefix.len(),
                ..none
            },
            Cmd::Lookup { addr } => YaribCommand {
                operation: 4,
                base: addr.0,
                ..none
            },
            Cmd::Dump => YaribCommand {
                operation: 5,
                ..none
            },
            Cmd::Purge => YaribCommand {
                operation: 6,
                ..none
            },
        }
    }

    fn put(operation: u32, feed: u32, prefix: Prefix, pref: u32, hop: Hop) -> YaribCommand
        ensures { result ≡ put_of operation feed prefix pref hop }
    {
        let (hop, via) = numbers_of(hop);
        YaribCommand {
            operation,
            feed,
            base: prefix.base(),
            pref,
            via,
            len: prefix.len(),
            hop,
        }
    }
}

/// A reply: `code` is 1 added, 2 exists, 3 full, 4 replaced, 5 withdrawn, 6 missing, 7 found, with the route, 8 no route, 9
/// dumped and 10 purged, with the count. Of many commands one that was not answered has the code 0, and as count its status.
#[repr(C)]
#[derive(Clone, Copy)]
pub struct YaribReply {
    pub code: u32,
    pub count: u32,
    pub route: YaribRoute,
}

impl YaribReply {
    ghost use Rattle.std.specs.Prelude.{◌≡◌};
    ghost use Rattle.yarib_c.specs.Forms.{reply_as, unanswered};

    pub(crate) fn of(reply: Reply) -> YaribReply
        ensures { result ≡ reply_as reply }
    {
        let (code, count, route) = match reply {
            Reply::Added => (1, 0, YaribRoute::NONE),
            Reply::Exists => (2, 0, YaribRoute::NONE),
            Reply::Full => (3, 0, YaribRoute::NONE),
            Reply::Replaced => (4, 0, YaribRoute::NONE),
            Reply::Withdrawn => (5, 0, YaribRoute::NONE),
            Reply::Missing => (6, 0, YaribRoute::NONE),
            Reply::Found(route) => (7, 0, YaribRoute::of(route)),
            Reply::NoRoute => (8, 0, YaribRoute::NONE),
            Reply::Dumped(count) => (9, count, YaribRoute::NONE),
            Reply::Purged(count) => (10, count, YaribRoute::NONE),
        };
        YaribReply { code, count, route }
    }

    /// Returns the reply of a command that wasn't answered, with its status.
    pub(crate) fn unanswered(status: u32) -> YaribReply
        ensures { result ≡ unanswered status }
    {
        YaribReply {
            code: 0,
            count: status,
            route: YaribRoute::NONE,
        }
    }
}

/// An entry of the journal.
#[repr(C)]
#[derive(Clone, Copy)]
pub struct YaribEntry {
    pub command: YaribCommand,
    pub reply: YaribReply,
}

impl FormOf<Entry> for YaribEntry {
    ghost use Rattle.yarib_c.specs.Forms.{entry_as};

    ghost form = { entry_as };

    fn of(entry: Entry) -> YaribEntry {
        YaribEntry {
            command: YaribCommand::of(entry.feed, entry.cmd),
            reply: YaribReply::of(entry.reply),
        }
    }
}
