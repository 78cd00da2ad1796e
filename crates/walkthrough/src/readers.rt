//! `fib_readers`: feeds change a shared table on threads of their own, a writer follows them and publishes each
//! forwarding table, and readers query it on threads of their own.
ghost use Rattle.std.specs.Prelude.{◌≡◌, IfOk, IfSome, OnOk};
ghost use Rattle.rt_rib.specs.Book.{IsFeed};

use crate::fib::follow;
use crate::shared::{LIMIT, ask, table_of_two};
use fib_readers::{FibReader, FibWriter};
use rt_cidr::Addr;
use rt_fib::Fib;
use rt_rib::{Book, Cmd, Refused, Route, Table};
use rt_shared::FeedPass;
use std::alloc::Global;
use std::sync::Wait;
use std::thread::{self, JoinHandle, Scope, Threads};

/// The number of reading threads.
const READERS: usize = 2;

/// Returns the first route of this feed that a reader finds for the address, or `None` if the writer ends before. May
/// query forever.
fn find<R: Wait>(rt: &R, reader: FibReader, addr: Addr, feed: u32) -> Option<Route>
    ensures { IfSome result (λ route. route.feed ≡ feed) }
{
    let mut reader = reader;
    for _ in rt.forever() {
        let Ok(reading) = reader.enter() else {
            return None;
        };
        let found = reading.look_up(addr);
        reader = reading.leave();
        match found {
            Some(route) if route.feed == feed => return found,
            _ => {}
        }
    }
    unreachable!()
}

/// A table, and the forwarding table that follows it.
#[derive(Drop)]
struct Followed {
    table: Table<Global>,
    fib: Fib<Global>,
}

impl Followed {
    /// Returns an empty table and its forwarding table.
    fn new(alloc: Global) -> Result<Followed, Refused>
        ensures { IfOk result (λ made. made.fib ≡ made.table.routes) }
    {
        let table = Table::new(alloc, LIMIT);
        let fib = Fib::new(alloc, &table)?;
        Ok(Followed { table, fib })
    }

    /// Executes the commands of a feed on the table, and has its forwarding table follow each.
    fn follow_all(&mut self, feed: u32, cmds: &[Cmd]) -> Result<(), Refused>
        requires feed { IsFeed feed }
        requires fib { self.old.fib ≡ self.old.table.routes }
        ensures { IfOk result (λ _. self.new.fib ≡ self.new.table.routes) }
    {
        'commands: for cmd in cmds {
            follow(&mut self.table, &mut self.fib, feed, *cmd)?;
        }
        Ok(())
    }

    /// Returns another forwarding table of the table, to be shown to readers.
    fn copy(&self, alloc: Global) -> Result<Fib<Global>, Refused>
        requires { self.now.fib ≡ self.now.table.routes }
        ensures { IfOk result (λ copy. copy ≡ self.now.table.routes) }
    {
        self.fib.copy(alloc, &self.table)
    }

    /// Returns the writer that shows the forwarding table to readers.
    fn writer(&self, alloc: Global) -> Result<FibWriter, Refused>
        requires { self.now.fib ≡ self.now.table.routes }
        ensures { IfOk result (λ writer. writer.table ≡ self.now.table.routes) }
    {
        FibWriter::new(alloc, self.copy(alloc)?, READERS)
    }

    /// Returns true if the best route to the address is this feed's.
    fn finds(&self, addr: Addr, feed: u32) -> bool {
        match self.fib.look_up(addr) {
            Some(route) => route.feed == feed,
            None => false,
        }
    }
}

/// Follows the commands of a feed, and publishes the forwarding table after them.
fn show<R: Wait>(
    rt: &R,
    alloc: Global,
    writer: FibWriter,
    followed: &mut Followed,
    feed: u32,
    cmds: &[Cmd],
) -> (FibWriter, Result<(), Refused>)
    requires feed { IsFeed feed }
    requires fib { followed.old.fib ≡ followed.old.table.routes }
    ensures fib { OnOk result.1 (followed.new.fib ≡ followed.new.table.routes) }
    ensures shown { OnOk result.1 (result.0.table ≡ followed.new.table.routes) }
{
    let Ok(()) = followed.follow_all(feed, cmds) else {
        return (writer, Err(Refused));
    };
    match followed.copy(alloc) {
        Ok(copy) => writer.publish(rt, alloc, copy),
        Err(Refused) => (writer, Err(Refused)),
    }
}

/// Follows the commands of feed 1, and then those of feed 2, and publishes the forwarding table after each feed's.
fn show_each<R: Wait>(
    rt: &R,
    alloc: Global,
    writer: FibWriter,
    followed: &mut Followed,
    first: &[Cmd],
    second: &[Cmd],
) -> (FibWriter, Result<(), Refused>)
    requires { followed.old.fib ≡ followed.old.table.routes }
    ensures fib { OnOk result.1 (followed.new.fib ≡ followed.new.table.routes) }
    ensures shown { OnOk result.1 (result.0.table ≡ followed.new.table.routes) }
{
    let (writer, done) = show(rt, alloc, writer, followed, 1, first);
    match done {
        Ok(()) => show(rt, alloc, writer, followed, 2, second),
        Err(Refused) => (writer, Err(Refused)),
    }
}

/// Returns the book after two feeds have executed these commands, each on a thread of its own.
fn serve_both<R: Threads + Wait + Sync>(
    rt: &R,
    alloc: Global,
    first: &[Cmd],
    second: &[Cmd],
) -> Result<Book<Global>, Refused> {
    let (table, one, two) = table_of_two(alloc)?;
    let shared = &table;
    let (one, two) = thread::join(
        rt,
        move || -> Option<FeedPass>
            requires { one.table ≡ shared.now }
            ensures { IfSome result (λ after. (after.table ≡ one.table) × (after.feed ≡ one.feed)) }
        { ask(rt, alloc, shared, one, first).ok() },
        move || -> Option<FeedPass>
            requires { two.table ≡ shared.now }
            ensures { IfSome result (λ after. (after.table ≡ two.table) × (after.feed ≡ two.feed)) }
        { ask(rt, alloc, shared, two, second).ok() },
    );
    let (Some(one), Some(two)) = (one, two) else {
        return Err(Refused);
    };
    let passes = vec![in alloc; one, two]?;
    Ok(table.settle(rt, passes))
}

/// Has two feeds execute their commands, follows them in the writer's own table, and publishes its answers after the first
/// feed's commands and after both. Fails if the shared table has another number of routes at the end: memory then ran
/// out in one of the two.
fn show_both<R: Threads + Wait + Sync>(
    rt: &R,
    alloc: Global,
    writer: FibWriter,
    followed: &mut Followed,
    first: &[Cmd],
    second: &[Cmd],
) -> (FibWriter, Result<(), Refused>)
    requires { followed.old.fib ≡ followed.old.table.routes }
    ensures fib { OnOk result.1 (followed.new.fib ≡ followed.new.table.routes) }
    ensures shown { OnOk result.1 (result.0.table ≡ followed.new.table.routes) }
{
    let Ok(shared) = serve_both(rt, alloc, first, second) else {
        return (writer, Err(Refused));
    };
    let (writer, done) = show_each(rt, alloc, writer, followed, first, second);
    if shared.table().len() != followed.table.len() {
        return (writer, Err(Refused));
    }
    (writer, done)
}

/// Returns the number of threads that have found a route.
fn count_found<R: Threads>(rt: &R, threads: Vec<JoinHandle<Option<Route>>>) -> usize {
    let mut count = 0usize;
    for thread in threads {
        if thread.join(rt).is_some() {
            count = count.saturating_add(1);
        }
    }
    count
}

/// Returns an empty table that is followed, and the writer that shows its forwarding table to readers.
fn followed_and_shown(alloc: Global) -> Result<(Followed, FibWriter), Refused>
    ensures fib { IfOk result (λ made. made.0.fib ≡ made.0.table.routes) }
    ensures shown { IfOk result (λ made. made.1.table ≡ made.0.table.routes) }
{
    let followed = Followed::new(alloc)?;
    let writer = followed.writer(alloc)?;
    Ok((followed, writer))
}

/// Starts the reading threads, unless memory or threads run out, and returns those that it started.
fn start_readers<'s, E, R: Wait + Sync>(
    scope: &Scope<'s, E>,
    rt: &'s R,
    alloc: Global,
    writer: &FibWriter,
    addr: Addr,
) -> Vec<JoinHandle<Option<Route>>> {
    let mut threads = Vec::new(alloc);
    for _ in 0..READERS {
        if let Ok(reader) = writer.reader() {
            if let Ok(thread) = scope.spawn(move || find(rt, reader, addr, 2)) {
                let _ = threads.push(thread);
            }
        }
    }
    threads
}

/// Ends the writer and the reading threads, and returns the number of those that have found a route. They query until
/// they find it: if it isn't there, only the writer's end stops them.
fn end_readers<R: Threads + Wait>(
    rt: &R,
    writer: FibWriter,
    threads: Vec<JoinHandle<Option<Route>>>,
    is_there: bool,
) -> usize {
    if is_there {
        let count = count_found(rt, threads);
        writer.end(rt);
        count
    } else {
        writer.end(rt);
        count_found(rt, threads)
    }
}

/// Returns how many of two readers find a route of feed 2 for the address. They query on threads of their own, while
/// each of two feeds executes its commands on another thread, and a writer follows these. Fails if memory runs out.
pub fn count_beside<R: Threads + Wait + Sync>(
    rt: &R,
    alloc: Global,
    first: &[Cmd],
    second: &[Cmd],
    addr: Addr,
) -> Result<usize, Refused> {
    thread::scope(thread::scope_env(), rt, |scope| -> Result<usize, Refused> {
        let (mut followed, writer) = followed_and_shown(alloc)?;
        let threads = start_readers(scope, rt, alloc, &writer, addr);
        let (writer, done) = show_both(rt, alloc, writer, &mut followed, first, second);
        let is_there = done.is_ok() && followed.finds(addr, 2);
        Ok(end_readers(rt, writer, threads, is_there))
    })
}
