//! One caller for each library of the repository, short enough to be copied, with a contract that states its result.
//! Each file uses one crate and those that it depends on; the program prints the result of each caller.
#![tactic(auto)]

mod book;
mod cover;
mod diff;
mod fib;
mod gate;
mod lock;
mod readers;
mod replay;
mod shared;
mod trie;
mod walk;

use anyhow::Result;
use lock::Tally;
use rt_cidr::{Addr, Prefix};
use rt_feed::{write_report, write_table};
use rt_rib::{Cmd, Hop, Reply, Route, Table};
use std::alloc::Global;
use std::io::{self, Write};
use std::sync::Wait;
use std::thread::Threads;

/// The address 10.1.2.3, which the look-ups here are for.
const ADDRESS: Addr = Addr(0x0a01_0203);

/// Returns a command that inserts a route.
fn add(prefix: &[u8], pref: u32, hop: &[u8]) -> Result<Cmd> {
    Ok(Cmd::Add {
        prefix: Prefix::parse(prefix)?,
        pref,
        hop: Hop::Via(Addr::parse(hop)?),
    })
}

/// Returns the command that the tables here begin with.
fn first_add() -> Result<Cmd> {
    add(b"10.0.0.0/8", 100, b"192.0.2.1")
}

fn print_cover<W: Write>(out: &mut W) -> Result<()> {
    let covered = cover::covers_address(b"10.0.0.0/8", b"10.1.2.3")?;
    writeln!(out, "10.0.0.0/8 covers 10.1.2.3: {covered}")?;
    Ok(())
}

fn print_port<W: Write>(alloc: Global, out: &mut W) -> Result<()> {
    let wide = (Prefix::parse(b"10.0.0.0/8")?, 1);
    let narrow = (Prefix::parse(b"10.1.0.0/16")?, 2);
    if let Some((prefix, port)) = trie::port_of(alloc, wide, narrow, ADDRESS)? {
        writeln!(out, "{prefix} is the longest, its port {port}")?;
    }
    Ok(())
}

fn print_feeds<W: Write>(alloc: Global, out: &mut W) -> Result<()> {
    let replies = book::two_feeds(alloc, first_add()?, Cmd::Lookup { addr: ADDRESS })?;
    if let (Reply::Added, Reply::Found(route)) = replies {
        let (prefix, feed) = (route.prefix, route.feed);
        writeln!(out, "{prefix} is found, a route of feed {feed}")?;
    }
    Ok(())
}

/// Returns a table with that route.
fn table_of_one(alloc: Global) -> Result<Table<Global>> {
    let add = first_add()?;
    let mut table = Table::new(alloc, 10);
    table.apply(1, add)?;
    Ok(table)
}

/// Returns true if that route in one of two tables doesn't change where packets go.
fn one_route_alike(alloc: Global) -> Result<bool> {
    let changed = table_of_one(alloc)?;
    Ok(diff::go_alike(&Table::new(alloc, 10), &changed))
}

fn print_difference<W: Write>(alloc: Global, out: &mut W) -> Result<()> {
    let alike = one_route_alike(alloc)?;
    writeln!(out, "the route added changes nothing: {alike}")?;
    Ok(())
}

/// Returns the routes to an address before and after a route to a longer prefix is inserted.
fn forwarding(alloc: Global) -> Result<(Option<Route>, Option<Route>)> {
    let narrower = add(b"10.1.0.0/16", 100, b"192.0.2.2")?;
    let mut table = table_of_one(alloc)?;
    Ok(fib::routes_to(alloc, &mut table, narrower, ADDRESS)?)
}

fn print_forwarding<W: Write>(alloc: Global, out: &mut W) -> Result<()> {
    if let (Some(before), Some(after)) = forwarding(alloc)? {
        writeln!(
            out,
            "10.1.2.3 is forwarded by {}, and then by {}",
            before.prefix, after.prefix
        )?;
    }
    Ok(())
}

fn print_schedules<W: Write>(alloc: Global, out: &mut W) -> Result<()> {
    let alone = replay::somebody_inside(alloc, 1, &[0, 0, 0, 0])?;
    let between = replay::somebody_inside(alloc, 1, &[0, 1, 0, 1])?;
    writeln!(
        out,
        "inside after 0 0 0 0: {alone}, after 0 1 0 1: {between}"
    )?;
    Ok(())
}

fn print_passage<W: Write>(alloc: Global, out: &mut W) -> Result<()> {
    if let Some((entered, left)) = walk::passage_alone(alloc, 1)? {
        writeln!(
            out,
            "remote accesses of a passage alone: {entered} to enter, {left} in all"
        )?;
    }
    Ok(())
}

fn print_counts<W: Write>(tally: &Tally, out: &mut W) -> io::Result<()> {
    let (first, second) = (tally.first, tally.second);
    writeln!(out, "place 0 counted {first}, place 1 {second}")
}

fn print_shared<R: Wait, W: Write>(rt: &R, alloc: Global, out: &mut W) -> Result<()> {
    let first = [add(b"10.0.0.0/8", 20, b"192.0.2.1")?, Cmd::Dump];
    let second = [add(b"10.0.0.0/8", 10, b"192.0.2.2")?];
    let routes = shared::routes_of_both(rt, alloc, &first, &second)?;
    write_table(out, &routes)?;
    Ok(())
}

fn print_readers<R: Threads + Wait + Sync, W: Write>(
    rt: &R,
    alloc: Global,
    out: &mut W,
) -> Result<()> {
    let first = [add(b"10.0.0.0/8", 20, b"192.0.2.1")?];
    let second = [add(b"10.1.0.0/16", 10, b"192.0.2.2")?];
    let count = readers::count_beside(rt, alloc, &first, &second, ADDRESS)?;
    writeln!(out, "readers that find the route of feed 2: {count}")?;
    Ok(())
}

fn print_gate<R: Wait, W: Write>(rt: &R, alloc: Global, out: &mut W) -> Result<()> {
    let text = b"add 10.0.0.0/8 100 192.0.2.1\nlookup 10.1.2.3\n";
    let (report, book) = gate::run_alone(rt, alloc, text)?;
    let entries = book.journal().len();
    drop(book);
    write_report(out, 1, &report)?;
    writeln!(out, "entries in the journal: {entries}")?;
    Ok(())
}

/// Prints the results of the callers that need no thread and no lock.
fn print_tables<W: Write>(alloc: Global, out: &mut W) -> Result<()> {
    print_cover(out)?;
    print_port(alloc, out)?;
    print_feeds(alloc, out)?;
    print_difference(alloc, out)?;
    print_forwarding(alloc, out)
}

fn main(rt: HostRuntime) -> Result<()> {
    let alloc = rt.alloc();
    let stdout = rt.stdout();
    let mut out = io::writer(&stdout);
    print_tables(alloc, &mut out)?;
    print_schedules(alloc, &mut out)?;
    print_passage(alloc, &mut out)?;
    print_counts(&lock::count_both(&rt, alloc, 1_000)?, &mut out)?;
    print_shared(&rt, alloc, &mut out)?;
    print_readers(&rt, alloc, &mut out)?;
    print_gate(&rt, alloc, &mut out)
}
