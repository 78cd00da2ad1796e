//! `rt_fib`: a forwarding table that follows a table, command by command.
ghost use Rattle.std.specs.Prelude.{◌≡◌, IfOk};
ghost use Rattle.rt_rib.specs.Book.{IsFeed};
ghost use Rattle.rt_rib.specs.LookUp.{look_up};

use rt_cidr::Addr;
use rt_fib::Fib;
use rt_fib::laws::commands_preserve_other_routes;
use rt_rib::{Cmd, Refused, Route, Table};
use std::alloc::Global;

/// Executes a command of the feed on the table, and has its forwarding table follow. Fails if memory runs out.
pub fn follow(
    table: &mut Table<Global>,
    fib: &mut Fib<Global>,
    feed: u32,
    cmd: Cmd,
) -> Result<(), Refused>
    requires feed { IsFeed feed }
    requires fib { fib.old ≡ table.old.routes }
    ensures { IfOk result (λ _. fib.new ≡ table.new.routes) }
{
    // Make known what each command leaves unchanged, and that the table has no route twice.
    commands_preserve_other_routes();
    table.holds();
    table.apply(feed, cmd)?;
    fib.follow(table, &cmd)
}

/// Returns the route to an address before a command of feed 1 and after it, by a forwarding table. Fails if memory runs
/// out.
pub fn routes_to(
    alloc: Global,
    table: &mut Table<Global>,
    cmd: Cmd,
    addr: Addr,
) -> Result<(Option<Route>, Option<Route>), Refused>
    ensures before { IfOk result (λ routes. routes.0 ≡ look_up addr table.old.routes) }
    ensures after { IfOk result (λ routes. routes.1 ≡ look_up addr table.new.routes) }
{
    let mut fib = Fib::new(alloc, table)?;
    let before = fib.look_up(addr);
    follow(table, &mut fib, 1, cmd)?;
    Ok((before, fib.look_up(addr)))
}
