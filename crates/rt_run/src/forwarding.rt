//! Look-ups in the final tables, asked as one: in the tables themselves, or, if there is just one, in a forwarding table made
//! from it if that is faster for the number of addresses.
ghost use Rattle.std.specs.Prelude.{◌≡◌, IfSome, length, map};
ghost use Rattle.rt_rib.specs.LookUp.{look_up};

use rt_cidr::Addr;
use rt_fib::Fib;
use rt_rib::Route;
use rt_tables::TableUnion;
use std::alloc::Global;

/// With at least this many addresses a forwarding table is faster, if the table has at least [`MANY_ROUTES`].
const MANY_ADDRESSES: usize = 1 << 19;

/// With fewer routes the whole table is in the processor's cache.
const MANY_ROUTES: u32 = 1 << 14;

/// Making a forwarding table takes as long as about two look-ups per route in the table, so it needs more addresses than that.
const ADDRESSES_A_ROUTE: usize = 3;

/// Returns a forwarding table of the table if there is just one, if that is faster for `asked` addresses, and if there is
/// memory for it.
pub(crate) fn fib_for(
    alloc: Global,
    tables: &TableUnion<Global>,
    asked: usize,
) -> Option<Fib<Global>>
    ensures { IfSome result (λ fib. fib ≡ tables.now) }
{
    let table = tables.single()?;
    let routes = table.len();
    let enough = asked / ADDRESSES_A_ROUTE >= routes as usize;
    if routes >= MANY_ROUTES && asked >= MANY_ADDRESSES && enough {
        Fib::new(alloc, table).ok()
    } else {
        None
    }
}

/// Replaces the elements of `answers` by the results of looking up each address, in order: in the forwarding table if there
/// is one, else in the tables themselves.
pub(crate) fn look_up_by(
    tables: &TableUnion<Global>,
    fib: &Option<Fib<Global>>,
    addresses: &[Addr],
    answers: &mut [Option<Route>],
)
    requires fib { IfSome fib.now (λ fib. fib ≡ tables.now) }
    requires size { length answers.old ≡ length addresses.now }
    ensures { answers.new ≡ map (λ addr. look_up addr tables.now) addresses.now }
{
    match fib {
        Some(fib) => fib.look_up_each(addresses, answers),
        None => tables.look_up_each(addresses, answers),
    }
}
