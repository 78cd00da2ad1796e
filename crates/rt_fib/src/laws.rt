//! Theorems about every table. Each function is a theorem: calling it makes its clause known, and it does nothing.
ghost use Rattle.rt_fib.specs.Laws.{CommandsKeepOtherRoutes};

use rt_rib::laws::{put_in_adds, take_out_leaves_others};

/// States that a command that puts a route in, replaces one or takes one out leaves the routes to all other prefixes, and that a
/// look-up or a dump leaves all. So a forwarding table may follow each command of its table.
pub fn commands_preserve_other_routes()
    ensures { CommandsKeepOtherRoutes }
{
    put_in_adds();
    take_out_leaves_others();
}
