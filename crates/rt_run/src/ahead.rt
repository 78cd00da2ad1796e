//! Reading ahead in a text whose commands are executed one by one: what the next few commands will visit is read at once,
//! so that their waits for memory overlap. Nothing changes, and no clause mentions it.

use rt_cidr::Addr;
use rt_feed::{Version, next_line, parse_line};
use rt_rib::{Cmd, READ_AHEAD_COMMANDS, READ_AHEAD_NODES, Table};
use std::alloc::Global;

/// The order of the commands of a text so far. In rising order, as in a dumped table, a command finds most of its path in
/// the cache, and reading ahead would only cost time.
#[derive(Clone, Copy)]
pub(crate) struct CommandOrder {
    last: Addr,
    /// The number of commands since an address was below the one before it.
    rising: usize,
}

impl CommandOrder {
    pub(crate) fn new() -> CommandOrder {
        CommandOrder {
            last: Addr(0),
            rising: 0,
        }
    }

    /// Adds the next command.
    pub(crate) fn add(&mut self, cmd: Cmd) {
        let address = cmd.lowest_address();
        self.rising = if address < self.last {
            0
        } else {
            self.rising.saturating_add(1)
        };
        self.last = address;
    }

    fn is_rising(&self) -> bool {
        self.rising >= READ_AHEAD_COMMANDS
    }
}

/// Reads what the commands of the first lines will visit, before every few lines of a text that isn't in rising order.
/// `number` is the number of the line before them. Doesn't allocate.
pub(crate) fn read_ahead(
    table: &Table<Global>,
    number: usize,
    lines: &[u8],
    version: Version,
    order: &CommandOrder,
) {
    if number % READ_AHEAD_COMMANDS != 0 || order.is_rising() || table.nodes() < READ_AHEAD_NODES {
        return;
    }
    let mut cmds = [Cmd::Dump; READ_AHEAD_COMMANDS];
    let mut rest = lines;
    for cmd in &mut cmds {
        let Some((line, next)) = next_line(rest) else {
            break;
        };
        // A line without a command counts as `Dump`, which visits nothing.
        *cmd = parse_line(line, version)
            .unwrap_or(None)
            .unwrap_or(Cmd::Dump);
        rest = next;
    }
    table.read_ahead(&cmds);
}
