//! The commands with their options and arguments, as `clap` parses them and prints their help.

use crate::after_help::{DIFF_NOTES, LOOKUP_NOTES, REPLAY_NOTES, RUN_NOTES, TABLE_NOTES};
use crate::limits::{DEFAULT_LIMIT, DEFAULT_QUERY_BATCH, DEFAULT_RUN_BATCH, UNSEEN_ROUTES, limits};
use crate::{HOP, MAX_BATCH, MAX_ROUTES_PER_FEED, ROUTE};
use clap::builder::ValueParser;
use clap::{Arg, ArgAction, Command};
use std::alloc::{AllocError, Global};

/// A command: its name, its help texts and its parameters, in the order of the help. It is no constant, because the prover
/// is slow where a constant holds many texts.
#[derive(Clone, Copy)]
struct Subcommand {
    name: &'static str,
    about: &'static str,
    notes: &'static str,
    parameters: &'static [Parameter],
}

/// An option or an argument of a command.
struct Parameter {
    /// The name by which its value is read; that of an option follows `--`.
    name: &'static str,
    help: &'static str,
    /// The name of its value in the help, if it has one.
    value_names: &'static [&'static str],
    parser: ValueParser<'static>,
    action: ArgAction,
    /// The number of values that one use takes.
    least_values: usize,
    most_values: usize,
    default_values: &'static [&'static str],
    required: bool,
    is_option: bool,
    /// True if it follows `--`.
    is_last: bool,
    /// True if no help shows it.
    is_hidden: bool,
}

/// An option without a value.
const FLAG: Parameter = Parameter {
    name: "",
    help: "",
    value_names: &[],
    parser: ValueParser::Bool,
    action: ArgAction::SetTrue,
    least_values: 0,
    most_values: 0,
    default_values: &[],
    required: false,
    is_option: true,
    is_last: false,
    is_hidden: false,
};

/// An option with a value.
const OPTION: Parameter = Parameter {
    parser: ValueParser::String,
    action: ArgAction::Set,
    least_values: 1,
    most_values: 1,
    ..FLAG
};

/// An option whose value is a prefix.
const PREFIX: Parameter = Parameter {
    value_names: &["PREFIX"],
    ..OPTION
};

/// An option that identifies a feed, and may be given more than once.
const FEED: Parameter = Parameter {
    value_names: &["F"],
    action: ArgAction::Append,
    ..OPTION
};

/// One or more file names.
const FILES: Parameter = Parameter {
    name: "files",
    help: limits!(text "Feed files, 1 to " most_files ": one command per line; /dev/stdin may be one"),
    value_names: &["FILE"],
    action: ArgAction::Append,
    most_values: usize::MAX,
    required: true,
    is_option: false,
    ..OPTION
};

const LIMIT: Parameter = Parameter {
    name: "limit",
    help: limits!(text "Maximum number of routes per feed, 1 to " most_routes),
    value_names: &["K"],
    parser: ValueParser::Unsigned(1, MAX_ROUTES_PER_FEED as u64),
    default_values: &[UNSEEN_ROUTES],
    ..OPTION
};

const BATCH: Parameter = Parameter {
    name: "batch",
    help: limits!(text "Execute up to K commands of a feed together, 1 to " most_at_once),
    value_names: &["K"],
    parser: ValueParser::Unsigned(1, MAX_BATCH as u64),
    default_values: &[DEFAULT_RUN_BATCH],
    ..OPTION
};

/// The option of `run` where it has no effect. It is accepted, so that a script can pass the same options to each command
/// with feed files.
const UNUSED_BATCH: Parameter = Parameter {
    default_values: &[DEFAULT_QUERY_BATCH],
    is_hidden: true,
    ..BATCH
};

const ONLY: Parameter = Parameter {
    name: "only",
    help: "Execute only feed F, a number or a name; may be given more than once",
    ..FEED
};

/// The earlier spelling of `--only`. It is accepted, so that a script that uses it still works.
const EARLIER_ONLY: Parameter = Parameter {
    name: "feed",
    is_hidden: true,
    ..FEED
};

const WITHOUT: Parameter = Parameter {
    name: "without",
    help: "Leave out feed F, a number or a name; may be given more than once",
    ..FEED
};

const NAMES: Parameter = Parameter {
    name: "names",
    help: "Print feed names (FILE without directory and .feed) instead of numbers",
    ..FLAG
};

const JSON: Parameter = Parameter {
    name: "json",
    help: "Print JSON, one object per line",
    ..FLAG
};

const CSV: Parameter = Parameter {
    name: "csv",
    help: "Print CSV, a line of column names first",
    ..FLAG
};

fn run() -> Subcommand {
    Subcommand {
        name: "run",
        about: "Run feed files and print the reply to each command and the final table",
        notes: RUN_NOTES,
        parameters: RUN,
    }
}

const RUN: &[Parameter] = &[
    Parameter {
        default_values: &[DEFAULT_LIMIT],
        ..LIMIT
    },
    BATCH,
    FILES,
];

fn lookup() -> Subcommand {
    Subcommand {
        name: "lookup",
        about: "Run feed files and print the route that the final table has for each address",
        notes: LOOKUP_NOTES,
        parameters: LOOKUP,
    }
}

const LOOKUP: &[Parameter] = &[
    Parameter {
        name: "all",
        help: "Print every route that covers an address, the best first",
        ..FLAG
    },
    ONLY,
    EARLIER_ONLY,
    WITHOUT,
    NAMES,
    JSON,
    CSV,
    LIMIT,
    UNUSED_BATCH,
    Parameter {
        name: "address",
        help: "Address to look up; may be given more than once",
        value_names: &["ADDR"],
        action: ArgAction::Append,
        ..OPTION
    },
    Parameter {
        name: "addresses",
        help: "File with further addresses, one per line",
        value_names: &["FILE"],
        ..OPTION
    },
    Parameter {
        name: "keep-invalid",
        help: "Print a line for each invalid line of that file, in its place",
        ..FLAG
    },
    FILES,
];

fn table() -> Subcommand {
    Subcommand {
        name: "table",
        about: "Run feed files and print the routes of the final table",
        notes: TABLE_NOTES,
        parameters: TABLE,
    }
}

const TABLE: &[Parameter] = &[
    Parameter {
        name: "within",
        help: "Print only routes to PREFIX and to longer prefixes inside it",
        ..PREFIX
    },
    Parameter {
        name: "covering",
        help: "Print only routes to PREFIX and to shorter prefixes that contain it",
        ..PREFIX
    },
    Parameter {
        name: "exact",
        help: "Print only routes to PREFIX",
        ..PREFIX
    },
    Parameter {
        name: "feed",
        help: "Print only routes of feed F, a number or a name; may be given more than once",
        ..FEED
    },
    ONLY,
    WITHOUT,
    Parameter {
        name: "best",
        help: "Print only the best route of each prefix",
        ..FLAG
    },
    Parameter {
        name: "count",
        help: "Print the number of routes instead: in all, per feed and per length",
        ..FLAG
    },
    Parameter {
        name: "total",
        help: "Print the number of printed routes on a last line",
        ..FLAG
    },
    NAMES,
    JSON,
    CSV,
    LIMIT,
    UNUSED_BATCH,
    FILES,
];

fn diff() -> Subcommand {
    Subcommand {
        name: "diff",
        about: "Run two sets of feed files and print the addresses for which their tables differ",
        notes: DIFF_NOTES,
        parameters: DIFF,
    }
}

const DIFF: &[Parameter] = &[
    Parameter {
        name: "by",
        help: "Compare next hops, or whole routes",
        value_names: &["WHAT"],
        parser: ValueParser::Names(&[HOP, ROUTE]),
        default_values: &[HOP],
        ..OPTION
    },
    Parameter {
        name: "prefixes",
        help: "Print each range as the fewest prefixes that make it up",
        ..FLAG
    },
    Parameter {
        name: "count",
        help: "Print the number of ranges and addresses instead: in all, per change and per hops",
        ..FLAG
    },
    Parameter {
        name: "old-only",
        help: "Execute only old feed F; may be given more than once",
        ..FEED
    },
    Parameter {
        name: "old-feed",
        ..EARLIER_ONLY
    },
    Parameter {
        name: "old-without",
        help: "Leave out old feed F; may be given more than once",
        ..FEED
    },
    Parameter {
        name: "new-only",
        help: "Execute only new feed F; may be given more than once",
        ..FEED
    },
    Parameter {
        name: "new-feed",
        ..EARLIER_ONLY
    },
    Parameter {
        name: "new-without",
        help: "Leave out new feed F; may be given more than once",
        ..FEED
    },
    NAMES,
    JSON,
    CSV,
    LIMIT,
    UNUSED_BATCH,
    Parameter {
        help: limits!(text "The old feed files, 1 to " most_files),
        value_names: &["OLD"],
        ..FILES
    },
    Parameter {
        name: "new",
        help: limits!(text "The new feed files, 1 to " most_files),
        value_names: &["NEW"],
        is_last: true,
        ..FILES
    },
];

fn replay() -> Subcommand {
    Subcommand {
        name: "replay",
        about: "Print the atomic steps of the lock for one schedule, one per line",
        notes: REPLAY_NOTES,
        parameters: REPLAY,
    }
}

const REPLAY: &[Parameter] = &[
    Parameter {
        name: "levels",
        help: limits!(text "Number of levels of the tree, 1 to " most_levels),
        value_names: &["L"],
        parser: ValueParser::Unsigned(0, 255),
        required: true,
        ..OPTION
    },
    Parameter {
        name: "picks",
        help: "The place that takes the next step",
        value_names: &["PICK"],
        parser: ValueParser::Unsigned(0, 255),
        least_values: 0,
        required: false,
        ..FILES
    },
];

/// Returns the program with its commands. They are added by one call, because at each early exit the prover goes through
/// everything that is dropped.
pub(crate) fn program<'a>(alloc: Global) -> Result<Command<'a>, AllocError> {
    let mut commands = Vec::new(alloc);
    for subcommand in &[run(), lookup(), table(), diff(), replay()] {
        commands.push(subcommand.command(alloc)?)?;
    }
    bare_program(alloc).subcommands(commands)
}

/// Returns the program without its commands.
fn bare_program<'a>(alloc: Global) -> Command<'a> {
    Command::new(alloc, "yarib")
        .version("0.3.0")
        .about("An IPv4 routing table with proved answers")
        .subcommand_required(true)
        .arg_required_else_help(true)
}

impl Subcommand {
    /// Returns the command for `clap`.
    fn command<'a>(&self, alloc: Global) -> Result<Command<'a>, AllocError> {
        let mut args = Vec::new(alloc);
        for parameter in self.parameters {
            args.push(parameter.arg(alloc))?;
        }
        Command::new(alloc, self.name)
            .about(self.about)
            .after_help(self.notes)
            .args(args)
    }
}

impl Parameter {
    /// Returns the parameter for `clap`.
    fn arg<'a>(&self, alloc: Global) -> Arg<'a> {
        let arg = Arg::new(alloc, self.name)
            .help(self.help)
            .value_names(self.value_names)
            .value_parser(self.parser)
            .action(self.action)
            .num_args(self.least_values..=self.most_values)
            .default_values(self.default_values)
            .required(self.required)
            .last(self.is_last)
            .hide(self.is_hidden);
        if self.is_option {
            arg.long(self.name)
        } else {
            arg
        }
    }
}
