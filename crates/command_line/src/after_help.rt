//! Texts of the help after the options of each command.

use crate::limits::limits;

/// Expands to the notes of `lookup`, `table` and `diff`: a text, the lines on rejected input and on the exit status, which
/// all three have, and an example. The second argument is the line or lines of status 0 to 3.
macro_rules! rejected_notes {
    ($before:literal, $first_statuses:literal, $example:literal) => {
        limits!(text
            $before
            "\
Rejected input is reported on standard error, one line per file and kind:
  yarib: FILE: faulty lines: N, the first is line LINE: FAULT
  yarib: FILE: adds over the limit: N, the first is line LINE
  yarib: FILE: duplicate adds: N, the first is line LINE
  yarib: FILE: replaces and withdraws without a route: N, the first is line LINE
  yarib: FILE: commands failed, out of memory: N
A feed file that may have been cut off is reported, too:
  yarib: FILE: the last line has no line end: check that the file is complete

Exit status, the highest that applies:
"
            $first_statuses
            "  4 unreadable file   5 out of memory (`yarib: fault F3` or `commands failed`)
  6 output not written

Feed files may be executed on several threads; the output is the same.
Without --limit a feed has at most " most_routes " routes. `yarib run --help` lists
the commands of feed files and the faults.

"
            $example
        )
    };
}

/// The notes of `run --help`: feed files, their faults and the exit status.
pub(crate) const RUN_NOTES: &str = limits!(text
    "\
Commands, one per line; empty lines and lines that begin with # are skipped:
  add PREFIX PREF HOP      insert a route of this feed
  replace PREFIX PREF HOP  change preference and next hop of this feed's route
  withdraw PREFIX          remove this feed's route
  lookup ADDR              print the best route to the longest prefix that
                           covers the address
  dump                     print the total number of routes of all feeds
  purge                    remove all routes of this feed (version 2)
PREF is 0 to 4294967295. The lowest is preferred; between equal ones, the route
of the first file. If the first line is `version 2`, HOP is an address or
`discard`.

Faults of an invalid line; if several apply, the first in this list is reported:
  E8 line over 128 bytes   E1 unknown command   E2 wrong number of fields
  E3 invalid prefix or address   E4 prefix length over 32
  E5 bit set past the length   E6 invalid preference   E7 invalid next hop

Exit status, the highest that applies:
  0 done   2 invalid line   3 invalid command line   4 unreadable file
  5 out of memory (`yarib: fault F3`, or the reply `refused`)
  6 output not written

Without --limit a feed has at most " usual_routes " routes; --limit goes up to " most_routes ".
Further adds are answered `full`, which doesn't change the exit status: look for
`full` in the output. `lookup`, `table` and `diff` report such adds on standard
error, with status 2.

Example; one.feed is the line `add 10.0.0.0/8 100 192.0.2.1`:
  $ yarib run one.feed
  1:1 added
  table 1
  10.0.0.0/8 feed 1 pref 100 via 192.0.2.1

Two feeds; two.feed is the line `add 10.0.0.0/8 50 192.0.2.2`:
  $ yarib run --batch 64 one.feed two.feed
  1:1 added
  2:1 added
  table 2
  10.0.0.0/8 feed 2 pref 50 via 192.0.2.2
  10.0.0.0/8 feed 1 pref 100 via 192.0.2.1
"
);

/// The notes of `lookup --help`: addresses, answers, rejected input and the exit status.
pub(crate) const LOOKUP_NOTES: &str = rejected_notes!(
    "\
When all feeds have ended, each address has one line: first the addresses of
--address in order, then those in the file of --addresses, one per line. In that
file, empty lines and lines that begin with # are skipped.
  ADDR route PREFIX feed F pref P via HOP   PREFIX is the longest that covers
                                            ADDR; of its routes this one has the
                                            lowest P, and then the lowest F
  ADDR no route                             no prefix covers ADDR
With --keep-invalid each other line of that file that isn't an address has a
line too, in its place; LINE is its number. So a file without skipped lines has
one line of output for each of its lines, in order (with --all, at least one).
  LINE invalid

With --all each other route that covers the address has a line too, the next
best first. REASON is why it lost: shorter (a shorter prefix), else preference
(a higher P), else feed (a higher F).
  ADDR also PREFIX feed F pref P via HOP REASON

F is the position of the feed's FILE on the command line, from 1. With --names
the feed's name is printed instead: FILE without its directory and .feed. Two
feeds with the same name are an error, as is a name that is empty or contains a
space or a control character.
With --json each line is one object; --names adds \"name\" before \"file\":
  {\"address\":ADDR,\"route\":{\"prefix\":PREFIX,\"feed\":F,\"file\":FILE,\"pref\":P,
  \"via\":HOP}}
For discard: \"via\":null,\"discard\":true. For no route: \"route\":null.
For an invalid line: {\"line\":LINE,\"invalid\":true}.
With --all, \"also\" is the list of the other routes, each with its \"reason\".

With --csv the output is CSV (RFC 4180): a line of column names, and a line for
each route, or for an address without one:
  address,prefix,feed,name,file,pref,via,discard
For discard, via is empty and discard is `true`. For no route only address isn't
empty. With --all, reason is the last column; it is empty for the best route.
--csv can't be given with --json or --keep-invalid.

--without F leaves out a feed: its file isn't read, and the output is that of a
run in which this file is empty. The other feeds keep their numbers. --only F
executes only feed F: every feed that isn't given is left out. Here F is a
number or a feed's name.

",
    "  0 done   2 invalid line, or add over the limit   3 invalid command line\n",
    "Example; one.feed is the line `add 10.0.0.0/8 100 192.0.2.1`, and two.feed
the line `add 10.0.0.0/8 50 192.0.2.2`:
  $ yarib lookup --address 10.1.2.3 --address 11.0.0.1 one.feed
  10.1.2.3 route 10.0.0.0/8 feed 1 pref 100 via 192.0.2.1
  11.0.0.1 no route
  $ yarib lookup --all --address 10.1.2.3 one.feed two.feed
  10.1.2.3 route 10.0.0.0/8 feed 2 pref 50 via 192.0.2.2
  10.1.2.3 also 10.0.0.0/8 feed 1 pref 100 via 192.0.2.1 preference
"
);

/// The notes of `table --help`: routes, counts, rejected input and the exit status.
pub(crate) const TABLE_NOTES: &str = rejected_notes!(
    "\
When all feeds have ended, each route has one line, sorted by base address,
length, preference and feed:
  PREFIX feed F pref P via HOP

With --best only the best route of each prefix is printed: the lowest P, and
then the lowest F. Only one of --within, --covering and --exact may be given.

--without F leaves out a feed: its file isn't read, and the output is that of a
run in which this file is empty. The other feeds keep their numbers. --only F
executes only feed F: every feed that isn't given is left out. --feed F prints
only routes of feed F, but leaves out no feed: with --best, those of its routes
are printed that are the best of all executed feeds to their prefix. Here F is a
number or a feed's name.

With --count the number of these routes and of their prefixes is printed
instead, then the number for each feed and for each prefix length that has any:
  routes N prefixes N
  feed F routes N
  length L routes N

With --total a last line has the number of the printed routes. A table without
this line, or with another number of routes before it, is incomplete. Only one
of --count and --total may be given.
  total N

F is the position of the feed's FILE on the command line, from 1. With --names
the feed's name is printed instead: FILE without its directory and .feed. Two
feeds with the same name are an error, as is a name that is empty or contains a
space or a control character.
With --json each line is one object; --names adds \"name\" before \"file\":
  {\"prefix\":PREFIX,\"feed\":F,\"file\":FILE,\"pref\":P,\"via\":HOP}
  {\"routes\":N,\"prefixes\":N}
  {\"feed\":F,\"file\":FILE,\"routes\":N}   {\"length\":L,\"routes\":N}
  {\"total\":N}
For discard: \"via\":null,\"discard\":true.

With --csv the output is CSV (RFC 4180): a line of column names, and a line for
each route:
  prefix,feed,name,file,pref,via,discard
For discard, via is empty and discard is `true`. --csv can't be given with
--json, --count or --total.

",
    "  0 done   2 invalid line, or add over the limit   3 invalid command line\n",
    "Example; one.feed is the line `add 10.0.0.0/8 100 192.0.2.1`, and two.feed
the line `add 10.0.0.0/8 50 192.0.2.2`:
  $ yarib table one.feed two.feed
  10.0.0.0/8 feed 2 pref 50 via 192.0.2.2
  10.0.0.0/8 feed 1 pref 100 via 192.0.2.1
  $ yarib table --best one.feed two.feed
  10.0.0.0/8 feed 2 pref 50 via 192.0.2.2
  $ yarib table --covering 10.1.0.0/16 --feed 1 one.feed two.feed
  10.0.0.0/8 feed 1 pref 100 via 192.0.2.1
  $ yarib table --total --best one.feed two.feed
  10.0.0.0/8 feed 2 pref 50 via 192.0.2.2
  total 1
  $ yarib table --count one.feed two.feed
  routes 2 prefixes 1
  feed 1 routes 1
  feed 2 routes 1
  length 8 routes 2
"
);

/// The notes of `diff --help`: ranges, answers, rejected input and the exit status.
pub(crate) const DIFF_NOTES: &str = rejected_notes!(
    "\
When all feeds have ended, each range of addresses for which the two tables give
different answers has one line, in ascending order. If no line is printed and
the exit status is 0, or 2 (rejected input), both tables give the same answer
for every address.
  FIRST-LAST OLDANSWER -> NEWANSWER
An answer is the result of a look-up: `via HOP`, `discard` or `no route`; with
--by route it is `PREFIX feed F pref P via HOP` or `no route`.

With --prefixes each of the fewest prefixes that make up the range has a line
instead, in ascending order:
  PREFIX OLDANSWER -> NEWANSWER

With --count the number of these ranges and of their addresses is printed
instead: of all, of each kind of change that occurs, and of each pair of next
hops. Pairs are sorted by the old and then by the new next hop: no route,
discard, then by address. Only one of --prefixes and --count may be given.
  ranges N addresses N
  change KIND ranges N addresses N
  hops OLDHOP -> NEWHOP ranges N addresses N
KIND is `another next hop`, `gets a route`, `loses its route`, `is discarded`,
`isn't discarded any more` or, only with --by route, `the same next hop by
another route`. OLDHOP and NEWHOP are `via HOP`, `discard` or `no route`.

F is the position of the feed's file on its side, from 1. With --names the
feed's name is printed instead: FILE without its directory and .feed. Feeds with
the same name on both sides are then the same feed. Two feeds with the same name
on one side are an error, as is a name that is empty or contains a space or a
control character.
With --json each line is one object; --names adds \"name\" before \"file\":
  {\"first\":ADDR,\"last\":ADDR,\"old\":ANSWER,\"new\":ANSWER}
  {\"prefix\":PREFIX,\"old\":ANSWER,\"new\":ANSWER}
  {\"ranges\":N,\"addresses\":N}   {\"change\":\"KIND\",\"ranges\":N,\"addresses\":N}
  {\"old\":ANSWER,\"new\":ANSWER,\"ranges\":N,\"addresses\":N}
ANSWER is {\"via\":HOP}, {\"via\":null,\"discard\":true}, or null if there is no
route; with --by route it is null or
  {\"prefix\":PREFIX,\"feed\":F,\"file\":FILE,\"pref\":P,\"via\":HOP}

With --csv the output is CSV (RFC 4180): a line of column names, which is always
printed, and a line for each range:
  first,last,old_via,old_discard,new_via,new_discard
With --prefixes the column prefix takes the place of first and last. With --by
route an answer also has the columns prefix, feed, name, file and pref (as in
old_prefix) before these. For discard, via is empty and discard is `true`. For
no route all columns of the answer are empty. --csv can't be given with --json
or --count.

--old-without F leaves out a feed of the old side: its file isn't read, and the
output is that of a run in which this file is empty. The other feeds keep their
numbers. --old-only F leaves out every old feed that isn't given. --new-without
and --new-only do the same on the new side. Here F is a number or a feed's name.

",
    "  0 the tables give the same answers   1 they differ for some address
  2 invalid line, or add over the limit   3 invalid command line\n",
    "Example; one.feed is the line `add 10.0.0.0/8 100 192.0.2.1`, and new.feed
has this line and `add 10.1.0.0/16 100 192.0.2.2`:
  $ yarib diff one.feed -- new.feed
  10.1.0.0-10.1.255.255 via 192.0.2.1 -> via 192.0.2.2
  $ yarib diff --prefixes one.feed -- new.feed
  10.1.0.0/16 via 192.0.2.1 -> via 192.0.2.2
  $ yarib diff --count one.feed -- new.feed
  ranges 1 addresses 65536
  change another next hop ranges 1 addresses 65536
  hops via 192.0.2.1 -> via 192.0.2.2 ranges 1 addresses 65536
"
);

/// The notes of `replay --help`: a step's line, its words and marks, and the exit status.
pub(crate) const REPLAY_NOTES: &str = limits!(text
    "\
The lock is a binary tree of L levels. Its 2^L leaves are the places, numbered
from 0; each place has one process. Each step has one line:
  NUMBER pPLACE WORD := VALUE [MARK]   the process of PLACE stored VALUE in WORD
  NUMBER pPLACE WORD = VALUE [MARK]    it loaded VALUE from WORD

Words, all 0 at the start:
  C<level>.<node>.<side>   the place that competes on that side of the node,
                           plus 1; 0 if no place does
  T<level>.<node>          the place that announced itself last at the node,
                           plus 1
  P<level>.<place>         the word on which the place waits: 0 at first,
                           1 after a rival woke it, 2 after a rival let it in

Marks:
  inside   the step won the root: its place is inside the critical section
  out      the step was the last one on the way out

The last line is `inside pN`, where N is the place that is inside, or
`inside none`.

Exit status:
  0 done   5 out of memory (`yarib: fault P3`)   6 output not written
  3 invalid command line, a pick that isn't a place (`yarib: fault P1`), or
    levels that aren't 1 to " most_levels " (`yarib: fault P2`)

Example:
  $ yarib replay --levels 1 0 0 0 0
  1 p0 C1.0.0 := 1
  2 p0 T1.0 := 1
  3 p0 P1.0 := 0
  4 p0 C1.0.1 = 0 inside
  inside p0
"
);
