//! The differences of two tables in numbers: how many ranges and addresses change, in all, by kind and by pair of next hops.
ghost use Rattle.std.specs.Prelude.{◌≡◌, ◌+◌, ◌^◌, ◌<◌, ◌≤◌, ℕ, List, [], All, AllPairs, sum_by, get_or, IfOk, OnOk};
ghost use Rattle.std.specs.List.{flat_map, range_with_len};
ghost use Rattle.std.specs.Map.{values_of};
ghost use Rattle.rt_cidr.specs.Output.{WritesText};
ghost use Rattle.rt_diff.specs.declared.comparison.Difference.{Difference};
ghost use Rattle.rt_print.specs.ChangeCounts.{hop_of, HopTest, passes, is_counted, range_size, ranges_by, addresses_by, hop_position, IsBefore, AreChangeCounts, kind_of, kind_words, number_as, kind_as, hop_as, count_line, is_of, change_counts_as};
ghost use Rattle.rt_print.specs.inside.ChangeMaps.{AreKeyed, total_ranges, total_addresses, CountsOneMore, test_of};

use crate::diff_options::DiffOptions;
use crate::format::Syntax;
use crate::text::Text;
use rt_diff::{Difference, TableAnswer};
use rt_rib::Hop;
use std::alloc::{AllocError, Global};
use std::collections::BTreeMap;
use std::io::{self, Write};

/// The number of kinds of a change.
const KINDS: usize = 6;

/// The number of ranges, and of their addresses, whose next hop changes from the old one to the new one. There is no next
/// hop if there is no route.
#[derive(Clone, Copy, PartialEq, Eq, Debug)]
pub struct ChangeCount {
    /// The next hop in the old table.
    pub old: Option<Hop>,
    /// The next hop in the new table.
    pub new: Option<Hop>,
    /// The number of ranges.
    pub ranges: u64,
    /// The number of their addresses.
    pub addresses: u64,
}

/// Returns the counts of the ranges by pair of next hops, sorted by the old and then by the new next hop: no route, `discard`,
/// then by address. Fails only if memory runs out.
pub fn count_changes(
    alloc: Global,
    differences: &[Difference],
) -> Result<Vec<ChangeCount>, AllocError>
    requires fits { sum_by range_size differences.now ≤ 2 ^ 32 }
    requires some { All (λ d. d.first.0 ≤ d.last.0) differences.now }
    ensures { IfOk result (λ counts. AreChangeCounts differences.now counts.items) }
{
    let mut counts = BTreeMap::new(alloc);
    for difference in differences {
        count_one(&mut counts, difference)?;
    }
    counts_in(alloc, &counts)
}

/// Adds the range to the count of its next hops.
fn count_one(
    counts: &mut BTreeMap<(u64, u64), ChangeCount>,
    difference: &Difference,
) -> Result<(), AllocError>
    requires keyed { AreKeyed counts.old.entries }
    requires ranges { total_ranges counts.old.entries < 2 ^ 63 }
    requires addresses { total_addresses counts.old.entries + range_size difference.now ≤ 2 ^ 32 }
    requires some { difference.now.first.0 ≤ difference.now.last.0 }
    ensures { OnOk result (CountsOneMore difference.now counts.old.entries counts.new.entries) }
{
    let (old, new) = (hop_of(&difference.old), hop_of(&difference.new));
    let key = (hop_position(old), hop_position(new));
    let (ranges, addresses) = match counts.get(&key) {
        Some(count) => (count.ranges, count.addresses),
        None => (0, 0),
    };
    let size = u64::from(difference.last.0) + 1 - u64::from(difference.first.0);
    let count = ChangeCount {
        old,
        new,
        ranges: ranges + 1,
        addresses: addresses + size,
    };
    counts.insert(key, count)?;
    Ok(())
}

/// Returns the counts in order.
fn counts_in(
    alloc: Global,
    counts: &BTreeMap<(u64, u64), ChangeCount>,
) -> Result<Vec<ChangeCount>, AllocError>
    ensures values { IfOk result (λ list. list.items ≡ values_of counts.now.entries) }
    ensures rising { AreKeyed counts.now.entries → AllPairs IsBefore (values_of counts.now.entries) }
{
    counts.values().copied().collect(alloc)
}

/// Returns the next hop of an answer.
fn hop_of(answer: &TableAnswer) -> Option<Hop>
    ensures { result ≡ hop_of answer.now }
{
    match answer {
        TableAnswer::NoRoute => None,
        TableAnswer::Hop(hop) => Some(*hop),
        TableAnswer::Route(route) => Some(route.hop),
    }
}

/// Returns the position of a next hop in the order of counts.
fn hop_position(hop: Option<Hop>) -> u64
    ensures { result ≡ hop_position hop }
{
    match hop {
        None => 0,
        Some(Hop::Discard) => 1,
        Some(Hop::Via(address)) => u64::from(address.0) + 2,
    }
}

/// Writes the numbers of all ranges, then those of each kind of change that occurs, and then each count, each on a line or as
/// a JSON object: `ranges N addresses N`, `change KIND ranges N addresses N`, `hops OLD -> NEW ranges N addresses N`. Errors
/// and memory are as for `write_routes`.
#[tactic(auto, using(crate::proofs::Writing::stops_within), unfolding(crate::specs::ChangeCounts::change_counts_as))]
pub fn write_change_counts<W: Write>(
    w: &mut W,
    options: &DiffOptions,
    counts: &[ChangeCount],
) -> io::Result<()>
    requires ranges { sum_by (λ (c : ChangeCount). c.ranges) counts.now < 2 ^ 64 }
    requires addresses { sum_by (λ (c : ChangeCount). c.addresses) counts.now < 2 ^ 64 }
    ensures { WritesText (W.contents w.old) (W.contents w.new) (change_counts_as options.now counts.now) result }
{
    let syntax = options.syntax();
    let (ranges, addresses) = sums_of(counts, None);
    put_number(w, syntax, "", ranges, addresses)?;
    put_kinds(w, syntax, counts)?;
    put_counts(w, syntax, counts)
}

/// Writes the numbers of each kind of change that occurs.
fn put_kinds<W: Write>(w: &mut W, syntax: Syntax, counts: &[ChangeCount]) -> io::Result<()>
    requires ranges { sum_by (λ (c : ChangeCount). c.ranges) counts.now < 2 ^ 64 }
    requires addresses { sum_by (λ (c : ChangeCount). c.addresses) counts.now < 2 ^ 64 }
    ensures { WritesText (W.contents w.old) (W.contents w.new) (flat_map (kind_as syntax counts.now) (range_with_len 0 KINDS)) result }
{
    for kind in 0..KINDS {
        put_kind(w, syntax, counts, kind)?;
    }
    Ok(())
}

/// Writes the numbers of this kind of change, unless no range is of this kind.
#[tactic(auto, unfolding(crate::specs::ChangeCounts::kind_as, crate::specs::ChangeCounts::kind_front))]
fn put_kind<W: Write>(
    w: &mut W,
    syntax: Syntax,
    counts: &[ChangeCount],
    kind: usize,
) -> io::Result<()>
    requires kind { kind < KINDS }
    requires ranges { sum_by (λ (c : ChangeCount). c.ranges) counts.now < 2 ^ 64 }
    requires addresses { sum_by (λ (c : ChangeCount). c.addresses) counts.now < 2 ^ 64 }
    ensures { WritesText (W.contents w.old) (W.contents w.new) (kind_as syntax counts.now kind) result }
{
    let (ranges, addresses) = sums_of(counts, Some(kind));
    if ranges == 0 {
        return Ok(());
    }
    let words = kind_words(kind);
    let front = match syntax {
        Syntax::Json => ("\"change\":\"", (words, "\",")),
        Syntax::Line | Syntax::Csv => ("change ", (words, " ")),
    };
    put_number(w, syntax, front, ranges, addresses)
}

/// Writes each count.
fn put_counts<W: Write>(w: &mut W, syntax: Syntax, counts: &[ChangeCount]) -> io::Result<()>
    ensures { WritesText (W.contents w.old) (W.contents w.new) (flat_map (count_line syntax) counts.now) result }
{
    for count in counts {
        put_count(w, syntax, count)?;
    }
    Ok(())
}

/// Writes a count: the next hops, and then its numbers.
#[tactic(auto, unfolding(crate::specs::ChangeCounts::hops_front))]
fn put_count<W: Write>(w: &mut W, syntax: Syntax, count: &ChangeCount) -> io::Result<()>
    ensures { WritesText (W.contents w.old) (W.contents w.new) (count_line syntax count.now) result }
{
    let old = CountedHop {
        syntax,
        hop: count.old,
    };
    let new = CountedHop {
        syntax,
        hop: count.new,
    };
    let front = match syntax {
        Syntax::Json => ("\"old\":", (old, (",\"new\":", (new, ",")))),
        Syntax::Line | Syntax::Csv => ("hops ", (old, (" -> ", (new, " ")))),
    };
    put_number(w, syntax, front, count.ranges, count.addresses)
}

/// A next hop, if there is a route, in this syntax.
#[derive(Clone, Copy)]
struct CountedHop {
    syntax: Syntax,
    hop: Option<Hop>,
}

impl Text for CountedHop {
    ghost text = { λ counted. hop_as counted.syntax counted.hop };

    #[tactic(auto, unfolding(crate::specs::ChangeCounts::hop_as))]
    fn put_to<W: Write>(&self, w: &mut W) -> io::Result<()> {
        match self.syntax {
            Syntax::Json => put_hop_object(w, self.hop),
            Syntax::Line | Syntax::Csv => put_hop_line(w, self.hop),
        }
    }
}

/// Writes a next hop as a line has it: `no route`, `via ADDR`, or `discard`.
#[tactic(auto, unfolding(crate::specs::ChangeCounts::hop_as))]
fn put_hop_line<W: Write>(w: &mut W, hop: Option<Hop>) -> io::Result<()>
    ensures { WritesText (W.contents w.old) (W.contents w.new) (hop_as Syntax.Line hop) result }
{
    match hop {
        None => "no route".put_to(w),
        Some(Hop::Via(address)) => ("via ", address).put_to(w),
        Some(Hop::Discard) => "discard".put_to(w),
    }
}

/// Writes a next hop as an object has it: `null`, or its members.
#[tactic(auto, unfolding(crate::specs::ChangeCounts::hop_as))]
fn put_hop_object<W: Write>(w: &mut W, hop: Option<Hop>) -> io::Result<()>
    ensures { WritesText (W.contents w.old) (W.contents w.new) (hop_as Syntax.Json hop) result }
{
    match hop {
        None => "null".put_to(w),
        Some(Hop::Via(address)) => ("{\"via\":\"", (address, "\"}")).put_to(w),
        Some(Hop::Discard) => "{\"via\":null,\"discard\":true}".put_to(w),
    }
}

/// Writes a number of ranges and of their addresses, after this text of what they have in common.
#[tactic(auto, unfolding(crate::specs::ChangeCounts::number_as))]
fn put_number<W: Write, T: Text + Copy>(
    w: &mut W,
    syntax: Syntax,
    front: T,
    ranges: u64,
    addresses: u64,
) -> io::Result<()>
    ensures { WritesText (W.contents w.old) (W.contents w.new) (number_as syntax (T.text front) ranges addresses) result }
{
    match syntax {
        Syntax::Json => {
            let numbers = (ranges, (",\"addresses\":", (addresses, "}\n")));
            ("{", (front, ("\"ranges\":", numbers))).put_to(w)
        }
        Syntax::Line | Syntax::Csv => {
            let numbers = (ranges, (" addresses ", (addresses, "\n")));
            (front, ("ranges ", numbers)).put_to(w)
        }
    }
}

/// Returns the number of ranges, and of their addresses, by the counts of this kind, or by all counts.
fn sums_of(counts: &[ChangeCount], kind: Option<usize>) -> (u64, u64)
    requires ranges { sum_by (λ (c : ChangeCount). c.ranges) counts.now < 2 ^ 64 }
    requires addresses { sum_by (λ (c : ChangeCount). c.addresses) counts.now < 2 ^ 64 }
    ensures ranges { result.0 ≡ ranges_by (test_of kind) counts.now }
    ensures addresses { result.1 ≡ addresses_by (test_of kind) counts.now }
{
    let (mut ranges, mut addresses) = (0, 0);
    for count in counts {
        if is_counted(kind, count) {
            ranges += count.ranges;
            addresses += count.addresses;
        }
    }
    (ranges, addresses)
}

/// Returns true if the count is of this kind, or if no kind is given.
fn is_counted(kind: Option<usize>, count: &ChangeCount) -> bool
    ensures { result ≡ is_counted (test_of kind) count.now }
{
    match kind {
        None => true,
        Some(kind) => kind_of(count.old, count.new) == kind,
    }
}

/// Returns the kind of a change, as a position among the words for it.
fn kind_of(old: Option<Hop>, new: Option<Hop>) -> usize
    ensures { result ≡ kind_of old new }
{
    match (old, new) {
        (Some(Hop::Via(old)), Some(Hop::Via(new))) if old.0 != new.0 => 0,
        (None, Some(Hop::Via(_))) => 1,
        (Some(_), None) => 2,
        (None | Some(Hop::Via(_)), Some(Hop::Discard)) => 3,
        (Some(Hop::Discard), Some(Hop::Via(_))) => 4,
        _ => 5,
    }
}

/// Returns the words for a kind, those of the legend of a map.
fn kind_words(kind: usize) -> &'static str
    requires { kind < KINDS }
    ensures { result.now ≡ get_or kind_words kind [] }
{
    match kind {
        0 => "another next hop",
        1 => "gets a route",
        2 => "loses its route",
        3 => "is discarded",
        4 => "isn't discarded any more",
        _ => "the same next hop by another route",
    }
}
