//! The differences of two tables: ranges of addresses, or their prefixes, with the two answers, each in the style of its
//! table.
ghost use Rattle.std.specs.Prelude.{◌≡◌, ◌+◌, ◌^◌, ◌≤◌};
ghost use Rattle.std.specs.List.{flat_map};
ghost use Rattle.rt_cidr.specs.Output.{WritesText};
ghost use Rattle.rt_print.specs.DifferenceText.{empty_record, answered_as, answer_as, range_as, prefix_as, difference_as};
ghost use Rattle.rt_print.specs.Styles.{label_of};
ghost use Rattle.rt_print.specs.RangePrefixes.{is_inside, is_outside, prefixes_in};
ghost use Rattle.rt_print.specs.inside.Parts.{label_pairs, change_end};

use crate::csv::LINE_END;
use crate::diff_options::{DiffOptions, DiffOutput};
use crate::format::Syntax;
use crate::labels::FeedLabel;
use crate::routes::put_route;
use crate::style::Style;
use crate::text::Text;
use rt_cidr::{Addr, ShortText};
use rt_diff::{CompareBy, Difference, TableAnswer};
use rt_rib::Hop;
use std::io::{self, Write};

/// The number of bits of an address.
const ADDRESS_BITS: u32 = 32;

/// Writes a line for the difference's range, `FIRST-LAST OLD -> NEW` and LF, or one for each of the fewest prefixes that make
/// up the range, `PREFIX OLD -> NEW`; or a JSON object instead of a line; or a line of fields. An answer is `no route`,
/// `via ADDR`, `discard`, or the whole route in the style of its table. Errors and memory are as for `write_routes`.
pub fn write_difference<W: Write>(
    w: &mut W,
    options: &DiffOptions,
    difference: &Difference,
) -> io::Result<()>
    ensures { WritesText (W.contents w.old) (W.contents w.new) (difference_as options.now difference.now) result }
{
    let change = Change {
        syntax: options.old.syntax(),
        old: StyledAnswer {
            by: options.by,
            style: &options.old,
            answer: &difference.old,
        },
        new: StyledAnswer {
            by: options.by,
            style: &options.new,
            answer: &difference.new,
        },
    };
    match options.output {
        DiffOutput::Ranges => put_range(w, difference, change),
        DiffOutput::Prefixes => put_prefixes(w, difference, change, ADDRESS_BITS, 0),
    }
}

/// Writes the line of the difference's range.
#[tactic(auto, unfolding(crate::specs::DifferenceText::range_as, crate::specs::inside::Parts::change_end))]
fn put_range<W: Write>(w: &mut W, difference: &Difference, change: Change<'_>) -> io::Result<()>
    ensures { WritesText (W.contents w.old) (W.contents w.new)
        (range_as change.entry.syntax difference.now (answer_as change.entry.old.by change.entry.old.style.now change.entry.old.answer.now) (answer_as change.entry.new.by change.entry.new.style.now change.entry.new.answer.now)) result }
{
    let Difference { first, last, .. } = *difference;
    match change.syntax {
        Syntax::Line => (first, ("-", (last, change))).put_to(w),
        Syntax::Json => ("{\"first\":\"", (first, ("\",\"last\":\"", (last, change)))).put_to(w),
        Syntax::Csv => (first, (",", (last, change))).put_to(w),
    }
}

/// Writes a line for each prefix of the difference's range among the 2^bits addresses from `base` on.
fn put_prefixes<W: Write>(
    w: &mut W,
    difference: &Difference,
    change: Change<'_>,
    bits: u32,
    base: u32,
) -> io::Result<()>
    requires few { bits ≤ 32 }
    requires fits { base + 2 ^ bits ≤ 2 ^ 32 }
    ensures { WritesText (W.contents w.old) (W.contents w.new)
        (flat_map (prefix_as change.entry.syntax (answer_as change.entry.old.by change.entry.old.style.now change.entry.old.answer.now) (answer_as change.entry.new.by change.entry.new.style.now change.entry.new.answer.now))
        (prefixes_in difference.now.first.0 difference.now.last.0 bits base)) result }
{
    let (first, last, size) = (difference.first.0, difference.last.0, 1u64 << bits);
    if is_inside(first, last, base, size) {
        return put_prefix(w, Addr(base), ADDRESS_BITS - bits, change);
    }
    if bits == 0 || is_outside(first, last, base, size) {
        return Ok(());
    }
    let half = bits - 1;
    put_prefixes(w, difference, change, half, base)?;
    put_prefixes(w, difference, change, half, base + (1u32 << half))
}

/// Returns true if all of the `size` addresses from `base` on are in the range from the first to the last address.
fn is_inside(first: u32, last: u32, base: u32, size: u64) -> bool
    requires { size ≤ 2 ^ 32 }
    ensures { result ≡ is_inside first last base size }
{
    first <= base && u64::from(base) + size <= u64::from(last) + 1
}

/// Returns true if none of them is.
fn is_outside(first: u32, last: u32, base: u32, size: u64) -> bool
    requires { size ≤ 2 ^ 32 }
    ensures { result ≡ is_outside first last base size }
{
    u64::from(base) + size <= u64::from(first) || last < base
}

/// Writes the line of the prefix with this base and length.
#[tactic(auto, using(crate::proofs::LineParts::prefix_line, crate::proofs::LineParts::prefix_object, crate::proofs::LineParts::prefix_record))]
fn put_prefix<W: Write>(w: &mut W, base: Addr, len: u32, change: Change<'_>) -> io::Result<()>
    ensures { WritesText (W.contents w.old) (W.contents w.new)
        (prefix_as change.entry.syntax (answer_as change.entry.old.by change.entry.old.style.now change.entry.old.answer.now) (answer_as change.entry.new.by change.entry.new.style.now change.entry.new.answer.now) (base.0, len)) result }
{
    let prefix = (base, ("/", (u64::from(len), change)));
    match change.syntax {
        Syntax::Line | Syntax::Csv => prefix.put_to(w),
        Syntax::Json => ("{\"prefix\":\"", prefix).put_to(w),
    }
}

/// The two answers of a difference, each in the style of its table: the end of a line or of an object.
#[derive(Clone, Copy)]
struct Change<'a> {
    syntax: Syntax,
    old: StyledAnswer<'a>,
    new: StyledAnswer<'a>,
}

impl Text for Change<'_> {
    ghost text = { λ c. change_end c.syntax (answer_as c.old.by c.old.style.now c.old.answer.now) (answer_as c.new.by c.new.style.now c.new.answer.now) };

    #[tactic(auto, unfolding(crate::specs::inside::Parts::change_end))]
    fn put_to<W: Write>(&self, w: &mut W) -> io::Result<()> {
        let Change { syntax, old, new } = *self;
        match syntax {
            Syntax::Line => (" ", (old, (" -> ", (new, "\n")))).put_to(w),
            Syntax::Json => ("\",\"old\":", (old, (",\"new\":", (new, "}\n")))).put_to(w),
            Syntax::Csv => (",", (old, (",", (new, LINE_END)))).put_to(w),
        }
    }
}

/// An answer for an address, of which this part is compared, in the style of its table.
#[derive(Clone, Copy)]
struct StyledAnswer<'a> {
    by: CompareBy,
    style: &'a Style,
    answer: &'a TableAnswer,
}

impl Text for StyledAnswer<'_> {
    ghost text = { λ a. answer_as a.by a.style.now a.answer.now };

    fn put_to<W: Write>(&self, w: &mut W) -> io::Result<()> {
        let labels = self.style.labels();
        match self.style.syntax() {
            Syntax::Line => put_answer_line(w, labels, self.answer),
            Syntax::Json => put_answer_object(w, labels, self.answer),
            Syntax::Csv => put_answer_record(w, self.by, labels, self.answer),
        }
    }
}

/// Writes an answer as a line has it: `no route`, `via ADDR`, `discard`, or the route.
#[tactic(auto, using(crate::proofs::LineParts::answer_line_parts), unfolding(crate::specs::DifferenceText::answered_as))]
fn put_answer_line<W: Write>(
    w: &mut W,
    labels: &[FeedLabel],
    answer: &TableAnswer,
) -> io::Result<()>
    ensures { (by : CompareBy) → WritesText (W.contents w.old) (W.contents w.new) (answered_as Syntax.Line by (label_of (label_pairs labels.now)) answer.now) result }
{
    match answer {
        TableAnswer::NoRoute => "no route".put_to(w),
        TableAnswer::Hop(hop) => match *hop {
            Hop::Via(address) => ("via ", address).put_to(w),
            Hop::Discard => "discard".put_to(w),
        },
        TableAnswer::Route(route) => {
            let mut text = ShortText::new();
            put_route(w, &mut text, Syntax::Line, labels, b"", route, b"")
        }
    }
}

/// Writes an answer as an object has it: `null`, or an object with the next hop or the route.
#[tactic(auto, using(crate::proofs::LineParts::answer_object_parts), unfolding(crate::specs::DifferenceText::answered_as))]
fn put_answer_object<W: Write>(
    w: &mut W,
    labels: &[FeedLabel],
    answer: &TableAnswer,
) -> io::Result<()>
    ensures { (by : CompareBy) → WritesText (W.contents w.old) (W.contents w.new) (answered_as Syntax.Json by (label_of (label_pairs labels.now)) answer.now) result }
{
    match answer {
        TableAnswer::NoRoute => "null".put_to(w),
        TableAnswer::Hop(hop) => match *hop {
            Hop::Via(address) => ("{\"via\":\"", (address, "\"}")).put_to(w),
            Hop::Discard => "{\"via\":null,\"discard\":true}".put_to(w),
        },
        TableAnswer::Route(route) => {
            let mut text = ShortText::new();
            put_route(w, &mut text, Syntax::Json, labels, b"", route, b"}")
        }
    }
}

/// Writes an answer as fields; if there is no route, those of the part that is compared are empty.
#[tactic(auto, using(crate::proofs::LineParts::answer_record_parts), unfolding(crate::specs::DifferenceText::answered_as))]
fn put_answer_record<W: Write>(
    w: &mut W,
    by: CompareBy,
    labels: &[FeedLabel],
    answer: &TableAnswer,
) -> io::Result<()>
    ensures { WritesText (W.contents w.old) (W.contents w.new) (answered_as Syntax.Csv by (label_of (label_pairs labels.now)) answer.now) result }
{
    match answer {
        TableAnswer::NoRoute => empty_record(by).put_to(w),
        TableAnswer::Hop(hop) => match *hop {
            Hop::Via(address) => (address, ",").put_to(w),
            Hop::Discard => ",true".put_to(w),
        },
        TableAnswer::Route(route) => {
            let mut text = ShortText::new();
            put_route(w, &mut text, Syntax::Csv, labels, b"", route, b"")
        }
    }
}

/// Returns the commas between the empty fields of an address without a route.
fn empty_record(by: CompareBy) -> &'static str
    ensures { result.now ≡ empty_record by }
{
    match by {
        CompareBy::Hop => ",",
        CompareBy::Route => ",,,,,,",
    }
}
