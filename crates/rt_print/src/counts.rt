//! The numbers of routes: in all, of each feed, and to prefixes of each length; and routes followed by their number.
ghost use Rattle.std.specs.Prelude.{◌≡◌, ℕ, ◌+◌, ◌<◌, ◌≤◌, List, length, get_or};
ghost use Rattle.std.specs.List.{flat_map, range_with_len};
ghost use Rattle.rt_rib.specs.declared.limits.TheConstants.{MAX_FEEDS};
ghost use Rattle.rt_print.specs.declared.counts.TheConstants.{MAX_BITS};
ghost use Rattle.rt_cidr.specs.Output.{WritesText};
ghost use Rattle.rt_rib.specs.Table.{count_of};
ghost use Rattle.rt_print.specs.Counts.{prefix_count, length_count, totals_as, count_as, counts_as, total_as, rows_and_total_as};
ghost use Rattle.rt_print.specs.Styles.{label_of};
ghost use Rattle.rt_print.specs.inside.Parts.{label_pairs};

use crate::format::Syntax;
use crate::labels::{FeedLabel, label_in};
use crate::routes::write_routes;
use crate::style::Style;
use crate::text::Text;
use rt_cidr::ShortText;
use rt_rib::{MAX_FEEDS, Route};
use std::io::{self, Write};

/// The maximum length of a prefix.
const MAX_BITS: usize = 32;

/// The number of prefixes of routes, and the number of routes of each feed and to prefixes of each length.
#[derive(Drop)]
struct Counts {
    prefixes: usize,
    feeds: [usize; MAX_FEEDS + 1],
    lengths: [usize; MAX_BITS + 1],
}

/// Writes the number of routes and of their prefixes, and then the number of routes of each feed and to prefixes of
/// each length, in the style, each on a line; feeds and lengths without a route have no line. Routes to the same prefix
/// are adjacent, as in a table. Errors and memory are as for `write_routes`.
#[tactic(auto, using(crate::proofs::Writing::stops_within), unfolding(crate::specs::Counts::counts_as))]
pub fn write_counts<W: Write>(w: &mut W, style: &Style, routes: &[Route]) -> io::Result<()>
    ensures { WritesText (W.contents w.old) (W.contents w.new) (counts_as style.now routes.now) result }
{
    let syntax = style.syntax();
    let Counts {
        prefixes,
        feeds,
        lengths,
    } = counts_of(routes);
    put_totals(w, syntax, routes.len() as u64, prefixes as u64)?;
    put_numbers(w, syntax, "feed", style.labels(), &feeds)?;
    put_numbers(w, syntax, "length", &[], &lengths)
}

/// Writes the routes as `write_routes` does and then, on a last line, their number: `total N`, or an object. A reader that
/// finds this line with the number of the lines before it has all of them. Errors and memory are as for `write_routes`.
pub fn write_routes_and_total<W: Write>(
    w: &mut W,
    style: &Style,
    routes: &[Route],
) -> io::Result<()>
    ensures { WritesText (W.contents w.old) (W.contents w.new) (rows_and_total_as style.now routes.now) result }
{
    write_routes(w, style, routes)?;
    put_total(w, style.syntax(), routes.len() as u64)
}

/// Writes the number of the routes before it.
#[tactic(auto, unfolding(crate::specs::Counts::total_as))]
fn put_total<W: Write>(w: &mut W, syntax: Syntax, count: u64) -> io::Result<()>
    ensures { WritesText (W.contents w.old) (W.contents w.new) (total_as syntax count) result }
{
    match syntax {
        Syntax::Json => ("{\"total\":", (count, "}\n")).put_to(w),
        Syntax::Line | Syntax::Csv => ("total ", (count, "\n")).put_to(w),
    }
}

/// Counts the prefixes of the routes, if routes to the same prefix are adjacent; and the routes of each feed, and those to
/// prefixes of each length.
fn counts_of(routes: &[Route]) -> Counts
    ensures prefixes { result.prefixes ≡ prefix_count routes.now }
    ensures feeds { (feed : ℕ) → feed ≤ MAX_FEEDS → get_or result.feeds feed 0 ≡ count_of feed routes.now }
    ensures lengths { (len : ℕ) → len ≤ MAX_BITS → get_or result.lengths len 0 ≡ length_count len routes.now }
{
    let mut prefixes = 0;
    let mut feeds = [0; MAX_FEEDS + 1];
    let mut lengths = [0; MAX_BITS + 1];
    let mut last: Option<&Route> = None;
    for route in routes {
        if last.is_none_or(|last| last.prefix != route.prefix) {
            prefixes += 1;
            last = Some(route);
        }
        if route.feed as usize <= MAX_FEEDS {
            feeds[route.feed as usize] += 1;
        }
        lengths[route.prefix.len() as usize] += 1;
    }
    Counts {
        prefixes,
        feeds,
        lengths,
    }
}

/// Writes the number of routes, and of their prefixes.
#[tactic(auto, unfolding(crate::specs::Counts::totals_as))]
fn put_totals<W: Write>(w: &mut W, syntax: Syntax, routes: u64, prefixes: u64) -> io::Result<()>
    ensures { WritesText (W.contents w.old) (W.contents w.new) (totals_as syntax routes prefixes) result }
{
    match syntax {
        Syntax::Json => {
            let prefixes = (",\"prefixes\":", (prefixes, "}\n"));
            ("{\"routes\":", (routes, prefixes)).put_to(w)
        }
        Syntax::Line | Syntax::Csv => {
            ("routes ", (routes, (" prefixes ", (prefixes, "\n")))).put_to(w)
        }
    }
}

/// Writes these numbers of routes of a kind, each with the label of its position; those that are 0 are left out.
#[tactic(auto, using(crate::proofs::LineParts::fits))]
fn put_numbers<W: Write>(
    w: &mut W,
    syntax: Syntax,
    kind: &str,
    labels: &[FeedLabel],
    counts: &[usize],
) -> io::Result<()>
    requires few { length counts.now ≤ MAX_FEEDS + 1 }
    ensures { WritesText (W.contents w.old) (W.contents w.new)
        (flat_map (λ k. count_as syntax kind.now (label_of (label_pairs labels.now) k) (get_or counts.now k 0)) (range_with_len 0 (length counts.now))) result }
{
    for (number, count) in counts.iter().enumerate() {
        let mut digits = ShortText::new();
        digits.prepend_decimal(number as u64);
        let label = label_in(labels, number as u32).unwrap_or(digits.as_bytes());
        put_number(w, syntax, kind, label, *count as u64)?;
    }
    Ok(())
}

/// Writes the number of routes of this kind and name, unless it is 0.
#[tactic(auto, unfolding(crate::specs::Counts::count_as))]
fn put_number<W: Write>(
    w: &mut W,
    syntax: Syntax,
    kind: &str,
    name: &[u8],
    count: u64,
) -> io::Result<()>
    ensures { WritesText (W.contents w.old) (W.contents w.new) (count_as syntax kind.now name.now count) result }
{
    if count == 0 {
        return Ok(());
    }
    match syntax {
        Syntax::Json => {
            let routes = (name, (",\"routes\":", (count, "}\n")));
            ("{\"", (kind, ("\":", routes))).put_to(w)
        }
        Syntax::Line | Syntax::Csv => {
            (kind, (" ", (name, (" routes ", (count, "\n"))))).put_to(w)
        }
    }
}
