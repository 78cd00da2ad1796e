//! Routes, and the whole table.
ghost use Rattle.std.specs.Prelude.{◌≡◌, ◌≤◌, ◌++◌, length};
ghost use Rattle.rt_cidr.specs.Output.{WritesText};
ghost use Rattle.rt_cidr.specs.ShortText.{FitsInShortText};
ghost use Rattle.std.specs.List.{flat_map};
ghost use Rattle.rt_print.specs.Csv.{hop_record};
ghost use Rattle.rt_print.specs.Routes.{hop_text, hop_members, route_text, table_text};
ghost use Rattle.rt_print.specs.Styles.{label_of, row_as, rows_as};
ghost use Rattle.rt_print.specs.inside.Parts.{label_pairs, route_front, route_back, route_open, row_end};

use crate::format::Syntax;
use crate::labels::{FeedLabel, label_in};
use crate::style::Style;
use crate::text::Text;
use rt_cidr::{ShortText, put};
use rt_rib::{Hop, Route};
use std::io::{self, Write};

/// Writes the table: `table COUNT` and LF, and then each route of the list and LF. Errors are the writer's, as `put`
/// returns them; a prefix of the table was then written. Doesn't allocate. Makes one `write` for each line, more if the
/// writer accepts only a part, and no other call; wrap a writer with expensive calls in an `OutputBuffer`.
#[tactic(auto, using(rt_cidr::proofs::Promised::prepending, crate::proofs::LineParts::fits))]
pub fn write_table<W: Write>(w: &mut W, routes: &[Route]) -> io::Result<()>
    ensures { WritesText (W.contents w.old) (W.contents w.new) (table_text routes.now) result }
{
    let mut text = ShortText::new();
    text.prepend(b"\n");
    text.prepend_decimal(routes.len() as u64);
    text.prepend(b"table ");
    put(w, text.as_bytes())?;
    put_rows(w, Syntax::Line, &[], routes)
}

/// Writes the routes in the style, each on a line, without the header. Errors are the writer's, as `put` returns them; a
/// prefix of that text but not all of it was then written, so an empty list never fails. Doesn't allocate; wrap a writer
/// with expensive calls in an `OutputBuffer`.
pub fn write_routes<W: Write>(w: &mut W, style: &Style, routes: &[Route]) -> io::Result<()>
    ensures { WritesText (W.contents w.old) (W.contents w.new) (rows_as style.now routes.now) result }
{
    put_rows(w, style.syntax(), style.labels(), routes)
}

/// Writes the routes, each on a line.
fn put_rows<W: Write>(
    w: &mut W,
    syntax: Syntax,
    labels: &[FeedLabel],
    routes: &[Route],
) -> io::Result<()>
    ensures { WritesText (W.contents w.old) (W.contents w.new) (flat_map (row_as syntax (label_of (label_pairs labels.now))) routes.now) result }
{
    let end = row_end(syntax);
    let mut text = ShortText::new();
    for route in routes {
        put_route(w, &mut text, syntax, labels, b"", route, end)?;
    }
    Ok(())
}

/// Returns the end of a row.
#[tactic(auto, unfolding(crate::specs::inside::Parts::row_end))]
fn row_end(syntax: Syntax) -> &'static [u8]
    ensures end { result.now ≡ row_end syntax }
    ensures short { length result.now ≤ 100 }
{
    match syntax {
        Syntax::Line => b"\n",
        Syntax::Json => b"}\n",
        Syntax::Csv => b"\r\n",
    }
}

/// A label of at most so many bytes leaves room for the rest of its line in a short text.
const SHORT_LABEL_BYTES: usize = 80;

/// Writes the route between two texts, built in `text`. The second one has the end of an object. The whole goes to the
/// writer at once, unless the label of its feed is too long for that.
#[tactic(auto, using(rt_cidr::proofs::Promised::prepending, crate::proofs::LineParts::fits), unfolding(crate::specs::inside::Parts::route_open))]
pub(crate) fn put_route<W: Write>(
    w: &mut W,
    text: &mut ShortText,
    syntax: Syntax,
    labels: &[FeedLabel],
    head: &[u8],
    route: &Route,
    tail: &[u8],
) -> io::Result<()>
    requires head { length head.now ≤ 100 }
    requires tail { length tail.now ≤ 100 }
    ensures { WritesText (W.contents w.old) (W.contents w.new)
        (head.now ++ (route_open syntax (label_of (label_pairs labels.now) route.now.feed) route.now ++ tail.now)) result }
{
    text.clear();
    text.prepend(tail);
    prepend_back(text, syntax, route);
    match label_in(labels, route.feed) {
        None => text.prepend_decimal(u64::from(route.feed)),
        Some(label) if label.len() <= SHORT_LABEL_BYTES => text.prepend(label),
        Some(label) => {
            let mut front = ShortText::new();
            prepend_front(&mut front, syntax, route);
            return (head, (front.as_bytes(), (label, text.as_bytes()))).put_to(w);
        }
    }
    prepend_front(text, syntax, route);
    text.prepend(head);
    put(w, text.as_bytes())
}

/// Prepends the route as a line without its LF, `PREFIX feed F pref P via HOP`.
#[tactic(auto, using(rt_cidr::proofs::Promised::prepending, crate::proofs::LineParts::route_parts))]
pub fn prepend_route(text: &mut ShortText, route: &Route)
    requires room { FitsInShortText (route_text route.now) text.old }
    ensures { text.new ≡ route_text route.now ++ text.old }
{
    prepend_line_back(text, route);
    text.prepend_decimal(u64::from(route.feed));
    prepend_line_front(text, route);
}

/// Prepends what is before the feed's label.
fn prepend_front(text: &mut ShortText, syntax: Syntax, route: &Route)
    requires room { FitsInShortText (route_front syntax route.now) text.old }
    ensures { text.new ≡ route_front syntax route.now ++ text.old }
{
    match syntax {
        Syntax::Line => prepend_line_front(text, route),
        Syntax::Json => prepend_object_front(text, route),
        Syntax::Csv => prepend_record_front(text, route),
    }
}

/// Prepends `PREFIX feed `.
#[tactic(auto, using(rt_cidr::proofs::Promised::prepending), unfolding(crate::specs::inside::Parts::route_front))]
fn prepend_line_front(text: &mut ShortText, route: &Route)
    requires room { FitsInShortText (route_front Syntax.Line route.now) text.old }
    ensures { text.new ≡ route_front Syntax.Line route.now ++ text.old }
{
    text.prepend(b" feed ");
    route.prefix.prepend_to(text);
}

/// Prepends `{"prefix":"PREFIX","feed":`.
#[tactic(auto, using(rt_cidr::proofs::Promised::prepending), unfolding(crate::specs::inside::Parts::route_front))]
fn prepend_object_front(text: &mut ShortText, route: &Route)
    requires room { FitsInShortText (route_front Syntax.Json route.now) text.old }
    ensures { text.new ≡ route_front Syntax.Json route.now ++ text.old }
{
    text.prepend(b"\",\"feed\":");
    route.prefix.prepend_to(text);
    text.prepend(b"{\"prefix\":\"");
}

/// Prepends `PREFIX,`.
#[tactic(auto, using(rt_cidr::proofs::Promised::prepending), unfolding(crate::specs::inside::Parts::route_front))]
fn prepend_record_front(text: &mut ShortText, route: &Route)
    requires room { FitsInShortText (route_front Syntax.Csv route.now) text.old }
    ensures { text.new ≡ route_front Syntax.Csv route.now ++ text.old }
{
    text.prepend(b",");
    route.prefix.prepend_to(text);
}

/// Prepends what is after the feed's label.
fn prepend_back(text: &mut ShortText, syntax: Syntax, route: &Route)
    requires room { FitsInShortText (route_back syntax route.now) text.old }
    ensures { text.new ≡ route_back syntax route.now ++ text.old }
{
    match syntax {
        Syntax::Line => prepend_line_back(text, route),
        Syntax::Json => prepend_object_back(text, route),
        Syntax::Csv => prepend_record_back(text, route),
    }
}

/// Prepends ` pref P via HOP`.
#[tactic(auto, using(rt_cidr::proofs::Promised::prepending), unfolding(crate::specs::inside::Parts::route_back))]
fn prepend_line_back(text: &mut ShortText, route: &Route)
    requires room { FitsInShortText (route_back Syntax.Line route.now) text.old }
    ensures { text.new ≡ route_back Syntax.Line route.now ++ text.old }
{
    prepend_hop_text(text, route.hop);
    text.prepend(b" via ");
    text.prepend_decimal(u64::from(route.pref));
    text.prepend(b" pref ");
}

/// Prepends `,"pref":P,` and the next hop as members.
#[tactic(auto, using(rt_cidr::proofs::Promised::prepending), unfolding(crate::specs::inside::Parts::route_back))]
fn prepend_object_back(text: &mut ShortText, route: &Route)
    requires room { FitsInShortText (route_back Syntax.Json route.now) text.old }
    ensures { text.new ≡ route_back Syntax.Json route.now ++ text.old }
{
    prepend_hop_members(text, route.hop);
    text.prepend(b",");
    text.prepend_decimal(u64::from(route.pref));
    text.prepend(b",\"pref\":");
}

/// Prepends `,P,` and the next hop as fields.
#[tactic(auto, using(rt_cidr::proofs::Promised::prepending), unfolding(crate::specs::inside::Parts::route_back))]
fn prepend_record_back(text: &mut ShortText, route: &Route)
    requires room { FitsInShortText (route_back Syntax.Csv route.now) text.old }
    ensures { text.new ≡ route_back Syntax.Csv route.now ++ text.old }
{
    prepend_hop_record(text, route.hop);
    text.prepend(b",");
    text.prepend_decimal(u64::from(route.pref));
    text.prepend(b",");
}

/// Prepends the next hop's address, or `discard`.
#[tactic(auto, using(rt_cidr::proofs::Promised::prepending))]
fn prepend_hop_text(text: &mut ShortText, hop: Hop)
    requires room { FitsInShortText (hop_text hop) text.old }
    ensures { text.new ≡ hop_text hop ++ text.old }
{
    match hop {
        Hop::Via(address) => address.prepend_to(text),
        Hop::Discard => text.prepend(b"discard"),
    }
}

/// Prepends the next hop as members of an object.
#[tactic(auto, using(rt_cidr::proofs::Promised::prepending))]
fn prepend_hop_members(text: &mut ShortText, hop: Hop)
    requires room { FitsInShortText (hop_members hop) text.old }
    ensures { text.new ≡ hop_members hop ++ text.old }
{
    match hop {
        Hop::Via(address) => {
            text.prepend(b"\"");
            address.prepend_to(text);
            text.prepend(b"\"via\":\"");
        }
        Hop::Discard => text.prepend(b"\"via\":null,\"discard\":true"),
    }
}

/// Prepends the next hop as fields.
#[tactic(auto, using(rt_cidr::proofs::Promised::prepending))]
fn prepend_hop_record(text: &mut ShortText, hop: Hop)
    requires room { FitsInShortText (hop_record hop) text.old }
    ensures { text.new ≡ hop_record hop ++ text.old }
{
    match hop {
        Hop::Via(address) => {
            text.prepend(b",");
            address.prepend_to(text);
        }
        Hop::Discard => text.prepend(b",true"),
    }
}
