//! Look-up results: lines, JSON objects (RFC 8259), one a line, or comma-separated values (RFC 4180).
ghost use Rattle.std.specs.Prelude.{◌≡◌, ◌+◌, ◌≤◌, ◌++◌, [], length, codes};
ghost use Rattle.rt_cidr.specs.Output.{WritesText};
ghost use Rattle.rt_cidr.specs.ShortText.{FitsInShortText};
ghost use Rattle.rt_rib.specs.LookUp.{reason};
ghost use Rattle.rt_print.specs.Styles.{label_of, address_head, found_as, reason_text, also_line, also_object, also_record, all_found_as, invalid_as};
ghost use Rattle.rt_print.specs.inside.Parts.{label_pairs, route_open, asked_head, reason_end, others_begin, others_end, other_as};

use crate::csv::LINE_END;
use crate::format::Syntax;
use crate::labels::FeedLabel;
use crate::routes::put_route;
use crate::style::Style;
use crate::text::Text;
use rt_cidr::{Addr, ShortText, put};
use rt_rib::{Reason, Route};
use std::io::{self, Write};

/// Writes the result of a look-up of the address, in the style: `ADDR route` and the route, as `write_routes` writes it, or
/// `ADDR no route` and LF; a JSON object; or a line of fields. Errors and memory are as for `write_routes`.
#[tactic(auto, using(crate::proofs::LineParts::found_line_parts, crate::proofs::LineParts::found_object_parts, crate::proofs::LineParts::found_record_parts), unfolding(crate::specs::Styles::found_as))]
pub fn write_lookup<W: Write>(
    w: &mut W,
    style: &Style,
    addr: Addr,
    found: Option<Route>,
) -> io::Result<()>
    ensures { WritesText (W.contents w.old) (W.contents w.new) (found_as style.now.syntax (label_of style.now.labels) addr found) result }
{
    let labels = style.labels();
    match (style.syntax(), found) {
        (Syntax::Line, None) => put_no_route(w, addr),
        (Syntax::Line, Some(route)) => put_best(w, Syntax::Line, labels, addr, &route, b"\n"),
        (Syntax::Json, None) => ("{\"address\":\"", (addr, "\",\"route\":null}\n")).put_to(w),
        (Syntax::Json, Some(route)) => put_best(w, Syntax::Json, labels, addr, &route, b"}}\n"),
        (Syntax::Csv, None) => (addr, (",,,,,,,", LINE_END)).put_to(w),
        (Syntax::Csv, Some(route)) => put_best(w, Syntax::Csv, labels, addr, &route, b"\r\n"),
    }
}

/// Writes all routes that cover the address, given best first, in the style: the first on the line that `write_lookup`
/// writes, and each further one as `ADDR also`, the route, its reason and LF; in JSON all in one object; in CSV each on a
/// line of fields whose last is the reason, empty for the first. The reason is the step at which the route lost to the first one (RFC 1812, section 5.2.4.3): `shorter` for a shorter
/// prefix; `preference` for an equally long prefix and a higher preference; and `feed` if both are equal. For an empty
/// list it writes that there is no route. Errors and memory are as for `write_routes`.
pub fn write_all_matches<W: Write>(
    w: &mut W,
    style: &Style,
    addr: Addr,
    found: &[Route],
) -> io::Result<()>
    ensures { WritesText (W.contents w.old) (W.contents w.new) (all_found_as style.now.syntax (label_of style.now.labels) addr found.now) result }
{
    let syntax = style.syntax();
    let labels = style.labels();
    let Some((best, others)) = found.split_first() else {
        return put_none_of_all(w, style, addr);
    };
    put_best(w, syntax, labels, addr, best, others_begin(syntax))?;
    let mut comma: &[u8] = b"";
    for route in others {
        put_other(w, style, addr, best, comma, route)?;
        comma = b",";
    }
    put(w, others_end(syntax))
}

/// Writes an invalid line of a text of addresses by its number, in the style: `LINE invalid` and LF, or a JSON object. Errors
/// and memory are as for `write_routes`.
#[tactic(auto, unfolding(crate::specs::Styles::invalid_as))]
pub fn write_invalid_line<W: Write>(w: &mut W, style: &Style, number: usize) -> io::Result<()>
    ensures { WritesText (W.contents w.old) (W.contents w.new) (invalid_as style.now.syntax number) result }
{
    let number = number as u64;
    match style.syntax() {
        Syntax::Json => ("{\"line\":", (number, ",\"invalid\":true}\n")).put_to(w),
        Syntax::Line | Syntax::Csv => (number, " invalid\n").put_to(w),
    }
}

/// Writes that no route covers the address, where all of them are asked for.
#[tactic(auto, unfolding(crate::specs::Styles::all_found_as, crate::specs::Styles::found_as))]
fn put_none_of_all<W: Write>(w: &mut W, style: &Style, addr: Addr) -> io::Result<()>
    ensures { WritesText (W.contents w.old) (W.contents w.new) (all_found_as style.now.syntax (label_of style.now.labels) addr []) result }
{
    match style.syntax() {
        Syntax::Line => put_no_route(w, addr),
        Syntax::Json => {
            (
                "{\"address\":\"",
                (addr, "\",\"route\":null,\"also\":[]}\n"),
            )
                .put_to(w)
        }
        Syntax::Csv => (addr, (",,,,,,,,", LINE_END)).put_to(w),
    }
}

/// Writes the line `ADDR no route`, at once.
#[tactic(auto, using(crate::proofs::LineParts::fits))]
fn put_no_route<W: Write>(w: &mut W, addr: Addr) -> io::Result<()>
    ensures { WritesText (W.contents w.old) (W.contents w.new) (asked_head Syntax.Line addr (codes " no route\n")) result }
{
    let mut line = ShortText::new();
    prepend_line_head(&mut line, addr, b" no route\n");
    put(w, line.as_bytes())
}

/// Writes the best route that covers the address, with the address before it and a text after it, which has the end of an
/// object.
#[tactic(auto, using(crate::proofs::LineParts::fits))]
fn put_best<W: Write>(
    w: &mut W,
    syntax: Syntax,
    labels: &[FeedLabel],
    addr: Addr,
    route: &Route,
    tail: &[u8],
) -> io::Result<()>
    requires tail { length tail.now ≤ 100 }
    ensures { WritesText (W.contents w.old) (W.contents w.new) (asked_head syntax addr (codes " route ")
        ++ (route_open syntax (label_of (label_pairs labels.now) route.now.feed) route.now ++ tail.now)) result }
{
    let (mut head, mut text) = (ShortText::new(), ShortText::new());
    prepend_head(&mut head, syntax, addr, b" route ");
    put_route(w, &mut text, syntax, labels, head.as_bytes(), route, tail)
}

/// Returns what is between the best route that covers an address and the others.
#[tactic(auto, unfolding(crate::specs::inside::Parts::others_begin))]
fn others_begin(syntax: Syntax) -> &'static [u8]
    ensures begin { result.now ≡ others_begin syntax }
    ensures short { length result.now ≤ 100 }
{
    match syntax {
        Syntax::Line => b"\n",
        Syntax::Json => b"},\"also\":[",
        Syntax::Csv => b",\r\n",
    }
}

/// Returns what is after these.
#[tactic(auto, unfolding(crate::specs::inside::Parts::others_end))]
fn others_end(syntax: Syntax) -> &'static [u8]
    ensures { result.now ≡ others_end syntax }
{
    match syntax {
        Syntax::Json => b"]}\n",
        Syntax::Line | Syntax::Csv => b"",
    }
}

/// Writes a route that lost to the best one with its reason, an object after the comma.
#[tactic(auto, unfolding(crate::specs::inside::Parts::other_as))]
fn put_other<W: Write>(
    w: &mut W,
    style: &Style,
    addr: Addr,
    best: &Route,
    comma: &[u8],
    route: &Route,
) -> io::Result<()>
    requires comma { length comma.now ≤ 100 }
    ensures { WritesText (W.contents w.old) (W.contents w.new)
        (other_as style.now.syntax (label_of style.now.labels) addr best.now comma.now route.now) result }
{
    let labels = style.labels();
    match style.syntax() {
        Syntax::Line => put_other_line(w, labels, addr, best, route),
        Syntax::Json => put_other_object(w, labels, best, comma, route),
        Syntax::Csv => put_other_record(w, labels, addr, best, route),
    }
}

/// Writes a route that lost to the best one as a line, `ADDR also`, the route and its reason.
#[tactic(auto, using(crate::proofs::LineParts::fits))]
fn put_other_line<W: Write>(
    w: &mut W,
    labels: &[FeedLabel],
    addr: Addr,
    best: &Route,
    route: &Route,
) -> io::Result<()>
    ensures { WritesText (W.contents w.old) (W.contents w.new) (also_line (label_of (label_pairs labels.now)) addr best.now route.now) result }
{
    let mut head = ShortText::new();
    prepend_line_head(&mut head, addr, b" also ");
    let mut end = ShortText::new();
    prepend_line_reason(&mut end, best, route);
    let mut text = ShortText::new();
    put_route(
        w,
        &mut text,
        Syntax::Line,
        labels,
        head.as_bytes(),
        route,
        end.as_bytes(),
    )
}

/// Writes a route that lost to the best one as an object with its reason, after the comma.
#[tactic(auto, using(crate::proofs::LineParts::fits))]
fn put_other_object<W: Write>(
    w: &mut W,
    labels: &[FeedLabel],
    best: &Route,
    comma: &[u8],
    route: &Route,
) -> io::Result<()>
    requires comma { length comma.now ≤ 100 }
    ensures { WritesText (W.contents w.old) (W.contents w.new) (comma.now ++ also_object (label_of (label_pairs labels.now)) best.now route.now) result }
{
    let mut end = ShortText::new();
    prepend_object_reason(&mut end, best, route);
    let mut text = ShortText::new();
    put_route(
        w,
        &mut text,
        Syntax::Json,
        labels,
        comma,
        route,
        end.as_bytes(),
    )
}

/// Writes a route that lost to the best one as a line of fields.
#[tactic(auto, using(crate::proofs::LineParts::fits))]
fn put_other_record<W: Write>(
    w: &mut W,
    labels: &[FeedLabel],
    addr: Addr,
    best: &Route,
    route: &Route,
) -> io::Result<()>
    ensures { WritesText (W.contents w.old) (W.contents w.new) (also_record (label_of (label_pairs labels.now)) addr best.now route.now) result }
{
    let mut head = ShortText::new();
    prepend_record_head(&mut head, addr);
    let mut end = ShortText::new();
    prepend_record_reason(&mut end, best, route);
    let mut text = ShortText::new();
    put_route(
        w,
        &mut text,
        Syntax::Csv,
        labels,
        head.as_bytes(),
        route,
        end.as_bytes(),
    )
}

/// Prepends ` REASON` and LF.
#[tactic(auto, using(rt_cidr::proofs::Promised::prepending), unfolding(crate::specs::inside::Parts::reason_end))]
fn prepend_line_reason(text: &mut ShortText, best: &Route, route: &Route)
    requires room { FitsInShortText (reason_end Syntax.Line best.now route.now) text.old }
    ensures { text.new ≡ reason_end Syntax.Line best.now route.now ++ text.old }
{
    text.prepend(b"\n");
    text.prepend(reason_text(best, route));
    text.prepend(b" ");
}

/// Prepends `,"reason":"REASON"}`.
#[tactic(auto, using(rt_cidr::proofs::Promised::prepending), unfolding(crate::specs::inside::Parts::reason_end))]
fn prepend_object_reason(text: &mut ShortText, best: &Route, route: &Route)
    requires room { FitsInShortText (reason_end Syntax.Json best.now route.now) text.old }
    ensures { text.new ≡ reason_end Syntax.Json best.now route.now ++ text.old }
{
    text.prepend(b"\"}");
    text.prepend(reason_text(best, route));
    text.prepend(b",\"reason\":\"");
}

/// Prepends `,REASON` and the end of the line.
#[tactic(auto, using(rt_cidr::proofs::Promised::prepending), unfolding(crate::specs::inside::Parts::reason_end))]
fn prepend_record_reason(text: &mut ShortText, best: &Route, route: &Route)
    requires room { FitsInShortText (reason_end Syntax.Csv best.now route.now) text.old }
    ensures { text.new ≡ reason_end Syntax.Csv best.now route.now ++ text.old }
{
    text.prepend(b"\r\n");
    text.prepend(reason_text(best, route));
    text.prepend(b",");
}

/// Returns the word for the reason why the route lost to the best one.
#[tactic(auto, unfolding(crate::specs::Styles::reason_text))]
fn reason_text(best: &Route, route: &Route) -> &'static [u8]
    ensures { result.now ≡ reason_text (reason best.now route.now) }
{
    match route.reason(best) {
        Reason::Shorter => b"shorter",
        Reason::Preference => b"preference",
        Reason::Feed => b"feed",
    }
}

/// Prepends the address and this word, or the beginning of an object or of a line of fields.
#[tactic(auto, unfolding(crate::specs::inside::Parts::asked_head))]
fn prepend_head(text: &mut ShortText, syntax: Syntax, addr: Addr, word: &[u8])
    requires room { FitsInShortText (asked_head syntax addr word.now) text.old }
    ensures { text.new ≡ asked_head syntax addr word.now ++ text.old }
{
    match syntax {
        Syntax::Line => prepend_line_head(text, addr, word),
        Syntax::Json => prepend_object_head(text, addr),
        Syntax::Csv => prepend_record_head(text, addr),
    }
}

/// Prepends the address and this word.
#[tactic(auto, using(rt_cidr::proofs::Promised::prepending), unfolding(crate::specs::inside::Parts::asked_head))]
fn prepend_line_head(text: &mut ShortText, addr: Addr, word: &[u8])
    requires room { FitsInShortText (asked_head Syntax.Line addr word.now) text.old }
    ensures { text.new ≡ asked_head Syntax.Line addr word.now ++ text.old }
{
    text.prepend(word);
    addr.prepend_to(text);
}

/// Prepends `{"address":"ADDR","route":`.
#[tactic(auto, using(rt_cidr::proofs::Promised::prepending), unfolding(crate::specs::Styles::address_head))]
fn prepend_object_head(text: &mut ShortText, addr: Addr)
    requires room { FitsInShortText (address_head addr) text.old }
    ensures { text.new ≡ address_head addr ++ text.old }
{
    text.prepend(b"\",\"route\":");
    addr.prepend_to(text);
    text.prepend(b"{\"address\":\"");
}

/// Prepends `ADDR,`.
#[tactic(auto, using(rt_cidr::proofs::Promised::prepending), unfolding(crate::specs::inside::Parts::asked_head))]
fn prepend_record_head(text: &mut ShortText, addr: Addr)
    requires room { FitsInShortText (asked_head Syntax.Csv addr []) text.old }
    ensures { text.new ≡ asked_head Syntax.Csv addr [] ++ text.old }
{
    text.prepend(b",");
    addr.prepend_to(text);
}
