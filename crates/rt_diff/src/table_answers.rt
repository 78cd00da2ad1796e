//! A table's answers for an address: plain data, as callers see it.
ghost use Rattle.std.specs.Prelude.{◌≡◌, ◌↔◌, IsTrue};
ghost use Rattle.rt_diff.specs.Answers.{answer_by};

use rt_rib::{Hop, Route};

/// The part of an answer that is compared.
#[derive(Clone, Copy, PartialEq, Eq, Debug)]
pub enum CompareBy {
    /// The next hop, whichever route it belongs to.
    Hop,
    /// The whole route: its prefix, feed, preference and next hop.
    Route,
}

/// A table's answer for an address.
#[derive(Clone, Copy, PartialEq, Eq, Debug)]
pub enum TableAnswer {
    /// No route covers the address.
    NoRoute,
    /// The next hop of its packets.
    Hop(Hop),
    /// The best route of the longest prefix that covers the address.
    Route(Route),
}

/// Returns the answer for the result of a look-up.
pub(crate) fn answer_by(by: CompareBy, found: Option<Route>) -> TableAnswer
    ensures { result ≡ answer_by by found }
{
    match (by, found) {
        (_, None) => TableAnswer::NoRoute,
        (CompareBy::Hop, Some(route)) => TableAnswer::Hop(route.hop),
        (CompareBy::Route, Some(route)) => TableAnswer::Route(route),
    }
}

/// Returns true if two answers are the same.
pub(crate) fn is_same(one: &TableAnswer, other: &TableAnswer) -> bool
    ensures { IsTrue result ↔ (one.now ≡ other.now) }
{
    one == other
}
