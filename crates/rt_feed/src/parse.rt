//! One line of a feed's text, and its faults.
ghost use Rattle.std.specs.Prelude.{◌≡◌, ◌≢◌, ◌∷◌, ◌<◌, ◌^◌, [], length, codes, decimal, None, MatchOption, MatchResult};
ghost use Rattle.rt_cidr.specs.Text.{address_text, prefix_text};
ghost use Rattle.rt_feed.specs.CommandText.{words, route_words, HasHop, HasCommand};
ghost use Rattle.rt_print.specs.Routes.{hop_text};
ghost use Rattle.rt_feed.specs.Commands.{Kind};
ghost use Rattle.rt_feed.specs.Grammar.{kinds_after, is_skipped, IsFaultOfFields, AnswersLine};
ghost use Rattle.rt_feed.specs.inside.Fields.{fields_of_rest, name_text, IsFaulty};

use crate::lines::cut_at;
use crate::versions::Version;
use rt_cidr::{Addr, Prefix, TextFault, decimal_u32, laws};
use rt_rib::{Cmd, Hop};
use thiserror::Error;

/// The maximum number of bytes of a line, without its LF.
pub const LINE_BYTES: usize = 128;

/// The next hop of a route that discards.
const DISCARD: &[u8] = b"discard";

/// The fault of an invalid line. If there are several, the first in this order is reported: `LineLength`, `Command`,
/// `FieldCount`, and then the first fault of the fields from the left.
#[derive(Clone, Copy, PartialEq, Eq, Debug, Error)]
pub enum LineFault {
    /// E1: the first field names no command of the text's version.
    #[error("E1: the first field is no command of this version")]
    Command,
    /// E2: the number of fields is wrong for the command.
    #[error("E2: the command takes another number of fields")]
    FieldCount,
    /// E3: a field doesn't have the form of a prefix or, in a `lookup`, of an address; or a whole line of a text of
    /// addresses doesn't.
    #[error("E3: the field is no prefix or address (the CR of CRLF is part of it)")]
    Text,
    /// E4: the prefix's length is over 32.
    #[error("E4: the prefix's length is over 32")]
    PrefixLength,
    /// E5: a bit of the prefix's address past its length is set.
    #[error("E5: a bit past the prefix's length is set")]
    PrefixBits,
    /// E6: the preference is not a decimal from 0 to 4294967295.
    #[error("E6: the preference is no decimal from 0 to 4294967295")]
    Preference,
    /// E7: the next hop is neither an address nor, in version 2, `discard`.
    #[error("E7: the next hop is neither an address nor, in version 2, `discard` (the CR of CRLF is part of it)")]
    Hop,
    /// E8: the line has over 128 bytes, whatever it says.
    #[error("E8: the line has over 128 bytes")]
    LineLength,
}

/// The name at the start of a command's line.
#[derive(Clone, Copy)]
enum Name {
    Add,
    Replace,
    Withdraw,
    Lookup,
    Dump,
    Purge,
}

/// Parses the line, without its LF, in a text of this version. Returns its command, or `None` if it is empty or a
/// comment (its first byte is `#`), or the first of its faults. The line is split at every space. `add` and `replace`
/// have a prefix, a preference and a next hop, `withdraw` a prefix, `lookup` an address, and `dump` no field. Version 2
/// also has `purge`, without a field, and a next hop may be `discard`. Doesn't allocate.
#[tactic(auto, using(crate::proofs::CommandWords::line_from_words, crate::proofs::CutBytes::fields_cut))]
pub fn parse_line(line: &[u8], version: Version) -> Result<Option<Cmd>, LineFault>
    ensures { AnswersLine version line.now result }
{
    if line.len() > LINE_BYTES {
        return Err(LineFault::LineLength);
    }
    if is_skipped(line) {
        return Ok(None);
    }
    let (name, rest) = cut_at(line, b' ');
    let name = name_of(name).ok_or(LineFault::Command)?;
    let command = parse_command(name, rest, version)?;
    Ok(Some(command))
}

/// Returns true if the line is empty or a comment.
pub(crate) fn is_skipped(line: &[u8]) -> bool
    ensures { result ≡ is_skipped line.now }
{
    matches!(line, [] | [b'#', ..])
}

/// Returns the command name that the field is, if it is one.
#[tactic(auto, using(crate::proofs::CommandWords::too_short))]
fn name_of(field: &[u8]) -> Option<Name>
    ensures { MatchOption result
        ((version : Version) → kinds_after version field.now ≡ None)
        (λ name. field.now ≡ name_text name) }
{
    match field {
        b"add" => Some(Name::Add),
        b"replace" => Some(Name::Replace),
        b"withdraw" => Some(Name::Withdraw),
        b"lookup" => Some(Name::Lookup),
        b"dump" => Some(Name::Dump),
        b"purge" => Some(Name::Purge),
        _ => None,
    }
}

/// Parses the fields that follow this name.
fn parse_command(name: Name, rest: Option<&[u8]>, version: Version) -> Result<Cmd, LineFault>
    ensures { MatchResult result
        (λ cmd. HasCommand version cmd × (name_text name ∷ fields_of_rest rest.entry ≡ words cmd))
        (λ answer. IsFaultOfFields version (name_text name ∷ fields_of_rest rest.entry) answer) }
{
    match name {
        Name::Add => {
            let (prefix, pref, hop) = parse_route(rest, version)?;
            Ok(Cmd::Add { prefix, pref, hop })
        }
        Name::Replace => {
            let (prefix, pref, hop) = parse_route(rest, version)?;
            Ok(Cmd::Replace { prefix, pref, hop })
        }
        Name::Withdraw => {
            let prefix = parse_prefix(only_field(rest)?)?;
            Ok(Cmd::Withdraw { prefix })
        }
        Name::Lookup => {
            let addr = parse_address(only_field(rest)?)?;
            Ok(Cmd::Lookup { addr })
        }
        Name::Dump => {
            no_field(rest)?;
            Ok(Cmd::Dump)
        }
        Name::Purge => match version {
            Version::One => Err(LineFault::Command),
            Version::Two => {
                no_field(rest)?;
                Ok(Cmd::Purge)
            }
        },
    }
}

/// Returns the first of the remaining fields, and the text after it and its space; E2 if no field remains.
#[tactic(auto, using(crate::proofs::CutBytes::fields_cut))]
fn next_field(rest: Option<&[u8]>) -> Result<(&[u8], Option<&[u8]>), LineFault>
    ensures { MatchResult result
        (λ cut. fields_of_rest rest.entry ≡ cut.0.now ∷ fields_of_rest cut.1)
        (λ answer. (fields_of_rest rest.entry ≡ []) × (answer ≡ LineFault.FieldCount)) }
{
    let text = rest.ok_or(LineFault::FieldCount)?;
    Ok(cut_at(text, b' '))
}

/// Returns the only remaining field; any other number of fields is E2.
fn only_field(rest: Option<&[u8]>) -> Result<&[u8], LineFault>
    ensures { MatchResult result
        (λ field. fields_of_rest rest.entry ≡ field.now ∷ [])
        (λ answer. (length (fields_of_rest rest.entry) ≢ 1) × (answer ≡ LineFault.FieldCount)) }
{
    let (field, rest) = next_field(rest)?;
    no_field(rest)?;
    Ok(field)
}

/// Returns E2 if any field remains.
#[tactic(auto, using(crate::proofs::CutBytes::fields_nonempty))]
fn no_field(rest: Option<&[u8]>) -> Result<(), LineFault>
    ensures { MatchResult result
        (λ none. fields_of_rest rest.entry ≡ [])
        (λ answer. (length (fields_of_rest rest.entry) ≢ 0) × (answer ≡ LineFault.FieldCount)) }
{
    match rest {
        None => Ok(()),
        Some(_) => Err(LineFault::FieldCount),
    }
}

/// Parses the fields of an `add` or a `replace`: a prefix, a preference and a next hop.
fn parse_route(rest: Option<&[u8]>, version: Version) -> Result<(Prefix, u32, Hop), LineFault>
    ensures { MatchResult result
        (λ route. (fields_of_rest rest.entry ≡ route_words route.0 route.1 route.2) × (route.1 < 2 ^ 32) × HasHop version route.2)
        (λ answer. IsFaultOfFields version (codes "add" ∷ fields_of_rest rest.entry) answer) }
{
    let (prefix, rest) = next_field(rest)?;
    let (pref, rest) = next_field(rest)?;
    let hop = only_field(rest)?;
    let prefix = parse_prefix(prefix)?;
    let pref = parse_preference(pref)?;
    let hop = parse_hop(hop, version)?;
    Ok((prefix, pref, hop))
}

/// Parses the field as a prefix.
fn parse_prefix(field: &[u8]) -> Result<Prefix, LineFault>
    ensures { MatchResult result
        (λ prefix. field.now ≡ prefix_text prefix.base prefix.len)
        (λ answer. IsFaulty Kind.prefix field.now answer) }
{
    laws::one_text();
    laws::written();
    laws::read_again();
    Prefix::parse(field).map_err(|reason| match reason {
        TextFault::Text => LineFault::Text,
        TextFault::Length => LineFault::PrefixLength,
        TextFault::Bits => LineFault::PrefixBits,
    })
}

/// Parses the field as a preference.
// If this and `parse_hop` aren't inlined, the line of a route takes 50 instructions more.
#[inline(always)]
fn parse_preference(field: &[u8]) -> Result<u32, LineFault>
    ensures { MatchResult result
        (λ pref. (pref < 2 ^ 32) × (field.now ≡ decimal pref))
        (λ answer. IsFaulty Kind.preference field.now answer) }
{
    laws::one_text();
    laws::written();
    decimal_u32(field).ok_or(LineFault::Preference)
}

/// Parses the field as a next hop: an address, or `discard` in version 2.
#[inline(always)]
fn parse_hop(field: &[u8], version: Version) -> Result<Hop, LineFault>
    ensures { MatchResult result
        (λ hop. HasHop version hop × (field.now ≡ hop_text hop))
        (λ answer. IsFaulty (Kind.hop version) field.now answer) }
{
    laws::one_text();
    laws::written();
    match (Addr::parse(field), version) {
        (Ok(address), _) => Ok(Hop::Via(address)),
        (Err(_), Version::Two) if field == DISCARD => Ok(Hop::Discard),
        _ => Err(LineFault::Hop),
    }
}

/// Parses the field as an address.
pub(crate) fn parse_address(field: &[u8]) -> Result<Addr, LineFault>
    ensures { MatchResult result
        (λ address. (address.0 < 2 ^ 32) × (field.now ≡ address_text address.0))
        (λ answer. IsFaulty Kind.address field.now answer) }
{
    laws::one_text();
    laws::written();
    Addr::parse(field).map_err(|_| LineFault::Text)
}
