//! Dealing the texts of a run to shares of about the same length.
ghost use Rattle.std.specs.Prelude.{◌≡◌, ◌<◌, ◌≤◌, length, All, IfOk};

use crate::input::RunInput;
use rt_cidr::Addr;
use rt_feed::{next_line, parse_line, text_body};
use std::alloc::{AllocError, Global};
use std::cmp::Reverse;

/// Dealing by addresses may make the longest share longer by one of this many parts of it.
const TOLERATED_SHARE: usize = 16;

/// The number of lines in which the first command of a text is looked for.
const FIRST_LINES: usize = 64;

/// Returns the number of texts that aren't empty. A text of a feed that is left out is empty.
pub(crate) fn used_texts(input: &RunInput) -> usize
    ensures { result ≤ length input.now.texts }
{
    let mut used = 0;
    for index in 0..input.count() {
        if !input.text(index).is_empty() {
            used += 1;
        }
    }
    used
}

/// Returns the share of each text, in order. Texts that begin with near addresses are dealt to the same share, whose table then
/// has few prefixes that tables of other shares have too, unless this makes the longest share much longer than dealing by
/// length does. Its error: memory ran out.
pub(crate) fn deal(alloc: Global, input: &RunInput, shares: usize) -> Result<Vec<usize>, AllocError>
    requires { 1 ≤ shares }
    ensures { IfOk result (λ dealt. All (λ share. share < shares) dealt.items) }
{
    let (by_length, least) = deal_by_length(alloc, input, shares)?;
    let (by_address, most) = deal_by_address(alloc, input, shares)?;
    if most <= least.saturating_add(least / TOLERATED_SHARE) {
        Ok(by_address)
    } else {
        Ok(by_length)
    }
}

/// Returns the share of each text, in order, and the bytes of the longest share: the longest text first, each text for the
/// share that has the fewest bytes so far. Its error: memory ran out.
fn deal_by_length(
    alloc: Global,
    input: &RunInput,
    shares: usize,
) -> Result<(Vec<usize>, usize), AllocError>
    requires { 1 ≤ shares }
    ensures { IfOk result (λ dealt. All (λ share. share < shares) dealt.0.items) }
{
    let mut dealt = vec![in alloc; 0; input.count()]?;
    let mut lengths = vec![in alloc; 0; shares]?;
    for index in longest_first(alloc, input)? {
        let share = shortest(&lengths);
        lengths[share] = input.text(index).len().saturating_add(lengths[share]);
        dealt[index] = share;
    }
    Ok((dealt, longest(&lengths)))
}

/// Returns the share of each text, in order, and the bytes of the longest share: the texts in the order of the addresses with
/// which they begin, each for the share in which its middle falls if all texts are divided into equal shares. Its error: memory
/// ran out.
fn deal_by_address(
    alloc: Global,
    input: &RunInput,
    shares: usize,
) -> Result<(Vec<usize>, usize), AllocError>
    requires { 1 ≤ shares }
    ensures { IfOk result (λ dealt. All (λ share. share < shares) dealt.0.items) }
{
    let mut dealt = vec![in alloc; 0; input.count()]?;
    let mut lengths = vec![in alloc; 0; shares]?;
    let equal_share = (bytes_of(input) / shares).saturating_add(1);
    let mut before = 0usize;
    for index in lowest_first(alloc, input)? {
        let bytes = input.text(index).len();
        let share = (before.saturating_add(bytes / 2) / equal_share).min(shares - 1);
        lengths[share] = bytes.saturating_add(lengths[share]);
        dealt[index] = share;
        before = before.saturating_add(bytes);
    }
    Ok((dealt, longest(&lengths)))
}

/// Returns the number of bytes of the texts.
pub(crate) fn bytes_of(input: &RunInput) -> usize {
    let mut bytes = 0usize;
    for text in input.texts() {
        bytes = bytes.saturating_add(text.len());
    }
    bytes
}

/// Returns the places of the texts, those that begin with the lowest addresses first. Its error: memory ran out.
fn lowest_first(alloc: Global, input: &RunInput) -> Result<Vec<usize>, AllocError>
    ensures { IfOk result (λ places. All (λ index. index < length input.now.texts) places.items) }
{
    let mut places = all_places(alloc, input)?;
    places.sort_by_key(|&index| first_address(input.text(index)))?;
    Ok(places)
}

/// Returns the lowest address of the first command of the text, if it is among the first lines, and otherwise the lowest of all.
fn first_address(text: &[u8]) -> Addr {
    let (version, lines) = text_body(text);
    let mut rest = lines;
    for _ in 0..FIRST_LINES {
        let Some((line, next)) = next_line(rest) else {
            break;
        };
        if let Some(cmd) = parse_line(line, version).unwrap_or(None) {
            return cmd.lowest_address();
        }
        rest = next;
    }
    Addr(0)
}

/// Returns the places of the texts, the longest text first. Its error: memory ran out.
fn longest_first(alloc: Global, input: &RunInput) -> Result<Vec<usize>, AllocError>
    ensures { IfOk result (λ places. All (λ index. index < length input.now.texts) places.items) }
{
    let mut places = all_places(alloc, input)?;
    places.sort_by_key(|&index| Reverse(input.text(index).len()))?;
    Ok(places)
}

/// Returns the places of the texts, in order. Its error: memory ran out.
fn all_places(alloc: Global, input: &RunInput) -> Result<Vec<usize>, AllocError>
    ensures { IfOk result (λ places. All (λ index. index < length input.now.texts) places.items) }
{
    let mut places = Vec::with_capacity(alloc, input.count())?;
    for index in 0..input.count() {
        places.push_reserved(index);
    }
    Ok(places)
}

/// Returns the place of the least of these lengths, the first of several.
fn shortest(lengths: &[usize]) -> usize
    requires { 1 ≤ length lengths.now }
    ensures { result < length lengths.now }
{
    let mut place = 0;
    for other in 1..lengths.len() {
        if lengths[other] < lengths[place] {
            place = other;
        }
    }
    place
}

/// Returns the greatest of these lengths, or 0 if there are none.
fn longest(lengths: &[usize]) -> usize {
    lengths.iter().copied().max().unwrap_or(0)
}
