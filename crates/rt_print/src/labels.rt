//! The label of a feed: its number, its name, its members in JSON, or its fields in CSV. Feeds of two sets of files are paired by their names.
ghost use Rattle.std.specs.Prelude.{◌≡◌, ℕ, List, ◌≤◌, length, map, decimal, None, IfOk, IfSome};
ghost use Rattle.std.specs.List.{flat_map, enumerate_from};
ghost use Rattle.rt_cidr.specs.Output.{WritesText};
ghost use Rattle.rt_rib.specs.declared.limits.TheConstants.{MAX_FEEDS};
ghost use Rattle.rt_print.specs.Routes.{escaped};
ghost use Rattle.rt_print.specs.Styles.{label_of};
ghost use Rattle.rt_print.specs.inside.Parts.{label_pairs};
ghost use Rattle.rt_print.specs.Labels.{feed_name, index_of_name, label_by, labels_by, paired_number};

use crate::csv::CsvField;
use crate::format::Format;
use crate::text::Text;
use rt_cidr::put;
use std::alloc::{AllocError, Global};
use std::io::{self, Write};

/// The label of a feed, and the number that identifies the feed.
#[derive(Debug, Drop)]
pub(crate) struct FeedLabel {
    pub(crate) number: u32,
    pub(crate) text: Vec<u8>,
}

/// Returns the label of each feed of these paths, with the number that identifies the feed in relation to the first
/// paths; none if feeds are printed by their numbers. Fails only if memory runs out.
#[tactic(auto, unfolding(crate::specs::Labels::labels_by))]
pub(crate) fn labels_by(
    alloc: Global,
    format: Format,
    first: &[&str],
    paths: &[&str],
) -> Result<Vec<FeedLabel>, AllocError>
    requires few { (length first.now ≤ MAX_FEEDS) × (length paths.now ≤ MAX_FEEDS) }
    ensures { IfOk result (λ labels. label_pairs labels.items ≡ labels_by format (map (λ path. path.now) first.now) (map (λ path. path.now) paths.now)) }
{
    if let Format::Numbers = format {
        return Ok(Vec::new(alloc));
    }
    let mut labels = Vec::with_capacity(alloc, paths.len())?;
    for (index, path) in paths.iter().enumerate() {
        let feed = index as u32 + 1;
        let number = paired_number(first, feed, path.as_bytes());
        let mut text = Vec::new(alloc);
        put_label(&mut text, format, u64::from(feed), path.as_bytes()).map_err(|_| AllocError)?;
        labels.push_reserved(FeedLabel { number, text });
    }
    Ok(labels)
}

/// Returns the label of the feed with this number, if it has one of these.
pub(crate) fn label_in(labels: &[FeedLabel], feed: u32) -> Option<&[u8]>
    ensures some { IfSome result (λ label. label.now ≡ label_of (label_pairs labels.now) feed) }
    ensures none { result ≡ None → label_of (label_pairs labels.now) feed ≡ decimal feed }
{
    for label in labels {
        if label.number == feed {
            return Some(label.text.as_slice());
        }
    }
    None
}

/// Returns the numbers of the feeds of a second set of files in relation to a first set, whose k-th file is feed k. A
/// feed gets the number of the feed of the same name in the first set or, if none has this name, a number that no feed
/// has there. So feeds of the two sets with the same name have the same number. Fails only if memory runs out.
pub(crate) fn pair_feeds_by_name(
    alloc: Global,
    first: &[&str],
    second: &[&str],
) -> Result<Vec<u32>, AllocError>
    requires few { (length first.now ≤ MAX_FEEDS) × (length second.now ≤ MAX_FEEDS) }
    ensures { IfOk result (λ numbers. numbers.items ≡ map (λ feed. paired_number (map (λ path. path.now) first.now) feed.0 feed.1) (enumerate_from 1 (map (λ path. path.now) second.now))) }
{
    let mut numbers = Vec::with_capacity(alloc, second.len())?;
    for (index, path) in second.iter().enumerate() {
        let number = paired_number(first, index as u32 + 1, path.as_bytes());
        numbers.push_reserved(number);
    }
    Ok(numbers)
}

/// Returns the number of the feed of this number and path in relation to the files of these paths.
fn paired_number(paths: &[&str], feed: u32, path: &[u8]) -> u32
    requires few { (length paths.now ≤ MAX_FEEDS) × (feed ≤ MAX_FEEDS) }
    ensures { result ≡ paired_number (map (λ path. path.now) paths.now) feed path.now }
{
    match index_of_name(paths, feed_name(path)) {
        Some(index) => index as u32 + 1,
        None => paths.len() as u32 + feed,
    }
}

/// Returns the index of the first path whose feed has this name.
pub(crate) fn index_of_name(paths: &[&str], name: &[u8]) -> Option<usize>
    ensures { result ≡ index_of_name (map (λ path. path.now) paths.now) name.now }
{
    paths
        .iter()
        .position(|path| feed_name(path.as_bytes()) == name)
}

/// Returns the name of the feed that is read from the file of this path: the part after the last slash, without `.feed`
/// at its end. Any other ending stays.
#[tactic(auto, unfolding(crate::specs::Labels::feed_name))]
pub fn feed_name(path: &[u8]) -> &[u8]
    ensures { result.now ≡ feed_name path.now }
{
    let name = match path.iter().rposition(|byte| *byte == b'/') {
        Some(slash) => &path[slash + 1..],
        None => path,
    };
    name.strip_suffix(b".feed").unwrap_or(name)
}

/// Writes the label of the feed of this number and path.
#[tactic(auto, unfolding(crate::specs::Labels::label_by, crate::specs::Routes::json_string))]
fn put_label<W: Write>(w: &mut W, format: Format, feed: u64, path: &[u8]) -> io::Result<()>
    ensures { WritesText (W.contents w.old) (W.contents w.new) (label_by format feed path.now) result }
{
    let name = feed_name(path);
    let file = (",\"file\":\"", (Escaped(path), "\""));
    match format {
        Format::Numbers => feed.put_to(w),
        Format::Names => name.put_to(w),
        Format::Json => (feed, file).put_to(w),
        Format::JsonWithNames => {
            (feed, (",\"name\":\"", (Escaped(name), ("\"", file)))).put_to(w)
        }
        Format::Csv | Format::CsvWithNames => {
            let fields = (CsvField(name), (",", CsvField(path)));
            (feed, (",", fields)).put_to(w)
        }
    }
}

/// Bytes that are escaped for a JSON string.
#[derive(Clone, Copy)]
struct Escaped<'a>(&'a [u8]);

impl Text for Escaped<'_> {
    ghost text = { λ bytes. flat_map escaped bytes.0.now };

    fn put_to<W: Write>(&self, w: &mut W) -> io::Result<()> {
        for byte in self.0 {
            put_escaped(w, *byte)?;
        }
        Ok(())
    }
}

/// Writes this byte, escaped for a JSON string.
fn put_escaped<W: Write>(w: &mut W, byte: u8) -> io::Result<()>
    ensures { WritesText (W.contents w.old) (W.contents w.new) (escaped byte) result }
{
    match byte {
        b'"' | b'\\' => put(w, &[b'\\', byte]),
        0..32 => {
            let (high, low) = (b'0' + byte / 16, byte % 16);
            let low = if low < 10 {
                b'0' + low
            } else {
                b'a' + (low - 10)
            };
            put(w, &[b'\\', b'u', b'0', b'0', high, low])
        }
        _ => put(w, &[byte]),
    }
}
