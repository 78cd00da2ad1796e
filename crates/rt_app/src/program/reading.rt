//! Reading files: one when it is needed, or several ahead on threads.

use super::threads::threads_to_read;
use rt_run::is_left_out;
use std::alloc::Global;
use std::cmp::Reverse;
use std::fs::{self, File};
use std::io::{self, Read};
use std::rt::Files;
use std::sync::Wait;
use std::thread::{self, Threads};
use terminal_line::{ProgressLine, Stage};

/// Reads files. Unlike `Files` it has no associated type, so that the prover accepts a reader that threads share.
pub(crate) trait FileReader {
    /// Returns the number of bytes in the file of this name if it is a regular file.
    fn regular_len(&self, name: &str) -> Option<u64>;

    /// Returns the contents of the file of this name. Memory for this number of bytes is requested at once.
    fn contents(&self, name: &str, bytes: u64) -> io::Result<Vec<u8>>;
}

impl<R: Files + AllocGlobal> FileReader for R {
    fn regular_len(&self, name: &str) -> Option<u64> {
        match fs::metadata(self, name) {
            Ok(found) if found.is_file() => Some(found.len()),
            _ => None,
        }
    }

    fn contents(&self, name: &str, bytes: u64) -> io::Result<Vec<u8>> {
        let mut file = File::open(self, name)?;
        let mut text = Vec::new(self.alloc());
        if let Ok(length) = usize::try_from(bytes)
            && length > 0
        {
            // The last read, which finds the end, needs room too.
            text.reserve_exact(length.saturating_add(1))?;
        }
        file.read_to_end(&mut text)?;
        Ok(text)
    }
}

/// The names of the feed files of a run or of a side of a comparison, and the numbers that decide which of their feeds are left
/// out.
#[derive(Clone, Copy)]
pub(super) struct FeedSide<'s, 'w> {
    pub(super) names: &'w [&'w str],
    pub(super) only: &'s [u32],
    pub(super) without: &'s [u32],
}

/// The texts of files that were read ahead, each in its file's place on the command line.
#[derive(Drop)]
pub(super) struct TextsAhead {
    texts: Vec<Option<Vec<u8>>>,
    taken: usize,
}

impl TextsAhead {
    /// Returns the text of the next file, if it was read ahead.
    pub(super) fn take_next(&mut self) -> Option<Vec<u8>> {
        let place = self.taken;
        self.taken = place.saturating_add(1);
        self.texts.get_mut(place)?.take()
    }
}

/// Reads the feed files of these sides on several threads if that pays, and returns their texts. Only files are read that can
/// be read in any order: regular files, up to the first file that isn't regular. If one of them can't be read, or memory runs
/// out, returns no text. Then all files are read when they are needed, and the first that can't be read is reported.
pub(super) fn read_ahead<'w, R: FileReader + Threads + Wait + Sync>(
    rt: &R,
    alloc: Global,
    line: &ProgressLine,
    sides: &[FeedSide<'_, 'w>],
) -> TextsAhead {
    let texts = match texts_ahead(rt, alloc, line, sides) {
        Some(texts) => texts,
        None => Vec::new(alloc),
    };
    TextsAhead { texts, taken: 0 }
}

/// Returns the texts of the files that `read_ahead` reads, each in its file's place, or `None` if one of them can't be read or
/// memory runs out.
fn texts_ahead<'w, R: FileReader + Threads + Wait + Sync>(
    rt: &R,
    alloc: Global,
    line: &ProgressLine,
    sides: &[FeedSide<'_, 'w>],
) -> Option<Vec<Option<Vec<u8>>>> {
    let count = file_count(sides);
    if count < 2 {
        return None;
    }
    let files = files_ahead(rt, alloc, sides)?;
    let threads = threads_to_read(rt, files.len(), bytes_of(files.as_slice()));
    if threads < 2 {
        return None;
    }
    line.set(rt, Stage::Reading(0, count));
    let parts = parts_of(alloc, files.as_slice(), threads)?;
    in_their_places(alloc, count, read_parts(rt, alloc, line, parts)?)
}

/// Returns the number of files of these sides.
fn file_count(sides: &[FeedSide<'_, '_>]) -> usize {
    let mut count = 0usize;
    for side in sides {
        count = count.saturating_add(side.names.len());
    }
    count
}

/// A file that is read ahead: its place among the files of the command line, its name, and its length.
#[derive(Clone, Copy)]
struct FileAhead<'w> {
    place: usize,
    name: &'w str,
    bytes: u64,
}

/// Returns the total length of the files.
fn bytes_of(files: &[FileAhead<'_>]) -> u64 {
    let mut bytes = 0u64;
    for file in files {
        bytes = bytes.saturating_add(file.bytes);
    }
    bytes
}

/// Returns the files of these sides that are read ahead, the longest first, or `None` if memory runs out.
fn files_ahead<'w, R: FileReader>(
    rt: &R,
    alloc: Global,
    sides: &[FeedSide<'_, 'w>],
) -> Option<Vec<FileAhead<'w>>> {
    let mut files = Vec::new(alloc);
    let mut place = 0usize;
    for side in sides {
        if !add_regular(rt, *side, place, &mut files)? {
            break;
        }
        place = place.saturating_add(side.names.len());
    }
    files.sort_by_key(|file| Reverse(file.bytes)).ok()?;
    Some(files)
}

/// Adds the files of this side that are read ahead; its first file is in this place. Returns false if it came to a file that
/// isn't regular, or `None` if memory runs out. A file of length 0 isn't read ahead: the system may generate its contents.
fn add_regular<'w, R: FileReader>(
    rt: &R,
    side: FeedSide<'_, 'w>,
    place: usize,
    files: &mut Vec<FileAhead<'w>>,
) -> Option<bool> {
    for (index, name) in side.names.iter().enumerate() {
        let feed = u32::try_from(index).unwrap_or(u32::MAX).saturating_add(1);
        if is_left_out(side.only, side.without, feed) {
            continue;
        }
        let Some(bytes) = rt.regular_len(name) else {
            return Some(false);
        };
        if bytes > 0 {
            let place = place.saturating_add(index);
            files.push(FileAhead { place, name, bytes }).ok()?;
        }
    }
    Some(true)
}

/// The files that one thread reads, and their total length.
#[derive(Drop)]
struct Part<'w> {
    files: Vec<FileAhead<'w>>,
    bytes: u64,
}

/// Returns this number of parts of about the same length: each file, in order, is added to the part that has the fewest bytes so
/// far. Returns `None` if memory runs out.
fn parts_of<'w>(alloc: Global, files: &[FileAhead<'w>], count: usize) -> Option<Vec<Part<'w>>> {
    let mut parts = Vec::new(alloc);
    for _ in 0..count {
        let files = Vec::new(alloc);
        parts.push(Part { files, bytes: 0 }).ok()?;
    }
    for file in files {
        let part = parts.iter_mut().min_by_key(|part| part.bytes)?;
        part.files.push(*file).ok()?;
        part.bytes = part.bytes.saturating_add(file.bytes);
    }
    Some(parts)
}

/// The texts of the files of a part, each with its file's place, or `None` if one couldn't be read or memory ran out.
type PartTexts = Option<Vec<(usize, Vec<u8>)>>;

/// Reads the files of each part, on a thread of its own if one can be created. Returns the texts of each part, or `None` if
/// memory runs out.
fn read_parts<'w, R: FileReader + Threads + Wait + Sync>(
    rt: &R,
    alloc: Global,
    line: &ProgressLine,
    parts: Vec<Part<'w>>,
) -> Option<Vec<PartTexts>> {
    thread::map_vec(
        rt,
        parts,
        &|part: Part<'_>| -> PartTexts { read_part(rt, alloc, line, part) },
    )
    .ok()
}

/// Reads the files of the part, one after another. The line counts them.
fn read_part<R: FileReader + Wait>(
    rt: &R,
    alloc: Global,
    line: &ProgressLine,
    part: Part<'_>,
) -> PartTexts {
    let mut texts = Vec::with_capacity(alloc, part.files.len()).ok()?;
    for file in part.files {
        let text = rt.contents(file.name, file.bytes).ok()?;
        texts.push((file.place, text)).ok()?;
        line.add_read(rt);
    }
    Some(texts)
}

/// Returns the texts of the parts, each in its file's place among `count` files, or `None` if a part has no texts or memory runs
/// out.
fn in_their_places(
    alloc: Global,
    count: usize,
    parts: Vec<PartTexts>,
) -> Option<Vec<Option<Vec<u8>>>> {
    let mut texts = Vec::new(alloc);
    for _ in 0..count {
        texts.push(None).ok()?;
    }
    for part in parts {
        put_texts(&mut texts, part?);
    }
    Some(texts)
}

/// Puts each text of a part in its file's place.
fn put_texts(texts: &mut [Option<Vec<u8>>], part: Vec<(usize, Vec<u8>)>) {
    for (place, text) in part {
        if let Some(slot) = texts.get_mut(place) {
            *slot = Some(text);
        }
    }
}
