//! Hints: what the bytes of an invalid line show about its fault, besides the fault's message.

use rt_feed::{LineFault, next_line};
use std::fmt;

/// The first bytes of a text in UTF-8 or UTF-16 that has a byte order mark.
const BYTE_ORDER_MARKS: [&[u8]; 3] = [b"\xef\xbb\xbf", b"\xfe\xff", b"\xff\xfe"];

/// The first bytes of a file that gzip has compressed (RFC 1952).
const GZIP_MAGIC: &[u8] = b"\x1f\x8b";

/// The name of each command, and the number of fields that it takes after its name.
const COMMANDS: [(&[u8], usize); 6] = [
    (b"add", 3),
    (b"replace", 3),
    (b"withdraw", 1),
    (b"lookup", 1),
    (b"dump", 0),
    (b"purge", 0),
];

/// The lines of a file: commands, or addresses.
#[derive(Clone, Copy)]
pub(super) enum FileKind {
    Feed,
    Addresses,
}

/// The probable reason for a fault, or what the line has instead.
#[derive(Clone, Copy)]
enum Hint {
    ByteOrderMark,
    Gzip,
    /// The field of the fault ends with a carriage return.
    CarriageReturn,
    /// The line ends with a carriage return.
    LineEnd,
    Ipv6,
    /// The number of fields that the command takes after its name, and the number that the line has.
    FieldCount { takes: usize, has: usize },
}

impl fmt::Display for Hint {
    fn fmt<W: fmt::Write>(&self, f: &mut fmt::Formatter<W>) -> fmt::Result {
        match self {
            Hint::ByteOrderMark => {
                f.write_str("the file begins with a byte order mark: save it without one")
            }
            Hint::Gzip => f.write_str("the file is compressed by gzip: decompress it first"),
            Hint::CarriageReturn => f.write_str("the CR of CRLF is part of it"),
            Hint::LineEnd => {
                f.write_str("the line ends with the CR of CRLF: end lines with LF only")
            }
            Hint::Ipv6 => f.write_str("IPv6 isn't supported"),
            Hint::FieldCount { takes, has } => write!(f, "{takes} after its name, not {has}"),
        }
    }
}

/// A fault with its message and, in parentheses, the hint if there is one.
#[derive(Clone, Copy)]
pub(super) struct Explained {
    fault: LineFault,
    hint: Option<Hint>,
}

impl fmt::Display for Explained {
    fn fmt<W: fmt::Write>(&self, f: &mut fmt::Formatter<W>) -> fmt::Result {
        match self.fault {
            // The library's messages of these two name the CR of CRLF whether there is one or not.
            LineFault::Text => f.write_str("E3: the field is no prefix or address")?,
            LineFault::Hop => f.write_str(
                "E7: the next hop is neither an address nor, in version 2, `discard`",
            )?,
            other => write!(f, "{other}")?,
        }
        match self.hint {
            Some(hint) => write!(f, " ({hint})"),
            None => Ok(()),
        }
    }
}

/// Returns the fault of the line of this number, from 1, with its hint.
pub(super) fn explain(fault: LineFault, kind: FileKind, text: &[u8], number: usize) -> Explained {
    let line = line_of(text, number);
    let hint = if number == 1 {
        hint_of_beginning(line).or(hint_of_line(fault, kind, line))
    } else {
        hint_of_line(fault, kind, line)
    };
    Explained { fault, hint }
}

/// Returns the line of this number, from 1; empty if there is none.
fn line_of(text: &[u8], number: usize) -> &[u8] {
    let mut rest = text;
    for _ in 1..number {
        let Some((_, next)) = next_line(rest) else {
            return &[];
        };
        rest = next;
    }
    match next_line(rest) {
        Some((line, _)) => line,
        None => &[],
    }
}

/// Returns what the first bytes of a file show.
fn hint_of_beginning(text: &[u8]) -> Option<Hint> {
    if text.starts_with(GZIP_MAGIC) {
        return Some(Hint::Gzip);
    }
    let marked = BYTE_ORDER_MARKS.iter().any(|mark| text.starts_with(mark));
    marked.then_some(Hint::ByteOrderMark)
}

/// Returns what the line's bytes show about its fault.
fn hint_of_line(fault: LineFault, kind: FileKind, line: &[u8]) -> Option<Hint> {
    match (fault, kind) {
        (LineFault::Command, _) if line.ends_with(b"\r") => Some(Hint::LineEnd),
        (LineFault::FieldCount, _) => field_counts(line),
        (LineFault::Text, FileKind::Addresses) => hint_of_field(line),
        (LineFault::Text, FileKind::Feed) => hint_of_field(field_of(line, 1)),
        (LineFault::Hop, _) => hint_of_field(field_of(line, 3)),
        _ => None,
    }
}

/// Returns the line's field at this index, empty if there is none.
fn field_of(line: &[u8], index: usize) -> &[u8] {
    line.split(|byte| *byte == b' ').nth(index).unwrap_or(&[])
}

/// Returns how many fields the line's command takes after its name, and how many there are.
fn field_counts(line: &[u8]) -> Option<Hint> {
    let name = field_of(line, 0);
    for (command, takes) in COMMANDS {
        if name == command {
            let has = count_of(line, b' ');
            return Some(Hint::FieldCount { takes, has });
        }
    }
    None
}

/// Returns how often the text has this byte.
fn count_of(text: &[u8], byte: u8) -> usize {
    text.iter().filter(|other| **other == byte).count()
}

/// Returns what a field shows that should be a prefix, an address or a next hop.
fn hint_of_field(field: &[u8]) -> Option<Hint> {
    if field.ends_with(b"\r") {
        Some(Hint::CarriageReturn)
    } else if is_ipv6(field) {
        Some(Hint::Ipv6)
    } else {
        None
    }
}

/// Returns true if the field looks like an IPv6 address or prefix: it has two colons, and nothing but what such a text has.
fn is_ipv6(field: &[u8]) -> bool {
    for byte in field {
        if !byte.is_ascii_hexdigit() && !matches!(byte, b':' | b'.' | b'/') {
            return false;
        }
    }
    count_of(field, b':') >= 2
}
