//! A text as lines: LF ends a line, and the last LF is optional.
ghost use Rattle.std.specs.Prelude.{◌≡◌, [], MatchOption};
ghost use Rattle.rt_feed.specs.inside.Fields.{CutsAt};
ghost use Rattle.rt_feed.specs.Lines.{CutsLine};

use memchr::memchr;

/// Returns the text's first line, without its LF, and the rest of the text, or `None` if the text is empty. A carriage
/// return is a byte of the line like any other. Doesn't allocate.
pub fn next_line(text: &[u8]) -> Option<(&[u8], &[u8])>
    ensures { MatchOption result (text.now ≡ []) (λ cut. CutsLine text.now cut.0.now cut.1.now) }
{
    if text.is_empty() {
        return None;
    }
    match cut_at(text, b'\n') {
        (line, Some(rest)) => Some((line, rest)),
        (line, None) => Some((line, &[])),
    }
}

/// Returns the text before the first such byte, and the text after it if the byte occurs.
pub(crate) fn cut_at(text: &[u8], mark: u8) -> (&[u8], Option<&[u8]>)
    ensures { CutsAt mark text.now result.0.now result.1 }
{
    match memchr(mark, text) {
        Some(at) => (&text[..at], Some(&text[at + 1..])),
        None => (text, None),
    }
}
