//! Writing text to a writer.
ghost use Rattle.std.specs.Prelude.{◌≡◌, ◌<◌, length, take, drop, OnOk, OnErr, IfErr};
ghost use Rattle.std.specs.Io.KnownBytes.{Appends};
ghost use Rattle.rt_cidr.specs.Output.{WritesText, IsFaultOf};

use std::io::{self, ErrorKind, Write};

/// A writer of which contracts see what each call may return. Each [`Write`] is a sink, of which they see what a `Write`
/// promises: no clause of std says which error `write` returns.
pub trait Sink {
    ghost use Rattle.std.specs.Prelude.{ℕ, List, Option, Result};
    ghost use Rattle.std.specs.declared.io.Error.{Error};
    ghost use Rattle.std.specs.Io.{WritesAtMost};
    ghost use Rattle.std.specs.Io.KnownBytes.{WriteAppends};

    // The bytes that the writer holds, if they are known.
    ghost contents: { Self → Option (List ℕ) };

    // A call may return this: the writer before it, the bytes that it is given, its result, and the writer after it.
    ghost may_return: { Self → List ℕ → Result ℕ Error → Self → Type 0 };

    /// Writes an initial part of the bytes, as `Write::write` does.
    fn write_some(&mut self, bytes: &[u8]) -> Result<usize, io::Error>
        ensures bound { WritesAtMost result bytes.now }
        ensures bytes { WriteAppends (contents self.old) (contents self.new) result bytes.now }
        ensures returned { may_return self.old bytes.now result self.new };
}

/// Nothing is known of which error `write` returns.
impl<W: Write> Sink for W {
    ghost contents = { W.Write.contents };

    ghost may_return = { λ _ _ _ _. Unit {0} };

    fn write_some(&mut self, bytes: &[u8]) -> Result<usize, io::Error> {
        self.write(bytes)
    }
}

/// Writes all the bytes, with as many calls of `write` as the writer needs. Doesn't flush the writer. Doesn't allocate.
///
/// Returns the writer's first error at once, whatever its kind, even `Interrupted`; a `write` that accepts none of the
/// remaining bytes gives `WriteZero`. After an error only an initial part of the bytes was written, never all of them;
/// so writing no bytes never fails. Which error it is, the clause `fault` of [`put_counted`] says.
pub fn put<W: Write>(w: &mut W, bytes: &[u8]) -> Result<(), io::Error>
    ensures { WritesText (W.contents w.old) (W.contents w.new) bytes.now result }
{
    put_counted(w, bytes).1
}

/// Does the same as `put` for any sink, and also returns the number of bytes written. The error is the one that the last
/// call returned for the bytes after these, or `WriteZero` if that call accepted none of them.
pub fn put_counted<S: Sink>(w: &mut S, bytes: &[u8]) -> (usize, Result<(), io::Error>)
    ensures all { OnOk result.1 (result.0 ≡ length bytes.now) }
    ensures less { OnErr result.1 (result.0 < length bytes.now) }
    ensures appended { Appends (S.contents w.old) (S.contents w.new) (take result.0 bytes.now) }
    ensures fault { IfErr result.1 (IsFaultOf S.may_return (drop result.0 bytes.now) w.new) }
{
    let mut done = 0;
    while done < bytes.len() {
        let taken = match w.write_some(&bytes[done..]) {
            Ok(taken) => taken,
            Err(fault) => return (done, Err(fault)),
        };
        if taken == 0 {
            return (done, Err(io::Error::from(ErrorKind::WriteZero)));
        }
        done += taken;
    }
    (done, Ok(()))
}
