//! A writer that collects text and passes it on in few large writes.
ghost use Rattle.std.specs.Prelude.{◌≡◌, ℕ, ◌+◌, ◌<◌, ◌≤◌, List, [], ◌++◌, drop, length, IfOk, OnOk, OnErr};
ghost use Rattle.std.specs.Io.KnownBytes.{Keeps};
ghost use Rattle.rt_print.specs.Buffer.{buffered};
ghost use Rattle.rt_print.specs.declared.buffer.TheConstants.{OUTPUT_BYTES};

use rt_cidr::put_counted;
use std::alloc::{AllocError, Global};
use std::fmt;
use std::io::{self, Write};
use std::marker::Model;
use std::snapshot::Snapshot;

/// The maximum number of bytes that an output buffer holds.
pub const OUTPUT_BYTES: usize = 65_536;

/// The memory of an output buffer. Contracts see the bytes that it holds.
#[derive(Debug, Drop)]
pub struct OutputRoom {
    bytes: Vec<u8>,
}

impl Model for OutputRoom {
    ghost use Rattle.std.specs.Prelude.{ℕ, ◌≤◌, List, vec_len, vec_capacity};
    ghost use Rattle.rt_print.specs.declared.buffer.TheConstants.{OUTPUT_BYTES};

    ghost Value = { List ℕ };

    ghost view = { λ room. room.bytes.items };

    ghost invariant = { λ room.
        (vec_len room.bytes ≤ OUTPUT_BYTES) × (OUTPUT_BYTES ≤ vec_capacity room.bytes) };
}

impl OutputRoom {
    /// Returns empty room. Fails only if memory runs out.
    pub fn new(alloc: Global) -> Result<OutputRoom, AllocError>
        ensures { IfOk result (λ room. room ≡ []) }
    {
        let bytes = Vec::with_capacity(alloc, OUTPUT_BYTES)?;
        Ok(OutputRoom { bytes })
    }

    /// Returns the number of allocated bytes.
    pub fn capacity(&self) -> usize
        ensures { OUTPUT_BYTES ≤ result }
    {
        self.bytes.capacity()
    }

    /// Removes the first `count` bytes.
    fn remove_front(&mut self, count: usize)
        requires { count ≤ length self.old }
        ensures { self.new ≡ drop count self.old }
    {
        let rest = self.bytes.len() - count;
        self.bytes.as_mut_slice().copy_within(count.., 0);
        self.bytes.truncate(rest);
    }
}

/// Collects text for a writer, so that it is passed on in few large writes. An output buffer is a writer itself, and
/// doesn't allocate. After an error it keeps the bytes that weren't written, so that the writer below has received an
/// initial part of what the buffer was given. Dropping a buffer discards what it holds: call `flush` first.
///
/// If the writer's contents are known, the buffer's are known too: the writer's contents followed by the bytes held. In
/// front of them are two numbers that identify the buffer after a call that writes to any writer (`buffered`).
#[derive(Drop)]
pub struct OutputBuffer<'w, W> {
    writer: &'w mut W,
    held: OutputRoom,
    /// The writer at the time when the buffer was made. Zero-sized; only contracts read it.
    began: Snapshot<W>,
}

impl<'w, W: Write> OutputBuffer<'w, W> {
    /// Returns a buffer over the writer, which holds what the room holds.
    pub fn new(writer: &'w mut W, room: OutputRoom) -> OutputBuffer<'w, W>
        ensures over { (result.writer.ghost_name ≡ writer.entry.ghost_name) × (result.writer.now ≡ writer.entry.now) }
        ensures held { result.held ≡ room }
        ensures began { result.began.value ≡ writer.entry.now }
    {
        let began = Snapshot::of(writer);
        OutputBuffer {
            writer,
            held: room,
            began,
        }
    }

    /// Returns the writer. Bytes still held are discarded.
    pub fn into_writer(self) -> &'w mut W
        ensures { (result.ghost_name ≡ self.entry.writer.ghost_name) × (result.now ≡ self.entry.writer.now) }
    {
        let OutputBuffer {
            writer,
            held: _,
            began: _,
        } = self;
        writer
    }
}

/// Shows the number of bytes held, but neither these bytes nor the writer.
impl<'w, W> fmt::Debug for OutputBuffer<'w, W> {
    fn fmt<F: fmt::Write>(&self, f: &mut fmt::Formatter<F>) -> fmt::Result {
        f.debug_struct("OutputBuffer")
            .field("held", &self.held.bytes.len())
            .finish_non_exhaustive()
    }
}

impl<'w, W: Write> Write for OutputBuffer<'w, W> {
    ghost contents = { λ b. buffered b.writer.ghost_name (W.contents b.began.value) (W.contents b.writer.now) b.held };

    /// Accepts all of the text if there is room for it, if necessary after writing the bytes held. If the text is
    /// longer than the whole buffer, accepts what a single `write` of the writer below accepts.
    fn write(&mut self, text: &[u8]) -> io::Result<usize> {
        if OUTPUT_BYTES - self.held.bytes.len() < text.len() {
            self.flush()?;
            if OUTPUT_BYTES < text.len() {
                return self.writer.write(text);
            }
        }
        let Ok(()) = self.held.bytes.extend_from_slice(text) else {
            unreachable!()
        };
        Ok(text.len())
    }

    /// Writes the bytes held, without flushing the writer below. After an error, the bytes that weren't written (at
    /// least one) are still held.
    fn flush(&mut self) -> io::Result<()>
        ensures bytes { Keeps
            (buffered self.old.writer.ghost_name (W.contents self.old.began.value) (W.contents self.old.writer.now) self.old.held)
            (buffered self.new.writer.ghost_name (W.contents self.new.began.value) (W.contents self.new.writer.now) self.new.held) }
        ensures ok { OnOk result (self.new.held ≡ []) }
        ensures err { OnErr result (0 < length self.new.held) }
    {
        let (written, outcome) = put_counted(self.writer, self.held.bytes.as_slice());
        self.held.remove_front(written);
        outcome
    }
}
