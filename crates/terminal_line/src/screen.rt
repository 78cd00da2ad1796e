//! Both outputs of a run, together with the line.

use crate::line::{ProgressLine, Stage};
use std::fmt;
use std::io::{self, Write};
use std::sync::Wait;

/// Standard error, and the line that may be on it.
#[derive(Drop)]
pub struct Screen<'a, R, E> {
    rt: &'a R,
    line: &'a ProgressLine,
    err: &'a mut E,
}

/// Shows the line, and not the writer.
impl<'a, R, E> fmt::Debug for Screen<'a, R, E> {
    fn fmt<W: fmt::Write>(&self, f: &mut fmt::Formatter<W>) -> fmt::Result {
        f.debug_struct("Screen")
            .field("line", self.line)
            .finish_non_exhaustive()
    }
}

impl<'a, R, E> Screen<'a, R, E> {
    /// Returns standard error, with a line that another thread may write there.
    pub fn new(rt: &'a R, line: &'a ProgressLine, err: &'a mut E) -> Screen<'a, R, E> {
        Screen { rt, line, err }
    }

    /// Returns the line, whose text other threads may set.
    pub fn line(&self) -> &'a ProgressLine {
        self.line
    }
}

impl<'a, R: Wait, E: Write> Screen<'a, R, E> {
    /// Sets the text of the line.
    pub fn set(&mut self, stage: Stage) {
        self.line.set(self.rt, stage);
    }

    /// Erases the line, which isn't written again.
    pub fn end(&mut self) {
        self.line.end(self.rt, self.err);
    }

    /// Returns standard output, for the output of `feeds` feeds; from now on the line says that these run.
    pub fn beside<'s, O: Write>(
        &'s mut self,
        feeds: usize,
        out: &'s mut O,
    ) -> ScreenOutput<'a, 's, R, O, E> {
        self.set(Stage::Running(feeds));
        ScreenOutput {
            out,
            screen: self,
            has_begun: false,
        }
    }
}

impl<R: Wait, E: Write> Write for Screen<'_, R, E> {
    fn write(&mut self, bytes: &[u8]) -> io::Result<usize> {
        self.end();
        self.err.write(bytes)
    }

    fn flush(&mut self) -> io::Result<()> {
        self.err.flush()
    }
}

/// Standard output together with the line. Its first bytes end the line if both go to a terminal, or else change
/// its text.
#[derive(Drop)]
pub struct ScreenOutput<'a, 's, R, O, E> {
    out: &'s mut O,
    screen: &'s mut Screen<'a, R, E>,
    has_begun: bool,
}

/// Shows the line and whether the output has begun, and neither writer.
impl<'a, 's, R, O, E> fmt::Debug for ScreenOutput<'a, 's, R, O, E> {
    fn fmt<W: fmt::Write>(&self, f: &mut fmt::Formatter<W>) -> fmt::Result {
        f.debug_struct("ScreenOutput")
            .field("screen", &*self.screen)
            .field("has_begun", &self.has_begun)
            .finish_non_exhaustive()
    }
}

impl<R: Wait, O: Write, E: Write> ScreenOutput<'_, '_, R, O, E> {
    fn begin(&mut self) {
        if self.screen.line.beside_output {
            self.screen.end();
        } else {
            self.screen.set(Stage::Writing);
        }
        self.has_begun = true;
    }
}

impl<R: Wait, O: Write, E: Write> Write for ScreenOutput<'_, '_, R, O, E> {
    fn write(&mut self, bytes: &[u8]) -> io::Result<usize> {
        if !self.has_begun {
            self.begin();
        }
        self.out.write(bytes)
    }

    fn flush(&mut self) -> io::Result<()> {
        self.out.flush()
    }
}
