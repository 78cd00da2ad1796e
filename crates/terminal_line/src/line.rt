//! The line, and its text.

use itoa::Buffer;
use rt_cidr::put;
use std::fmt;
use std::io::{self, Write};
use std::sync::{Mutex, Wait};
use std::thread::Parker;
use std::time::Duration;

/// Erases the line: each of its texts is shorter.
const BLANK: &[u8] = b"\r                                \r";

/// The progress of a run.
#[derive(Clone, Copy, Debug)]
pub enum Stage {
    /// The number of files that were read, and of all files.
    Reading(usize, usize),
    /// The number of feeds that run.
    Running(usize),
    /// The output is being written.
    Writing,
}

impl Stage {
    fn tell<E: Write>(self, err: &mut E) -> Result<(), io::Error> {
        match self {
            Stage::Reading(read, files) => {
                put_count(err, b"yarib: files read: ", read)?;
                put_count(err, b" of ", files)
            }
            Stage::Running(feeds) => put_count(err, b"yarib: feeds running: ", feeds),
            Stage::Writing => put(err, b"yarib: writing"),
        }
    }
}

fn put_count<E: Write>(err: &mut E, what: &[u8], count: usize) -> Result<(), io::Error> {
    put(err, what)?;
    put(err, Buffer::new().format(count).as_bytes())
}

/// The line's text, if any, whether it is on the terminal, and whether it has ended. Errors of the terminal
/// are dropped.
#[derive(Drop)]
struct LineState {
    stage: Option<Stage>,
    is_shown: bool,
    has_ended: bool,
}

impl LineState {
    fn set(&mut self, stage: Stage) {
        self.stage = Some(stage);
    }

    fn add_read(&mut self) {
        if let Some(Stage::Reading(read, files)) = self.stage {
            self.set(Stage::Reading(read.saturating_add(1), files));
        }
    }

    /// Writes the line over its previous text; returns false if it has ended.
    fn write<E: Write>(&mut self, err: &mut E) -> bool {
        if self.has_ended {
            return false;
        }
        self.erase(err);
        if let Some(stage) = self.stage {
            let _ = stage.tell(err);
            self.is_shown = true;
        }
        true
    }

    /// Erases the line, which isn't written again.
    fn end<E: Write>(&mut self, err: &mut E) {
        self.erase(err);
        self.has_ended = true;
    }

    fn erase<E: Write>(&mut self, err: &mut E) {
        if self.is_shown {
            let _ = put(err, BLANK);
            self.is_shown = false;
        }
    }
}

/// The line, which the run changes and another thread writes.
#[derive(Drop)]
pub struct ProgressLine {
    /// True if standard output goes to a terminal, too.
    pub(crate) beside_output: bool,
    now: Mutex<LineState>,
    ended: Parker,
}

/// Shows whether standard output goes to a terminal, too, but not the line's text, which another thread may write now.
impl fmt::Debug for ProgressLine {
    fn fmt<W: fmt::Write>(&self, f: &mut fmt::Formatter<W>) -> fmt::Result {
        f.debug_struct("ProgressLine")
            .field("beside_output", &self.beside_output)
            .finish_non_exhaustive()
    }
}

impl ProgressLine {
    /// Returns a line without a text. `beside_output` is true if standard output goes to a terminal, too.
    pub fn new(beside_output: bool) -> ProgressLine {
        ProgressLine {
            beside_output,
            now: Mutex::new(LineState {
                stage: None,
                is_shown: false,
                has_ended: false,
            }),
            ended: Parker::new(),
        }
    }

    /// Writes the line each second, until it has ended.
    pub fn keep<R: Wait, T: Print>(&self, rt: &R, terminal: &T) {
        for _ in rt.forever() {
            self.ended.park_timeout(rt, Duration::from_secs(1));
            if !self.now.lock(rt).write(&mut io::writer(terminal)) {
                return;
            }
        }
    }

    /// Sets the line's text.
    pub fn set<R: Wait>(&self, rt: &R, stage: Stage) {
        self.now.lock(rt).set(stage);
    }

    /// Has the line count one more file, if it says how many files are read.
    pub fn add_read<R: Wait>(&self, rt: &R) {
        self.now.lock(rt).add_read();
    }

    /// Erases the line, which isn't written again.
    pub(crate) fn end<R: Wait, E: Write>(&self, rt: &R, err: &mut E) {
        self.now.lock(rt).end(err);
        self.ended.unpark();
    }
}
