//! The program `yarib`: it executes feed files and prints replies and the sorted table, the result of a query, or the
//! differences between two tables. It also prints the steps of the lock for a schedule.
//!
//! [`run_words`] is the program over its arguments. It parses them with `command_line`, reads the files, calls `rt_run`, and
//! turns each result into an exit status and messages on standard error. All of this is only tested. The output for the
//! files' bytes, and for a replay, is proved in `rt_run`. If standard error is a terminal, `main` also starts a thread that
//! reports the progress of a run there ([`ProgressLine`]).
#![tactic(auto)]

mod arguments;
mod program;

use arguments::read_arguments;
use program::{FileReader, Program, ProgramError, run_words};
pub use rt_run::{AppFault, replay_text, run_texts};
use std::io::{self, IsTerminal, Write};
use std::process::ExitCode;
use std::sync::Wait;
use std::thread::{self, Threads};
use terminal_line::ProgressLine;

fn main(rt: HostRuntime) -> ExitCode {
    let alloc = rt.alloc();
    let (stdout, stderr) = (rt.stdout(), rt.stderr());
    let (mut out, mut err) = (io::writer(&stdout), io::writer(&stderr));
    let words = match read_arguments(&rt, alloc) {
        Ok(words) => words,
        Err(fault) => {
            let error = ProgramError::of_system(&fault, ProgramError::NotUtf8);
            return ExitCode::from(error.end(&mut err));
        }
    };
    let words = words.as_slice();
    if !stderr.is_terminal() {
        return ExitCode::from(run_words(&rt, alloc, words, &mut out, &mut err));
    }
    let line = ProgressLine::new(stdout.is_terminal());
    let status = run_on_terminal(&rt, words, &line, &stderr, &mut out, &mut err);
    ExitCode::from(status)
}

/// Runs the program while a thread reports its progress on the terminal. If no thread can be created, nothing is reported.
fn run_on_terminal<R, T, O, E>(
    rt: &R,
    words: &[String],
    line: &ProgressLine,
    terminal: &T,
    out: &mut O,
    err: &mut E,
) -> u8
where
    R: FileReader + Threads + Wait + Sync + AllocGlobal,
    T: Print + Sync,
    O: Write,
    E: Write,
{
    thread::scope(thread::scope_env(), rt, |scope| {
        let _ = scope.spawn(move || line.keep(rt, terminal));
        Program::new(rt, rt.alloc(), line, out, err).run(words)
    })
}
